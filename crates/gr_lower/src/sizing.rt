//! How many instructions statements have.
ghost use Rattle.std.specs.Prelude.{◌≡◌, ◌+◌, ◌++◌, ◌∷◌, [], ℕ, List, IfOk, OnOk};
ghost use Rattle.gr_tree.specs.Statements.{optional};
ghost use Rattle.gr_program.specs.Programs.{Cases};
ghost use Rattle.gr_program.specs.Views.{expr_of, prints_of, act_of, opening_of, stmt_of, stmts_of, case_on, cases_of};
ghost use Rattle.gr_rules.specs.Operands.{one, operand_of};
ghost use Rattle.gr_rules.specs.Points.{printed_operands, case_operands};
ghost use Rattle.gr_code.specs.Passing.{parts_in};
ghost use Rattle.gr_lower.specs.Sizes.{whole_size as spec_whole, returned, tested, act_size, opening_size, targets_size, size};
ghost use Rattle.gr_lower.specs.Sizes.{size_in, size_among};
ghost use Rattle.gr_lower.specs.Asked.{clause_sizes, asked, asked_in, asked_among};

use crate::parts::{count, count_all, sum};
use crate::sizes::Sizes;
use gr_base::NoMemory;
use gr_program::program::{Case, Opening, Printed};
use gr_program::{Act, Expr, Stmt};
use std::alloc::Global;

/// How many instructions use the value of an expression: those of its parts, and one.
pub fn size_of_use(value: &Expr) -> Result<usize, NoMemory>
    ensures { IfOk result (λ n. n ≡ parts_in (one (operand_of (expr_of value.now))) + 1) }
{
    sum(count(value)?, 1)
}

/// A call or a receive is over with its last part.
fn whole_size(value: &Expr) -> Result<usize, NoMemory>
    ensures { IfOk result (λ n. n ≡ spec_whole (operand_of (expr_of value.now))) }
{
    match value {
        Expr::Call(_, _) | Expr::Receive(_, _) => count(value),
        _ => size_of_use(value),
    }
}

fn count_one_printed(printed: &Printed) -> Result<usize, NoMemory>
    ensures { IfOk result (λ n. n ≡ parts_in (printed_operands (prints_of (printed.now ∷ [])))) }
{
    match printed {
        Printed::Value(value) => count(value),
        Printed::Text(_) => Ok(0),
    }
}

/// How many parts what is printed has.
pub fn count_printed(values: &[Printed]) -> Result<usize, NoMemory>
    ensures { IfOk result (λ n. n ≡ parts_in (printed_operands (prints_of values.now))) }
{
    let mut found = 0usize;
    for printed in values {
        found = sum(found, count_one_printed(printed)?)?;
    }
    Ok(found)
}

fn count_tested(condition: &Option<Expr>) -> Result<usize, NoMemory>
    ensures { IfOk result (λ n. n ≡ parts_in (tested (optional expr_of condition.now))) }
{
    match condition {
        Some(condition) => count(condition),
        None => Ok(0),
    }
}

/// How many instructions test a condition that may be missing.
pub fn size_of_test(condition: &Option<Expr>) -> Result<usize, NoMemory>
    ensures { IfOk result (λ n. n ≡ parts_in (tested (optional expr_of condition.now)) + 1) }
{
    sum(count_tested(condition)?, 1)
}

fn count_returned(value: &Option<Expr>) -> Result<usize, NoMemory>
    ensures { IfOk result (λ n. n ≡ parts_in (returned (optional expr_of value.now))) }
{
    match value {
        Some(value) => count(value),
        None => Ok(0),
    }
}

/// How many instructions a statement without statements in it has.
pub fn size_of_act(act: &Act) -> Result<usize, NoMemory>
    ensures { IfOk result (λ n. n ≡ act_size (act_of act.now)) }
{
    match act {
        Act::Assign { values, .. } => sum(count_all(values)?, 1),
        Act::AssignReceive { channel, .. } => sum(count(channel)?, 2),
        Act::Update { value, .. } => size_of_use(value),
        Act::Eval(value) => whole_size(value),
        Act::Close(channel) => size_of_use(channel),
        Act::Print(values) => sum(count_printed(values)?, 1),
        Act::Send { channel, value } => sum(sum(count(channel)?, count(value)?)?, 1),
        Act::Go { arguments, .. } => sum(count_all(arguments)?, 1),
        Act::Return(value) => sum(count_returned(value)?, 1),
        Act::Break(_) | Act::Continue(_) => Ok(1),
    }
}

/// The size of the code of the statement in a heading: 0 if there is none.
pub fn size_of_opening(opening: &Option<Box<Opening>>) -> Result<usize, NoMemory>
    ensures { IfOk result (λ n. n ≡ opening_size (optional opening_of opening.now)) }
{
    match opening {
        Some(opening) => size_of_act(&opening.act),
        None => Ok(0),
    }
}

/// How many instructions assign what a clause received.
pub fn size_of_targets(targets: &[Option<usize>]) -> usize
    ensures { result ≡ targets_size targets.now }
{
    if targets.is_empty() { 0 } else { 1 }
}

/// The size of the code of an if whose sides have these sizes.
fn size_of_if(
    init: &Option<Box<Opening>>,
    condition: &Expr,
    many: usize,
    others: usize,
) -> Result<usize, NoMemory>
    ensures { IfOk result (λ n. n ≡ opening_size (optional opening_of init.now)
        + (parts_in (one (operand_of (expr_of condition.now))) + 1) + many + others) }
{
    let heading = sum(size_of_opening(init)?, size_of_use(condition)?)?;
    sum(sum(heading, many)?, others)
}

/// The size of the code of a for whose body has this size.
fn size_of_for(
    init: &Option<Box<Opening>>,
    condition: &Option<Expr>,
    post: &Option<Box<Opening>>,
    many: usize,
) -> Result<usize, NoMemory>
    ensures { IfOk result (λ n. n ≡ opening_size (optional opening_of init.now)
        + (parts_in (tested (optional expr_of condition.now)) + 1) + many + opening_size (optional opening_of post.now)) }
{
    let heading = sum(size_of_opening(init)?, size_of_test(condition)?)?;
    sum(sum(heading, many)?, size_of_opening(post)?)
}

/// The size of the code of a loop over a channel whose body has this size.
fn size_of_range(channel: &Expr, many: usize) -> Result<usize, NoMemory>
    ensures { IfOk result (λ n. n ≡ parts_in (one (operand_of (expr_of channel.now))) + 1 + 3 + many) }
{
    sum(sum(size_of_use(channel)?, 3)?, many)
}

/// The size of the code of a select whose clauses have this size.
fn size_of_select(cases: &[Case], many: usize) -> Result<usize, NoMemory>
    ensures { IfOk result (λ n. n ≡ parts_in (case_operands (cases_of cases.now)) + 1 + many) }
{
    sum(sum(count_cases(cases)?, 1)?, many)
}

/// How many instructions a statement has. Notes the sizes that writing them asks for.
#[cycle(sizing)]
fn size_of(alloc: Global, sizes: &mut Sizes, stmt: &Stmt) -> Result<usize, NoMemory>
    ensures noted { OnOk result (sizes.new ≡ asked (stmt_of stmt.now) sizes.old) }
    ensures value { IfOk result (λ n. n ≡ size (stmt_of stmt.now)) }
{
    match stmt {
        Stmt::Act { act, .. } => size_of_act(act),
        Stmt::Block(body) => size_of_all(alloc, sizes, body),
        Stmt::If {
            init,
            condition,
            body,
            otherwise,
            ..
        } => {
            let others = size_of_all(alloc, sizes, otherwise)?;
            let many = size_of_all(alloc, sizes, body)?;
            sizes.note(others)?;
            sizes.note(many)?;
            size_of_if(init, condition, many, others)
        }
        Stmt::For {
            init,
            condition,
            post,
            body,
            ..
        } => {
            let many = size_of_all(alloc, sizes, body)?;
            sizes.note(many)?;
            size_of_for(init, condition, post, many)
        }
        Stmt::Range { channel, body, .. } => {
            let many = size_of_all(alloc, sizes, body)?;
            sizes.note(many)?;
            size_of_range(channel, many)
        }
        Stmt::Select { cases, .. } => {
            let many = size_of_cases(alloc, sizes, cases)?;
            size_of_select(cases, many)
        }
    }
}

/// The size of the code of several statements. Notes the sizes that writing them asks for.
#[cycle(sizing)]
pub fn size_of_all(alloc: Global, sizes: &mut Sizes, stmts: &[Stmt]) -> Result<usize, NoMemory>
    ensures noted { OnOk result (sizes.new ≡ asked_in (stmts_of stmts.now) sizes.old) }
    ensures value { IfOk result (λ n. n ≡ size_in (stmts_of stmts.now)) }
{
    let mut found = 0usize;
    for i in (0..stmts.len()).rev() {
        let here = size_of(alloc, sizes, &stmts[i])?;
        sizes.note(found)?;
        sizes.note(here)?;
        found = sum(here, found)?;
    }
    Ok(found)
}

/// How many instructions a clause has after the select, before those of others.
#[cycle(sizing)]
fn size_of_case(alloc: Global, sizes: &mut Sizes, case: &Case) -> Result<usize, NoMemory>
    ensures noted { OnOk result ((others : Cases) (rest : List ℕ) → sizes.old ≡ asked_among others rest
        → sizes.new ≡ asked_among (case_on case.now others) rest) }
    ensures value { IfOk result (λ n. (others : Cases) → (clause_sizes (case_on case.now others) ≡ n ∷ clause_sizes others)
        × (size_among (case_on case.now others) ≡ n + size_among others)) }
{
    match case {
        Case::Default(body) => size_of_all(alloc, sizes, body),
        Case::Send { body, .. } => size_of_all(alloc, sizes, body),
        Case::Receive { targets, body, .. } => {
            let many = size_of_all(alloc, sizes, body)?;
            sizes.note(many)?;
            sum(size_of_targets(targets), many)
        }
    }
}

#[cycle(sizing)]
fn size_of_cases(alloc: Global, sizes: &mut Sizes, cases: &[Case]) -> Result<usize, NoMemory>
    ensures noted { OnOk result (sizes.new ≡ clause_sizes (cases_of cases.now) ++ asked_among (cases_of cases.now) sizes.old) }
    ensures value { IfOk result (λ n. n ≡ size_among (cases_of cases.now)) }
{
    let mut found = 0usize;
    let mut clauses = Sizes::new(alloc);
    for i in (0..cases.len()).rev() {
        let here = size_of_case(alloc, sizes, &cases[i])?;
        clauses.note(here)?;
        found = sum(here, found)?;
    }
    sizes.note_all(clauses)?;
    Ok(found)
}

/// How many parts the operands of a clause have, before those of others.
fn count_case(case: &Case) -> Result<usize, NoMemory>
    ensures { IfOk result (λ n. (others : Cases)
        → parts_in (case_operands (case_on case.now others)) ≡ n + parts_in (case_operands others)) }
{
    match case {
        Case::Default(_) => Ok(0),
        Case::Send { channel, value, .. } => sum(count(channel)?, count(value)?),
        Case::Receive { channel, .. } => count(channel),
    }
}

/// How many parts the operands of clauses have.
pub fn count_cases(cases: &[Case]) -> Result<usize, NoMemory>
    ensures { IfOk result (λ n. n ≡ parts_in (case_operands (cases_of cases.now))) }
{
    let mut found = 0usize;
    for case in cases {
        found = sum(found, count_case(case)?)?;
    }
    Ok(found)
}
