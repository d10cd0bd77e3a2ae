//! The code of statements.
ghost use Rattle.std.specs.Prelude.{◌≡◌, ◌+◌, ◌++◌, ℕ, List, OnOk, vec_len};
ghost use Rattle.gr_program.specs.Programs.{Cases};
ghost use Rattle.gr_program.specs.Views.{stmt_of, stmts_of, case_on, cases_of};
ghost use Rattle.gr_code.specs.CodeViews.{instructions_of};
ghost use Rattle.gr_lower.specs.Sizes.{size, size_in, size_among};
ghost use Rattle.gr_lower.specs.Asked.{asked, asked_in, asked_among, Asking};
ghost use Rattle.gr_lower.specs.StatementCode.{stmt_code, stmts_code, cases_code};
ghost use Rattle.gr_lower.specs.Headings.{ways_of};

use crate::acts::{lower_act, lower_opening};
use crate::choices::{entry, head_select};
use crate::heads::{head_for, head_if, head_range, take_received};
use crate::nesting::{Way, Ways};
use crate::parts::sum;
use crate::sizes::Sizes;
use crate::sizing::{size_of_opening, size_of_targets};
use gr_base::NoMemory;
use gr_code::code::Instruction;
use gr_program::Stmt;
use gr_program::program::Case;
use std::alloc::Global;

/// The code of a statement, before `on`; `first` is the first free temporary. The next sizes are those that it asks for.
#[cycle(writing)]
fn lower_stmt(
    alloc: Global,
    out: &mut Vec<Instruction>,
    sizes: &mut Sizes,
    stmt: &Stmt,
    first: usize,
    on: usize,
    ways: &Ways,
) -> Result<(), NoMemory>
    ensures { OnOk result (Asking (asked (stmt_of stmt.now)) sizes.old sizes.new ((instructions_of out.new.items
        ≡ instructions_of out.old.items ++ stmt_code (stmt_of stmt.now) first (vec_len out.old) on (ways_of ways.now))
        × (vec_len out.new ≡ vec_len out.old + size (stmt_of stmt.now)))) }
{
    match stmt {
        Stmt::Act { act, .. } => lower_act(alloc, out, act, first, on, ways),
        Stmt::Block(body) => lower_stmts(alloc, out, sizes, body, first, on, ways),
        Stmt::If {
            init,
            condition,
            body,
            otherwise,
            ..
        } => {
            let many = sizes.ask();
            let others = sizes.ask();
            head_if(alloc, out, init, condition, (many, others), first, on, ways)?;
            lower_stmts(alloc, out, sizes, body, first, on, ways)?;
            lower_stmts(alloc, out, sizes, otherwise, first, on, ways)
        }
        Stmt::For {
            init,
            condition,
            post,
            body,
            ..
        } => {
            let many = sizes.ask();
            let after = size_of_opening(post)?;
            let (turn, test) = head_for(
                alloc,
                out,
                init,
                condition,
                (many, after),
                first,
                on,
                ways,
            )?;
            let again = Some(turn);
            let inner = Ways::Inside(Way { out: on, again }, &*ways);
            lower_stmts(alloc, out, sizes, body, first, turn, &inner)?;
            lower_opening(alloc, out, post, first, test, ways)
        }
        Stmt::Range {
            target,
            channel,
            body,
            ..
        } => {
            let many = sizes.ask();
            let turn = head_range(alloc, out, *target, channel, many, first, on)?;
            let again = Some(turn);
            let inner = Ways::Inside(Way { out: on, again }, &*ways);
            let next = sum(first, 1)?;
            lower_stmts(alloc, out, sizes, body, next, turn, &inner)
        }
        Stmt::Select { cases, .. } => {
            head_select(alloc, out, sizes, cases, first, on)?;
            let again = None;
            let inner = Ways::Inside(Way { out: on, again }, &*ways);
            lower_cases(alloc, out, sizes, cases, first, on, &inner)
        }
    }
}

/// The code of several statements, one after another, before `on`.
#[cycle(writing)]
pub fn lower_stmts(
    alloc: Global,
    out: &mut Vec<Instruction>,
    sizes: &mut Sizes,
    stmts: &[Stmt],
    first: usize,
    on: usize,
    ways: &Ways,
) -> Result<(), NoMemory>
    ensures { OnOk result (Asking (asked_in (stmts_of stmts.now)) sizes.old sizes.new ((instructions_of out.new.items
        ≡ instructions_of out.old.items ++ stmts_code (stmts_of stmts.now) first (vec_len out.old) on (ways_of ways.now))
        × (vec_len out.new ≡ vec_len out.old + size_in (stmts_of stmts.now)))) }
{
    for stmt in stmts {
        let here = sizes.ask();
        let left = sizes.ask();
        let after = sum(out.len(), here)?;
        let next = entry(left, after, on);
        lower_stmt(alloc, out, sizes, stmt, first, next, ways)?;
    }
    Ok(())
}

/// The code of a clause after the select.
#[cycle(writing)]
fn lower_case(
    alloc: Global,
    out: &mut Vec<Instruction>,
    sizes: &mut Sizes,
    case: &Case,
    first: usize,
    on: usize,
    ways: &Ways,
) -> Result<(), NoMemory>
    ensures { OnOk result ((others : Cases) (rest : List ℕ) → sizes.old ≡ asked_among (case_on case.now others) rest
        → (sizes.new ≡ asked_among others rest)
        × ((instructions_of out.new.items ++ cases_code others first (vec_len out.new) on (ways_of ways.now)
        ≡ instructions_of out.old.items ++ cases_code (case_on case.now others) first (vec_len out.old) on (ways_of ways.now))
        × (vec_len out.new + size_among others ≡ vec_len out.old + size_among (case_on case.now others)))) }
{
    match case {
        Case::Default(body) => lower_stmts(alloc, out, sizes, body, first, on, ways),
        Case::Send { body, .. } => lower_stmts(alloc, out, sizes, body, first, on, ways),
        Case::Receive { targets, body, .. } => {
            let many = sizes.ask();
            let next = sum(out.len(), size_of_targets(targets))?;
            let to = entry(many, next, on);
            take_received(alloc, out, targets, first, to)?;
            lower_stmts(alloc, out, sizes, body, first, on, ways)
        }
    }
}

/// The code of the clauses of a select.
#[cycle(writing)]
fn lower_cases(
    alloc: Global,
    out: &mut Vec<Instruction>,
    sizes: &mut Sizes,
    cases: &[Case],
    first: usize,
    on: usize,
    ways: &Ways,
) -> Result<(), NoMemory>
    ensures { OnOk result (Asking (asked_among (cases_of cases.now)) sizes.old sizes.new ((instructions_of out.new.items
        ≡ instructions_of out.old.items ++ cases_code (cases_of cases.now) first (vec_len out.old) on (ways_of ways.now))
        × (vec_len out.new ≡ vec_len out.old + size_among (cases_of cases.now)))) }
{
    for case in cases {
        lower_case(alloc, out, sizes, case, first, on, ways)?;
    }
    Ok(())
}
