//! Statements.
ghost use Rattle.gr_tree.specs.Statements.{act_of, comm_of, for_of, if_of, optional, statement_of, statements_of};
ghost use Rattle.gr_types.specs.StatementViews.{clauses_of};
ghost use Rattle.gr_exprs.specs.Tables.{scope_of};
ghost use Rattle.gr_types.specs.ContextViews.{context_of};
ghost use Rattle.gr_program.specs.Views as programs;
ghost use Rattle.gr_program.specs.Views.{stmts_of, case_on, cases_of};
ghost use Rattle.gr_types.specs.FindingStatements as spec;
ghost use Rattle.gr_types.specs.StatementParts as pieces;
ghost use Rattle.gr_types.specs.Checking.{Settles};

use crate::acts::act;
use crate::context::{Around, Context, Nest};
use crate::forms;
use crate::headings::{ForParts, IfParts, if_parts, loop_parts, range_parts};
use crate::refusal::{CheckError, refused};
use crate::selects::{first_error, has_at_most_one_default, placed_awaits};
use gr_exprs::refusal::{RefusalCode, RuleError};
use gr_exprs::scope::Scope;
use gr_program as checked;
use gr_program::{Act, Case};
use gr_scan::token::Place;
use gr_tree::{Action, Clause, Communication, ForHead, IfHead, Stmt};
use std::alloc::Global;

fn placed_act(
    alloc: Global,
    context: &Context,
    scope: &mut Scope,
    place: Place,
    action: &Action,
) -> Result<Act, CheckError>
    ensures { Settles (λ a. (programs.act_of a, scope_of scope.new)) result
        (spec.act_in (context_of context.now) (scope_of scope.old) (act_of action.now)) }
{
    match act(alloc, context, scope, action) {
        Ok(act) => Ok(act),
        Err(fault) => Err(refused(fault, place)),
    }
}

fn act_step(
    alloc: Global,
    context: &Context,
    scope: &mut Scope,
    place: Place,
    action: &Action,
) -> Result<checked::Stmt, CheckError>
    ensures { Settles (λ s. (pieces.only_stmt s, scope_of scope.new)) result
        (pieces.does_in (context_of context.now) (scope_of scope.old) place (act_of action.now)) }
{
    let act = placed_act(alloc, context, scope, place, action)?;
    Ok(checked::Stmt::Act { place, act })
}

/// What the statements of a body do, in order, in the block of the place.
#[cycle(checking)]
pub fn body(
    alloc: Global,
    context: &Context,
    scope: &mut Scope,
    stmts: &[Stmt],
) -> Result<Vec<checked::Stmt>, CheckError>
    ensures { Settles (λ v. (stmts_of v.items, scope_of scope.new)) result
        (spec.body_in (context_of context.now) (scope_of scope.old) (statements_of stmts.now)) }
{
    let mut steps = Vec::with_capacity(alloc, stmts.len())?;
    for stmt in stmts {
        let Some(step) = statement(alloc, context, scope, None, stmt)? else {
            continue;
        };
        steps.push(step)?;
    }
    Ok(steps)
}

/// What a statement does; `label` is the label directly before it. A label before an empty statement does nothing.
#[cycle(checking)]
#[tactic(auto, unfolding(crate::specs::FindingStatements::statement_in))]
fn statement(
    alloc: Global,
    context: &Context,
    scope: &mut Scope,
    label: Option<&[u8]>,
    stmt: &Stmt,
) -> Result<Option<checked::Stmt>, CheckError>
    ensures { Settles (λ o. (pieces.made_of o, scope_of scope.new)) result
        (spec.statement_in (context_of context.now) (scope_of scope.old) (optional (λ x. x.now) label.entry)
        (statement_of stmt.now)) }
{
    match stmt {
        Stmt::Act(place, action) => Ok(Some(act_step(alloc, context, scope, *place, action)?)),
        Stmt::Block(_, body) => Ok(Some(block(alloc, context, scope, body)?)),
        Stmt::If(place, head, body) => {
            Ok(Some(only_if(alloc, context, scope, *place, head, body)?))
        }
        Stmt::IfElse(place, head, body, otherwise) => {
            let tested = tested(alloc, context, scope, *place, head, body)?;
            Ok(Some(if_else(alloc, context, scope, *place, tested, otherwise)?))
        }
        Stmt::IfElseIf(place, head, body, otherwise) => {
            let tested = tested(alloc, context, scope, *place, head, body)?;
            Ok(Some(if_else_if(alloc, context, scope, *place, tested, otherwise)?))
        }
        Stmt::For(place, head, body) => Ok(Some(for_step(
            alloc, context, scope, label, *place, head, body,
        )?)),
        Stmt::Select(place, clauses) => Ok(Some(select(
            alloc, context, scope, label, *place, clauses,
        )?)),
        Stmt::Label(_, name, labeled) => statement(alloc, context, scope, Some(name), labeled),
        Stmt::EmptyLabel(_, _) => Ok(None),
    }
}

#[cycle(checking)]
fn block(
    alloc: Global,
    context: &Context,
    scope: &mut Scope,
    stmts: &[Stmt],
) -> Result<checked::Stmt, CheckError>
    ensures { Settles (λ s. (pieces.only_stmt s, scope_of scope.new)) result
        (pieces.block_in (context_of context.now) (scope_of scope.old) (statements_of stmts.now)) }
{
    scope.enter(alloc)?;
    let steps = body(alloc, context, scope, stmts)?;
    scope.leave(alloc);
    Ok(checked::forms::block(steps))
}

/// An if as far as its block; it stays in the block of the if.
#[cycle(checking)]
fn tested(
    alloc: Global,
    context: &Context,
    scope: &mut Scope,
    place: Place,
    head: &IfHead,
    stmts: &[Stmt],
) -> Result<(IfParts, Vec<checked::Stmt>), CheckError>
    ensures { Settles (λ t. (pieces.tested_of t, scope_of scope.new)) result
        (pieces.tested_in (context_of context.now) (scope_of scope.old) (if_of head.now) (statements_of stmts.now)) }
{
    scope.enter(alloc)?;
    let parts = if_parts(alloc, context.functions, scope, place, head)?;
    scope.enter(alloc)?;
    let steps = body(alloc, context, scope, stmts)?;
    scope.leave(alloc);
    Ok((parts, steps))
}

#[cycle(checking)]
fn only_if(
    alloc: Global,
    context: &Context,
    scope: &mut Scope,
    place: Place,
    head: &IfHead,
    stmts: &[Stmt],
) -> Result<checked::Stmt, CheckError>
    ensures { Settles (λ s. (pieces.only_stmt s, scope_of scope.new)) result
        (pieces.if_in (context_of context.now) (scope_of scope.old) place (if_of head.now) (statements_of stmts.now)) }
{
    let (parts, steps) = tested(alloc, context, scope, place, head, stmts)?;
    scope.leave(alloc);
    Ok(forms::conditional(place, parts, steps, Vec::new(alloc)))
}

/// An if whose block is known, with the block of its else.
#[cycle(checking)]
fn if_else(
    alloc: Global,
    context: &Context,
    scope: &mut Scope,
    place: Place,
    tested: (IfParts, Vec<checked::Stmt>),
    otherwise: &[Stmt],
) -> Result<checked::Stmt, CheckError>
    ensures { Settles (λ s. (pieces.only_stmt s, scope_of scope.new)) result
        (pieces.else_in (context_of context.now) place (statements_of otherwise.now) (pieces.tested_of tested)
        (scope_of scope.old)) }
{
    scope.enter(alloc)?;
    let otherwise = body(alloc, context, scope, otherwise)?;
    scope.leave(alloc);
    scope.leave(alloc);
    let (parts, steps) = tested;
    Ok(forms::conditional(place, parts, steps, otherwise))
}

/// An if whose block is known, with the if after its else.
#[cycle(checking)]
fn if_else_if(
    alloc: Global,
    context: &Context,
    scope: &mut Scope,
    place: Place,
    tested: (IfParts, Vec<checked::Stmt>),
    otherwise: &Stmt,
) -> Result<checked::Stmt, CheckError>
    ensures { Settles (λ s. (pieces.only_stmt s, scope_of scope.new)) result
        (pieces.else_if_in (context_of context.now) place (statement_of otherwise.now) (pieces.tested_of tested)
        (scope_of scope.old)) }
{
    let otherwise = statement(alloc, context, scope, None, otherwise)?;
    scope.leave(alloc);
    let otherwise = forms::listed(alloc, otherwise)?;
    let (parts, steps) = tested;
    Ok(forms::conditional(place, parts, steps, otherwise))
}

/// A for, after its label if it has one.
#[cycle(checking)]
fn for_step(
    alloc: Global,
    context: &Context,
    scope: &mut Scope,
    label: Option<&[u8]>,
    place: Place,
    head: &ForHead,
    stmts: &[Stmt],
) -> Result<checked::Stmt, CheckError>
    ensures { Settles (λ s. (pieces.only_stmt s, scope_of scope.new)) result
        (pieces.for_in (context_of context.now) (scope_of scope.old) (optional (λ x. x.now) label.entry) place (for_of head.now)
        (statements_of stmts.now)) }
{
    let functions = context.functions;
    let nest = Nest::Inside(Around::Loop(label), &*context.nest);
    let inner = (&*context).within(&nest);
    match head {
        ForHead::Loop(init, condition, post) => {
            scope.enter(alloc)?;
            let parts = loop_parts(alloc, functions, scope, place, init, condition, post)?;
            loop_step(alloc, &inner, scope, place, ForParts::Loop(parts), stmts)
        }
        ForHead::Range(target, channel) => {
            let parts = range_parts(alloc, functions, scope, place, target, channel)?;
            loop_step(alloc, &inner, scope, place, ForParts::Range(parts), stmts)
        }
    }
}

/// A loop whose heading is known; the context is that of its body.
#[cycle(checking)]
fn loop_step(
    alloc: Global,
    context: &Context,
    scope: &mut Scope,
    place: Place,
    parts: ForParts,
    stmts: &[Stmt],
) -> Result<checked::Stmt, CheckError>
    ensures { Settles (λ s. (pieces.only_stmt s, scope_of scope.new)) result
        (pieces.loop_in (context_of context.now) (pieces.repeated_by place parts) (statements_of stmts.now)
        (scope_of scope.old)) }
{
    scope.enter(alloc)?;
    let steps = body(alloc, context, scope, stmts)?;
    scope.leave(alloc);
    scope.leave(alloc);
    Ok(forms::repeated(place, parts, steps))
}

#[cycle(checking)]
fn select(
    alloc: Global,
    context: &Context,
    scope: &mut Scope,
    label: Option<&[u8]>,
    place: Place,
    clauses: &[Clause],
) -> Result<checked::Stmt, CheckError>
    ensures { Settles (λ s. (pieces.only_stmt s, scope_of scope.new)) result
        (pieces.select_in (context_of context.now) (scope_of scope.old) (optional (λ x. x.now) label.entry) place
        (clauses_of clauses.now)) }
{
    if !has_at_most_one_default(clauses) {
        return Err(refused(RuleError::Broken(RefusalCode::DeclaredTwice), place));
    }
    let depth = scope.depth();
    let nest = Nest::Inside(Around::Choice(label), &*context.nest);
    let inner = (&*context).within(&nest);
    match cases(alloc, &inner, scope, place, clauses) {
        Ok(cases) => Ok(checked::forms::choice(place, cases)),
        Err(error) => {
            scope.leave_to(alloc, depth);
            Err(first_error(alloc, context.functions, scope, place, clauses, error))
        }
    }
}

/// The clauses of the select at a place; the context is that of their bodies.
#[cycle(checking)]
fn cases(
    alloc: Global,
    context: &Context,
    scope: &mut Scope,
    place: Place,
    clauses: &[Clause],
) -> Result<Vec<Case>, CheckError>
    ensures { Settles (λ v. (cases_of v.items, scope_of scope.new)) result
        (spec.clauses_in (context_of context.now) (scope_of scope.old) (clauses_of clauses.now)) }
{
    let mut cases = Vec::with_capacity(alloc, clauses.len())?;
    for clause in clauses {
        let case = case(alloc, context, scope, place, clause)?;
        cases.push(case)?;
    }
    Ok(cases)
}

#[cycle(checking)]
fn case(
    alloc: Global,
    context: &Context,
    scope: &mut Scope,
    place: Place,
    clause: &Clause,
) -> Result<Case, CheckError>
    ensures { Settles (λ k. (case_on k, scope_of scope.new)) result
        (pieces.clause_in (context_of context.now) (scope_of scope.old) clause.now) }
{
    match clause {
        Clause::Default(body) => default_case(alloc, context, scope, body),
        Clause::Case(communication, body) => {
            awaited_case(alloc, context, scope, place, communication, body)
        }
    }
}

#[cycle(checking)]
fn default_case(
    alloc: Global,
    context: &Context,
    scope: &mut Scope,
    stmts: &[Stmt],
) -> Result<Case, CheckError>
    ensures { Settles (λ k. (case_on k, scope_of scope.new)) result
        (pieces.default_in (context_of context.now) (scope_of scope.old) (statements_of stmts.now)) }
{
    scope.enter(alloc)?;
    let steps = body(alloc, context, scope, stmts)?;
    scope.leave(alloc);
    Ok(checked::forms::default_case(steps))
}

#[cycle(checking)]
fn awaited_case(
    alloc: Global,
    context: &Context,
    scope: &mut Scope,
    place: Place,
    communication: &Communication,
    stmts: &[Stmt],
) -> Result<Case, CheckError>
    ensures { Settles (λ k. (case_on k, scope_of scope.new)) result
        (pieces.case_in (context_of context.now) (scope_of scope.old) (comm_of communication.now) (statements_of stmts.now)) }
{
    scope.enter(alloc)?;
    let awaited = placed_awaits(alloc, context.functions, scope, place, communication)?;
    let steps = body(alloc, context, scope, stmts)?;
    scope.leave(alloc);
    Ok(forms::awaited_case(awaited, steps))
}
