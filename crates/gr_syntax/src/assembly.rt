//! Statements made of their parts.

ghost use Rattle.std.specs.Prelude.{◌≡◌, ◌<◌, ◌≤◌, ◌^◌};
ghost use Rattle.gr_tree.specs.Statements.{Block, If, IfElse, IfElseIf, For, Select, act_of, if_of, for_of, statement_of};
ghost use Rattle.gr_tree.specs.Statements.{statements_of};
ghost use Rattle.gr_syntax.specs.StatementReading.{plain_after, placed};
ghost use Rattle.gr_syntax.specs.CodeViews.{clauses_of};
ghost use Rattle.gr_syntax.specs.Views.{Continues, found_of, AtMost};

use crate::look::{Found, ReadError};
use crate::simple::simple;
use gr_scan::token::Place;
use gr_tree::{Action, Clause, Expr, ForHead, IfHead, Stmt};
use std::alloc::Global;

/// This action as a statement that stands here.
pub(crate) fn acts<'a, 't>(place: Place, action: Found<'a, 't, Action>) -> Found<'a, 't, Stmt>
    ensures gives { found_of statement_of result ≡ placed place (found_of act_of action.entry) }
{
    action.map(|action| Stmt::Act(place, action))
}

/// The block of a statement of its own.
pub(crate) fn block_stmt(place: Place, body: Vec<Stmt>) -> Stmt
    ensures { statement_of result ≡ Block place (statements_of body.items) }
{
    Stmt::Block(place, body)
}

/// An if without else.
pub(crate) fn if_stmt(place: Place, head: IfHead, body: Vec<Stmt>) -> Stmt
    ensures { statement_of result ≡ If place (if_of head) (statements_of body.items) }
{
    Stmt::If(place, head, body)
}

/// An if with the block of its else.
pub(crate) fn if_else(place: Place, head: IfHead, body: Vec<Stmt>, otherwise: Vec<Stmt>) -> Stmt
    ensures { statement_of result ≡ IfElse place (if_of head) (statements_of body.items) (statements_of otherwise.items) }
{
    Stmt::IfElse(place, head, body, otherwise)
}

/// An if with the if after its else.
pub(crate) fn if_else_if(place: Place, head: IfHead, body: Vec<Stmt>, otherwise: Box<Stmt>) -> Stmt
    ensures { statement_of result ≡ IfElseIf place (if_of head) (statements_of body.items) (statement_of otherwise.value) }
{
    Stmt::IfElseIf(place, head, body, otherwise)
}

/// A for.
pub(crate) fn for_stmt(place: Place, head: ForHead, body: Vec<Stmt>) -> Stmt
    ensures { statement_of result ≡ For place (for_of head) (statements_of body.items) }
{
    Stmt::For(place, head, body)
}

/// A select.
pub(crate) fn select_stmt(place: Place, clauses: Vec<Clause>) -> Stmt
    ensures { statement_of result ≡ Select place (clauses_of clauses.items) }
{
    Stmt::Select(place, clauses)
}

/// A simple statement that begins with this expression, as a statement that stands here.
#[tactic(auto, unfolding(crate::specs::StatementReading::plain_after))]
pub(crate) fn plain<'a, 't>(
    alloc: Global,
    limit: u32,
    place: Place,
    first: Found<'a, 't, Expr>,
) -> Result<Found<'a, 't, Stmt>, ReadError>
    requires limit { limit < 2 ^ 30 }
    requires fits { first.height ≤ limit }
    ensures gives { Continues statement_of first.entry result (plain_after limit place) }
    ensures fits { AtMost limit result }
{
    let found = simple(alloc, limit, true, first)?;
    Ok(found.map(|simple| Stmt::Act(place, Action::Simple(simple))))
}
