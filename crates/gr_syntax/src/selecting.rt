//! Reading a select and its clauses.

ghost use Rattle.std.specs.Prelude.{◌+◌, ◌<◌, ◌≤◌, ◌^◌};
ghost use Rattle.gr_tree.specs.Statements.{statement_of, statements_of};
ghost use Rattle.gr_syntax.specs.StatementReading.{clause_body_at, clauses_at, select_at, statement_at};
ghost use Rattle.gr_syntax.specs.CodeViews.{clauses_of};
ghost use Rattle.gr_syntax.specs.Views.{Finds, AtMost};

use crate::assembly::select_stmt;
use crate::communication::communication;
use crate::look::{Found, ReadError, Tokens, abandon, after, beside, needed, push};
use crate::statement::list;
use gr_scan::token::{Mark, Place};
use gr_tree::{Clause, Stmt};
use std::alloc::Global;

/// What a clause of a select does, from its colon on; its statements are of at most this height.
#[cycle(statement)]
fn clause_body<'a, 't>(
    alloc: Global,
    limit: u32,
    tokens: Tokens<'a, 't>,
) -> Result<Found<'a, 't, Vec<Stmt>>, ReadError>
    requires { limit < 2 ^ 29 }
    ensures gives { Finds (λ v. statements_of v.items) tokens.now result (clause_body_at (statement_at limit)) }
    ensures fits { AtMost limit result }
{
    let (_, rest) = needed(Mark::Colon, tokens)?;
    list(alloc, limit, rest)
}

/// The clauses of a select; what they wait for and their statements are of at most this height.
#[cycle(statement)]
#[tactic(auto, unfolding(crate::specs::StatementReading::clauses_at))]
fn clauses<'a, 't>(
    alloc: Global,
    limit: u32,
    tokens: Tokens<'a, 't>,
) -> Result<Found<'a, 't, Vec<Clause>>, ReadError>
    requires { limit < 2 ^ 29 }
    ensures gives { Finds (λ v. clauses_of v.items) tokens.now result (clauses_at limit (statement_at limit)) }
    ensures fits { AtMost limit result }
{
    let mut found = Found {
        value: Vec::new(alloc),
        height: 0,
        rest: tokens,
    };
    loop {
        if let Some(more) = after(Mark::Case, found.rest) {
            let awaited = communication(alloc, limit, more)?;
            let body = match clause_body(alloc, limit, awaited.rest) {
                Ok(body) => body,
                Err(fault) => return abandon(awaited, fault),
            };
            push(&mut found.value, Clause::Case(awaited.value, body.value))?;
            found.height = found.height.max(awaited.height.max(body.height));
            found.rest = body.rest;
            continue;
        }
        let Some(more) = after(Mark::Default, found.rest) else {
            return Ok(found);
        };
        let body = clause_body(alloc, limit, more)?;
        push(&mut found.value, Clause::Default(body.value))?;
        found.height = found.height.max(body.height);
        found.rest = body.rest;
    }
}

/// A select, after its keyword; its parts are of at most this height.
#[cycle(statement)]
#[tactic(auto, unfolding(crate::specs::StatementReading::select_at))]
pub(crate) fn select<'a, 't>(
    alloc: Global,
    below: u32,
    place: Place,
    tokens: Tokens<'a, 't>,
) -> Result<Found<'a, 't, Stmt>, ReadError>
    requires { below < 2 ^ 29 }
    ensures gives { Finds statement_of tokens.now result (select_at below (statement_at below) place) }
    ensures fits { AtMost (below + 1) result }
{
    let (_, rest) = needed(Mark::LeftBrace, tokens)?;
    let found = clauses(alloc, below, rest)?;
    let ((_, rest), found) = beside(needed(Mark::RightBrace, found.rest), found)?;
    Ok(Found {
        value: select_stmt(place, found.value),
        height: found.height + 1,
        rest,
    })
}
