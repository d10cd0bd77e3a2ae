//! Reading statements, their lists and blocks.

ghost use Rattle.std.specs.Prelude.{◌+◌, ◌<◌, ◌≤◌, ◌^◌};
ghost use Rattle.gr_scan.specs.Tokens.{tokens_of};
ghost use Rattle.gr_tree.specs.Exprs.{Name};
ghost use Rattle.gr_tree.specs.Statements.{if_of, statement_of, statements_of};
ghost use Rattle.gr_syntax.specs.StatementReading.{name_open, labelled_at, list_at, block_at, else_at, if_at, for_at};
ghost use Rattle.gr_syntax.specs.StatementReading.{braced_at, open_at, keyed_at, statement_at};
ghost use Rattle.gr_syntax.specs.StatementViews.{closed_of};
ghost use Rattle.gr_syntax.specs.Views.{Finds, found_of, AtMost};

use crate::action::{break_from, continue_from, go, returned, var};
use crate::assembly::{acts, block_stmt, for_stmt, if_else, if_else_if, if_stmt, plain};
use crate::expression::expr;
use crate::heading::{for_head, if_head, place};
use crate::look::{Found, ReadError, Tokens, abandon, after, beside, boxed, fitted, needed, push};
use crate::opening::{Keyword, ends, first_keyword, past_semicolon, stops};
use crate::selecting::select;
use gr_scan::token::{Mark, Place};
use gr_tree::{Expr, IfHead, Stmt};
use std::alloc::Global;

/// The statement after a label and its colon; it is of at most this height.
#[cycle(statement)]
#[tactic(auto, unfolding(crate::specs::StatementReading::labelled_at))]
fn labelled<'a, 't>(
    alloc: Global,
    below: u32,
    place: Place,
    name: Vec<u8>,
    tokens: Tokens<'a, 't>,
) -> Result<Found<'a, 't, Stmt>, ReadError>
    requires { below < 2 ^ 29 }
    ensures gives { Finds statement_of tokens.now result (labelled_at (statement_at below) place name.items) }
    ensures fits { AtMost (below + 1) result }
{
    if ends(tokens) {
        return Ok(Found {
            value: Stmt::EmptyLabel(place, name),
            height: 1,
            rest: tokens,
        });
    }
    let inner = statement(alloc, below, tokens)?;
    Ok(Found {
        value: Stmt::Label(place, name, boxed(alloc, inner.value)?),
        height: inner.height + 1,
        rest: inner.rest,
    })
}

/// A statement that begins with this name: one with a label, or a simple one.
#[cycle(statement)]
#[tactic(auto, unfolding(crate::specs::StatementReading::name_open))]
fn named<'a, 't>(
    alloc: Global,
    below: u32,
    place: Place,
    name: Vec<u8>,
    height: u32,
    tokens: Tokens<'a, 't>,
) -> Result<Found<'a, 't, Stmt>, ReadError>
    requires limit { below < 2 ^ 29 }
    requires fits { height ≤ below + 1 }
    ensures gives { Finds statement_of tokens.now result
        (λ ts. name_open (below + 1) (statement_at below) place (Name name.items, height, ts) name.items) }
    ensures fits { AtMost (below + 1) result }
{
    match after(Mark::Colon, tokens) {
        Some(rest) => labelled(alloc, below, place, name, rest),
        None => plain(
            alloc,
            below + 1,
            place,
            Found {
                value: Expr::Name(name),
                height,
                rest: tokens,
            },
        ),
    }
}

/// A statement that begins with no keyword; its parts are of at most this height.
#[cycle(statement)]
#[tactic(auto, unfolding(crate::specs::StatementReading::open_at, crate::specs::StatementReading::open_after, crate::specs::SimpleReading::bare))]
fn opened<'a, 't>(
    alloc: Global,
    below: u32,
    place: Place,
    tokens: Tokens<'a, 't>,
) -> Result<Found<'a, 't, Stmt>, ReadError>
    requires { below < 2 ^ 29 }
    ensures gives { Finds statement_of tokens.now result (open_at (below + 1) (statement_at below) place) }
    ensures fits { AtMost (below + 1) result }
{
    let Found {
        value,
        height,
        rest,
    } = expr(alloc, 1, below + 1, tokens)?;
    match value {
        Expr::Name(name) => named(alloc, below, place, name, height, rest),
        value => plain(
            alloc,
            below + 1,
            place,
            Found {
                value,
                height,
                rest,
            },
        ),
    }
}

/// The statements up to a `}` or to the next clause of a select, each of at most this height.
#[cycle(statement)]
#[tactic(auto, unfolding(crate::specs::StatementReading::list_at))]
pub(crate) fn list<'a, 't>(
    alloc: Global,
    limit: u32,
    tokens: Tokens<'a, 't>,
) -> Result<Found<'a, 't, Vec<Stmt>>, ReadError>
    requires { limit < 2 ^ 29 }
    ensures gives { Finds (λ v. statements_of v.items) tokens.now result (list_at (statement_at limit)) }
    ensures fits { AtMost limit result }
{
    let mut found = Found {
        value: Vec::new(alloc),
        height: 0,
        rest: tokens,
    };
    while !stops(found.rest) {
        if let Some(more) = after(Mark::Semicolon, found.rest) {
            found.rest = more;
            continue;
        }
        let next = statement(alloc, limit, found.rest)?;
        push(&mut found.value, next.value)?;
        found.height = found.height.max(next.height);
        found.rest = past_semicolon(next.rest)?;
    }
    Ok(Found {
        value: fitted(found.value),
        height: found.height,
        rest: found.rest,
    })
}

/// A block, and where it closes; its statements are of at most this height.
#[cycle(statement)]
#[tactic(auto, unfolding(crate::specs::StatementReading::block_at))]
pub(crate) fn block<'a, 't>(
    alloc: Global,
    limit: u32,
    tokens: Tokens<'a, 't>,
) -> Result<Found<'a, 't, (Vec<Stmt>, Place)>, ReadError>
    requires { limit < 2 ^ 29 }
    ensures gives { Finds closed_of tokens.now result (block_at (statement_at limit)) }
    ensures fits { AtMost limit result }
{
    let (_, rest) = needed(Mark::LeftBrace, tokens)?;
    let body = list(alloc, limit, rest)?;
    let ((end, rest), body) = beside(needed(Mark::RightBrace, body.rest), body)?;
    Ok(Found {
        value: (body.value, end),
        height: body.height,
        rest,
    })
}

/// A block where a statement stands; its statements are of at most this height.
#[cycle(statement)]
#[tactic(auto, unfolding(crate::specs::StatementReading::braced_at))]
fn braced<'a, 't>(
    alloc: Global,
    below: u32,
    place: Place,
    tokens: Tokens<'a, 't>,
) -> Result<Found<'a, 't, Stmt>, ReadError>
    requires { below < 2 ^ 29 }
    ensures gives { Finds statement_of tokens.now result (braced_at (statement_at below) place) }
    ensures fits { AtMost (below + 1) result }
{
    let found = block(alloc, below, tokens)?;
    Ok(Found {
        value: block_stmt(place, found.value.0),
        height: found.height + 1,
        rest: found.rest,
    })
}

/// What follows the else of an if with this head and this block.
#[cycle(statement)]
#[tactic(auto, unfolding(crate::specs::StatementReading::else_at))]
fn otherwise<'a, 't>(
    alloc: Global,
    below: u32,
    place: Place,
    head: Found<'a, 't, IfHead>,
    body: Found<'a, 't, (Vec<Stmt>, Place)>,
    tokens: Tokens<'a, 't>,
) -> Result<Found<'a, 't, Stmt>, ReadError>
    requires limit { below < 2 ^ 29 }
    requires head { head.height ≤ below }
    requires body { body.height ≤ below }
    ensures gives { Finds statement_of tokens.now result
        (else_at (statement_at below) place (found_of if_of head.entry) (found_of closed_of body.entry)) }
    ensures fits { AtMost (below + 1) result }
{
    if after(Mark::If, tokens).is_some() {
        let (inner, (head, body)) = beside(statement(alloc, below, tokens), (head, body))?;
        let Ok(otherwise) = boxed(alloc, inner.value) else {
            return abandon((head, body), ReadError::Memory);
        };
        return Ok(Found {
            value: if_else_if(place, head.value, body.value.0, otherwise),
            height: head.height.max(body.height.max(inner.height)) + 1,
            rest: inner.rest,
        });
    }
    let (inner, (head, body)) = beside(block(alloc, below, tokens), (head, body))?;
    Ok(Found {
        value: if_else(place, head.value, body.value.0, inner.value.0),
        height: head.height.max(body.height.max(inner.height)) + 1,
        rest: inner.rest,
    })
}

/// An if, after its keyword; its parts are of at most this height.
#[cycle(statement)]
#[tactic(auto, unfolding(crate::specs::StatementReading::if_at))]
fn branch<'a, 't>(
    alloc: Global,
    below: u32,
    place: Place,
    tokens: Tokens<'a, 't>,
) -> Result<Found<'a, 't, Stmt>, ReadError>
    requires { below < 2 ^ 29 }
    ensures gives { Finds statement_of tokens.now result (if_at below (statement_at below) place) }
    ensures fits { AtMost (below + 1) result }
{
    let head = if_head(alloc, below, tokens)?;
    let (body, head) = beside(block(alloc, below, head.rest), head)?;
    let Some(rest) = after(Mark::Else, body.rest) else {
        return Ok(Found {
            value: if_stmt(place, head.value, body.value.0),
            height: head.height.max(body.height) + 1,
            rest: body.rest,
        });
    };
    otherwise(alloc, below, place, head, body, rest)
}

/// A for, after its keyword; its parts are of at most this height.
#[cycle(statement)]
#[tactic(auto, unfolding(crate::specs::StatementReading::for_at))]
fn looped<'a, 't>(
    alloc: Global,
    below: u32,
    place: Place,
    tokens: Tokens<'a, 't>,
) -> Result<Found<'a, 't, Stmt>, ReadError>
    requires { below < 2 ^ 29 }
    ensures gives { Finds statement_of tokens.now result (for_at below (statement_at below) place) }
    ensures fits { AtMost (below + 1) result }
{
    let head = for_head(alloc, below, tokens)?;
    let (body, head) = beside(block(alloc, below, head.rest), head)?;
    Ok(Found {
        value: for_stmt(place, head.value, body.value.0),
        height: head.height.max(body.height) + 1,
        rest: body.rest,
    })
}

/// A statement that begins with this keyword, before these tokens; from the keyword on they are `from`.
#[cycle(statement)]
#[tactic(auto, unfolding(crate::specs::StatementReading::keyed_at))]
fn keyed<'a, 't>(
    alloc: Global,
    below: u32,
    place: Place,
    keyword: Keyword,
    from: Tokens<'a, 't>,
    tokens: Tokens<'a, 't>,
) -> Result<Found<'a, 't, Stmt>, ReadError>
    requires { below < 2 ^ 29 }
    ensures gives { Finds statement_of tokens.now result
        (keyed_at below (statement_at below) place keyword (tokens_of from.now)) }
    ensures fits { AtMost (below + 1) result }
{
    match keyword {
        Keyword::Var => Ok(acts(place, var(alloc, below + 1, tokens)?)),
        Keyword::Go => Ok(acts(place, go(alloc, below + 1, tokens)?)),
        Keyword::Return => Ok(acts(place, returned(alloc, below + 1, tokens)?)),
        Keyword::Break => Ok(acts(place, break_from(alloc, tokens)?)),
        Keyword::Continue => Ok(acts(place, continue_from(alloc, tokens)?)),
        Keyword::Block => braced(alloc, below, place, from),
        Keyword::If => branch(alloc, below, place, tokens),
        Keyword::For => looped(alloc, below, place, tokens),
        Keyword::Select => select(alloc, below, place, tokens),
    }
}

/// A statement of at most this height.
#[cycle(statement)]
#[tactic(auto, unfolding(crate::specs::StatementReading::statement_at, crate::specs::StatementReading::tier_at))]
pub(crate) fn statement<'a, 't>(
    alloc: Global,
    limit: u32,
    tokens: Tokens<'a, 't>,
) -> Result<Found<'a, 't, Stmt>, ReadError>
    requires { limit < 2 ^ 29 }
    ensures gives { Finds statement_of tokens.now result (statement_at limit) }
    ensures fits { AtMost limit result }
{
    if limit == 0 {
        return Err(ReadError::TooHigh { left: tokens.len() });
    }
    let below = limit - 1;
    let place = place(tokens)?;
    match first_keyword(tokens) {
        Some((keyword, rest)) => keyed(alloc, below, place, keyword, tokens, rest),
        None => opened(alloc, below, place, tokens),
    }
}
