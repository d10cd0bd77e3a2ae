//! Reading what stands between `if` or `for` and its block.

ghost use Rattle.std.specs.Prelude.{◌<◌, ◌≤◌, List, ℕ, ◌^◌};
ghost use Rattle.gr_scan.specs.Tokens.{tokens_of};
ghost use Rattle.gr_tree.specs.Exprs.{Name, tree_of};
ghost use Rattle.gr_tree.specs.Statements.{heading_of, if_of, for_of, target_of, optional};
ghost use Rattle.gr_syntax.specs.SimpleReading.{place_at};
ghost use Rattle.gr_syntax.specs.StatementReading.{heading_after, tested, if_after, if_head_at, ranged, condition_at, post_at};
ghost use Rattle.gr_syntax.specs.StatementReading.{parts_at, target_at, for_init, for_named, for_after, for_head_at};
ghost use Rattle.gr_syntax.specs.Views.{Gives, Finds, Continues, AtMost};
ghost use Rattle.gr_syntax.specs.StatementViews.{SeesRange};

use crate::expression::expr;
use crate::look::{Found, ReadError, Tokens, after, beside, boxed, needed, next};
use crate::simple::simple;
use gr_scan::token::{Mark, Place};
use gr_tree::{Expr, ForHead, Header, IfHead, RangeTarget};
use std::alloc::Global;

/// The place of the first token.
#[tactic(auto, unfolding(crate::specs::SimpleReading::place_at))]
pub(crate) fn place(tokens: Tokens<'_, '_>) -> Result<Place, ReadError>
    ensures { Gives (λ p. p) result (place_at (tokens_of tokens.now)) }
{
    let Some((token, _)) = next(tokens) else {
        return Err(ReadError::Wrong { left: 0 });
    };
    Ok(token.place())
}

/// A simple statement in a heading, which begins with this expression at this place.
#[tactic(auto, unfolding(crate::specs::StatementReading::heading_after))]
fn heading<'a, 't>(
    alloc: Global,
    limit: u32,
    may_define: bool,
    place: Place,
    first: Found<'a, 't, Expr>,
) -> Result<Found<'a, 't, Box<Header>>, ReadError>
    requires limit { limit < 2 ^ 30 }
    requires fits { first.height ≤ limit }
    ensures gives { Continues heading_of first.entry result (heading_after limit may_define place) }
    ensures fits { AtMost limit result }
{
    let found = simple(alloc, limit, may_define, first)?;
    let header = Header {
        place,
        simple: found.value,
    };
    Ok(Found {
        value: boxed(alloc, header)?,
        height: found.height,
        rest: found.rest,
    })
}

/// The condition of an if, after what stands before it.
#[tactic(auto, unfolding(crate::specs::StatementReading::tested))]
fn condition_of_if<'a, 't>(
    alloc: Global,
    limit: u32,
    init: Option<Box<Header>>,
    height: u32,
    tokens: Tokens<'a, 't>,
) -> Result<Found<'a, 't, IfHead>, ReadError>
    requires limit { limit < 2 ^ 30 }
    requires fits { height ≤ limit }
    ensures gives { Finds if_of tokens.now result (tested limit (optional heading_of init) height) }
    ensures fits { AtMost limit result }
{
    let (condition, init) = beside(expr(alloc, 1, limit, tokens), init)?;
    Ok(Found {
        value: IfHead {
            init,
            condition: condition.value,
        },
        height: height.max(condition.height),
        rest: condition.rest,
    })
}

/// What stands between `if` and its block, and begins with this expression.
#[tactic(auto, unfolding(crate::specs::StatementReading::if_after))]
fn if_from<'a, 't>(
    alloc: Global,
    limit: u32,
    place: Place,
    first: Found<'a, 't, Expr>,
) -> Result<Found<'a, 't, IfHead>, ReadError>
    requires limit { limit < 2 ^ 30 }
    requires fits { first.height ≤ limit }
    ensures gives { Continues if_of first.entry result (if_after limit place) }
    ensures fits { AtMost limit result }
{
    if let Some(_) = after(Mark::LeftBrace, first.rest) {
        return Ok(first.map(|condition| IfHead {
            init: None,
            condition,
        }));
    }
    let init = heading(alloc, limit, true, place, first)?;
    let ((_, rest), init) = beside(needed(Mark::Semicolon, init.rest), init)?;
    condition_of_if(alloc, limit, Some(init.value), init.height, rest)
}

/// What stands between `if` and its block.
#[tactic(auto, unfolding(crate::specs::StatementReading::if_head_at))]
pub(crate) fn if_head<'a, 't>(
    alloc: Global,
    limit: u32,
    tokens: Tokens<'a, 't>,
) -> Result<Found<'a, 't, IfHead>, ReadError>
    requires { limit < 2 ^ 30 }
    ensures gives { Finds if_of tokens.now result (if_head_at limit) }
    ensures fits { AtMost limit result }
{
    if let Some(rest) = after(Mark::Semicolon, tokens) {
        return condition_of_if(alloc, limit, None, 0, rest);
    }
    let place = place(tokens)?;
    let first = expr(alloc, 1, limit, tokens)?;
    if_from(alloc, limit, place, first)
}

/// The channel of a range with this target, after `range`.
#[tactic(auto, unfolding(crate::specs::StatementReading::ranged))]
fn range<'a, 't>(
    alloc: Global,
    limit: u32,
    target: RangeTarget,
    tokens: Tokens<'a, 't>,
) -> Result<Found<'a, 't, ForHead>, ReadError>
    requires { limit < 2 ^ 30 }
    ensures gives { Finds for_of tokens.now result (ranged limit (target_of target)) }
    ensures fits { AtMost limit result }
{
    let channel = expr(alloc, 1, limit, tokens)?;
    Ok(channel.map(|channel| ForHead::Range(target, channel)))
}

/// The condition of a for of three parts, if it has one.
#[tactic(auto, unfolding(crate::specs::StatementReading::condition_at))]
fn condition_of_for<'a, 't>(
    alloc: Global,
    limit: u32,
    tokens: Tokens<'a, 't>,
) -> Result<Found<'a, 't, Option<Expr>>, ReadError>
    requires { limit < 2 ^ 30 }
    ensures gives { Finds (optional tree_of) tokens.now result (condition_at limit) }
    ensures fits { AtMost limit result }
{
    if let Some(_) = after(Mark::Semicolon, tokens) {
        return Ok(Found {
            value: None,
            height: 0,
            rest: tokens,
        });
    }
    let condition = expr(alloc, 1, limit, tokens)?;
    Ok(condition.map(|condition| Some(condition)))
}

/// The post statement of a for, if it has one.
#[tactic(auto, unfolding(crate::specs::StatementReading::post_at))]
fn post<'a, 't>(
    alloc: Global,
    limit: u32,
    tokens: Tokens<'a, 't>,
) -> Result<Found<'a, 't, Option<Box<Header>>>, ReadError>
    requires { limit < 2 ^ 30 }
    ensures gives { Finds (optional heading_of) tokens.now result (post_at limit) }
    ensures fits { AtMost limit result }
{
    if let Some(_) = after(Mark::LeftBrace, tokens) {
        return Ok(Found {
            value: None,
            height: 0,
            rest: tokens,
        });
    }
    let place = place(tokens)?;
    let first = expr(alloc, 1, limit, tokens)?;
    let post = heading(alloc, limit, false, place, first)?;
    Ok(post.map(|post| Some(post)))
}

/// The condition and the third part of a for, after its first semicolon.
#[tactic(auto, unfolding(crate::specs::StatementReading::parts_at))]
fn parts<'a, 't>(
    alloc: Global,
    limit: u32,
    init: Option<Box<Header>>,
    height: u32,
    tokens: Tokens<'a, 't>,
) -> Result<Found<'a, 't, ForHead>, ReadError>
    requires limit { limit < 2 ^ 30 }
    requires fits { height ≤ limit }
    ensures gives { Finds for_of tokens.now result (parts_at limit (optional heading_of init) height) }
    ensures fits { AtMost limit result }
{
    let (condition, init) = beside(condition_of_for(alloc, limit, tokens), init)?;
    let ((_, rest), held) = beside(needed(Mark::Semicolon, condition.rest), (init, condition))?;
    let (post, (init, condition)) = beside(post(alloc, limit, rest), held)?;
    Ok(Found {
        value: ForHead::Loop(init, condition.value, post.value),
        height: height.max(condition.height.max(post.height)),
        rest: post.rest,
    })
}

/// The tokens after `=` or `:=` and `range`, and whether it is `:=`.
#[tactic(auto, unfolding(crate::specs::StatementReading::target_at))]
fn range_mark<'a, 't>(tokens: Tokens<'a, 't>) -> Option<(bool, Tokens<'a, 't>)>
    ensures { (x : List ℕ) → SeesRange x result (target_at x (tokens_of tokens.now)) }
{
    if let Some(mid) = after(Mark::Assign, tokens) {
        let Some(rest) = after(Mark::Range, mid) else {
            return None;
        };
        return Some((false, rest));
    }
    let Some(mid) = after(Mark::Define, tokens) else {
        return None;
    };
    let Some(rest) = after(Mark::Range, mid) else {
        return None;
    };
    Some((true, rest))
}

/// A for of three parts that begins with this expression.
#[tactic(auto, unfolding(crate::specs::StatementReading::for_init))]
fn for_parts<'a, 't>(
    alloc: Global,
    limit: u32,
    place: Place,
    first: Found<'a, 't, Expr>,
) -> Result<Found<'a, 't, ForHead>, ReadError>
    requires limit { limit < 2 ^ 30 }
    requires fits { first.height ≤ limit }
    ensures gives { Continues for_of first.entry result (for_init limit place) }
    ensures fits { AtMost limit result }
{
    let init = heading(alloc, limit, true, place, first)?;
    let ((_, rest), init) = beside(needed(Mark::Semicolon, init.rest), init)?;
    parts(alloc, limit, Some(init.value), init.height, rest)
}

/// What stands between `for` and its block, and begins with this name.
#[tactic(auto, unfolding(crate::specs::StatementReading::for_named))]
fn for_name<'a, 't>(
    alloc: Global,
    limit: u32,
    place: Place,
    name: Vec<u8>,
    height: u32,
    tokens: Tokens<'a, 't>,
) -> Result<Found<'a, 't, ForHead>, ReadError>
    requires limit { limit < 2 ^ 30 }
    requires fits { height ≤ limit }
    ensures gives { Finds for_of tokens.now result (λ ts. for_named limit place (Name name.items, height, ts) name.items) }
    ensures fits { AtMost limit result }
{
    match range_mark(tokens) {
        Some((true, rest)) => range(alloc, limit, RangeTarget::Define(name), rest),
        Some((false, rest)) => range(alloc, limit, RangeTarget::Assign(name), rest),
        None => for_parts(
            alloc,
            limit,
            place,
            Found {
                value: Expr::Name(name),
                height,
                rest: tokens,
            },
        ),
    }
}

/// What stands between `for` and its block, and begins with this expression.
#[tactic(auto, unfolding(crate::specs::StatementReading::for_after, crate::specs::SimpleReading::bare))]
fn for_from<'a, 't>(
    alloc: Global,
    limit: u32,
    place: Place,
    first: Found<'a, 't, Expr>,
) -> Result<Found<'a, 't, ForHead>, ReadError>
    requires limit { limit < 2 ^ 30 }
    requires fits { first.height ≤ limit }
    ensures gives { Continues for_of first.entry result (for_after limit place) }
    ensures fits { AtMost limit result }
{
    let Found {
        value,
        height,
        rest,
    } = first;
    if let Some(_) = after(Mark::LeftBrace, rest) {
        return Ok(Found {
            value: ForHead::Loop(None, Some(value), None),
            height,
            rest,
        });
    }
    match value {
        Expr::Name(name) => for_name(alloc, limit, place, name, height, rest),
        value => for_parts(
            alloc,
            limit,
            place,
            Found {
                value,
                height,
                rest,
            },
        ),
    }
}

/// What stands between `for` and its block.
#[tactic(auto, unfolding(crate::specs::StatementReading::for_head_at))]
pub(crate) fn for_head<'a, 't>(
    alloc: Global,
    limit: u32,
    tokens: Tokens<'a, 't>,
) -> Result<Found<'a, 't, ForHead>, ReadError>
    requires { limit < 2 ^ 30 }
    ensures gives { Finds for_of tokens.now result (for_head_at limit) }
    ensures fits { AtMost limit result }
{
    if let Some(_) = after(Mark::LeftBrace, tokens) {
        return Ok(Found {
            value: ForHead::Loop(None, None, None),
            height: 0,
            rest: tokens,
        });
    }
    if let Some(rest) = after(Mark::Range, tokens) {
        return range(alloc, limit, RangeTarget::Nothing, rest);
    }
    if let Some(rest) = after(Mark::Semicolon, tokens) {
        return parts(alloc, limit, None, 0, rest);
    }
    let place = place(tokens)?;
    let first = expr(alloc, 1, limit, tokens)?;
    for_from(alloc, limit, place, first)
}
