//! Reading types.

ghost use Rattle.std.specs.Prelude.{◌≡◌, ◌+◌, ◌<◌, IfOk, ◌^◌};
ghost use Rattle.gr_tree.specs.Exprs.{type_of};
ghost use Rattle.gr_syntax.specs.Reading.{channel_at, both_at, paren_type_at, plain_type_at, type_at};
ghost use Rattle.gr_syntax.specs.Views.{Finds, AtMost};

use crate::look::{Found, ReadError, Tokens, after, beside, boxed, copy, name, needed};
use gr_scan::token::Mark;
use gr_tree::{Direction, TypeTree};
use std::alloc::Global;

/// A name, or `struct{}`.
#[tactic(auto, unfolding(crate::specs::Reading::plain_type_at))]
fn plain_type<'a, 't>(
    alloc: Global,
    tokens: Tokens<'a, 't>,
) -> Result<Found<'a, 't, TypeTree>, ReadError>
    ensures gives { Finds type_of tokens.now result plain_type_at }
    ensures fits { IfOk result (λ f. f.height ≡ 1) }
{
    if let Some(rest) = after(Mark::Struct, tokens) {
        let (_, rest) = needed(Mark::LeftBrace, rest)?;
        let (_, rest) = needed(Mark::RightBrace, rest)?;
        return Ok(Found {
            value: TypeTree::Unit,
            height: 1,
            rest,
        });
    }
    let (first, rest) = name(tokens)?;
    Ok(Found {
        value: TypeTree::Name(copy(alloc, first)?),
        height: 1,
        rest,
    })
}

/// A channel type whose element, of at most this height, begins here.
#[cycle(types)]
#[tactic(auto, unfolding(crate::specs::Reading::channel_at))]
fn channel<'a, 't>(
    alloc: Global,
    below: u32,
    direction: Direction,
    tokens: Tokens<'a, 't>,
) -> Result<Found<'a, 't, TypeTree>, ReadError>
    requires { below < 2 ^ 31 }
    ensures gives { Finds type_of tokens.now result (channel_at (type_at below) direction) }
    ensures fits { AtMost (below + 1) result }
{
    let element = type_tree(alloc, below, tokens)?;
    Ok(Found {
        value: TypeTree::Chan(direction, boxed(alloc, element.value)?),
        height: element.height + 1,
        rest: element.rest,
    })
}

/// A type in parentheses, after the first of them; the inner type is of at most this height.
#[cycle(types)]
#[tactic(auto, unfolding(crate::specs::Reading::paren_type_at))]
fn paren_type<'a, 't>(
    alloc: Global,
    below: u32,
    tokens: Tokens<'a, 't>,
) -> Result<Found<'a, 't, TypeTree>, ReadError>
    requires { below < 2 ^ 31 }
    ensures gives { Finds type_of tokens.now result (paren_type_at (type_at below)) }
    ensures fits { AtMost (below + 1) result }
{
    let inner = type_tree(alloc, below, tokens)?;
    let ((_, rest), inner) = beside(needed(Mark::RightParen, inner.rest), inner)?;
    Ok(Found {
        value: TypeTree::Paren(boxed(alloc, inner.value)?),
        height: inner.height + 1,
        rest,
    })
}

/// A type of at most this height. A `<-` after `chan` belongs to that `chan`.
#[cycle(types)]
#[tactic(auto, unfolding(crate::specs::Reading::type_at, crate::specs::Reading::type_from, crate::specs::Reading::both_at))]
pub(crate) fn type_tree<'a, 't>(
    alloc: Global,
    limit: u32,
    tokens: Tokens<'a, 't>,
) -> Result<Found<'a, 't, TypeTree>, ReadError>
    requires { limit < 2 ^ 31 }
    ensures gives { Finds type_of tokens.now result (type_at limit) }
    ensures fits { AtMost limit result }
{
    if limit == 0 {
        return Err(ReadError::TooHigh { left: tokens.len() });
    }
    let below = limit - 1;
    if let Some(rest) = after(Mark::Chan, tokens) {
        return match after(Mark::Arrow, rest) {
            Some(rest) => channel(alloc, below, Direction::Send, rest),
            None => channel(alloc, below, Direction::Both, rest),
        };
    }
    if let Some(rest) = after(Mark::Arrow, tokens) {
        let (_, rest) = needed(Mark::Chan, rest)?;
        return channel(alloc, below, Direction::Receive, rest);
    }
    match after(Mark::LeftParen, tokens) {
        Some(rest) => paren_type(alloc, below, rest),
        None => plain_type(alloc, tokens),
    }
}
