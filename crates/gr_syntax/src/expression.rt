//! Reading expressions, by precedence.

ghost use Rattle.std.specs.Prelude.{◌≡◌, ◌+◌, ◌<◌, ◌≤◌, IfOk, ◌^◌};
ghost use Rattle.gr_scan.specs.Tokens.{tokens_of};
ghost use Rattle.gr_tree.specs.Exprs.{tree_of, trees_of, type_of};
ghost use Rattle.gr_syntax.specs.Reading.{size_at, ends_at, exprs_at, arguments_at, call_at, close_at, make_at, named_at};
ghost use Rattle.gr_syntax.specs.Reading.{unit_at, paren_at, word_at, unary_at, type_at, expr_at};
ghost use Rattle.gr_syntax.specs.Views.{Gives, Finds, found_of, AtMost};

use crate::joining::{join, precedence};
use crate::look::{
    Found, ReadError, Tokens, abandon, after, beside, binary, boxed, boxed_copy, copy, fitted,
    is_the_make, needed, next, push, unary,
};
use crate::types::type_tree;
use gr_scan::token::{Kind, Mark};
use gr_tree::{Expr, TypeTree};
use std::alloc::Global;

/// A precedence above that of every binary operator: that of a unary operator's operand.
const TIGHT: u32 = 6;

/// `{}{}`, after `struct`.
#[tactic(auto, unfolding(crate::specs::Reading::unit_at))]
fn unit<'a, 't>(tokens: Tokens<'a, 't>) -> Result<Found<'a, 't, Expr>, ReadError>
    ensures gives { Finds tree_of tokens.now result unit_at }
    ensures fits { IfOk result (λ f. f.height ≡ 1) }
{
    let (_, rest) = needed(Mark::LeftBrace, tokens)?;
    let (_, rest) = needed(Mark::RightBrace, rest)?;
    let (_, rest) = needed(Mark::LeftBrace, rest)?;
    let (_, rest) = needed(Mark::RightBrace, rest)?;
    Ok(Found {
        value: Expr::Unit,
        height: 1,
        rest,
    })
}

/// The tokens after a `)`, before which a comma may stand.
#[tactic(auto, unfolding(crate::specs::Reading::close_at))]
fn close<'a, 't>(tokens: Tokens<'a, 't>) -> Result<Tokens<'a, 't>, ReadError>
    ensures gives { Gives (λ rest. tokens_of rest.now) result (close_at (tokens_of tokens.now)) }
{
    if let Some(rest) = after(Mark::Comma, tokens) {
        let (_, rest) = needed(Mark::RightParen, rest)?;
        return Ok(rest);
    }
    let (_, rest) = needed(Mark::RightParen, tokens)?;
    Ok(rest)
}

/// The size in a make of this type, after the comma before it; it is of at most this height.
#[cycle(parser)]
#[tactic(auto, unfolding(crate::specs::Reading::size_at))]
fn sized<'a, 't>(
    alloc: Global,
    below: u32,
    made: Found<'a, 't, TypeTree>,
    tokens: Tokens<'a, 't>,
) -> Result<Found<'a, 't, Expr>, ReadError>
    requires limit { below < 2 ^ 31 }
    requires fits { made.height ≤ below }
    ensures gives { Finds tree_of tokens.now result (size_at (expr_at below) (found_of type_of made.entry)) }
    ensures fits { AtMost (below + 1) result }
{
    let (size, made) = beside(expr(alloc, 1, below, tokens), made)?;
    let (rest, (made, size)) = beside(close(size.rest), (made, size))?;
    let height = made.height.max(size.height) + 1;
    let Ok(type_tree) = boxed(alloc, made.value) else {
        return abandon(size, ReadError::Memory);
    };
    let Ok(size) = boxed(alloc, size.value) else {
        return abandon(type_tree, ReadError::Memory);
    };
    Ok(Found {
        value: Expr::MakeSized(type_tree, size),
        height,
        rest,
    })
}

/// A make, after its `(`; its type and its size are of at most this height.
#[cycle(parser)]
#[tactic(auto, unfolding(crate::specs::Reading::make_at, crate::specs::Reading::make_after))]
fn make<'a, 't>(
    alloc: Global,
    below: u32,
    tokens: Tokens<'a, 't>,
) -> Result<Found<'a, 't, Expr>, ReadError>
    requires { below < 2 ^ 31 }
    ensures gives { Finds tree_of tokens.now result (make_at (type_at below) (expr_at below)) }
    ensures fits { AtMost (below + 1) result }
{
    let made = type_tree(alloc, below, tokens)?;
    let Some(rest) = after(Mark::Comma, made.rest) else {
        let ((_, rest), made) = beside(needed(Mark::RightParen, made.rest), made)?;
        return Ok(Found {
            value: Expr::Make(made.value),
            height: made.height + 1,
            rest,
        });
    };
    if let Some(rest) = after(Mark::RightParen, rest) {
        return Ok(Found {
            value: Expr::Make(made.value),
            height: made.height + 1,
            rest,
        });
    }
    sized(alloc, below, made, rest)
}

/// What begins with this name: a call, a make, or the name alone; its parts are of at most this height.
#[cycle(parser)]
#[tactic(auto, unfolding(crate::specs::Reading::named_at, crate::specs::Reading::call_at))]
fn named<'a, 't>(
    alloc: Global,
    below: u32,
    name: &[u8],
    tokens: Tokens<'a, 't>,
) -> Result<Found<'a, 't, Expr>, ReadError>
    requires { below < 2 ^ 31 }
    ensures gives { Finds tree_of tokens.now result (named_at (type_at below) (expr_at below) name.now) }
    ensures fits { AtMost (below + 1) result }
{
    let Some(rest) = after(Mark::LeftParen, tokens) else {
        return Ok(Found {
            value: Expr::Name(copy(alloc, name)?),
            height: 1,
            rest: tokens,
        });
    };
    if is_the_make(name) {
        return make(alloc, below, rest);
    }
    let passed = arguments(alloc, below, rest)?;
    let Ok(function) = boxed_copy(alloc, name) else {
        return abandon(passed, ReadError::Memory);
    };
    Ok(Found {
        value: Expr::Call(function, passed.value),
        height: passed.height + 1,
        rest: passed.rest,
    })
}

/// A number, a string, or what begins with a name; its parts are of at most this height.
#[cycle(parser)]
#[tactic(auto, unfolding(crate::specs::Reading::word_at))]
fn word<'a, 't>(
    alloc: Global,
    below: u32,
    tokens: Tokens<'a, 't>,
) -> Result<Found<'a, 't, Expr>, ReadError>
    requires { below < 2 ^ 31 }
    ensures gives { Finds tree_of tokens.now result (word_at (type_at below) (expr_at below)) }
    ensures fits { AtMost (below + 1) result }
{
    let left = tokens.len();
    let Some((token, rest)) = next(tokens) else {
        return Err(ReadError::Wrong { left });
    };
    let value = match &token.kind {
        Kind::Name(name) => return named(alloc, below, name, rest),
        Kind::Number(number) => Expr::Number(*number),
        Kind::Text(bytes) => Expr::Text(copy(alloc, bytes.as_slice())?),
        Kind::Mark(_) => return Err(ReadError::Wrong { left }),
    };
    Ok(Found {
        value,
        height: 1,
        rest,
    })
}

/// An expression in parentheses, after the first of them; the inner expression is of at most this height.
#[cycle(parser)]
#[tactic(auto, unfolding(crate::specs::Reading::paren_at))]
fn paren<'a, 't>(
    alloc: Global,
    below: u32,
    tokens: Tokens<'a, 't>,
) -> Result<Found<'a, 't, Expr>, ReadError>
    requires { below < 2 ^ 31 }
    ensures gives { Finds tree_of tokens.now result (paren_at (expr_at below)) }
    ensures fits { AtMost (below + 1) result }
{
    let inner = expr(alloc, 1, below, tokens)?;
    let ((_, rest), inner) = beside(needed(Mark::RightParen, inner.rest), inner)?;
    Ok(Found {
        value: Expr::Paren(boxed(alloc, inner.value)?),
        height: inner.height + 1,
        rest,
    })
}

/// What no binary operator joins (Go: Operands, Unary operators); its parts are of at most this height.
#[cycle(parser)]
#[tactic(auto, unfolding(crate::specs::Reading::unary_at))]
pub(crate) fn operand<'a, 't>(
    alloc: Global,
    below: u32,
    tokens: Tokens<'a, 't>,
) -> Result<Found<'a, 't, Expr>, ReadError>
    requires { below < 2 ^ 31 }
    ensures gives { Finds tree_of tokens.now result (unary_at (type_at below) (expr_at below)) }
    ensures fits { AtMost (below + 1) result }
{
    if let Some(rest) = after(Mark::LeftParen, tokens) {
        return paren(alloc, below, rest);
    }
    if let Some((op, rest)) = unary(tokens) {
        let inner = expr(alloc, TIGHT, below, rest)?;
        return Ok(Found {
            value: Expr::Unary(op, boxed(alloc, inner.value)?),
            height: inner.height + 1,
            rest: inner.rest,
        });
    }
    match after(Mark::Struct, tokens) {
        Some(rest) => unit(rest),
        None => word(alloc, below, tokens),
    }
}

/// An expression of at most this height, whose operators bind at least as strongly as `level`, by precedence climbing.
#[cycle(parser)]
#[tactic(auto, unfolding(crate::specs::Reading::expr_at, crate::specs::Reading::chain_turn))]
pub(crate) fn expr<'a, 't>(
    alloc: Global,
    level: u32,
    limit: u32,
    tokens: Tokens<'a, 't>,
) -> Result<Found<'a, 't, Expr>, ReadError>
    requires limit { limit < 2 ^ 31 }
    requires level { 0 < level }
    ensures gives { Finds tree_of tokens.now result (expr_at limit level) }
    ensures fits { AtMost limit result }
{
    if limit == 0 {
        return Err(ReadError::TooHigh { left: tokens.len() });
    }
    let below = limit - 1;
    let mut left = operand(alloc, below, tokens)?;
    while let Some((op, rest)) = binary(left.rest) {
        if precedence(op) < level {
            break;
        }
        if left.height > below {
            return abandon(left, ReadError::TooHigh { left: tokens.len() });
        }
        let right = match expr(alloc, precedence(op) + 1, below, rest) {
            Ok(right) => right,
            Err(fault) => return abandon(left, fault),
        };
        let joined = join(alloc, op, left, right)?;
        left = joined;
    }
    Ok(left)
}

/// Whether a `)` comes next, where a list may end so after a comma.
#[tactic(auto, unfolding(crate::specs::Reading::ends_at))]
fn ends(trailing: bool, tokens: Tokens<'_, '_>) -> bool
    ensures { result ≡ ends_at trailing (tokens_of tokens.now) }
{
    if trailing {
        after(Mark::RightParen, tokens).is_some()
    } else {
        false
    }
}

/// Expressions of at most this height with commas between them; where `trailing`, one more comma may stand before a `)`.
#[cycle(parser)]
#[tactic(auto, unfolding(crate::specs::Reading::exprs_at))]
pub(crate) fn exprs<'a, 't>(
    alloc: Global,
    limit: u32,
    trailing: bool,
    tokens: Tokens<'a, 't>,
) -> Result<Found<'a, 't, Vec<Expr>>, ReadError>
    requires { limit < 2 ^ 31 }
    ensures gives { Finds (λ v. trees_of v.items) tokens.now result (exprs_at (expr_at limit) trailing) }
    ensures fits { AtMost limit result }
{
    let mut found = Found {
        value: Vec::new(alloc),
        height: 0,
        rest: tokens,
    };
    loop {
        let next = match expr(alloc, 1, limit, found.rest) {
            Ok(next) => next,
            Err(fault) => return abandon(found, fault),
        };
        push(&mut found.value, next.value)?;
        found.height = found.height.max(next.height);
        found.rest = next.rest;
        let Some(more) = after(Mark::Comma, found.rest) else {
            return Ok(Found {
                value: fitted(found.value),
                height: found.height,
                rest: found.rest,
            });
        };
        found.rest = more;
        if ends(trailing, found.rest) {
            return Ok(Found {
                value: fitted(found.value),
                height: found.height,
                rest: found.rest,
            });
        }
    }
}

/// The arguments of a call, after its `(` and with its `)`, each of at most this height.
#[cycle(parser)]
#[tactic(auto, unfolding(crate::specs::Reading::arguments_at))]
pub(crate) fn arguments<'a, 't>(
    alloc: Global,
    limit: u32,
    tokens: Tokens<'a, 't>,
) -> Result<Found<'a, 't, Vec<Expr>>, ReadError>
    requires { limit < 2 ^ 31 }
    ensures gives { Finds (λ v. trees_of v.items) tokens.now result (arguments_at (expr_at limit)) }
    ensures fits { AtMost limit result }
{
    if let Some(rest) = after(Mark::RightParen, tokens) {
        return Ok(Found {
            value: Vec::new(alloc),
            height: 0,
            rest,
        });
    }
    let listed = exprs(alloc, limit, true, tokens)?;
    let ((_, rest), listed) = beside(needed(Mark::RightParen, listed.rest), listed)?;
    Ok(Found {
        value: listed.value,
        height: listed.height,
        rest,
    })
}
