//! Reading what a clause of a select waits for.

ghost use Rattle.std.specs.Prelude.{◌≡◌, ◌<◌, ◌≤◌, IfOk, ◌^◌};
ghost use Rattle.gr_tree.specs.Exprs.{tree_of, names_of};
ghost use Rattle.gr_tree.specs.Statements.{comm_of};
ghost use Rattle.gr_syntax.specs.StatementReading.{is_receive, receive_at, received_at, comm_names, comm_alone, comm_sent};
ghost use Rattle.gr_syntax.specs.StatementReading.{comm_at};
ghost use Rattle.gr_syntax.specs.Views.{Finds, Continues, found_of, AtMost};

use crate::expression::{expr, operand};
use crate::look::{Found, ReadError, Tokens, abandon, after, beside, boxed, copy, name, needed};
use gr_scan::token::Mark;
use gr_tree::{Communication, Expr, UnaryOp};
use std::alloc::Global;

/// Whether an expression is a receive, in parentheses or not.
fn is_receive(value: &Expr) -> bool
    ensures { result ≡ is_receive (tree_of value.now) }
{
    match value {
        Expr::Unary(UnaryOp::Receive, _) => true,
        Expr::Paren(inner) => is_receive(inner),
        _ => false,
    }
}

/// A receive of at most this height, in parentheses or not.
#[tactic(auto, unfolding(crate::specs::StatementReading::receive_at))]
fn receive<'a, 't>(
    alloc: Global,
    limit: u32,
    tokens: Tokens<'a, 't>,
) -> Result<Found<'a, 't, Expr>, ReadError>
    requires { limit < 2 ^ 30 }
    ensures gives { Finds tree_of tokens.now result (receive_at limit) }
    ensures fits { AtMost limit result }
{
    if limit == 0 {
        return Err(ReadError::TooHigh { left: tokens.len() });
    }
    if let Some(rest) = after(Mark::LeftParen, tokens) {
        let inner = receive(alloc, limit - 1, rest)?;
        let ((_, rest), inner) = beside(needed(Mark::RightParen, inner.rest), inner)?;
        return Ok(Found {
            value: Expr::Paren(boxed(alloc, inner.value)?),
            height: inner.height + 1,
            rest,
        });
    }
    let Some(_) = after(Mark::Arrow, tokens) else {
        return Err(ReadError::Wrong { left: tokens.len() });
    };
    operand(alloc, limit - 1, tokens)
}

/// What follows the names of a receive in a select.
#[tactic(auto, unfolding(crate::specs::StatementReading::received_at))]
fn received<'a, 't>(
    alloc: Global,
    limit: u32,
    names: Vec<Vec<u8>>,
    tokens: Tokens<'a, 't>,
) -> Result<Found<'a, 't, Communication>, ReadError>
    requires { limit < 2 ^ 30 }
    ensures gives { Finds comm_of tokens.now result (received_at limit (names_of names.items)) }
    ensures fits { AtMost limit result }
{
    if let Some(rest) = after(Mark::Define, tokens) {
        let value = receive(alloc, limit, rest)?;
        return Ok(value.map(|value| Communication::Define(names, value)));
    }
    let (_, rest) = needed(Mark::Assign, tokens)?;
    let value = receive(alloc, limit, rest)?;
    Ok(value.map(|value| Communication::Assign(names, value)))
}

/// What follows the first name of a receive in a select.
#[tactic(auto, unfolding(crate::specs::StatementReading::comm_names))]
fn named<'a, 't>(
    alloc: Global,
    limit: u32,
    first: Vec<u8>,
    tokens: Tokens<'a, 't>,
) -> Result<Found<'a, 't, Communication>, ReadError>
    requires { limit < 2 ^ 30 }
    ensures gives { Finds comm_of tokens.now result (comm_names limit first.items) }
    ensures fits { AtMost limit result }
{
    let Some(rest) = after(Mark::Comma, tokens) else {
        return received(alloc, limit, vec![in alloc; first]?, tokens);
    };
    let (second, rest) = name(rest)?;
    let second = copy(alloc, second)?;
    received(alloc, limit, vec![in alloc; first, second]?, rest)
}

/// This expression, which has to be a receive.
fn alone<'a, 't>(value: Found<'a, 't, Expr>) -> Result<Found<'a, 't, Communication>, ReadError>
    ensures gives { Continues comm_of value.entry result comm_alone }
    ensures fits { IfOk result (λ f. f.height ≡ value.entry.height) }
{
    if is_receive(&value.value) {
        return Ok(value.map(|value| Communication::Receive(value)));
    }
    let left = value.rest.len();
    abandon(value, ReadError::Wrong { left })
}

/// A send on this channel, after its `<-`.
fn send<'a, 't>(
    alloc: Global,
    limit: u32,
    channel: Found<'a, 't, Expr>,
    tokens: Tokens<'a, 't>,
) -> Result<Found<'a, 't, Communication>, ReadError>
    requires limit { limit < 2 ^ 30 }
    requires fits { channel.height ≤ limit }
    ensures gives { Finds comm_of tokens.now result (comm_sent limit (found_of tree_of channel.entry)) }
    ensures fits { AtMost limit result }
{
    let (value, channel) = beside(expr(alloc, 1, limit, tokens), channel)?;
    Ok(Found {
        value: Communication::Send(channel.value, value.value),
        height: channel.height.max(value.height),
        rest: value.rest,
    })
}

/// What a clause of a select waits for, after `case`.
#[tactic(auto, unfolding(crate::specs::StatementReading::comm_at, crate::specs::StatementReading::comm_after, crate::specs::SimpleReading::bare))]
pub(crate) fn communication<'a, 't>(
    alloc: Global,
    limit: u32,
    tokens: Tokens<'a, 't>,
) -> Result<Found<'a, 't, Communication>, ReadError>
    requires { limit < 2 ^ 30 }
    ensures gives { Finds comm_of tokens.now result (comm_at limit) }
    ensures fits { AtMost limit result }
{
    let Found {
        value,
        height,
        rest,
    } = expr(alloc, 1, limit, tokens)?;
    if let Some(tokens) = after(Mark::Arrow, rest) {
        return send(
            alloc,
            limit,
            Found {
                value,
                height,
                rest,
            },
            tokens,
        );
    }
    match value {
        Expr::Name(name) => named(alloc, limit, name, rest),
        value => alone(Found {
            value,
            height,
            rest,
        }),
    }
}
