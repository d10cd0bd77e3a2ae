//! Reading simple statements.

ghost use Rattle.std.specs.Prelude.{[], ◌<◌, ◌≤◌, ◌^◌};
ghost use Rattle.gr_scan.specs.Tokens.{tokens_of};
ghost use Rattle.gr_tree.specs.Exprs.{Name, tree_of, names_of};
ghost use Rattle.gr_tree.specs.Statements.{simple_of};
ghost use Rattle.gr_syntax.specs.SimpleReading.{up_to, define_at, values_at, names_from, update_at, alone_at, sent_at, joined_at};
ghost use Rattle.gr_syntax.specs.SimpleReading.{simple_named, simple_after};
ghost use Rattle.gr_syntax.specs.Views.{Finds, Continues, AtMost, Sees};

use crate::expression::{expr, exprs};
use crate::look::{Found, ReadError, Tokens, abandon, after, beside, fitted, names, needed};
use crate::opening::{Joint, first_joint};
use gr_scan::token::Mark;
use gr_tree::{BinaryOp, Expr, Simple};
use std::alloc::Global;

/// The tokens after a `:=`, where one may stand and comes first.
#[tactic(auto, unfolding(crate::specs::SimpleReading::define_at))]
fn define<'a, 't>(may_define: bool, tokens: Tokens<'a, 't>) -> Option<Tokens<'a, 't>>
    ensures value { Sees result (define_at may_define (tokens_of tokens.now)) }
{
    if may_define {
        after(Mark::Define, tokens)
    } else {
        None
    }
}

/// What follows the names of an assignment or, where it may be one, of a definition.
#[tactic(auto, unfolding(crate::specs::SimpleReading::values_at))]
fn values<'a, 't>(
    alloc: Global,
    limit: u32,
    may_define: bool,
    names: Vec<Vec<u8>>,
    tokens: Tokens<'a, 't>,
) -> Result<Found<'a, 't, Simple>, ReadError>
    requires { limit < 2 ^ 30 }
    ensures gives { Finds simple_of tokens.now result (values_at limit may_define (names_of names.items)) }
    ensures fits { AtMost limit result }
{
    if let Some(rest) = define(may_define, tokens) {
        let values = exprs(alloc, limit, false, rest)?;
        if values.height + 1 > limit {
            return abandon(values, ReadError::TooHigh { left: rest.len() });
        }
        return Ok(Found {
            value: Simple::Define(fitted(names), values.value),
            height: values.height + 1,
            rest: values.rest,
        });
    }
    let (_, rest) = needed(Mark::Assign, tokens)?;
    let values = exprs(alloc, limit, false, rest)?;
    if values.height + 1 > limit {
        return abandon(values, ReadError::TooHigh { left: rest.len() });
    }
    Ok(Found {
        value: Simple::Assign(fitted(names), values.value),
        height: values.height + 1,
        rest: values.rest,
    })
}

/// More names after this one, after the comma between them; they count nothing for the height.
#[tactic(auto, unfolding(crate::specs::SimpleReading::names_from))]
fn names_from<'a, 't>(
    alloc: Global,
    first: Vec<u8>,
    tokens: Tokens<'a, 't>,
) -> Result<Found<'a, 't, Vec<Vec<u8>>>, ReadError>
    ensures gives { Finds (λ v. names_of v.items) tokens.now result (names_from first.items) }
{
    let others = names(alloc, tokens)?;
    let mut value = others.value;
    value.insert(0, first)?;
    Ok(Found {
        value,
        height: 0,
        rest: others.rest,
    })
}

/// A value after the operator of an update.
#[tactic(auto, unfolding(crate::specs::SimpleReading::update_at))]
fn update<'a, 't>(
    alloc: Global,
    limit: u32,
    name: Vec<u8>,
    op: BinaryOp,
    tokens: Tokens<'a, 't>,
) -> Result<Found<'a, 't, Simple>, ReadError>
    requires { limit < 2 ^ 30 }
    ensures gives { Finds simple_of tokens.now result (update_at limit name.items op) }
    ensures fits { AtMost limit result }
{
    let value = expr(alloc, 1, limit, tokens)?;
    if value.height + 1 > limit {
        return abandon(value, ReadError::TooHigh { left: tokens.len() });
    }
    Ok(Found {
        value: Simple::Update(name, op, value.value),
        height: value.height + 1,
        rest: value.rest,
    })
}

/// This expression as a statement.
fn alone<'a, 't>(limit: u32, value: Found<'a, 't, Expr>) -> Result<Found<'a, 't, Simple>, ReadError>
    requires limit { limit < 2 ^ 30 }
    requires fits { value.height ≤ limit }
    ensures gives { Continues simple_of value.entry result (alone_at limit) }
    ensures fits { AtMost limit result }
{
    if value.height + 1 > limit {
        let left = value.rest.len();
        return abandon(value, ReadError::TooHigh { left });
    }
    Ok(Found {
        value: Simple::Eval(value.value),
        height: value.height + 1,
        rest: value.rest,
    })
}

/// A send to this channel, after its `<-`.
fn send<'a, 't>(
    alloc: Global,
    limit: u32,
    channel: Expr,
    height: u32,
    tokens: Tokens<'a, 't>,
) -> Result<Found<'a, 't, Simple>, ReadError>
    requires limit { limit < 2 ^ 30 }
    requires fits { height ≤ limit }
    ensures gives { Finds simple_of tokens.now result (sent_at limit (tree_of channel, height, [])) }
    ensures fits { AtMost limit result }
{
    let (value, channel) = beside(expr(alloc, 1, limit, tokens), channel)?;
    let height = height.max(value.height) + 1;
    if height > limit {
        return abandon((channel, value), ReadError::TooHigh { left: tokens.len() });
    }
    Ok(Found {
        value: Simple::Send(channel, value.value),
        height,
        rest: value.rest,
    })
}

/// This statement, which has no parts.
fn leaf<'a, 't>(
    limit: u32,
    value: Simple,
    tokens: Tokens<'a, 't>,
) -> Result<Found<'a, 't, Simple>, ReadError>
    ensures gives { Finds simple_of tokens.now result (λ ts. up_to limit (simple_of value, 1, ts)) }
    ensures fits { AtMost limit result }
{
    if limit == 0 {
        return abandon(value, ReadError::TooHigh { left: tokens.len() });
    }
    Ok(Found {
        value,
        height: 1,
        rest: tokens,
    })
}

/// What follows a name and this joint in a simple statement; the tokens from the joint on are `from`.
#[tactic(auto, unfolding(crate::specs::SimpleReading::joined_at))]
fn joined<'a, 't>(
    alloc: Global,
    limit: u32,
    may_define: bool,
    name: Vec<u8>,
    joint: Joint,
    from: Tokens<'a, 't>,
    tokens: Tokens<'a, 't>,
) -> Result<Found<'a, 't, Simple>, ReadError>
    requires limit { limit < 2 ^ 30 }
    ensures gives { Finds simple_of tokens.now result (joined_at limit may_define name.items joint (tokens_of from.now)) }
    ensures fits { AtMost limit result }
{
    match joint {
        Joint::Comma => {
            let names = names_from(alloc, name, tokens)?;
            values(alloc, limit, may_define, names.value, names.rest)
        }
        Joint::Values => values(alloc, limit, may_define, vec![in alloc; name]?, from),
        Joint::Update(op) => update(alloc, limit, name, op, tokens),
        Joint::Increment => leaf(limit, Simple::Increment(name), tokens),
        Joint::Decrement => leaf(limit, Simple::Decrement(name), tokens),
    }
}

/// A simple statement that begins with this name, before the tokens after it.
#[tactic(auto, unfolding(crate::specs::SimpleReading::simple_named))]
fn named<'a, 't>(
    alloc: Global,
    limit: u32,
    may_define: bool,
    name: Vec<u8>,
    height: u32,
    tokens: Tokens<'a, 't>,
) -> Result<Found<'a, 't, Simple>, ReadError>
    requires limit { limit < 2 ^ 30 }
    requires fits { height ≤ limit }
    ensures gives { Finds simple_of tokens.now result
        (λ ts. simple_named limit may_define (Name name.items, height, ts) name.items) }
    ensures fits { AtMost limit result }
{
    match first_joint(tokens) {
        Some((joint, rest)) => joined(alloc, limit, may_define, name, joint, tokens, rest),
        None => alone(
            limit,
            Found {
                value: Expr::Name(name),
                height,
                rest: tokens,
            },
        ),
    }
}

/// A simple statement that begins with this expression.
#[tactic(auto, unfolding(crate::specs::SimpleReading::simple_after, crate::specs::SimpleReading::bare))]
pub(crate) fn simple<'a, 't>(
    alloc: Global,
    limit: u32,
    may_define: bool,
    first: Found<'a, 't, Expr>,
) -> Result<Found<'a, 't, Simple>, ReadError>
    requires limit { limit < 2 ^ 30 }
    requires fits { first.height ≤ limit }
    ensures gives { Continues simple_of first.entry result (simple_after limit may_define) }
    ensures fits { AtMost limit result }
{
    let Found {
        value,
        height,
        rest,
    } = first;
    if let Some(after_arrow) = after(Mark::Arrow, rest) {
        return send(alloc, limit, value, height, after_arrow);
    }
    match value {
        Expr::Name(name) => named(alloc, limit, may_define, name, height, rest),
        value => alone(
            limit,
            Found {
                value,
                height,
                rest,
            },
        ),
    }
}
