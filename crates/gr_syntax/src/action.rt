//! Reading what has no statements in it: declarations, `go`, `return` and jumps.

ghost use Rattle.std.specs.Prelude.{◌≡◌, ◌<◌, ◌≤◌, IfOk, ◌^◌};
ghost use Rattle.gr_tree.specs.Exprs.{names_of, type_of};
ghost use Rattle.gr_tree.specs.Statements.{Break, Continue, act_of};
ghost use Rattle.gr_syntax.specs.SimpleReading.{var_typed, var_after, var_at, go_at, return_at, jump_at};
ghost use Rattle.gr_syntax.specs.Views.{Finds, AtMost};

use crate::expression::{arguments, expr, exprs};
use crate::look::{
    Found, ReadError, Tokens, abandon, after, beside, copy, is_the_make, name, names, needed,
};
use crate::opening::{ends, first_name};
use crate::types::type_tree;
use gr_scan::token::Mark;
use gr_tree::{Action, TypeTree};
use std::alloc::Global;

/// What follows the names and the type of a declaration.
#[tactic(auto, unfolding(crate::specs::SimpleReading::var_typed))]
fn typed<'a, 't>(
    alloc: Global,
    limit: u32,
    names: Vec<Vec<u8>>,
    type_tree: TypeTree,
    height: u32,
    tokens: Tokens<'a, 't>,
) -> Result<Found<'a, 't, Action>, ReadError>
    requires limit { limit < 2 ^ 30 }
    requires fits { height ≤ limit }
    ensures gives { Finds act_of tokens.now result
        (λ ts. var_typed limit (names_of names.items) (type_of type_tree, height, ts)) }
    ensures fits { AtMost limit result }
{
    let Some(rest) = after(Mark::Assign, tokens) else {
        if height + 1 > limit {
            return abandon(type_tree, ReadError::TooHigh { left: tokens.len() });
        }
        return Ok(Found {
            value: Action::Var(names, type_tree),
            height: height + 1,
            rest: tokens,
        });
    };
    let (values, type_tree) = beside(exprs(alloc, limit, false, rest), type_tree)?;
    let height = height.max(values.height) + 1;
    if height > limit {
        return abandon(type_tree, ReadError::TooHigh { left: tokens.len() });
    }
    Ok(Found {
        value: Action::VarValues(names, Some(type_tree), values.value),
        height,
        rest: values.rest,
    })
}

/// What follows the names of a declaration.
#[tactic(auto, unfolding(crate::specs::SimpleReading::var_after))]
fn declared<'a, 't>(
    alloc: Global,
    limit: u32,
    names: Vec<Vec<u8>>,
    tokens: Tokens<'a, 't>,
) -> Result<Found<'a, 't, Action>, ReadError>
    requires { limit < 2 ^ 30 }
    ensures gives { Finds act_of tokens.now result (var_after limit (names_of names.items)) }
    ensures fits { AtMost limit result }
{
    let Some(rest) = after(Mark::Assign, tokens) else {
        let found = type_tree(alloc, limit, tokens)?;
        return typed(alloc, limit, names, found.value, found.height, found.rest);
    };
    let values = exprs(alloc, limit, false, rest)?;
    if values.height + 1 > limit {
        return abandon(values, ReadError::TooHigh { left: rest.len() });
    }
    Ok(Found {
        value: Action::VarValues(names, None, values.value),
        height: values.height + 1,
        rest: values.rest,
    })
}

/// A declaration, after `var`.
#[tactic(auto, unfolding(crate::specs::SimpleReading::var_at))]
pub(crate) fn var<'a, 't>(
    alloc: Global,
    limit: u32,
    tokens: Tokens<'a, 't>,
) -> Result<Found<'a, 't, Action>, ReadError>
    requires { limit < 2 ^ 30 }
    ensures gives { Finds act_of tokens.now result (var_at limit) }
    ensures fits { AtMost limit result }
{
    let names = names(alloc, tokens)?;
    declared(alloc, limit, names.value, names.rest)
}

/// A call for a new goroutine, after `go`.
#[tactic(auto, unfolding(crate::specs::SimpleReading::go_at))]
pub(crate) fn go<'a, 't>(
    alloc: Global,
    limit: u32,
    tokens: Tokens<'a, 't>,
) -> Result<Found<'a, 't, Action>, ReadError>
    requires { limit < 2 ^ 30 }
    ensures gives { Finds act_of tokens.now result (go_at limit) }
    ensures fits { AtMost limit result }
{
    let (function, rest) = name(tokens)?;
    if is_the_make(function) {
        return Err(ReadError::Wrong { left: tokens.len() });
    }
    let (_, rest) = needed(Mark::LeftParen, rest)?;
    let arguments = arguments(alloc, limit, rest)?;
    if arguments.height + 2 > limit {
        return abandon(arguments, ReadError::TooHigh { left: rest.len() });
    }
    let Ok(function) = copy(alloc, function) else {
        return abandon(arguments, ReadError::Memory);
    };
    Ok(Found {
        value: Action::Go(function, arguments.value),
        height: arguments.height + 2,
        rest: arguments.rest,
    })
}

/// What follows `return`.
#[tactic(auto, unfolding(crate::specs::SimpleReading::return_at))]
pub(crate) fn returned<'a, 't>(
    alloc: Global,
    limit: u32,
    tokens: Tokens<'a, 't>,
) -> Result<Found<'a, 't, Action>, ReadError>
    requires limit { limit < 2 ^ 30 }
    requires positive { 0 < limit }
    ensures gives { Finds act_of tokens.now result (return_at limit) }
    ensures fits { AtMost limit result }
{
    if ends(tokens) {
        return Ok(Found {
            value: Action::Return(None),
            height: 1,
            rest: tokens,
        });
    }
    let value = expr(alloc, 1, limit, tokens)?;
    if value.height + 1 > limit {
        return abandon(value, ReadError::TooHigh { left: tokens.len() });
    }
    Ok(Found {
        value: Action::Return(Some(value.value)),
        height: value.height + 1,
        rest: value.rest,
    })
}

/// A break, after its keyword.
#[tactic(auto, unfolding(crate::specs::SimpleReading::jump_at))]
pub(crate) fn break_from<'a, 't>(
    alloc: Global,
    tokens: Tokens<'a, 't>,
) -> Result<Found<'a, 't, Action>, ReadError>
    ensures gives { Finds act_of tokens.now result (jump_at Break) }
    ensures high { IfOk result (λ f. f.height ≡ 1) }
{
    let Some((label, rest)) = first_name(tokens) else {
        return Ok(Found {
            value: Action::Break(None),
            height: 1,
            rest: tokens,
        });
    };
    Ok(Found {
        value: Action::Break(Some(copy(alloc, label)?)),
        height: 1,
        rest,
    })
}

/// A continue, after its keyword.
#[tactic(auto, unfolding(crate::specs::SimpleReading::jump_at))]
pub(crate) fn continue_from<'a, 't>(
    alloc: Global,
    tokens: Tokens<'a, 't>,
) -> Result<Found<'a, 't, Action>, ReadError>
    ensures gives { Finds act_of tokens.now result (jump_at Continue) }
    ensures high { IfOk result (λ f. f.height ≡ 1) }
{
    let Some((label, rest)) = first_name(tokens) else {
        return Ok(Found {
            value: Action::Continue(None),
            height: 1,
            rest: tokens,
        });
    };
    Ok(Found {
        value: Action::Continue(Some(copy(alloc, label)?)),
        height: 1,
        rest,
    })
}
