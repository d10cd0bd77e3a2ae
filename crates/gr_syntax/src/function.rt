//! Reading functions and files.

ghost use Rattle.std.specs.Prelude.{◌<◌, ◌^◌};
ghost use Rattle.gr_scan.specs.Tokens.{tokens_of};
ghost use Rattle.gr_tree.specs.Exprs.{type_of};
ghost use Rattle.gr_tree.specs.Statements.{optional};
ghost use Rattle.gr_tree.specs.Files.{groups_of, function_of, functions_of, file_of};
ghost use Rattle.gr_syntax.specs.FileReading.{groups_at, parameters_at, result_at, function_at, functions_more, functions_at};
ghost use Rattle.gr_syntax.specs.FileReading.{file_at};
ghost use Rattle.gr_syntax.specs.Views.{Gives, Finds};

use crate::look::{
    Found, ReadError, Tokens, abandon, after, beside, copy, name, names, needed, push,
};
use crate::statement::block;
use crate::types::type_tree;
use gr_scan::token::Mark;
use gr_tree::{File, Func, Group, HEIGHT_LIMIT, TypeTree};
use std::alloc::Global;

/// The most levels that a type or a statement of a file may have.
const LIMIT: u32 = HEIGHT_LIMIT as u32;

// Nothing above a function asks how high it is: what is found here counts as of no height.

/// Groups of parameters with commas between them, with types of at most this height; one more comma may stand before a `)`.
#[tactic(auto, unfolding(crate::specs::FileReading::groups_at))]
fn groups<'a, 't>(
    alloc: Global,
    limit: u32,
    tokens: Tokens<'a, 't>,
) -> Result<Found<'a, 't, Vec<Group>>, ReadError>
    requires { limit < 2 ^ 29 }
    ensures { Finds (λ v. groups_of v.items) tokens.now result (groups_at limit) }
{
    let mut found = Found {
        value: Vec::new(alloc),
        height: 0,
        rest: tokens,
    };
    loop {
        let names = names(alloc, found.rest)?;
        let type_tree = type_tree(alloc, limit, names.rest)?;
        found.value.push(Group {
            names: names.value,
            type_tree: type_tree.value,
        })?;
        found.rest = type_tree.rest;
        let Some(more) = after(Mark::Comma, found.rest) else {
            return Ok(found);
        };
        found.rest = more;
        if after(Mark::RightParen, found.rest).is_some() {
            return Ok(found);
        }
    }
}

/// The parameters of a function, with their parentheses (Go: Function types).
#[tactic(auto, unfolding(crate::specs::FileReading::parameters_at))]
fn parameters<'a, 't>(
    alloc: Global,
    limit: u32,
    tokens: Tokens<'a, 't>,
) -> Result<Found<'a, 't, Vec<Group>>, ReadError>
    requires { limit < 2 ^ 29 }
    ensures { Finds (λ v. groups_of v.items) tokens.now result (parameters_at limit) }
{
    let (_, rest) = needed(Mark::LeftParen, tokens)?;
    if let Some(rest) = after(Mark::RightParen, rest) {
        return Ok(Found {
            value: Vec::new(alloc),
            height: 0,
            rest,
        });
    }
    let groups = groups(alloc, limit, rest)?;
    let (_, rest) = needed(Mark::RightParen, groups.rest)?;
    Ok(Found {
        value: groups.value,
        height: 0,
        rest,
    })
}

/// The type of a function's result, if one stands before the `{`.
#[tactic(auto, unfolding(crate::specs::FileReading::result_at))]
fn result<'a, 't>(
    alloc: Global,
    limit: u32,
    tokens: Tokens<'a, 't>,
) -> Result<Found<'a, 't, Option<TypeTree>>, ReadError>
    requires { limit < 2 ^ 29 }
    ensures { Finds (optional type_of) tokens.now result (result_at limit) }
{
    if after(Mark::LeftBrace, tokens).is_some() {
        return Ok(Found {
            value: None,
            height: 0,
            rest: tokens,
        });
    }
    let type_tree = type_tree(alloc, limit, tokens)?;
    Ok(Found {
        value: Some(type_tree.value),
        height: 0,
        rest: type_tree.rest,
    })
}

/// A function, with types and statements of at most this height (Go: Function declarations).
#[tactic(auto, unfolding(crate::specs::FileReading::function_at))]
fn function<'a, 't>(
    alloc: Global,
    limit: u32,
    tokens: Tokens<'a, 't>,
) -> Result<Found<'a, 't, Func>, ReadError>
    requires { limit < 2 ^ 29 }
    ensures { Finds function_of tokens.now result (function_at limit) }
{
    let (place, rest) = needed(Mark::Func, tokens)?;
    let (func_name, rest) = name(rest)?;
    let parameters = parameters(alloc, limit, rest)?;
    let (result, parameters) = beside(result(alloc, limit, parameters.rest), parameters)?;
    let (block, (parameters, result)) = beside(
        block(alloc, limit, result.rest),
        (parameters, result),
    )?;
    let Ok(name) = copy(alloc, func_name) else {
        return abandon((parameters, result, block), ReadError::Memory);
    };
    let (body, end) = block.value;
    let value = Func {
        place,
        name,
        parameters: parameters.value,
        result: result.value,
        body,
        end,
    };
    Ok(Found {
        value,
        height: 0,
        rest: block.rest,
    })
}

/// The functions up to the end, each with its semicolon, with types and statements of at most this height.
#[tactic(auto, unfolding(crate::specs::FileReading::functions_at))]
fn functions<'a, 't>(
    alloc: Global,
    limit: u32,
    tokens: Tokens<'a, 't>,
) -> Result<Found<'a, 't, Vec<Func>>, ReadError>
    requires { limit < 2 ^ 29 }
    ensures { Finds (λ v. functions_of v.items) tokens.now result (functions_at limit) }
{
    let mut found = Found {
        value: Vec::new(alloc),
        height: 0,
        rest: tokens,
    };
    while !found.rest.is_empty() {
        let next = function(alloc, limit, found.rest)?;
        let (_, more) = match needed(Mark::Semicolon, next.rest) {
            Ok(past) => past,
            Err(fault) => return abandon((found, next), fault),
        };
        push(&mut found.value, next.value)?;
        found.rest = more;
    }
    Ok(found)
}

/// A whole file (Go: Source file organization).
#[tactic(auto, unfolding(crate::specs::FileReading::file_at))]
pub(crate) fn file(alloc: Global, tokens: Tokens<'_, '_>) -> Result<File, ReadError>
    ensures { Gives file_of result (file_at 200 (tokens_of tokens.now)) }
{
    let (place, rest) = needed(Mark::Package, tokens)?;
    let (package, rest) = name(rest)?;
    let (_, rest) = needed(Mark::Semicolon, rest)?;
    let functions = functions(alloc, LIMIT, rest)?;
    let Ok(package) = copy(alloc, package) else {
        return abandon(functions, ReadError::Memory);
    };
    Ok(File {
        place,
        package,
        funcs: functions.value,
    })
}
