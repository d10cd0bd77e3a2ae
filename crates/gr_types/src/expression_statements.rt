//! Expressions as statements (Go: Expression statements).
ghost use Rattle.std.specs.Prelude.{◌≡◌, None};
ghost use Rattle.gr_tree.specs.Exprs.{tree_of, trees_of};
ghost use Rattle.gr_program.specs.Programs as pure;
ghost use Rattle.gr_exprs.specs.Tables.{scope_of};
ghost use Rattle.gr_exprs.specs.FunctionTables.{functions_of};
ghost use Rattle.gr_program.specs.Views.{act_of, printed_of, prints_of};
ghost use Rattle.gr_exprs.specs.Finding as finding;
ghost use Rattle.gr_types.specs.FindingStatements as spec;
ghost use Rattle.gr_types.specs.Evaluating as parts;
ghost use Rattle.gr_exprs.specs.Checking.{Agrees, meaning_of, called_of};

use crate::communications::receive_of;
use gr_exprs::bytes::copy;
use gr_exprs::calls::{Called, call, resolve};
use gr_exprs::expressions::{call_in, find, find_all};
use gr_exprs::functions::Functions;
use gr_exprs::operands::{Operand, as_channel, with_type};
use gr_exprs::refusal::{RefusalCode, RuleError};
use gr_exprs::scope::Scope;
use gr_exprs::types::{may_send, zero};
use gr_program as checked;
use gr_program::{Act, Printed, Type};
use gr_tree::{Expr, UnaryOp};
use std::alloc::Global;

/// The one argument of a call.
#[tactic(auto, unfolding(gr_exprs::specs::Finding::only_in))]
fn only(
    alloc: Global,
    functions: &Functions,
    scope: &Scope,
    arguments: &[Expr],
) -> Result<Operand, RuleError>
    ensures { Agrees meaning_of result
        (finding.only_in (functions_of functions.now) (scope_of scope.now) (trees_of arguments.now)) }
{
    match arguments {
        [] => Err(RuleError::Broken(RefusalCode::WrongCount)),
        [argument] => find(alloc, functions, scope, argument),
        [_, _, ..] => Err(RuleError::Broken(RefusalCode::WrongCount)),
    }
}

fn close(
    alloc: Global,
    functions: &Functions,
    scope: &Scope,
    arguments: &[Expr],
) -> Result<Act, RuleError>
    ensures { Agrees act_of result (parts.closing (functions_of functions.now) (scope_of scope.now) (trees_of arguments.now)) }
{
    let channel = as_channel(only(alloc, functions, scope, arguments)?)?;
    if !may_send(channel.direction) {
        return Err(RuleError::Broken(RefusalCode::WrongDirection));
    }
    Ok(Act::Close(channel.term))
}

fn printable(value: Operand) -> Result<Printed, RuleError>
    ensures { Agrees printed_of result (parts.printed_value (meaning_of value)) }
{
    let (own, term) = with_type(value)?;
    match own {
        Type::Int | Type::Bool => Ok(Printed::Value(term)),
        Type::Unit | Type::Chan(_, _) => Err(RuleError::Broken(RefusalCode::WrongForm)),
    }
}

fn print_one(
    alloc: Global,
    functions: &Functions,
    scope: &Scope,
    argument: &Expr,
) -> Result<Printed, RuleError>
    ensures { Agrees printed_of result
        (parts.printed_one (functions_of functions.now) (scope_of scope.now) (tree_of argument.now)) }
{
    match argument {
        Expr::Text(bytes) => Ok(Printed::Text(copy(alloc, bytes)?)),
        argument => printable(find(alloc, functions, scope, argument)?),
    }
}

/// What `println` prints, in order.
fn print_all(
    alloc: Global,
    functions: &Functions,
    scope: &Scope,
    arguments: &[Expr],
) -> Result<Vec<Printed>, RuleError>
    ensures { Agrees (λ v. prints_of v.items) result
        (spec.printed_in (functions_of functions.now) (scope_of scope.now) (trees_of arguments.now)) }
{
    let mut printed = Vec::with_capacity(alloc, arguments.len())?;
    for argument in arguments {
        let one = print_one(alloc, functions, scope, argument)?;
        printed.push(one)?;
    }
    Ok(printed)
}

fn print(
    alloc: Global,
    functions: &Functions,
    scope: &Scope,
    arguments: &[Expr],
) -> Result<Act, RuleError>
    ensures { Agrees act_of result (parts.printing (functions_of functions.now) (scope_of scope.now) (trees_of arguments.now)) }
{
    Ok(Act::Print(print_all(alloc, functions, scope, arguments)?))
}

/// A call that may only stand where its value is used, or that may not stand at all.
fn unused(
    alloc: Global,
    functions: &Functions,
    scope: &Scope,
    name: &[u8],
    arguments: &[Expr],
) -> Result<Act, RuleError>
    ensures { Agrees act_of result None }
{
    let callee = resolve(functions, scope, name)?;
    let values = find_all(alloc, functions, scope, arguments)?;
    call(alloc, functions, callee, values)?;
    Err(RuleError::Broken(RefusalCode::WrongForm))
}

fn run_built_in(
    alloc: Global,
    functions: &Functions,
    scope: &Scope,
    name: &[u8],
    arguments: &[Expr],
) -> Result<Act, RuleError>
    ensures { Agrees act_of result (spec.run_built_in (functions_of functions.now) (scope_of scope.now) name.now
        (trees_of arguments.now)) }
{
    if name == b"close".as_slice() {
        close(alloc, functions, scope, arguments)
    } else if name == b"println".as_slice() {
        print(alloc, functions, scope, arguments)
    } else {
        unused(alloc, functions, scope, name, arguments)
    }
}

fn without_result(called: Called) -> Act
    ensures { act_of result ≡ pure.Eval (called_of called).1 }
{
    Act::Eval(checked::forms::call(called.function, called.arguments))
}

/// A call of a function, whose result is dropped.
fn run_function(
    alloc: Global,
    functions: &Functions,
    scope: &Scope,
    name: &[u8],
    arguments: &[Expr],
) -> Result<Act, RuleError>
    ensures { Agrees act_of result (parts.running (functions_of functions.now) (scope_of scope.now) name.now
        (trees_of arguments.now)) }
{
    let called = call_in(alloc, functions, scope, name, arguments)?;
    Ok(without_result(called))
}

#[tactic(auto, unfolding(crate::specs::FindingStatements::run_call))]
fn run_call(
    alloc: Global,
    functions: &Functions,
    scope: &Scope,
    name: &[u8],
    arguments: &[Expr],
) -> Result<Act, RuleError>
    ensures { Agrees act_of result (spec.run_call (functions_of functions.now) (scope_of scope.now) name.now
        (trees_of arguments.now)) }
{
    if functions.number(name).is_some() {
        return run_function(alloc, functions, scope, name, arguments);
    }
    if scope.variable_named(name).is_some() {
        return Err(RuleError::Broken(RefusalCode::WrongForm));
    }
    run_built_in(alloc, functions, scope, name, arguments)
}

/// A receive whose value is dropped.
fn run_receive(
    alloc: Global,
    functions: &Functions,
    scope: &Scope,
    expr: &Expr,
) -> Result<Act, RuleError>
    ensures { Agrees act_of result (parts.receiving (functions_of functions.now) (scope_of scope.now) (tree_of expr.now)) }
{
    let (element, channel) = receive_of(alloc, functions, scope, expr)?;
    let zero = zero(&element);
    Ok(Act::Eval(checked::Expr::Receive(Box::new(alloc, channel)?, zero)))
}

/// An expression that is no statement.
fn no_statement(
    alloc: Global,
    functions: &Functions,
    scope: &Scope,
    expr: &Expr,
) -> Result<Act, RuleError>
    ensures { Agrees act_of result None }
{
    find(alloc, functions, scope, expr)?;
    Err(RuleError::Broken(RefusalCode::WrongForm))
}

/// An expression as a statement: a call of a function, of `close` or `println`, or a receive.
#[tactic(auto, unfolding(crate::specs::FindingStatements::runs_in, crate::specs::FindingStatements::receive_in))]
pub fn expression_statement(
    alloc: Global,
    functions: &Functions,
    scope: &Scope,
    expr: &Expr,
) -> Result<Act, RuleError>
    ensures { Agrees act_of result (spec.runs_in (functions_of functions.now) (scope_of scope.now) (tree_of expr.now)) }
{
    match expr {
        Expr::Paren(inner) => expression_statement(alloc, functions, scope, inner),
        Expr::Unary(UnaryOp::Receive, _) => run_receive(alloc, functions, scope, expr),
        Expr::Call(name, arguments) => run_call(alloc, functions, scope, name, arguments),
        Expr::Make(_) | Expr::MakeSized(_, _) => Err(RuleError::Broken(RefusalCode::WrongForm)),
        expr => no_statement(alloc, functions, scope, expr),
    }
}
