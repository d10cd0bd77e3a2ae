//! Calls.
ghost use Rattle.std.specs.Prelude.{◌≡◌, Some};
ghost use Rattle.gr_tree.specs.Statements.{optional};
ghost use Rattle.gr_program.specs.Programs as pure;
ghost use Rattle.gr_typing.specs.Scopes as scopes;
ghost use Rattle.gr_program.specs.TypeViews.{ty_of, types_of};
ghost use Rattle.gr_exprs.specs.Signatures.{sign_of};
ghost use Rattle.gr_exprs.specs.Tables.{scope_of};
ghost use Rattle.gr_exprs.specs.FunctionTables.{functions_of};
ghost use Rattle.gr_program.specs.Views.{exprs_of};
ghost use Rattle.gr_exprs.specs.Finding as spec;
ghost use Rattle.gr_exprs.specs.Calling as calling;
ghost use Rattle.gr_exprs.specs.Checking.{Agrees, meaning_of, meanings_of, called_of};
ghost use Rattle.gr_exprs.specs.Codes.{Tells, name_code, callee_code};
ghost use Rattle.gr_exprs.specs.declared.refusal.RefusalCode.TheVariants as codes;

use crate::functions::Functions;
use crate::names::is_predeclared;
use crate::operands::{Operand, as_channel, as_type};
use crate::refusal::{RefusalCode, RuleError};
use crate::scope::Scope;
use crate::types::Signature;
use gr_program as checked;
use gr_program::Type;
use gr_program::types::copy_optional;
use std::alloc::Global;
use std::collections::VecDeque;

/// What a name stands for in a call that has a value.
#[derive(Clone, Copy, PartialEq, Eq)]
pub enum Callee {
    /// The function with a number.
    Function(usize),
    /// `len`
    Length,
    /// `cap`
    Capacity,
}

/// A call of a function.
#[derive(Drop)]
pub struct Called {
    /// The type of the function's result.
    pub result: Option<Type>,
    pub function: usize,
    pub arguments: Vec<checked::Expr>,
}

/// The rule that is broken where a name is no type, or no function that may be called.
pub fn unusable(functions: &Functions, scope: &Scope, name: &[u8]) -> RefusalCode
    ensures { result ≡ name_code (functions_of functions.now) (scope_of scope.now) name.now }
{
    if is_predeclared(name)
        || scope.variable_named(name).is_some()
        || functions.number(name).is_some()
    {
        RefusalCode::WrongForm
    } else {
        RefusalCode::UnknownName
    }
}

/// The rule that is broken where a name is no callee of a call that has a value.
fn no_callee(functions: &Functions, scope: &Scope, name: &[u8]) -> RefusalCode
    ensures { result ≡ callee_code (functions_of functions.now) (scope_of scope.now) name.now }
{
    let has_no_value = name == b"close".as_slice() || name == b"println".as_slice();
    if has_no_value && scope.variable_named(name).is_none() {
        RefusalCode::WrongCount
    } else {
        unusable(functions, scope, name)
    }
}

fn measure_named(name: &[u8]) -> Option<Callee>
    ensures { result ≡ calling.measure_named name.now }
{
    if name == b"len".as_slice() {
        Some(Callee::Length)
    } else if name == b"cap".as_slice() {
        Some(Callee::Capacity)
    } else {
        None
    }
}

fn callee_in(functions: &Functions, scope: &Scope, name: &[u8]) -> Option<Callee>
    ensures { result ≡ calling.callee_in (functions_of functions.now) (scope_of scope.now) name.now }
{
    if scope.variable_named(name).is_some() {
        return None;
    }
    match functions.number(name) {
        Some(function) => Some(Callee::Function(function)),
        None => measure_named(name),
    }
}

/// What a name stands for in a call that has a value.
pub fn resolve(functions: &Functions, scope: &Scope, name: &[u8]) -> Result<Callee, RuleError>
    ensures value { Agrees (λ c. c) result (calling.callee_in (functions_of functions.now) (scope_of scope.now) name.now) }
    ensures code { Tells result (callee_code (functions_of functions.now) (scope_of scope.now) name.now) }
{
    match callee_in(functions, scope, name) {
        Some(callee) => Ok(callee),
        None => Err(RuleError::Broken(no_callee(functions, scope, name))),
    }
}

/// Values that are given to parameters of these types.
fn given_all(
    alloc: Global,
    parameters: &[Type],
    mut values: VecDeque<Operand>,
) -> Result<Vec<checked::Expr>, RuleError>
    ensures { Agrees (λ v. exprs_of v.items) result (calling.given_all (meanings_of values.items) (types_of parameters.now)) }
{
    let mut terms = Vec::with_capacity(alloc, parameters.len())?;
    for parameter in parameters {
        let Some(value) = values.pop_front() else {
            return Err(RuleError::Broken(RefusalCode::WrongCount));
        };
        let term = as_type(parameter, value)?;
        terms.push(term)?;
    }
    if !values.is_empty() {
        return Err(RuleError::Broken(RefusalCode::WrongCount));
    }
    Ok(terms)
}

fn call_of(
    alloc: Global,
    function: usize,
    signature: &Signature,
    values: VecDeque<Operand>,
) -> Result<Called, RuleError>
    ensures { Agrees called_of result
        (spec.call_of (calling.given_all (meanings_of values.items)) function (Some (sign_of signature.now))) }
{
    if values.len() != signature.parameters.len() {
        return Err(RuleError::Broken(RefusalCode::WrongCount));
    }
    let arguments = given_all(alloc, &signature.parameters, values)?;
    let result = copy_optional(alloc, &signature.result)?;
    Ok(Called {
        result,
        function,
        arguments,
    })
}

/// A call of the function with a number, with these arguments.
pub fn call_function(
    alloc: Global,
    functions: &Functions,
    function: usize,
    values: VecDeque<Operand>,
) -> Result<Called, RuleError>
    ensures { Agrees called_of result
        (spec.call_of (calling.given_all (meanings_of values.items)) function
        (scopes.signature (functions_of functions.now) function)) }
{
    match functions.signature(function) {
        Some(signature) => call_of(alloc, function, signature, values),
        None => Err(RuleError::Broken(RefusalCode::UnknownName)),
    }
}

fn with_value(called: Called) -> Result<Operand, RuleError>
    ensures value { Agrees meaning_of result (spec.call_value (called_of called)) }
    ensures code { Tells result codes.WrongCount }
{
    let Called {
        result: own,
        function,
        arguments,
    } = called;
    match own {
        Some(own) => Ok(Operand::Made(own, checked::forms::call(function, arguments))),
        None => Err(RuleError::Broken(RefusalCode::WrongCount)),
    }
}

/// The one value among these.
fn only(mut values: VecDeque<Operand>) -> Result<Operand, RuleError>
    ensures { Agrees meaning_of result (calling.only_of (meanings_of values.items)) }
{
    if values.len() != 1 {
        return Err(RuleError::Broken(RefusalCode::WrongCount));
    }
    match values.pop_front() {
        Some(value) => Ok(value),
        None => Err(RuleError::Broken(RefusalCode::WrongCount)),
    }
}

fn length_of(alloc: Global, value: Operand) -> Result<Operand, RuleError>
    ensures { Agrees meaning_of result (spec.measured pure.Len (meaning_of value)) }
{
    let channel = as_channel(value)?;
    Ok(Operand::Made(
        Type::Int,
        checked::Expr::Len(Box::new(alloc, channel.term)?),
    ))
}

fn capacity_of(alloc: Global, value: Operand) -> Result<Operand, RuleError>
    ensures { Agrees meaning_of result (spec.measured pure.Cap (meaning_of value)) }
{
    let channel = as_channel(value)?;
    Ok(Operand::Made(
        Type::Int,
        checked::Expr::Cap(Box::new(alloc, channel.term)?),
    ))
}

/// The value of a call with these arguments.
pub fn call(
    alloc: Global,
    functions: &Functions,
    callee: Callee,
    values: VecDeque<Operand>,
) -> Result<Operand, RuleError>
    ensures { Agrees meaning_of result (calling.called_as (functions_of functions.now) callee (meanings_of values.items)) }
{
    match callee {
        Callee::Function(function) => with_value(call_function(
            alloc, functions, function, values,
        )?),
        Callee::Length => length_of(alloc, only(values)?),
        Callee::Capacity => capacity_of(alloc, only(values)?),
    }
}
