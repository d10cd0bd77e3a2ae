//! What expressions are.
ghost use Rattle.std.specs.Prelude.{◌≡◌, Some};
ghost use Rattle.gr_tree.specs.Statements.{optional};
ghost use Rattle.gr_tree.specs.Exprs as trees;
ghost use Rattle.gr_tree.specs.Exprs.{tree_of, trees_of};
ghost use Rattle.gr_typing.specs.Types as types;
ghost use Rattle.gr_program.specs.TypeViews.{ty_of};
ghost use Rattle.gr_exprs.specs.Tables.{scope_of};
ghost use Rattle.gr_exprs.specs.FunctionTables.{functions_of};
ghost use Rattle.gr_program.specs.Views.{expr_of};
ghost use Rattle.gr_typing.specs.Scopes as scopes;
ghost use Rattle.gr_exprs.specs.Finding as spec;
ghost use Rattle.gr_exprs.specs.Calling as calling;
ghost use Rattle.gr_exprs.specs.Checking.{Agrees, meaning_of, meanings_of, called_of};
ghost use Rattle.gr_exprs.specs.Codes.{Tells, name_code, type_code};
ghost use Rattle.gr_exprs.specs.declared.refusal.RefusalCode.TheVariants as codes;

use crate::calls::{Called, call, call_function, resolve, unusable};
use crate::functions::Functions;
use crate::operands::{Operand, size};
use crate::operators::{binary, unary};
use crate::refusal::{RefusalCode, RuleError, code_of};
use crate::scope::Scope;
use crate::types::written;
use gr_const::{Constant, number};
use gr_program as checked;
use gr_program::types::copy;
use gr_program::{Literal, Type};
use gr_tree::{Expr, TypeTree};
use std::alloc::Global;
use std::collections::VecDeque;

fn variable(alloc: Global, scope: &Scope, number: usize) -> Result<Operand, RuleError>
    ensures { Agrees meaning_of result (spec.variable_value (scope_of scope.now) number) }
{
    match scope.type_of(number) {
        Some(own) => Ok(Operand::Made(copy(alloc, own)?, checked::Expr::Variable(number))),
        None => Err(RuleError::Broken(RefusalCode::UnknownName)),
    }
}

fn constant_named(name: &[u8]) -> Option<Operand>
    ensures { optional meaning_of result ≡ spec.named_constant name.now }
{
    if name == b"true".as_slice() {
        Some(Operand::Constant(Constant::Truth(true)))
    } else if name == b"false".as_slice() {
        Some(Operand::Constant(Constant::Truth(false)))
    } else if name == b"nil".as_slice() {
        Some(Operand::Nil)
    } else {
        None
    }
}

/// A name that stands for no variable.
fn predeclared(functions: &Functions, scope: &Scope, name: &[u8]) -> Result<Operand, RuleError>
    ensures value { Agrees meaning_of result
        (spec.if_unknown (scopes.function_in (functions_of functions.now) name.now) (spec.named_constant name.now)) }
    ensures code { Tells result (name_code (functions_of functions.now) (scope_of scope.now) name.now) }
{
    if functions.number(name).is_some() {
        return Err(RuleError::Broken(RefusalCode::WrongForm));
    }
    match constant_named(name) {
        Some(value) => Ok(value),
        None => Err(RuleError::Broken(unusable(functions, scope, name))),
    }
}

#[tactic(auto, unfolding(crate::specs::Finding::name_value))]
fn named(
    alloc: Global,
    functions: &Functions,
    scope: &Scope,
    name: &[u8],
) -> Result<Operand, RuleError>
    ensures { Agrees meaning_of result (spec.name_value (functions_of functions.now) (scope_of scope.now) name.now) }
{
    match scope.variable_named(name) {
        Some(number) => variable(alloc, scope, number),
        None => predeclared(functions, scope, name),
    }
}

fn literal(n: u64) -> Result<Operand, RuleError>
    ensures value { Agrees meaning_of result (calling.number_value n) }
    ensures code { Tells result codes.Constant }
{
    match number(n) {
        Ok(constant) => Ok(Operand::Constant(constant)),
        Err(error) => Err(RuleError::Broken(code_of(error))),
    }
}

/// The rule that is broken where what is written is no type.
fn no_type(functions: &Functions, scope: &Scope, tree: &TypeTree) -> RefusalCode
    ensures { result ≡ type_code (functions_of functions.now) (scope_of scope.now) (trees.type_of tree.now) }
{
    match tree {
        TypeTree::Name(name) => unusable(functions, scope, name),
        TypeTree::Unit => RefusalCode::WrongForm,
        TypeTree::Chan(_, inner) => no_type(functions, scope, inner),
        TypeTree::Paren(inner) => no_type(functions, scope, inner),
    }
}

/// The type that is written.
pub fn written_type(
    alloc: Global,
    functions: &Functions,
    scope: &Scope,
    tree: &TypeTree,
) -> Result<Type, RuleError>
    ensures value { Agrees ty_of result (types.type_written (trees.type_of tree.now)) }
    ensures code { Tells result (type_code (functions_of functions.now) (scope_of scope.now) (trees.type_of tree.now)) }
{
    match written(alloc, tree)? {
        Some(own) => Ok(own),
        None => Err(RuleError::Broken(no_type(functions, scope, tree))),
    }
}

fn made_channel(own: Type, term: checked::Expr) -> Result<Operand, RuleError>
    ensures value { Agrees meaning_of result (spec.made_channel (Some (ty_of own)) (expr_of term)) }
    ensures code { Tells result codes.WrongForm }
{
    match own {
        Type::Chan(direction, element) => Ok(Operand::Made(Type::Chan(direction, element), term)),
        _ => Err(RuleError::Broken(RefusalCode::WrongForm)),
    }
}

fn make(
    alloc: Global,
    functions: &Functions,
    scope: &Scope,
    tree: &TypeTree,
    term: checked::Expr,
) -> Result<Operand, RuleError>
    ensures { Agrees meaning_of result (spec.made_channel (types.type_written (trees.type_of tree.now)) (expr_of term)) }
{
    made_channel(written_type(alloc, functions, scope, tree)?, term)
}

fn make_sized(
    alloc: Global,
    functions: &Functions,
    scope: &Scope,
    tree: &TypeTree,
    value: Operand,
) -> Result<Operand, RuleError>
    ensures { Agrees meaning_of result (calling.sized_channel (types.type_written (trees.type_of tree.now)) (meaning_of value)) }
{
    let size = Box::new(alloc, size(value)?)?;
    make(
        alloc,
        functions,
        scope,
        tree,
        checked::Expr::MakeSized(size),
    )
}

/// What an expression is.
#[cycle(finding)]
#[tactic(auto, using(crate::proofs::Arguments::call_view), unfolding(crate::specs::Finding::value_in))]
pub fn find(
    alloc: Global,
    functions: &Functions,
    scope: &Scope,
    expr: &Expr,
) -> Result<Operand, RuleError>
    ensures { Agrees meaning_of result (spec.value_in (functions_of functions.now) (scope_of scope.now) (tree_of expr.now)) }
{
    match expr {
        Expr::Number(n) => literal(*n),
        Expr::Text(_) => Err(RuleError::Broken(RefusalCode::WrongForm)),
        Expr::Name(name) => named(alloc, functions, scope, name),
        Expr::Unit => Ok(Operand::Made(Type::Unit, checked::Expr::Literal(Literal::Empty))),
        Expr::Paren(inner) => find(alloc, functions, scope, inner),
        Expr::Call(name, arguments) => {
            let callee = resolve(functions, scope, name)?;
            let values = find_all(alloc, functions, scope, arguments)?;
            call(alloc, functions, callee, values)
        }
        Expr::Make(tree) => make(alloc, functions, scope, tree, checked::Expr::Make),
        Expr::MakeSized(tree, size) => {
            let value = find(alloc, functions, scope, size)?;
            make_sized(alloc, functions, scope, tree, value)
        }
        Expr::Unary(op, operand) => unary(alloc, *op, find(alloc, functions, scope, operand)?),
        Expr::Binary(op, left, right) => {
            let left = find(alloc, functions, scope, left)?;
            let right = find(alloc, functions, scope, right)?;
            binary(alloc, *op, left, right)
        }
    }
}

/// What expressions are, in order.
#[cycle(finding)]
pub fn find_all(
    alloc: Global,
    functions: &Functions,
    scope: &Scope,
    exprs: &[Expr],
) -> Result<VecDeque<Operand>, RuleError>
    ensures { Agrees (λ v. meanings_of v.items) result
        (calling.values_in (functions_of functions.now) (scope_of scope.now) (trees_of exprs.now)) }
{
    let mut values = VecDeque::new(alloc);
    for expr in exprs {
        let value = find(alloc, functions, scope, expr)?;
        values.push_back(value)?;
    }
    Ok(values)
}

fn function_named(functions: &Functions, scope: &Scope, name: &[u8]) -> Result<usize, RuleError>
    ensures value { Agrees (λ k. k) result (calling.function_named (functions_of functions.now) (scope_of scope.now) name.now) }
    ensures code { Tells result (name_code (functions_of functions.now) (scope_of scope.now) name.now) }
{
    if scope.variable_named(name).is_some() {
        return Err(RuleError::Broken(RefusalCode::WrongForm));
    }
    match functions.number(name) {
        Some(function) => Ok(function),
        None => Err(RuleError::Broken(unusable(functions, scope, name))),
    }
}

fn call_named(
    alloc: Global,
    functions: &Functions,
    scope: &Scope,
    name: &[u8],
    arguments: &[Expr],
) -> Result<Called, RuleError>
    ensures { Agrees called_of result
        (calling.call_named (functions_of functions.now) (scope_of scope.now) name.now (trees_of arguments.now)) }
{
    let function = function_named(functions, scope, name)?;
    let values = find_all(alloc, functions, scope, arguments)?;
    call_function(alloc, functions, function, values)
}

/// A call of a function that no variable hides.
pub fn call_in(
    alloc: Global,
    functions: &Functions,
    scope: &Scope,
    name: &[u8],
    arguments: &[Expr],
) -> Result<Called, RuleError>
    ensures { Agrees called_of result
        (spec.call_in (functions_of functions.now) (scope_of scope.now) name.now
        (spec.arguments_in (functions_of functions.now) (scope_of scope.now) (trees_of arguments.now))) }
{
    call_named(alloc, functions, scope, name, arguments)
}
