//! Statements with no statements in them.
ghost use Rattle.std.specs.Prelude.{◌≡◌, Err, is_some};
ghost use Rattle.gr_exprs.specs.declared.refusal.RuleError.TheVariants as faults;
ghost use Rattle.gr_exprs.specs.declared.refusal.RefusalCode.TheVariants as codes;
ghost use Rattle.gr_tree.specs.Exprs.{tree_of};
ghost use Rattle.gr_tree.specs.Statements as trees;
ghost use Rattle.gr_tree.specs.Statements.{optional};
ghost use Rattle.gr_typing.specs.Scopes.{first_where};
ghost use Rattle.gr_typing.specs.Contexts.{is_left, is_continued};
ghost use Rattle.gr_exprs.specs.Tables.{scope_of};
ghost use Rattle.gr_exprs.specs.FunctionTables.{functions_of};
ghost use Rattle.gr_types.specs.ContextViews.{context_of, nest_of};
ghost use Rattle.gr_program.specs.TypeViews.{ty_of};
ghost use Rattle.gr_program.specs.Views.{expr_of, act_of};
ghost use Rattle.gr_types.specs.FindingStatements as spec;
ghost use Rattle.gr_exprs.specs.Checking.{Agrees, meaning_of};
ghost use Rattle.gr_exprs.specs.Codes.{Tells};
ghost use Rattle.gr_types.specs.Codes.{variable_code};

use crate::assigning::assignment::assign;
use crate::assigning::declaration::{declare, declare_values};
use crate::assigning::definition::define;
use crate::communications::send_of;
use crate::context::{Context, Nest, break_depth, continue_depth};
use crate::expression_statements::expression_statement;
use gr_exprs::calls::unusable;
use gr_exprs::expressions::{call_in, find};
use gr_exprs::functions::Functions;
use gr_exprs::operands::{Operand, as_type, of_kind};
use gr_exprs::operators::{binary_type, may_stand_right};
use gr_exprs::refusal::{RefusalCode, RuleError};
use gr_exprs::scope::Scope;
use gr_program as checked;
use gr_program::{Act, Literal, Type};
use gr_tree::{Action, BinaryOp, Expr, Simple};
use std::alloc::Global;

/// The variable that a name stands for, which is a whole number.
#[tactic(auto, unfolding(crate::specs::FindingStatements::number_variable, crate::specs::FindingStatements::variable_in))]
fn number_variable(functions: &Functions, scope: &Scope, name: &[u8]) -> Result<usize, RuleError>
    ensures value { Agrees (λ k. k) result (spec.number_variable (scope_of scope.now) name.now) }
    ensures code { Tells result (variable_code (functions_of functions.now) (scope_of scope.now) name.now) }
{
    let Some(number) = scope.number_of(name) else {
        return Err(RuleError::Broken(unusable(functions, scope, name)));
    };
    match scope.type_of(number) {
        Some(Type::Int) => Ok(number),
        _ => Err(RuleError::Broken(RefusalCode::WrongForm)),
    }
}

/// An assignment of a variable's value and this one, joined by an operator that gives a whole number.
fn update_by(op: BinaryOp, variable: usize, value: Operand) -> Result<Act, RuleError>
    ensures { Agrees act_of result (spec.updated op variable (meaning_of value)) }
{
    let Some(Type::Int) = binary_type(op, &Type::Int, &Type::Int) else {
        return Err(RuleError::Broken(RefusalCode::WrongForm));
    };
    if !may_stand_right(op, &value) {
        return Err(RuleError::Broken(RefusalCode::Constant));
    }
    let value = of_kind(&Type::Int, value)?;
    Ok(Act::Update {
        variable,
        op,
        value,
    })
}

/// An assignment with an operator.
#[tactic(auto, unfolding(crate::specs::FindingStatements::simple_in))]
fn update(
    alloc: Global,
    functions: &Functions,
    scope: &Scope,
    name: &[u8],
    op: BinaryOp,
    expr: &Expr,
) -> Result<Act, RuleError>
    ensures { Agrees (λ a. (act_of a, scope_of scope.now)) result
        (spec.simple_in (functions_of functions.now) (scope_of scope.now) (trees.Update name.now op (tree_of expr.now))) }
{
    let variable = number_variable(functions, scope, name)?;
    let value = find(alloc, functions, scope, expr)?;
    update_by(op, variable, value)
}

/// An increment or a decrement.
fn by_one(op: BinaryOp, variable: usize) -> Act
    ensures { act_of result ≡ spec.by_one op variable }
{
    let value = checked::Expr::Literal(Literal::Number(1));
    Act::Update {
        variable,
        op,
        value,
    }
}

/// What a simple statement does.
#[tactic(auto, unfolding(crate::specs::FindingStatements::simple_in))]
pub fn simple(
    alloc: Global,
    functions: &Functions,
    scope: &mut Scope,
    simple: &Simple,
) -> Result<Act, RuleError>
    ensures { Agrees (λ a. (act_of a, scope_of scope.new)) result
        (spec.simple_in (functions_of functions.now) (scope_of scope.old) (trees.simple_of simple.now)) }
{
    match simple {
        Simple::Eval(expr) => expression_statement(alloc, functions, scope, expr),
        Simple::Send(channel, value) => {
            let (channel, value) = send_of(alloc, functions, scope, channel, value)?;
            Ok(Act::Send { channel, value })
        }
        Simple::Assign(names, exprs) => assign(alloc, functions, scope, names, exprs),
        Simple::Define(names, exprs) => define(alloc, functions, scope, names, exprs),
        Simple::Update(name, op, expr) => update(alloc, functions, scope, name, *op, expr),
        Simple::Increment(name) => {
            let variable = number_variable(functions, scope, name)?;
            Ok(by_one(BinaryOp::Add, variable))
        }
        Simple::Decrement(name) => {
            let variable = number_variable(functions, scope, name)?;
            Ok(by_one(BinaryOp::Subtract, variable))
        }
    }
}

/// The value that a return gives, in a function with this result.
#[tactic(auto, unfolding(crate::specs::FindingStatements::returned_in))]
fn return_value(
    alloc: Global,
    functions: &Functions,
    scope: &Scope,
    result_type: &Option<Type>,
    expr: &Option<Expr>,
) -> Result<Option<checked::Expr>, RuleError>
    ensures value { Agrees (optional expr_of) result
        (spec.returned_in (functions_of functions.now) (scope_of scope.now) (optional ty_of result_type.now)
        (optional tree_of expr.now)) }
    // A value where none is wanted, and none where one is wanted, is a wrong number of values.
    ensures count { (is_some result_type.now ≡ is_some expr.now → ⊥) → result ≡ Err (faults.Broken codes.WrongCount) }
{
    match (result_type, expr) {
        (None, None) => Ok(None),
        (Some(own), Some(expr)) => {
            let value = find(alloc, functions, scope, expr)?;
            Ok(Some(as_type(own, value)?))
        }
        _ => Err(RuleError::Broken(RefusalCode::WrongCount)),
    }
}

/// Which of the statements around a place a break leaves.
fn break_of(label: &Option<Vec<u8>>, nest: &Nest) -> Result<usize, RuleError>
    ensures { Agrees (λ k. k) result (first_where (is_left (optional trees.name_of label.now)) (nest_of nest.now)) }
{
    break_depth(label.as_deref(), nest)
}

/// Which of the statements around a place a continue begins anew.
fn continue_of(label: &Option<Vec<u8>>, nest: &Nest) -> Result<usize, RuleError>
    ensures { Agrees (λ k. k) result (first_where (is_continued (optional trees.name_of label.now)) (nest_of nest.now)) }
{
    continue_depth(label.as_deref(), nest)
}

/// What a statement with no statements in it does.
#[tactic(auto, unfolding(crate::specs::FindingStatements::act_in))]
pub fn act(
    alloc: Global,
    context: &Context,
    scope: &mut Scope,
    action: &Action,
) -> Result<Act, RuleError>
    ensures { Agrees (λ a. (act_of a, scope_of scope.new)) result
        (spec.act_in (context_of context.now) (scope_of scope.old) (trees.act_of action.now)) }
{
    let functions = context.functions;
    match action {
        Action::Simple(plain) => simple(alloc, functions, scope, plain),
        Action::Var(names, type_tree) => declare(alloc, functions, scope, names, type_tree),
        Action::VarValues(names, type_tree, exprs) => {
            declare_values(alloc, functions, scope, names, type_tree, exprs)
        }
        Action::Go(name, arguments) => {
            let called = call_in(alloc, functions, scope, name, arguments)?;
            Ok(Act::Go {
                function: called.function,
                arguments: called.arguments,
            })
        }
        Action::Return(expr) => {
            Ok(Act::Return(return_value(alloc, functions, scope, context.result, expr)?))
        }
        Action::Break(label) => Ok(Act::Break(break_of(label, context.nest)?)),
        Action::Continue(label) => Ok(Act::Continue(continue_of(label, context.nest)?)),
    }
}
