//! Declarations by `var`, with values or with zero values (Go: Variable declarations).
ghost use Rattle.std.specs.Prelude.{◌≡◌, ◌∷◌, [], true, map, IfOk, OnOk};
ghost use Rattle.gr_tree.specs.Exprs.{type_of, names_of, tree_of, trees_of};
ghost use Rattle.gr_tree.specs.Statements.{optional};
ghost use Rattle.gr_program.specs.TypeViews.{ty_of};
ghost use Rattle.gr_exprs.specs.Tables.{scope_of};
ghost use Rattle.gr_exprs.specs.FunctionTables.{functions_of};
ghost use Rattle.gr_program.specs.Views.{act_of, expr_of, exprs_of};
ghost use Rattle.gr_typing.specs.Scopes as scopes;
ghost use Rattle.gr_typing.specs.Assignments as assignments;
ghost use Rattle.gr_types.specs.FindingStatements as spec;
ghost use Rattle.gr_types.specs.Declaring as parts;
ghost use Rattle.gr_types.specs.Declaring.{Declarable};
ghost use Rattle.gr_types.specs.Acting.{declaration, declaration_by};
ghost use Rattle.gr_exprs.specs.Checking.{Agrees, meaning_of, meanings_of, typed_of};

use crate::assigning::right_sides::received_pair;
use crate::assigning::targets::may_declare;
use gr_exprs::expressions::{find_all, written_type};
use gr_exprs::functions::Functions;
use gr_exprs::operands::{Operand, as_type, with_type};
use gr_exprs::refusal::{RefusalCode, RuleError};
use gr_exprs::scope::Scope;
use gr_exprs::types::{is_assignable, zero};
use gr_program as checked;
use gr_program::types::copy;
use gr_program::{Act, Literal, Type};
use gr_tree::{Expr, TypeTree};
use std::alloc::{AllocError, Global};
use std::collections::VecDeque;

fn declare_all(
    alloc: Global,
    scope: &mut Scope,
    names: &[Vec<u8>],
    own: &Type,
) -> Result<(), AllocError>
    requires { Declarable (scope_of scope.old) (names_of names.now) }
    ensures { OnOk result (scope_of scope.new
        ≡ assignments.all_declared (scope_of scope.old) (names_of names.now) (ty_of own.now)) }
{
    for name in names {
        scope.declare(alloc, name, copy(alloc, own)?)?;
    }
    Ok(())
}

/// The variables that names stand for on the left of an assignment.
fn variables(
    alloc: Global,
    scope: &Scope,
    names: &[Vec<u8>],
) -> Result<Vec<Option<usize>>, AllocError>
    ensures { IfOk result (λ v. v.items ≡ map (scopes.number_of (scope_of scope.now)) (names_of names.now)) }
{
    let mut variables = Vec::new(alloc);
    for name in names {
        variables.push(scope.number_of(name))?;
    }
    Ok(variables)
}

/// A zero value for each name.
fn zeros(alloc: Global, names: &[Vec<u8>], own: &Type) -> Result<Vec<checked::Expr>, AllocError>
    ensures { IfOk result (λ v. exprs_of v.items ≡ assignments.zeros (names_of names.now) (ty_of own.now)) }
{
    let mut values = Vec::new(alloc);
    for _ in names {
        values.push(checked::Expr::Literal(zero(own)))?;
    }
    Ok(values)
}

fn declare_zeros(
    alloc: Global,
    scope: &mut Scope,
    names: &[Vec<u8>],
    own: &Type,
) -> Result<Act, RuleError>
    requires { Declarable (scope_of scope.old) (names_of names.now) }
    ensures { Agrees (λ a. (act_of a, scope_of scope.new)) result
        (spec.var_zero (scope_of scope.old) (names_of names.now) (ty_of own.now)) }
{
    declare_all(alloc, scope, names, own)?;
    let targets = variables(alloc, scope, names)?;
    let values = zeros(alloc, names, own)?;
    Ok(Act::Assign { targets, values })
}

/// A declaration of variables that hold the zero value of their type.
#[tactic(auto, using(crate::proofs::Declared::may_all))]
pub fn declare(
    alloc: Global,
    functions: &Functions,
    scope: &mut Scope,
    names: &[Vec<u8>],
    type_tree: &TypeTree,
) -> Result<Act, RuleError>
    ensures { Agrees (λ a. (act_of a, scope_of scope.new)) result
        (declaration (scope_of scope.old) (names_of names.now) (type_of type_tree.now)) }
{
    may_declare(alloc, scope, names)?;
    let own = written_type(alloc, functions, scope, type_tree)?;
    declare_zeros(alloc, scope, names, &own)
}

/// The type that is written, if one is.
fn written_of(
    alloc: Global,
    functions: &Functions,
    scope: &Scope,
    type_tree: &Option<TypeTree>,
) -> Result<Option<Type>, RuleError>
    ensures { Agrees (λ t. optional ty_of t) result (spec.written_of (optional type_of type_tree.now)) }
{
    match type_tree {
        Some(type_tree) => Ok(Some(written_type(alloc, functions, scope, type_tree)?)),
        None => Ok(None),
    }
}

/// A value for a variable, with the variable's type.
#[tactic(auto, unfolding(crate::specs::FindingStatements::declared_as))]
fn typed_as(
    alloc: Global,
    written: &Option<Type>,
    value: Operand,
) -> Result<(Type, checked::Expr), RuleError>
    ensures { Agrees typed_of result (spec.declared_as (optional ty_of written.now) (meaning_of value)) }
{
    match written {
        Some(written) => {
            let term = as_type(written, value)?;
            Ok((copy(alloc, written)?, term))
        }
        None => with_type(value),
    }
}

/// Declares a name by a value: the variable, and the value.
fn declare_one(
    alloc: Global,
    scope: &mut Scope,
    name: &[u8],
    written: &Option<Type>,
    value: Operand,
) -> Result<(Option<usize>, checked::Expr), RuleError>
    requires { scopes.is_free (scope_of scope.old) name.now ≡ true }
    ensures { Agrees (λ g. ((g.0, expr_of g.1), scope_of scope.new)) result
        (parts.placed (optional ty_of written.now) name.now (meaning_of value) (scope_of scope.old)) }
{
    let (own, term) = typed_as(alloc, written, value)?;
    scope.declare(alloc, name, own)?;
    Ok((scope.number_of(name), term))
}

/// Declares names by their values: the variables, and the values.
fn declare_each(
    alloc: Global,
    scope: &mut Scope,
    names: &[Vec<u8>],
    written: &Option<Type>,
    mut values: VecDeque<Operand>,
) -> Result<(Vec<Option<usize>>, Vec<checked::Expr>), RuleError>
    requires { Declarable (scope_of scope.old) (names_of names.now) }
    ensures { Agrees (λ g. ((g.0.items, exprs_of g.1.items), scope_of scope.new)) result
        (parts.all_placed (optional ty_of written.now) (names_of names.now) (meanings_of values.items) (scope_of scope.old)) }
{
    let mut variables = Vec::new(alloc);
    let mut terms = Vec::new(alloc);
    for name in names {
        let Some(value) = values.pop_front() else {
            return Err(RuleError::Broken(RefusalCode::WrongCount));
        };
        let (variable, term) = declare_one(alloc, scope, name, written, value)?;
        variables.push(variable)?;
        terms.push(term)?;
    }
    if !values.is_empty() {
        return Err(RuleError::Broken(RefusalCode::WrongCount));
    }
    Ok((variables, terms))
}

fn declare_by_values(
    alloc: Global,
    functions: &Functions,
    scope: &mut Scope,
    names: &[Vec<u8>],
    written: &Option<Type>,
    exprs: &[Expr],
) -> Result<Act, RuleError>
    requires { Declarable (scope_of scope.old) (names_of names.now) }
    ensures { Agrees (λ a. (act_of a, scope_of scope.new)) result
        (parts.by_values (functions_of functions.now) (scope_of scope.old) (names_of names.now) (optional ty_of written.now)
        (trees_of exprs.now)) }
{
    if names.len() != exprs.len() {
        return Err(RuleError::Broken(RefusalCode::WrongCount));
    }
    let values = find_all(alloc, functions, scope, exprs)?;
    let (targets, values) = declare_each(alloc, scope, names, written, values)?;
    Ok(Act::Assign { targets, values })
}

/// The type of a variable that takes a value of a type.
fn type_for(alloc: Global, written: &Option<Type>, own: Type) -> Result<Type, RuleError>
    ensures { Agrees ty_of result (parts.type_for (optional ty_of written.now) (ty_of own)) }
{
    match written {
        Some(written) => {
            if !is_assignable(&own, written) {
                return Err(RuleError::Broken(RefusalCode::WrongForm));
            }
            Ok(copy(alloc, written)?)
        }
        None => Ok(own),
    }
}

/// Declares two names by a receive: for the value, and for whether there was one.
fn declare_by_receive(
    alloc: Global,
    functions: &Functions,
    scope: &mut Scope,
    value: &[u8],
    ok: &[u8],
    written: &Option<Type>,
    expr: &Expr,
) -> Result<Act, RuleError>
    requires { Declarable (scope_of scope.old) (value.now ∷ (ok.now ∷ [])) }
    ensures { Agrees (λ a. (act_of a, scope_of scope.new)) result
        (parts.by_receive (functions_of functions.now) (scope_of scope.old) value.now ok.now (optional ty_of written.now)
        (tree_of expr.now)) }
{
    let (element, channel) = received_pair(alloc, functions, scope, expr)?;
    let zero = zero(&element);
    let value_type = type_for(alloc, written, element)?;
    let ok_type = type_for(alloc, written, Type::Bool)?;
    scope.declare(alloc, value, value_type)?;
    scope.declare(alloc, ok, ok_type)?;
    Ok(Act::AssignReceive {
        value: scope.number_of(value),
        ok: scope.number_of(ok),
        channel,
        zero,
    })
}

fn declare_by(
    alloc: Global,
    functions: &Functions,
    scope: &mut Scope,
    names: &[Vec<u8>],
    written: &Option<Type>,
    exprs: &[Expr],
) -> Result<Act, RuleError>
    requires { Declarable (scope_of scope.old) (names_of names.now) }
    ensures { Agrees (λ a. (act_of a, scope_of scope.new)) result
        (spec.var_by (functions_of functions.now) (scope_of scope.old) (names_of names.now) (optional ty_of written.now)
        (trees_of exprs.now) (spec.pair_of (names_of names.now) (trees_of exprs.now))) }
{
    if names.len() == 2 && exprs.len() == 1 {
        let (value, ok) = (&names[0], &names[1]);
        return declare_by_receive(alloc, functions, scope, value, ok, written, &exprs[0]);
    }
    declare_by_values(alloc, functions, scope, names, written, exprs)
}

/// A declaration of variables by expressions, perhaps with their type.
#[tactic(auto, using(crate::proofs::Declared::may_all))]
pub fn declare_values(
    alloc: Global,
    functions: &Functions,
    scope: &mut Scope,
    names: &[Vec<u8>],
    type_tree: &Option<TypeTree>,
    exprs: &[Expr],
) -> Result<Act, RuleError>
    ensures { Agrees (λ a. (act_of a, scope_of scope.new)) result
        (declaration_by (functions_of functions.now) (scope_of scope.old) (names_of names.now) (optional type_of type_tree.now)
        (trees_of exprs.now)) }
{
    may_declare(alloc, scope, names)?;
    let written = written_of(alloc, functions, scope, type_tree)?;
    declare_by(alloc, functions, scope, names, &written, exprs)
}
