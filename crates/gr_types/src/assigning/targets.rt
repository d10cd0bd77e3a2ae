//! The left sides of assignments, definitions and declarations: which names may stand there, and which variables take
//! the values.
ghost use Rattle.std.specs.Prelude.{◌≡◌, [], ◌∷◌, not, IfOk};
ghost use Rattle.std.specs.List.{list_all};
ghost use Rattle.gr_tree.specs.Exprs.{names_of};
ghost use Rattle.gr_program.specs.TypeViews.{ty_of, types_of};
ghost use Rattle.gr_program.specs.Views.{expr_of};
ghost use Rattle.gr_typing.specs.Names as names_spec;
ghost use Rattle.gr_typing.specs.Scopes.{is_old, is_free, may_name};
ghost use Rattle.gr_typing.specs.Assignments as assignments;
ghost use Rattle.gr_exprs.specs.Tables.{scope_of};
ghost use Rattle.gr_exprs.specs.FunctionTables.{functions_of};
ghost use Rattle.gr_exprs.specs.Checking.{Agrees, meaning_of};
ghost use Rattle.gr_types.specs.Checking.{Holds};
ghost use Rattle.gr_exprs.specs.Codes.{Tells, name_code};
ghost use Rattle.gr_types.specs.Codes.{define_code};
ghost use Rattle.gr_exprs.specs.declared.refusal.RefusalCode.TheVariants as codes;
ghost use Rattle.gr_types.specs.FindingStatements as spec;
ghost use Rattle.gr_types.specs.Taking as pure;

use gr_exprs::calls::unusable;
use gr_exprs::functions::Functions;
use gr_exprs::names::{is_blank, is_predeclared};
use gr_exprs::operands::{Operand, as_type, with_type};
use gr_exprs::refusal::{RefusalCode, RuleError};
use gr_exprs::scope::Scope;
use gr_exprs::types::is_assignable;
use gr_program as checked;
use gr_program::Type;
use indexmap::IndexSet;
use std::alloc::{AllocError, Global};

/// Whether no name but the blank identifier stands twice among these.
fn are_distinct(alloc: Global, names: &[Vec<u8>]) -> Result<bool, AllocError>
    ensures { IfOk result (λ b. b ≡ names_spec.are_distinct [] (names_of names.now)) }
{
    let mut before: IndexSet<&[u8]> = IndexSet::new(alloc);
    for name in names {
        if is_blank(name) {
            continue;
        }
        let name = name.as_slice();
        if before.contains(name) {
            return Ok(false);
        }
        before.insert(name)?;
    }
    Ok(true)
}

fn none_predeclared(names: &[Vec<u8>]) -> bool
    ensures { result ≡ list_all (λ x. not (names_spec.among names_spec.predeclared x)) (names_of names.now) }
{
    for name in names {
        if is_predeclared(name) {
            return false;
        }
    }
    true
}

/// Whether names may be declared together.
pub fn may_stand_together(alloc: Global, names: &[Vec<u8>]) -> Result<(), RuleError>
    ensures value { Holds result (may_name (names_of names.now)) }
    ensures code { Tells result codes.DeclaredTwice }
{
    if !are_distinct(alloc, names)? || !none_predeclared(names) {
        return Err(RuleError::Broken(RefusalCode::DeclaredTwice));
    }
    Ok(())
}

/// Whether a name on the left of `:=` declares nothing new.
pub fn is_old(scope: &Scope, name: &[u8]) -> bool
    ensures { result ≡ is_old (scope_of scope.now) name.now }
{
    is_blank(name) || scope.is_here(name)
}

fn all_old(scope: &Scope, names: &[Vec<u8>]) -> bool
    ensures { result ≡ list_all (is_old (scope_of scope.now)) (names_of names.now) }
{
    for name in names {
        if !is_old(scope, name) {
            return false;
        }
    }
    true
}

/// Whether names may stand on the left of `:=`.
pub fn may_define(alloc: Global, scope: &Scope, names: &[Vec<u8>]) -> Result<(), RuleError>
    ensures value { Holds result (assignments.may_define (scope_of scope.now) (names_of names.now)) }
    ensures code { Tells result (define_code (names_of names.now)) }
{
    may_stand_together(alloc, names)?;
    if all_old(scope, names) {
        return Err(RuleError::Broken(RefusalCode::NoNewVariable));
    }
    Ok(())
}

/// Whether one name may stand on the left of `:=`.
pub fn may_define_one(scope: &Scope, name: &[u8]) -> Result<(), RuleError>
    ensures value { Holds result (assignments.may_define (scope_of scope.now) (name.now ∷ [])) }
    ensures code { Tells result (define_code (name.now ∷ [])) }
{
    if is_predeclared(name) {
        return Err(RuleError::Broken(RefusalCode::DeclaredTwice));
    }
    if is_old(scope, name) {
        return Err(RuleError::Broken(RefusalCode::NoNewVariable));
    }
    Ok(())
}

fn is_free(scope: &Scope, name: &[u8]) -> bool
    ensures { result ≡ is_free (scope_of scope.now) name.now }
{
    is_blank(name) || !scope.is_here(name)
}

fn all_free(scope: &Scope, names: &[Vec<u8>]) -> bool
    ensures { result ≡ list_all (is_free (scope_of scope.now)) (names_of names.now) }
{
    for name in names {
        if !is_free(scope, name) {
            return false;
        }
    }
    true
}

/// Whether names may be declared by `var`.
pub fn may_declare(alloc: Global, scope: &Scope, names: &[Vec<u8>]) -> Result<(), RuleError>
    ensures value { Holds result (assignments.may_declare (scope_of scope.now) (names_of names.now)) }
    ensures code { Tells result codes.DeclaredTwice }
{
    may_stand_together(alloc, names)?;
    if !all_free(scope, names) {
        return Err(RuleError::Broken(RefusalCode::DeclaredTwice));
    }
    Ok(())
}

/// What a name on the left of `=` stands for: a variable, or none for the blank identifier.
pub fn target(functions: &Functions, scope: &Scope, name: &[u8]) -> Result<Option<usize>, RuleError>
    ensures value { Agrees (λ k. k) result (pure.target (scope_of scope.now) name.now) }
    ensures code { Tells result (name_code (functions_of functions.now) (scope_of scope.now) name.now) }
{
    if is_blank(name) {
        return Ok(None);
    }
    match scope.variable_named(name) {
        Some(number) => Ok(Some(number)),
        None => Err(RuleError::Broken(unusable(functions, scope, name))),
    }
}

/// What names on the left of `=` stand for.
pub fn all_targets(
    alloc: Global,
    functions: &Functions,
    scope: &Scope,
    names: &[Vec<u8>],
) -> Result<Vec<Option<usize>>, RuleError>
    ensures { Agrees (λ ks. ks.items) result (pure.targets (scope_of scope.now) (names_of names.now)) }
{
    let mut targets = Vec::with_capacity(alloc, names.len())?;
    for name in names {
        let target = target(functions, scope, name)?;
        targets.push(target)?;
    }
    Ok(targets)
}

/// Whether a variable of this name takes values of a type.
pub fn accepts(scope: &Scope, target: Option<usize>, own: &Type) -> Result<(), RuleError>
    ensures value { Holds result (pure.accepts (scope_of scope.now) target (ty_of own.now)) }
    ensures code { Tells result codes.WrongForm }
{
    let Some(number) = target else {
        return Ok(());
    };
    match scope.type_of(number) {
        Some(target_type) if is_assignable(own, target_type) => Ok(()),
        _ => Err(RuleError::Broken(RefusalCode::WrongForm)),
    }
}

fn all_accept(scope: &Scope, targets: &[Option<usize>], types: &[Type]) -> Result<(), RuleError>
    ensures { Holds result (pure.all_accept (scope_of scope.now) targets.now (types_of types.now)) }
{
    for index in 0..targets.len() {
        match types.get(index) {
            Some(own) => accepts(scope, targets[index], own)?,
            None => return Err(RuleError::Broken(RefusalCode::WrongCount)),
        }
    }
    Ok(())
}

/// The target for a value of a type that is assigned to a name.
#[tactic(auto, using(crate::proofs::Taking::takes_is))]
pub fn target_for(
    functions: &Functions,
    scope: &Scope,
    name: &[u8],
    own: &Type,
) -> Result<Option<usize>, RuleError>
    ensures { Agrees (λ k. k) result (spec.takes (scope_of scope.now) name.now (ty_of own.now)) }
{
    let target = target(functions, scope, name)?;
    accepts(scope, target, own)?;
    Ok(target)
}

/// The targets for values of these types that are assigned to names, the first to the first. There are at least as many types
/// as names.
#[tactic(auto, using(crate::proofs::Taking::all_take_is))]
pub fn targets_for(
    alloc: Global,
    functions: &Functions,
    scope: &Scope,
    names: &[Vec<u8>],
    types: &[Type],
) -> Result<Vec<Option<usize>>, RuleError>
    ensures { Agrees (λ ks. ks.items) result (spec.all_take (scope_of scope.now) (names_of names.now) (types_of types.now)) }
{
    let targets = all_targets(alloc, functions, scope, names)?;
    all_accept(scope, &targets, types)?;
    Ok(targets)
}

/// A value that is given to the variable with a number.
fn given_variable(scope: &Scope, number: usize, value: Operand) -> Result<checked::Expr, RuleError>
    ensures { Agrees expr_of result (pure.given_variable (scope_of scope.now) number (meaning_of value)) }
{
    match scope.type_of(number) {
        Some(own) => as_type(own, value),
        None => Err(RuleError::Broken(RefusalCode::WrongForm)),
    }
}

/// A value that is given to what a name stands for.
pub fn fit(scope: &Scope, target: Option<usize>, value: Operand) -> Result<checked::Expr, RuleError>
    ensures { Agrees expr_of result (pure.fit (scope_of scope.now) target (meaning_of value)) }
{
    match target {
        None => Ok(with_type(value)?.1),
        Some(number) => given_variable(scope, number, value),
    }
}
