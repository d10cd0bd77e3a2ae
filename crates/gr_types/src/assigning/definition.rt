//! Definitions by `:=`: a name that is new in its block is declared, an old one takes its value (Go: Short variable
//! declarations).
ghost use Rattle.gr_types.specs.FindingStatements as spec;
ghost use Rattle.gr_types.specs.Taking as pure;
ghost use Rattle.std.specs.Prelude.{◌≡◌, true, [], ◌∷◌, IfOk};
ghost use Rattle.gr_tree.specs.Exprs.{names_of, trees_of};
ghost use Rattle.gr_exprs.specs.Tables.{scope_of};
ghost use Rattle.gr_exprs.specs.FunctionTables.{functions_of};
ghost use Rattle.gr_program.specs.Views.{act_of};
ghost use Rattle.gr_types.specs.Acting.{definition, defined_takers};
ghost use Rattle.gr_typing.specs.Assignments.{may_define};
ghost use Rattle.gr_types.specs.TakerViews.{pair_view, share_of, shares_of, taker_of, takers_of};
ghost use Rattle.gr_exprs.specs.Checking.{Agrees, meaning_of, meanings_of};
ghost use Rattle.gr_program.specs.TypeViews.{ty_of, types_of};

use crate::assigning::right_sides::{ReceivePair, pair, received_pair, values_for};
use crate::assigning::targets::{accepts, fit, is_old, may_define, may_define_one, target};
use gr_exprs::functions::Functions;
use gr_exprs::operands::{Operand, with_type};
use gr_exprs::refusal::{RefusalCode, RuleError};
use gr_exprs::scope::Scope;
use gr_exprs::types::zero;
use gr_program as checked;
use gr_program::types::copy;
use gr_program::{Act, Type};
use gr_tree::Expr;
use std::alloc::{AllocError, Global};
use std::collections::VecDeque;

/// What takes a value on the left of `:=`.
#[derive(Drop)]
pub enum Taker {
    /// A variable that the block declares already. There is none for the blank identifier.
    Old(Option<usize>),
    /// A new variable of this type.
    New(Type),
}

/// The variable that takes a name's value; a new one is declared.
pub fn settle(
    alloc: Global,
    scope: &mut Scope,
    name: &[u8],
    taker: Taker,
) -> Result<Option<usize>, AllocError>
    requires { pure.may_settle name.now (taker_of taker) (scope_of scope.old) ≡ true }
    ensures { IfOk result (λ k. (k, scope_of scope.new) ≡ pure.settled name.now (taker_of taker) (scope_of scope.old)) }
{
    match taker {
        Taker::Old(target) => Ok(target),
        Taker::New(own) => {
            scope.declare(alloc, name, own)?;
            Ok(scope.number_of(name))
        }
    }
}

/// The variables that take the names' values; new ones are declared, in order.
pub fn settle_all(
    alloc: Global,
    scope: &mut Scope,
    names: &[Vec<u8>],
    mut takers: VecDeque<Taker>,
) -> Result<Vec<Option<usize>>, AllocError>
    requires { pure.may_settle_all (names_of names.now) (takers_of takers.items) (scope_of scope.old) ≡ true }
    ensures { IfOk result (λ ks. (ks.items, scope_of scope.new)
        ≡ pure.all_settled (names_of names.now) (takers_of takers.items) (scope_of scope.old)) }
{
    let mut targets = Vec::with_capacity(alloc, names.len())?;
    for name in names {
        let Some(taker) = takers.pop_front() else {
            return Ok(targets);
        };
        let target = settle(alloc, scope, name, taker)?;
        targets.push(target)?;
    }
    Ok(targets)
}

fn old_taker(
    functions: &Functions,
    scope: &Scope,
    name: &[u8],
    own: &Type,
) -> Result<Taker, RuleError>
    ensures { Agrees taker_of result (pure.old_taker (scope_of scope.now) name.now (ty_of own.now)) }
{
    let target = target(functions, scope, name)?;
    accepts(scope, target, own)?;
    Ok(Taker::Old(target))
}

/// The target for the value of a name on the left of `:=`.
pub fn taker_for(
    functions: &Functions,
    scope: &Scope,
    name: &[u8],
    own: Type,
) -> Result<Taker, RuleError>
    ensures { Agrees taker_of result (pure.taker (scope_of scope.now) name.now (ty_of own)) }
{
    if is_old(scope, name) {
        return old_taker(functions, scope, name, &own);
    }
    Ok(Taker::New(own))
}

fn takers_for(
    alloc: Global,
    functions: &Functions,
    scope: &Scope,
    names: &[Vec<u8>],
    types: &[Type],
) -> Result<VecDeque<Taker>, RuleError>
    ensures { Agrees (λ ks. takers_of ks.items) result
        (pure.takers (scope_of scope.now) (names_of names.now) (types_of types.now)) }
{
    let mut takers = VecDeque::new(alloc);
    for index in 0..names.len() {
        let own = match types.get(index) {
            Some(own) => copy(alloc, own)?,
            None => return Err(RuleError::Broken(RefusalCode::WrongCount)),
        };
        let taker = taker_for(functions, scope, &names[index], own)?;
        takers.push_back(taker)?;
    }
    Ok(takers)
}

fn define_each_target(
    alloc: Global,
    functions: &Functions,
    scope: &mut Scope,
    names: &[Vec<u8>],
    types: &[Type],
) -> Result<Vec<Option<usize>>, RuleError>
    requires { may_define (scope_of scope.old) (names_of names.now) ≡ true }
    ensures { Agrees (λ ks. (ks.items, scope_of scope.new)) result
        (pure.defined_all (scope_of scope.old) (names_of names.now) (types_of types.now)) }
{
    let takers = takers_for(alloc, functions, scope, names, types)?;
    Ok(settle_all(alloc, scope, names, takers)?)
}

/// The targets for the values of the names on the left of `:=`. New names are declared.
#[tactic(auto, using(crate::proofs::Taking::all_take_new_is))]
pub fn define_targets(
    alloc: Global,
    functions: &Functions,
    scope: &mut Scope,
    names: &[Vec<u8>],
    types: &[Type],
) -> Result<Vec<Option<usize>>, RuleError>
    ensures { Agrees (λ ks. (ks.items, scope_of scope.new)) result
        (defined_takers (scope_of scope.old) (names_of names.now) (types_of types.now)) }
{
    may_define(alloc, scope, names)?;
    define_each_target(alloc, functions, scope, names, types)
}

fn define_new_target(
    alloc: Global,
    functions: &Functions,
    scope: &mut Scope,
    name: &[u8],
    own: Type,
) -> Result<Option<usize>, RuleError>
    requires { may_define (scope_of scope.old) (name.now ∷ []) ≡ true }
    ensures { Agrees (λ k. (k, scope_of scope.new)) result (pure.defined_one (scope_of scope.old) name.now (ty_of own)) }
{
    let taker = taker_for(functions, scope, name, own)?;
    Ok(settle(alloc, scope, name, taker)?)
}

#[tactic(auto, using(crate::proofs::Taking::takes_new_is))]
pub fn define_target(
    alloc: Global,
    functions: &Functions,
    scope: &mut Scope,
    name: &[u8],
    own: Type,
) -> Result<Option<usize>, RuleError>
    ensures { Agrees (λ k. (k, scope_of scope.new)) result (pure.new_target (scope_of scope.old) name.now (ty_of own)) }
{
    may_define_one(scope, name)?;
    define_new_target(alloc, functions, scope, name, own)
}

/// The value for a name on the left of `:=` that declares nothing new.
fn old_share(
    functions: &Functions,
    scope: &Scope,
    name: &[u8],
    value: Operand,
) -> Result<(Taker, checked::Expr), RuleError>
    ensures { Agrees share_of result (pure.old_share (scope_of scope.now) name.now (meaning_of value)) }
{
    let target = target(functions, scope, name)?;
    let term = fit(scope, target, value)?;
    Ok((Taker::Old(target), term))
}

/// The target for a name on the left of `:=`, and its value.
fn share(
    functions: &Functions,
    scope: &Scope,
    name: &[u8],
    value: Operand,
) -> Result<(Taker, checked::Expr), RuleError>
    ensures { Agrees share_of result (pure.share (scope_of scope.now) name.now (meaning_of value)) }
{
    if is_old(scope, name) {
        return old_share(functions, scope, name, value);
    }
    let (own, term) = with_type(value)?;
    Ok((Taker::New(own), term))
}

fn shares(
    alloc: Global,
    functions: &Functions,
    scope: &Scope,
    names: &[Vec<u8>],
    mut values: VecDeque<Operand>,
) -> Result<(VecDeque<Taker>, Vec<checked::Expr>), RuleError>
    ensures { Agrees shares_of result (pure.shares (scope_of scope.now) (names_of names.now) (meanings_of values.items)) }
{
    let mut takers = VecDeque::new(alloc);
    let mut terms = Vec::with_capacity(alloc, names.len())?;
    for name in names {
        let Some(value) = values.pop_front() else {
            return Err(RuleError::Broken(RefusalCode::WrongCount));
        };
        let (taker, term) = share(functions, scope, name, value)?;
        takers.push_back(taker)?;
        terms.push(term)?;
    }
    Ok((takers, terms))
}

fn define_values(
    alloc: Global,
    functions: &Functions,
    scope: &mut Scope,
    names: &[Vec<u8>],
    exprs: &[Expr],
) -> Result<Act, RuleError>
    requires { may_define (scope_of scope.old) (names_of names.now) ≡ true }
    ensures { Agrees (λ a. (act_of a, scope_of scope.new)) result
        (pure.define_values (functions_of functions.now) (scope_of scope.old) (names_of names.now) (trees_of exprs.now)) }
{
    let values = values_for(alloc, functions, scope, names, exprs)?;
    let (takers, values) = shares(alloc, functions, scope, names, values)?;
    let targets = settle_all(alloc, scope, names, takers)?;
    Ok(Act::Assign { targets, values })
}

fn define_received(
    alloc: Global,
    functions: &Functions,
    scope: &mut Scope,
    pair: ReceivePair,
) -> Result<Act, RuleError>
    requires { may_define (scope_of scope.old) (pair.value.now ∷ (pair.ok.now ∷ [])) ≡ true }
    ensures { Agrees (λ a. (act_of a, scope_of scope.new)) result
        (pure.define_received (functions_of functions.now) (scope_of scope.old) (pair_view pair.entry)) }
{
    let (own, channel) = received_pair(alloc, functions, scope, pair.expr)?;
    let zero = zero(&own);
    let value = taker_for(functions, scope, pair.value, own)?;
    let ok = taker_for(functions, scope, pair.ok, Type::Bool)?;
    let value = settle(alloc, scope, pair.value, value)?;
    let ok = settle(alloc, scope, pair.ok, ok)?;
    Ok(Act::AssignReceive {
        value,
        ok,
        channel,
        zero,
    })
}

#[tactic(auto, using(crate::proofs::Taking::define_values_is))]
fn define_by(
    alloc: Global,
    functions: &Functions,
    scope: &mut Scope,
    names: &[Vec<u8>],
    exprs: &[Expr],
) -> Result<Act, RuleError>
    requires { may_define (scope_of scope.old) (names_of names.now) ≡ true }
    ensures { Agrees (λ a. (act_of a, scope_of scope.new)) result
        (spec.define_by (functions_of functions.now) (scope_of scope.old) (names_of names.now) (trees_of exprs.now)
        (spec.pair_of (names_of names.now) (trees_of exprs.now))) }
{
    match pair(names, exprs) {
        Some(pair) => define_received(alloc, functions, scope, pair),
        None => define_values(alloc, functions, scope, names, exprs),
    }
}

/// A definition of names by expressions (`:=`): new names are declared.
pub fn define(
    alloc: Global,
    functions: &Functions,
    scope: &mut Scope,
    names: &[Vec<u8>],
    exprs: &[Expr],
) -> Result<Act, RuleError>
    ensures { Agrees (λ a. (act_of a, scope_of scope.new)) result
        (definition (functions_of functions.now) (scope_of scope.old) (names_of names.now) (trees_of exprs.now)) }
{
    may_define(alloc, scope, names)?;
    define_by(alloc, functions, scope, names, exprs)
}
