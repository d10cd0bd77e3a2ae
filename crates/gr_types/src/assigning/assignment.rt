//! Assignments: values for variables that are declared already (Go: Assignment statements).
ghost use Rattle.gr_tree.specs.Exprs.{names_of, trees_of};
ghost use Rattle.gr_program.specs.Views.{act_of, exprs_of};
ghost use Rattle.gr_exprs.specs.Tables.{scope_of};
ghost use Rattle.gr_exprs.specs.FunctionTables.{functions_of};
ghost use Rattle.gr_exprs.specs.Checking.{Agrees, meanings_of};
ghost use Rattle.gr_types.specs.FindingStatements as spec;
ghost use Rattle.gr_types.specs.Taking as pure;
ghost use Rattle.gr_types.specs.TakerViews.{pair_view};

use crate::assigning::right_sides::{ReceivePair, pair, received_pair, values_for};
use crate::assigning::targets::{accepts, all_targets, fit, target};
use gr_exprs::functions::Functions;
use gr_exprs::operands::Operand;
use gr_exprs::refusal::{RefusalCode, RuleError};
use gr_exprs::scope::Scope;
use gr_exprs::types::zero;
use gr_program as checked;
use gr_program::{Act, Type};
use gr_tree::Expr;
use std::alloc::Global;
use std::collections::VecDeque;

fn fits(
    alloc: Global,
    scope: &Scope,
    targets: &[Option<usize>],
    mut values: VecDeque<Operand>,
) -> Result<Vec<checked::Expr>, RuleError>
    ensures { Agrees (λ v. exprs_of v.items) result (pure.fits (scope_of scope.now) targets.now (meanings_of values.items)) }
{
    let mut terms = Vec::with_capacity(alloc, targets.len())?;
    for target in targets {
        let Some(value) = values.pop_front() else {
            return Err(RuleError::Broken(RefusalCode::WrongCount));
        };
        let term = fit(scope, *target, value)?;
        terms.push(term)?;
    }
    Ok(terms)
}

fn assign_values(
    alloc: Global,
    functions: &Functions,
    scope: &Scope,
    names: &[Vec<u8>],
    exprs: &[Expr],
) -> Result<Act, RuleError>
    ensures { Agrees (λ a. (act_of a, scope_of scope.now)) result
        (pure.assign_values (functions_of functions.now) (scope_of scope.now) (names_of names.now) (trees_of exprs.now)) }
{
    let targets = all_targets(alloc, functions, scope, names)?;
    let values = values_for(alloc, functions, scope, names, exprs)?;
    let values = fits(alloc, scope, &targets, values)?;
    Ok(Act::Assign { targets, values })
}

fn assign_received(
    alloc: Global,
    functions: &Functions,
    scope: &Scope,
    pair: ReceivePair,
) -> Result<Act, RuleError>
    ensures { Agrees (λ a. (act_of a, scope_of scope.now)) result
        (pure.assign_received (functions_of functions.now) (scope_of scope.now) (pair_view pair.entry)) }
{
    let value = target(functions, scope, pair.value)?;
    let ok = target(functions, scope, pair.ok)?;
    let (own, channel) = received_pair(alloc, functions, scope, pair.expr)?;
    accepts(scope, value, &own)?;
    accepts(scope, ok, &Type::Bool)?;
    Ok(Act::AssignReceive {
        value,
        ok,
        channel,
        zero: zero(&own),
    })
}

/// An assignment of expressions to names.
#[tactic(auto, using(crate::proofs::Taking::assign_values_is))]
pub fn assign(
    alloc: Global,
    functions: &Functions,
    scope: &Scope,
    names: &[Vec<u8>],
    exprs: &[Expr],
) -> Result<Act, RuleError>
    ensures { Agrees (λ a. (act_of a, scope_of scope.now)) result
        (spec.assign_by (functions_of functions.now) (scope_of scope.now) (names_of names.now) (trees_of exprs.now)
        (spec.pair_of (names_of names.now) (trees_of exprs.now))) }
{
    match pair(names, exprs) {
        Some(pair) => assign_received(alloc, functions, scope, pair),
        None => assign_values(alloc, functions, scope, names, exprs),
    }
}
