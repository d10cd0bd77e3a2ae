//! What belongs to a select itself: its clauses without their blocks.
ghost use Rattle.std.specs.Prelude.{◌≡◌};
ghost use Rattle.gr_tree.specs.Statements.{comm_of};
ghost use Rattle.gr_types.specs.declared.refusal.CheckError.TheVariants as errors;
ghost use Rattle.gr_types.specs.StatementViews.{clauses_of};
ghost use Rattle.gr_typing.specs.Statements.{at_most_one, defaults};
ghost use Rattle.gr_exprs.specs.Tables.{scope_of};
ghost use Rattle.gr_exprs.specs.FunctionTables.{functions_of};
ghost use Rattle.gr_types.specs.ActViews.{awaited_of};
ghost use Rattle.gr_types.specs.FindingStatements as spec;
ghost use Rattle.gr_types.specs.Checking.{Settles};

use crate::communications::{Awaited, awaits};
use crate::refusal::{CheckError, refused};
use gr_exprs::functions::Functions;
use gr_exprs::scope::Scope;
use gr_scan::token::Place;
use gr_tree::{Clause, Communication};
use std::alloc::Global;

/// What a clause of the select at a place waits for.
pub fn placed_awaits(
    alloc: Global,
    functions: &Functions,
    scope: &mut Scope,
    place: Place,
    communication: &Communication,
) -> Result<Awaited, CheckError>
    ensures { Settles (λ o. (awaited_of o, scope_of scope.new)) result
        (spec.comm_in (functions_of functions.now) (scope_of scope.old) (comm_of communication.now)) }
{
    match awaits(alloc, functions, scope, communication) {
        Ok(awaited) => Ok(awaited),
        Err(fault) => Err(refused(fault, place)),
    }
}

/// Checks what the clauses of the select at a place wait for.
fn check_awaited(
    alloc: Global,
    functions: &Functions,
    scope: &mut Scope,
    place: Place,
    clauses: &[Clause],
) -> Result<(), CheckError> {
    for clause in clauses {
        let Clause::Case(communication, _) = clause else {
            continue;
        };
        scope.enter(alloc)?;
        placed_awaits(alloc, functions, scope, place, communication)?;
        scope.leave(alloc);
    }
    Ok(())
}

/// The error of a select, by the error that was met in its clauses. What a clause waits for is part of the select itself. So
/// a rule that is broken there comes before one that is broken in a body.
pub fn first_error(
    alloc: Global,
    functions: &Functions,
    scope: &mut Scope,
    place: Place,
    clauses: &[Clause],
    error: CheckError,
) -> CheckError
    ensures { error ≡ errors.Memory → result ≡ errors.Memory }
{
    if let CheckError::Memory = error {
        return CheckError::Memory;
    }
    match check_awaited(alloc, functions, scope, place, clauses) {
        Ok(()) => error,
        Err(earlier) => earlier,
    }
}

/// Whether no two of these clauses are `default`.
pub fn has_at_most_one_default(clauses: &[Clause]) -> bool
    ensures { result ≡ at_most_one (defaults (clauses_of clauses.now)) }
{
    let mut has_default = false;
    for clause in clauses {
        let Clause::Default(_) = clause else {
            continue;
        };
        if has_default {
            return false;
        }
        has_default = true;
    }
    true
}
