//! The clauses of a select, in their order (Go: Select statements).

ghost use Rattle.std.specs.Prelude.{◌≡◌, option_map};
ghost use Rattle.gr_rules.specs.Actors.{clause_at};
ghost use Rattle.gr_rules.specs.Selects.{default_from};
ghost use Rattle.gr_goros.specs.Views.{communication_of, communications_of};
ghost use Rattle.gr_step.specs.Choices.{fault_in};

use gr_base::Fault;
use gr_goros::Clause;

/// The fault of the first value to send that has one.
pub(crate) fn first_fault(clauses: &[Clause]) -> Option<Fault>
    ensures { result ≡ fault_in clauses.now }
{
    for clause in clauses {
        if let Clause::Send {
            value: Err(fault),
            ..
        } = clause
        {
            return Some(*fault);
        }
    }
    None
}

/// The number of the default clause, counted from 1, if there is one.
pub(crate) fn default_clause(clauses: &[Clause]) -> Option<usize>
    ensures { result ≡ default_from 1 (communications_of clauses.now) }
{
    for (place, clause) in clauses.iter().enumerate() {
        if let Clause::Default = clause {
            return Some(place + 1);
        }
    }
    None
}

/// The clause with a number, counted from 1, if there is one.
pub(crate) fn take_clause(clauses: Vec<Clause>, number: u32) -> Option<Clause>
    ensures { option_map communication_of result ≡ clause_at (communications_of clauses.items) number }
{
    let mut clauses = clauses;
    let place = (number as usize).checked_sub(1)?;
    if place < clauses.len() {
        Some(clauses.swap_remove(place))
    } else {
        None
    }
}
