//! Trips of the machine of mailboxes: two that are causally equivalent and two that are not, and how a program decides it.

ghost use Rattle.std.specs.Prelude.{◌≡◌, ◌<◌, List, [], ◌∷◌, IsTrue, IfOk, IfSome, None, length, map, reverse, ◌↔◌};
ghost use Rattle.std.specs.List.{remove};
ghost use Rattle.gr_causal.specs.Orders.{Swaps};
ghost use Rattle.gr_causal.specs.Machine.{conflict};
ghost use Rattle.gr_causal.specs.Dependence.{dependents};
ghost use Rattle.gr_causal.specs.Trips.{Move, EquivalentFrom, Independent, IsLogFrom, step_of};
ghost use Rattle.gr_causal.specs.Trips.Move.{forth, back};
ghost use Rattle.gr_causal.specs.Mailboxes.{mailboxes, start, clash, MailStep};
ghost use Rattle.gr_causal.specs.MailboxTrips.{move_of};
ghost use Rattle.gr_causal.specs.WorkedLog.{worked_log, looks, looks_too, takes_five};

use crate::mailboxes::{Event, conflicts, parted};
use std::alloc::{AllocError, Global};

/// A step that is taken, or taken back.
#[derive(Clone, Copy)]
pub enum Turn {
    Forth(Event),
    Back(Event),
}

impl Turn {
    /// The step that moves.
    pub fn step(self) -> Event
        ensures { result ≡ step_of (move_of self) }
    {
        match self {
            Turn::Forth(event) | Turn::Back(event) => event,
        }
    }
}

/// Whether two moves from one log are independent, so that they may be made in either order.
pub fn may_swap(first: Turn, second: Turn) -> bool
    ensures { IsTrue result ↔ Independent clash (move_of first) (move_of second) }
{
    !conflicts(&first.step(), &second.step())
}

/// The steps that a rollback takes back: the one at a place and its dependents, from the last to the first. Its only error is
/// that memory ran out.
pub fn way_back(alloc: Global, log: &[Event], place: usize) -> Result<Vec<Event>, AllocError>
    requires { place < length log.now }
    ensures { IfOk result (λ steps. steps.items ≡ reverse (dependents clash log.now place)) }
{
    let parts = parted(alloc, log, place)?;
    parts.gone.iter().rev().copied().collect(alloc)
}

/// Three trips from the worked log. When the 5 is back in its mailbox, one look at it is taken back. The second trip takes
/// back the other look on its way, and takes it again. It is causally equivalent to the first. The third trip takes back the
/// other look in place of the first. It is not.
pub fn worked_trips()
    ensures alike { EquivalentFrom mailboxes start worked_log
        (back takes_five ∷ back looks ∷ [])
        (back takes_five ∷ back looks_too ∷ back looks ∷ forth looks_too ∷ []) }
    ensures apart { ¬ EquivalentFrom mailboxes start worked_log
        (back takes_five ∷ back looks ∷ [])
        (back takes_five ∷ back looks_too ∷ []) }
{}

/// Two logs of mailboxes from one state are one configuration exactly where their events are. So trips to them from one log are
/// causally equivalent exactly where `are_one_configuration` says so of their events.
pub fn configurations_by_events()
    ensures { (s : mailboxes.State) (first second : List MailStep)
        → IsLogFrom mailboxes s first → IsLogFrom mailboxes s second
        → Swaps (conflict mailboxes) first second ↔ Swaps clash (map (λ r. r.event) first) (map (λ r. r.event) second) }
{}

fn are_equal(first: &Event, second: &Event) -> bool
    ensures { IsTrue result ↔ first.now ≡ second.now }
{
    first == second
}

/// The place of the first step that equals this one, if it conflicts with none before it.
fn place_in_front(log: &[Event], event: &Event) -> Option<usize>
    ensures some { IfSome result (λ place. (place < length log.now) × Swaps clash (event.now ∷ remove log.now place) log.now) }
    ensures none { result ≡ None → (rest : List Event) → ¬ Swaps clash (event.now ∷ rest) log.now }
{
    for (place, other) in log.iter().enumerate() {
        if are_equal(other, event) {
            return Some(place);
        }
        if conflicts(other, event) {
            return None;
        }
    }
    None
}

/// Whether two logs are one configuration: swaps of neighbours that do not conflict lead from one to the other. Its only error
/// is that memory ran out.
pub fn are_one_configuration(
    alloc: Global,
    first: &[Event],
    second: &[Event],
) -> Result<bool, AllocError>
    ensures { IfOk result (λ same. IsTrue same ↔ Swaps clash first.now second.now) }
{
    let mut left: Vec<Event> = second.iter().copied().collect(alloc)?;
    for event in first {
        let Some(place) = place_in_front(&left, event) else {
            return Ok(false);
        };
        left.remove(place);
    }
    Ok(left.is_empty())
}

#[cfg(test)]
mod tests {
    use super::*;
    use crate::mailboxes::Action;
    use std::test::Fail;

    #[test]
    fn looks_change_places_and_no_look_passes_the_taking(rt: HostRuntime) -> Result<(), Fail> {
        let event = |worker, action| Event {
            worker,
            mailbox: 0,
            action,
        };
        let puts = event(0, Action::Put(5));
        let looks = event(1, Action::Look);
        let looks_too = event(2, Action::Look);
        let takes = event(3, Action::Take);
        let log = [puts, looks, looks_too, takes];
        let swapped = [puts, looks_too, looks, takes];
        let too_late = [puts, looks, takes, looks_too];
        let alike = are_one_configuration(rt.alloc(), &log, &swapped)?;
        let apart = are_one_configuration(rt.alloc(), &log, &too_late)?;
        assert_eq!(rt; (alike, apart), (true, false));
        let gone = way_back(rt.alloc(), &log, 1)?;
        assert_eq!(rt; gone.as_slice(), [takes, looks].as_slice());
        assert_eq!(rt; may_swap(Turn::Back(looks), Turn::Forth(looks_too)), true);
        Ok(())
    }
}
