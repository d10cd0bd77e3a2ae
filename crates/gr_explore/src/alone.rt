//! The event that is taken alone where a machine stands.

ghost use Rattle.std.specs.Prelude.{◌≡◌, IfOk};
ghost use Rattle.gr_base.specs.declared.events.Choice.TheVariants.{Plain};
ghost use Rattle.gr_schedules.specs.Choices.{event_by};
ghost use Rattle.gr_rollback.specs.Machines.{IsMachine};
ghost use Rattle.gr_explore.specs.Alone.{AreAlone, IsFound};
ghost use Rattle.gr_explore.specs.Exploring.{state_seen};

use gr_base::{Choice, Event, GoName, NoMemory};
use gr_rollback::Machine;
use std::alloc::Global;

/// The plain event of a goroutine.
fn plain_event(alloc: Global, go: &GoName) -> Result<Event, NoMemory>
    ensures { IfOk result (λ event. event ≡ event_by go.now Plain) }
{
    let go = go.copy(alloc)?;
    Ok(Event {
        go,
        choice: Choice::Plain,
    })
}

/// An event that may be taken alone, if there is one. Which one is left open.
pub(crate) fn alone_event(alloc: Global, machine: &Machine) -> Result<Option<Event>, NoMemory>
    requires { IsMachine machine.now }
    ensures alone { IfOk result (AreAlone (state_seen machine.now)) }
    ensures found { IfOk result (IsFound (state_seen machine.now)) }
{
    match machine.first_alone() {
        Some(go) => Ok(Some(plain_event(alloc, go)?)),
        None => Ok(None),
    }
}
