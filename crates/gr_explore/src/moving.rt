//! Where a machine stands along a list of events: back, and forth again.

ghost use Rattle.std.specs.Prelude.{◌≡◌, ◌≤◌, ◌++◌, ◌∷◌, [], OnOk, IfOk, map, take, length};
ghost use Rattle.gr_step.specs.Records.{event_of};
ghost use Rattle.gr_step.specs.Stores.{program_at};
ghost use Rattle.gr_rollback.specs.Machines.{IsMachine, store_of};
ghost use Rattle.gr_explore.specs.Exploring.{StandsSince, events_at};
ghost use Rattle.gr_explore.specs.Blaming.{IsOf, StandsAlong};

use crate::book::Book;
use crate::explorer::Explorer;
use gr_base::{Event, NoMemory};
use gr_rollback::Machine;
use gr_schedules::Aim;
use gr_search::search::take_all_back;
use gr_search::searched::Limit;
use gr_step::Record;
use std::alloc::Global;

/// The events of these steps.
fn events_in(alloc: Global, log: &[Record]) -> Result<Vec<Event>, NoMemory>
    ensures { IfOk result (λ events. events.items ≡ map event_of log.now) }
{
    let mut events = Vec::new(alloc);
    for step in log {
        events.push(step.event(alloc)?)?;
    }
    Ok(events)
}

/// The events of the steps of a machine's log, the oldest first.
pub(crate) fn events_of(alloc: Global, machine: &Machine) -> Result<Vec<Event>, NoMemory>
    ensures { IfOk result (λ events. events.items ≡ events_at machine.now) }
{
    events_in(alloc, machine.log().as_slice())
}

/// Takes steps back until so many are left.
pub(crate) fn back_to(alloc: Global, machine: &mut Machine, place: usize) -> Result<(), Limit>
    requires { StandsSince machine.old place }
    ensures of { IsOf (program_at (store_of machine.old)) machine.new }
    ensures back { OnOk result (events_at machine.new ≡ take place (events_at machine.old)) }
{
    let mut book = Book::new(alloc);
    let mut explorer = Explorer {
        machine,
        base: place,
        aim: Aim::EndsWell,
        alloc,
        book: &mut book,
    };
    take_all_back(&mut explorer)
}

/// Takes the step of an event that was taken before.
fn step_again(alloc: Global, machine: &mut Machine, event: &Event) -> Result<(), Limit>
    requires { IsMachine machine.old }
    ensures of { IsOf (program_at (store_of machine.old)) machine.new }
    ensures forth { OnOk result (events_at machine.new ≡ events_at machine.old ++ event.now ∷ []) }
{
    let Ok(event) = event.copy(alloc) else {
        return Err(Limit::Memory);
    };
    match machine.step(event) {
        Ok(_) => Ok(()),
        Err(_) => Err(Limit::Memory),
    }
}

/// Takes the steps of these events, one after the other.
fn step_through(alloc: Global, machine: &mut Machine, events: &[Event]) -> Result<(), Limit>
    requires { IsMachine machine.old }
    ensures of { IsOf (program_at (store_of machine.old)) machine.new }
    ensures forth { OnOk result (events_at machine.new ≡ events_at machine.old ++ events.now) }
{
    for event in events {
        step_again(alloc, machine, event)?;
    }
    Ok(())
}

/// Moves to where so many of the events were taken.
pub(crate) fn move_to(
    alloc: Global,
    machine: &mut Machine,
    events: &[Event],
    place: usize,
) -> Result<(), Limit>
    requires machine { IsMachine machine.old }
    requires along { StandsAlong events.now machine.old }
    requires within { place ≤ length events.now }
    ensures of { IsOf (program_at (store_of machine.old)) machine.new }
    ensures there { OnOk result (events_at machine.new ≡ take place events.now) }
{
    let taken = machine.log().len();
    if place <= taken {
        back_to(alloc, machine, place)
    } else {
        step_through(alloc, machine, &events[taken..place])
    }
}
