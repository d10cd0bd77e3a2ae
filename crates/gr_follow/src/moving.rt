//! A machine that goes back, and forth by the events of given steps.

ghost use Rattle.std.specs.Prelude.{◌≡◌, ◌≤◌, ◌<◌, ◌++◌, ◌∷◌, ◌-◌, [], OnOk, map, take, length};
ghost use Rattle.gr_step.specs.Records.{event_of};
ghost use Rattle.gr_step.specs.Stores.{program_at};
ghost use Rattle.gr_rollback.specs.Machines.{IsMachine, store_of};
ghost use Rattle.gr_follow.specs.Following.{IsOf, events_at};

use gr_base::NoMemory;
use gr_rollback::Machine;
use gr_step::Record;
use std::alloc::Global;

/// Takes the last step back.
fn back_once(alloc: Global, machine: &mut Machine) -> Result<(), NoMemory>
    requires machine { IsMachine machine.old }
    ensures of { IsOf (program_at (store_of machine.old)) machine.new }
    ensures back { OnOk result (events_at machine.new ≡ take (length (events_at machine.old) - 1) (events_at machine.old)) }
{
    match machine.undo(alloc) {
        Ok(_) => Ok(()),
        Err(_) => Err(NoMemory),
    }
}

/// Takes steps back until so many are left.
pub(crate) fn back_to(alloc: Global, machine: &mut Machine, place: usize) -> Result<(), NoMemory>
    requires machine { IsMachine machine.old }
    requires within { place ≤ length (events_at machine.old) }
    ensures of { IsOf (program_at (store_of machine.old)) machine.new }
    ensures back { OnOk result (events_at machine.new ≡ take place (events_at machine.old)) }
{
    while machine.log().len() > place {
        back_once(alloc, machine)?;
    }
    Ok(())
}

/// Takes the step of the event of a given step.
pub(crate) fn step_as(alloc: Global, machine: &mut Machine, step: &Record) -> Result<(), NoMemory>
    requires machine { IsMachine machine.old }
    ensures of { IsOf (program_at (store_of machine.old)) machine.new }
    ensures forth { OnOk result (events_at machine.new ≡ events_at machine.old ++ event_of step.now ∷ []) }
{
    let event = step.event(alloc)?;
    match machine.step(event) {
        Ok(_) => Ok(()),
        Err(_) => Err(NoMemory),
    }
}

/// Takes the steps of the events of given steps, one after the other.
pub(crate) fn step_through(
    alloc: Global,
    machine: &mut Machine,
    steps: &[Record],
) -> Result<(), NoMemory>
    requires machine { IsMachine machine.old }
    ensures of { IsOf (program_at (store_of machine.old)) machine.new }
    ensures forth { OnOk result (events_at machine.new ≡ events_at machine.old ++ map event_of steps.now) }
{
    for step in steps {
        step_as(alloc, machine, step)?;
    }
    Ok(())
}
