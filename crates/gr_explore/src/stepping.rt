//! Steps of a machine that explores, forward and back.

ghost use Rattle.std.specs.Prelude.{Ok, Err, ◌≡◌, ◌<◌, ◌≤◌, ◌↔◌, IsTrue, IsFalse, length, List, ℕ};
ghost use Rattle.gr_rules.specs.Limits.{most_steps};
ghost use Rattle.gr_rules.specs.Turns.{IsReady};
ghost use Rattle.gr_rules.specs.States.{ended};
ghost use Rattle.gr_schedules.specs.Schedules.{IsBad};
ghost use Rattle.gr_schedules.specs.Aims.{IsAim};
ghost use Rattle.gr_rollback.specs.Machines.{IsMachine, steps_of};
ghost use Rattle.gr_explore.specs.Exploring.{StandsSince, events_since, state_seen};
ghost use Rattle.gr_search.specs.declared.searched.Limit.TheVariants as limits;
ghost use Rattle.gr_explore.specs.Trying.{IsNotTaken, Returned, Tried};

use crate::leaking::leaks;
use gr_base::{Event, StepId};
use gr_rollback::{BackRefused, LOG_LIMIT, Machine, Run};
use gr_schedules::Aim;
use gr_search::searched::Limit;
use gr_step::StepRefused;
use std::alloc::Global;

/// What is told of a step that the store refused: only out of memory is a limit.
fn not_taken(why: StepRefused) -> Result<bool, Limit>
    ensures { IsNotTaken why result }
{
    match why {
        StepRefused::NoMemory => Err(Limit::Memory),
        StepRefused::Over
        | StepRefused::NotThere
        | StepRefused::Done
        | StepRefused::Waits
        | StepRefused::NoChoice => Ok(false),
    }
}

/// Whether the log has as many steps as it may.
fn is_full(machine: &Machine) -> bool
    ensures { IsTrue result → length (steps_of machine.now) ≡ most_steps }
{
    machine.log().len() == LOG_LIMIT
}

/// Whether the log has more than so many steps.
fn has_more(machine: &Machine, base: usize) -> bool
    ensures more { IsTrue result → base < length (steps_of machine.now) }
    ensures none { IsFalse result → length (steps_of machine.now) ≤ base }
{
    base < machine.log().len()
}

/// Takes the step of an event, if it is possible. Refused, nothing has changed.
pub(crate) fn take(machine: &mut Machine, base: usize, event: Event) -> Result<bool, Limit>
    requires { StandsSince machine.old base }
    ensures { Tried base event result machine.old machine.new }
{
    if is_full(machine) {
        return Err(Limit::Steps);
    }
    match machine.step(event) {
        Ok(_) => Ok(true),
        Err(why) => not_taken(why),
    }
}

/// What is told of a step that was taken back.
fn taken_back(_id: StepId) -> Result<(), Limit>
    ensures { result ≡ Ok tt }
{
    Ok(())
}

/// What is told of a step that could not be taken back.
fn not_taken_back(_why: BackRefused) -> Result<(), Limit>
    ensures { result ≡ Err (limits.Back) }
{
    Err(Limit::Back)
}

/// Takes the last step back, if there is one since.
pub(crate) fn take_back(alloc: Global, machine: &mut Machine, base: usize) -> Result<(), Limit>
    requires { StandsSince machine.old base }
    ensures { Returned base result machine.old machine.new }
{
    if !has_more(machine, base) {
        return Ok(());
    }
    match machine.undo(alloc) {
        Ok(id) => taken_back(id),
        Err(why) => not_taken_back(why),
    }
}

/// How many steps it took since.
pub(crate) fn taken_since(machine: &Machine, base: usize) -> u64
    requires { StandsSince machine.now base }
    ensures { result ≡ length (events_since machine.now base) }
{
    (machine.log().len() - base) as u64
}

/// Whether no goroutine is ready.
pub(crate) fn is_stuck(machine: &Machine) -> bool
    requires { IsMachine machine.now }
    ensures { IsTrue result ↔ ((g : List ℕ) → ¬ IsReady (state_seen machine.now) g) }
{
    match machine.next_turn() {
        Some(_) => false,
        None => true,
    }
}

/// Whether a run ends badly where the machine stands.
fn ends_badly(machine: &Machine) -> bool
    requires { IsMachine machine.now }
    ensures { IsTrue result ↔ IsBad (state_seen machine.now) }
{
    match machine.store().run() {
        Run::Faulted(_) => true,
        Run::Ended => false,
        Run::Live => is_stuck(machine),
    }
}

/// Whether a run ends well where the machine stands.
fn ends_well(machine: &Machine) -> bool
    ensures { IsTrue result ↔ ((state_seen machine.now).run ≡ ended) }
{
    match machine.store().run() {
        Run::Ended => true,
        Run::Faulted(_) | Run::Live => false,
    }
}

/// Whether the machine stands where the aim is reached.
pub(crate) fn is_at(machine: &Machine, aim: Aim) -> bool
    requires { IsMachine machine.now }
    ensures { IsTrue result ↔ IsAim aim (state_seen machine.now) }
{
    match aim {
        Aim::EndsBadly => ends_badly(machine),
        Aim::EndsWell => ends_well(machine),
        Aim::EndsBadlyOrLeaks => ends_badly(machine) || leaks(machine),
    }
}
