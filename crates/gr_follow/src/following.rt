//! A machine that goes to where the first steps of another led.

ghost use Rattle.std.specs.Prelude.{◌≡◌, ◌≤◌, ◌<◌, ◌+◌, IsTrue, OnOk, length, map, take};
ghost use Rattle.gr_program.specs.Programs.{Program};
ghost use Rattle.gr_step.specs.Records.{event_of};
ghost use Rattle.gr_step.specs.Stores.{program_at};
ghost use Rattle.gr_rollback.specs.Machines.{Stands, steps_of, store_of};
ghost use Rattle.gr_rollback.specs.Pasts.{Timeline};
ghost use Rattle.gr_follow.specs.Following.{IsOf, StandsAfter};

use crate::moving::{back_to, step_as, step_through};
use gr_base::NoMemory;
use gr_rollback::Machine;
use gr_step::Record;
use std::alloc::Global;

/// Whether two steps are those of one event.
fn is_of_event(step: &Record, other: &Record) -> bool
    ensures { IsTrue result → event_of step.now ≡ event_of other.now }
{
    step.choice == other.choice && step.id.go == other.id.go
}

/// How many steps at the beginning of both logs, of so many at most, are those of the same events.
fn shared(steps: &[Record], others: &[Record], most: usize) -> usize
    requires steps { most ≤ length steps.now }
    requires others { most ≤ length others.now }
    ensures few { result ≤ most }
    ensures same { take result (map event_of steps.now) ≡ take result (map event_of others.now) }
{
    for place in 0..most {
        if !is_of_event(&steps[place], &others[place]) {
            return place;
        }
    }
    most
}

/// Brings a machine to where the first `steps` steps of another machine of its program led. No step of the other is taken or
/// taken back. Steps that both took first, by the same events, are not taken again.
///
/// The one error is out of memory. The machine is then still one of the program.
pub fn follow(
    alloc: Global,
    follower: &mut Machine,
    leader: &Machine,
    steps: usize,
) -> Result<(), NoMemory>
    requires machine { IsOf (program_at (store_of leader.now)) follower.old }
    requires kept { steps ≤ length (steps_of leader.now) }
    ensures of { IsOf (program_at (store_of leader.now)) follower.new }
    ensures there { OnOk result ((p : Program) (w : Timeline p) → Stands p w leader.now
        → StandsAfter p w.past.log steps follower.new) }
{
    let given = leader.log().as_slice();
    let taken = follower.log().as_slice();
    let place = shared(taken, given, steps.min(taken.len()));
    back_to(alloc, follower, place)?;
    step_through(alloc, follower, &given[place..steps])
}

/// Takes one step more with a machine that stands where the first `steps` steps of another led, so that it stands where one more
/// led. It takes no longer where the logs are long.
///
/// The one error is out of memory. The machine is then still one of the program.
pub fn follow_on(
    alloc: Global,
    follower: &mut Machine,
    leader: &Machine,
    steps: usize,
) -> Result<(), NoMemory>
    requires machine { IsOf (program_at (store_of leader.now)) follower.old }
    requires kept { steps < length (steps_of leader.now) }
    ensures of { IsOf (program_at (store_of leader.now)) follower.new }
    ensures there { OnOk result ((p : Program) (w : Timeline p) → Stands p w leader.now
        → StandsAfter p w.past.log steps follower.old → StandsAfter p w.past.log (steps + 1) follower.new) }
{
    let given = leader.log().as_slice();
    step_as(alloc, follower, &given[steps])
}
