//! What steps moved and printed, one after the other.

ghost use Rattle.std.specs.Prelude.{◌≡◌, ◌<◌, ◌+◌, ◌-◌, ◌^◌, IfOk, OnOk, length, option_map, slice_get};
ghost use Rattle.gr_follow.specs.Following.{IsOf, StandsAfter};
ghost use Rattle.gr_program.specs.Programs.{Program};
ghost use Rattle.gr_rollback.specs.Machines.{Stands, steps_of, store_of};
ghost use Rattle.gr_rollback.specs.Pasts.{Timeline};
ghost use Rattle.gr_step.specs.Stores.{program_at, state_at};
ghost use Rattle.gr_facts.specs.MovedAsked.{MovesFrom, MovesNamed, MovesOf};
ghost use Rattle.gr_facts.specs.Views.{moved_in};
ghost use Rattle.gr_facts.specs.Wanted.{last_line_of, line_after};

use crate::values::value_of;
use gr_base::{GoName, NoMemory, StepId, Value};
use gr_follow::{follow, follow_on};
use gr_record::Record;
use gr_rollback::Machine;
use gr_step::Store;
use std::alloc::Global;

/// What a step moved over a channel, and what it printed.
#[derive(Drop)]
pub struct Moved {
    pub id: StepId,
    /// The value that it sent or received. A step with which a sender began to wait has the sender's value.
    pub value: Option<Value>,
    /// The line that it printed.
    pub printed: Option<Vec<u8>>,
}

/// A copy of the last of these lines, if there is one.
fn last_copied(alloc: Global, lines: &[Vec<u8>]) -> Result<Option<Vec<u8>>, NoMemory>
    ensures { IfOk result (λ line. option_map (λ line. line.items) line
        ≡ option_map (λ line. line.items) (slice_get lines.now (length lines.now - 1))) }
{
    let Some(line) = lines.last() else {
        return Ok(None);
    };
    let line = Vec::from_slice(alloc, line)?;
    Ok(Some(line))
}

/// The last line that a goroutine printed, if it printed any.
fn last_line(alloc: Global, store: &Store, go: &GoName) -> Result<Option<Vec<u8>>, NoMemory>
    ensures { IfOk result (λ line. option_map (λ line. line.items) line ≡ last_line_of (state_at store.now) go.now) }
{
    let Some(goroutine) = store.goroutine(go) else {
        return Ok(None);
    };
    last_copied(alloc, goroutine.text())
}

/// The line that a step printed, in the store after the step.
fn printed_by(alloc: Global, store: &Store, step: &Record) -> Result<Option<Vec<u8>>, NoMemory>
    ensures { IfOk result (λ line. option_map (λ line. line.items) line ≡ line_after (state_at store.now) step.now) }
{
    if step.printed() {
        return last_line(alloc, store, &step.id.go);
    }
    Ok(None)
}

/// What the step at a place of a machine's log moved and printed, where a second machine stands before that step. The second
/// machine then stands behind it.
fn move_on(
    alloc: Global,
    follower: &mut Machine,
    leader: &Machine,
    place: usize,
) -> Result<Moved, NoMemory>
    requires machine { IsOf (program_at (store_of leader.now)) follower.old }
    requires kept { place < length (steps_of leader.now) }
    ensures of { IsOf (program_at (store_of leader.now)) follower.new }
    ensures moves { IfOk result (λ row. (p : Program) (w : Timeline p) → Stands p w leader.now
        → StandsAfter p w.past.log place follower.old → MovesOf p w.past.log place (moved_in row)) }
    ensures there { OnOk result ((p : Program) (w : Timeline p) → Stands p w leader.now
        → StandsAfter p w.past.log place follower.old → StandsAfter p w.past.log (place + 1) follower.new) }
{
    let steps = leader.log().as_slice();
    let step = &steps[place];
    let value = value_of(alloc, follower.store(), step)?;
    follow_on(alloc, follower, leader, place)?;
    let printed = printed_by(alloc, follower.store(), step)?;
    let id = step.id.copy(alloc)?;
    Ok(Moved { id, value, printed })
}

/// What so many steps of a machine moved and printed, from a place of its log on, counted from 0, or all up to the end of the
/// log. A second machine of the program goes to the state before each of them.
///
/// The one error is out of memory. The second machine is then still one of the program.
pub fn moves_from(
    alloc: Global,
    follower: &mut Machine,
    leader: &Machine,
    place: usize,
    most: usize,
) -> Result<Vec<Moved>, NoMemory>
    requires machine { IsOf (program_at (store_of leader.now)) follower.old }
    requires fits { place + most < 2 ^ 64 }
    ensures of { IsOf (program_at (store_of leader.now)) follower.new }
    ensures moves { IfOk result (λ rows. (p : Program) (w : Timeline p) → Stands p w leader.now
        → MovesFrom p w.past.log place most rows.items) }
{
    let mut rows = Vec::new(alloc);
    let kept = leader.log().len();
    if place >= kept {
        return Ok(rows);
    }
    follow(alloc, follower, leader, place)?;
    let count = most.min(kept - place);
    while rows.len() < count {
        let row = move_on(alloc, follower, leader, place + rows.len())?;
        rows.push(row)?;
    }
    Ok(rows)
}

/// What the step of a name moved and printed. There is no row where no such step is kept. A second machine of the program goes to
/// the state before it.
///
/// The one error is out of memory. The second machine is then still one of the program.
pub fn moves_named(
    alloc: Global,
    follower: &mut Machine,
    leader: &Machine,
    id: &StepId,
) -> Result<Vec<Moved>, NoMemory>
    requires machine { IsOf (program_at (store_of leader.now)) follower.old }
    ensures of { IsOf (program_at (store_of leader.now)) follower.new }
    ensures moves { IfOk result (λ rows. (p : Program) (w : Timeline p) → Stands p w leader.now
        → MovesNamed p w.past.log id.now rows.items) }
{
    match leader.log().place_of(id) {
        Some(place) => moves_from(alloc, follower, leader, place, 1),
        None => Ok(Vec::new(alloc)),
    }
}
