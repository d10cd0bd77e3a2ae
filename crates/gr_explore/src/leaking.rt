//! Whether a program has ended and leaves goroutines that would never go on.

ghost use Rattle.std.specs.Prelude.{◌≡◌, ◌↔◌, IsTrue, false};
ghost use Rattle.std.specs.List.{list_any};
ghost use Rattle.std.specs.Option.{option_map_or};
ghost use Rattle.gr_record.specs.Records.{begun_by};
ghost use Rattle.gr_rollback.specs.Machines.{IsMachine};
ghost use Rattle.gr_schedules.specs.Aims.{Leaks, is_left as is_left_by_rules};
ghost use Rattle.gr_schedules.specs.Names.{goroutines_begun};
ghost use Rattle.gr_step.specs.Stores.{state_at};
ghost use Rattle.gr_explore.specs.Exploring.{state_seen};

use crate::names::begun;
use crate::stepping::is_stuck;
use gr_base::GoName;
use gr_rollback::{Machine, Run};
use gr_step::{Change, Record, Status, Store};

/// Whether a goroutine is there and waits, and is not that of `main`.
fn is_left(store: &Store, go: &GoName) -> bool
    ensures { result ≡ is_left_by_rules (state_at store.now) go.now }
{
    if go.is_main() {
        return false;
    }
    let Some(goroutine) = store.goroutine(go) else {
        return false;
    };
    match goroutine.status() {
        Status::Ready | Status::Finished => false,
        Status::Waiting(_) | Status::Sending(_) | Status::Receiving(_) => true,
    }
}

/// Whether the goroutine is left that a step started, if it started one.
fn is_begun_left(store: &Store, change: &Change) -> bool
    ensures { result ≡ option_map_or (is_left_by_rules (state_at store.now)) (begun_by change.now) false }
{
    match begun(change) {
        Some(go) => is_left(store, go),
        None => false,
    }
}

/// Whether one of the goroutines is left that the steps of a log started.
fn any_left(store: &Store, log: &[Record]) -> bool
    ensures { result ≡ list_any (is_left_by_rules (state_at store.now)) (goroutines_begun log.now) }
{
    for step in log {
        if is_begun_left(store, &step.change) {
            return true;
        }
    }
    false
}

/// Whether the program has ended where a machine stands, some goroutine is left that waits, and none is ready.
pub(crate) fn leaks(machine: &Machine) -> bool
    requires { IsMachine machine.now }
    ensures { IsTrue result ↔ Leaks (state_seen machine.now) }
{
    match machine.store().run() {
        Run::Ended => is_stuck(machine) && any_left(machine.store(), machine.log().as_slice()),
        Run::Faulted(_) | Run::Live => false,
    }
}
