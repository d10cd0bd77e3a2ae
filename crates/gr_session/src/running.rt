//! Steps of the ready goroutines, round robin.

ghost use Rattle.std.specs.Prelude.{◌≡◌, ◌≤◌, IfOk, IfErr, OnOk, OnErr};
ghost use Rattle.gr_program.specs.Programs.{Program};
ghost use Rattle.gr_command.specs.Replies.{said_of};
ghost use Rattle.gr_command.specs.declared.command.Command.TheVariants as commands;
ghost use Rattle.gr_rollback.specs.Stores.{SameListing, contents_at};
ghost use Rattle.gr_session.specs.Journal.{World};
ghost use Rattle.gr_session.specs.Debuggees.{Stands, IsDebuggee, store_in};
ghost use Rattle.gr_session.specs.Turning.{HasTurn, Ends, Turns, GoesByTurns, memory_at};
ghost use Rattle.gr_session.specs.Carried.{LeadsTo};
ghost use Rattle.gr_session.specs.Wants.{KeepsContents};

use crate::breakpoints::breakpoint_at;
use crate::debuggee::Debuggee;
use crate::journal::Memory;
use gr_base::GoName;
use gr_command::{Reply, RunEnd};
use gr_rollback::{LOG_LIMIT, Run};
use std::alloc::Global;

/// The goroutine whose turn it is, or else why no more steps are taken: the first reason that holds, in the order of `RunEnd`.
fn next_turn(debuggee: &Debuggee, wanted: u64, taken: u64) -> Result<&GoName, RunEnd>
    requires { IsDebuggee debuggee.now }
    ensures turn { (p : Program) → (w : World p) → Stands p w debuggee.now → IfOk result (λ go. HasTurn p w wanted taken go.now) }
    ensures end { (p : Program) → (w : World p) → Stands p w debuggee.now → IfErr result (Ends p w wanted taken) }
    ensures more { OnOk result (¬ (taken ≡ wanted)) }
{
    let turn = debuggee.machine.next_turn();
    match debuggee.machine.store().run() {
        Run::Live => {}
        Run::Ended => return Err(RunEnd::Ended),
        Run::Faulted(fault) => return Err(RunEnd::Fault(fault)),
    }
    if taken == wanted {
        return Err(RunEnd::Count);
    }
    let Some(go) = turn else {
        return Err(RunEnd::Stuck);
    };
    if debuggee.machine.log().len() >= LOG_LIMIT {
        return Err(RunEnd::Full);
    }
    if taken == 0 {
        return Ok(go);
    }
    match breakpoint_at(debuggee, go) {
        None => Ok(go),
        Some(line) => Err(RunEnd::Break(line)),
    }
}

/// Takes the next step of the round robin, where this many are wanted and this many were taken. Refused, nothing has changed.
fn take_turn(alloc: Global, debuggee: &mut Debuggee, wanted: u64, taken: u64) -> Result<(), RunEnd>
    requires { IsDebuggee debuggee.old }
    ensures more { OnOk result (¬ (taken ≡ wanted)) }
    ensures turns { (p : Program) → (w : World p) → Stands p w debuggee.old → Turns p w wanted taken result debuggee.new }
    ensures err { OnErr result (contents_at (store_in debuggee.new) ≡ contents_at (store_in debuggee.old)) }
    ensures listing { SameListing (store_in debuggee.old) (store_in debuggee.new) }
{
    let go = next_turn(debuggee, wanted, taken)?;
    let Ok(owner) = go.copy(alloc) else {
        return Err(RunEnd::Memory);
    };
    match debuggee.machine.step_usual(owner) {
        Ok(_) => Ok(()),
        Err(_) => Err(RunEnd::Memory),
    }
}

/// The reply that this many steps were taken, and why no more.
pub(crate) fn ran(steps: u64, end: RunEnd) -> (Memory, Reply)
    ensures { result ≡ (memory_at steps end, Reply.Ran steps end) }
{
    let memory = match end {
        RunEnd::Memory => Memory::EnoughFor(steps),
        _ => Memory::Enough,
    };
    (memory, Reply::Ran { steps, end })
}

/// Takes up to this many steps of the ready goroutines, round robin, and tells how many and why no more.
pub(crate) fn take_turns(alloc: Global, debuggee: &mut Debuggee, count: u32) -> (u64, RunEnd)
    requires { IsDebuggee debuggee.old }
    ensures few { result.0 ≤ count }
    ensures goes { (p : Program) → (w : World p) → Stands p w debuggee.old
        → GoesByTurns p w count result.0 result.1 debuggee.new }
    ensures none { result.0 ≡ 0 → contents_at (store_in debuggee.new) ≡ contents_at (store_in debuggee.old) }
    ensures listing { SameListing (store_in debuggee.old) (store_in debuggee.new) }
{
    let wanted = u64::from(count);
    let mut taken: u64 = 0;
    loop {
        match take_turn(alloc, debuggee, wanted, taken) {
            Ok(()) => taken += 1,
            Err(end) => return (taken, end),
        }
    }
}

/// Takes up to this many steps of the ready goroutines, round robin.
pub(crate) fn run(alloc: Global, debuggee: &mut Debuggee, count: u32) -> (Memory, Reply)
    requires { IsDebuggee debuggee.old }
    ensures leads { (p : Program) → (w : World p) → Stands p w debuggee.old
        → LeadsTo p w (commands.Run count) result.0 (said_of result.1) debuggee.new }
    ensures contents { KeepsContents (said_of result.1) (store_in debuggee.old) (store_in debuggee.new) }
    ensures listing { SameListing (store_in debuggee.old) (store_in debuggee.new) }
{
    let (steps, end) = take_turns(alloc, debuggee, count);
    ran(steps, end)
}
