//! What the workers may do.

ghost use Rattle.std.specs.Prelude.{◌≡◌, ◌+◌, ◌↔◌, length, IsTrue, IfOk, IfSome};
ghost use Rattle.gr_program.specs.Programs.{Program};
ghost use Rattle.gr_rules.specs.Limits.{most_steps};
ghost use Rattle.gr_command.specs.Replies.{said_of};
ghost use Rattle.gr_command.specs.declared.command.Command.TheVariants as commands;
ghost use Rattle.gr_rollback.specs.Stores.{SameListing};
ghost use Rattle.gr_session.specs.Journal.{World};
ghost use Rattle.gr_session.specs.Debuggees.{Stands, IsDebuggee, store_in};
ghost use Rattle.gr_session.specs.Carried.{LeadsTo};
ghost use Rattle.gr_rollback.specs.StepLeasing.{CanLeadOn, IsLease, IsAsLent};
ghost use Rattle.gr_session.specs.Wants.{KeepsContents};
ghost use Rattle.gr_session.specs.Granting.{MayStep, IsTurnDue, CanLend, LeaseEnds};

use crate::debuggee::Debuggee;
use crate::journal::Memory;
use crate::running::{ran, take_turns};
use gr_base::NoMemory;
use gr_command::Reply;
use gr_rollback::{LOG_LIMIT, LentCopy, Run};
use std::alloc::Global;

/// Grants the workers this many steps, in place of what is left of the last grant.
pub(crate) fn free(debuggee: &mut Debuggee, steps: u32) -> (Memory, Reply)
    requires { IsDebuggee debuggee.old }
    ensures leads { (p : Program) → (w : World p) → Stands p w debuggee.old
        → LeadsTo p w (commands.Free steps) result.0 (said_of result.1) debuggee.new }
    ensures listing { SameListing (store_in debuggee.old) (store_in debuggee.new) }
    ensures machine { debuggee.new.machine ≡ debuggee.old.machine }
{
    debuggee.grant = steps;
    (Memory::Enough, Reply::Granted(steps))
}

/// Takes the next step of the round robin out of the grant, if the grant is above 0.
pub(crate) fn turn(alloc: Global, debuggee: &mut Debuggee) -> (Memory, Reply)
    requires { IsDebuggee debuggee.old }
    ensures leads { (p : Program) → (w : World p) → Stands p w debuggee.old
        → LeadsTo p w commands.Turn result.0 (said_of result.1) debuggee.new }
    ensures contents { KeepsContents (said_of result.1) (store_in debuggee.old) (store_in debuggee.new) }
    ensures listing { SameListing (store_in debuggee.old) (store_in debuggee.new) }
{
    let grant = debuggee.grant;
    let (steps, end) = take_turns(alloc, debuggee, grant.min(1));
    debuggee.grant = grant - steps as u32;
    ran(steps, end)
}

/// How many steps the log still takes.
pub(crate) fn room(debuggee: &Debuggee) -> usize
    requires { IsDebuggee debuggee.now }
    ensures { (p : Program) → (w : World p) → Stands p w debuggee.now → result + length w.log ≡ most_steps }
{
    LOG_LIMIT - debuggee.machine.log().len()
}

/// Whether workers may take steps that the log has room for.
fn may_step(debuggee: &Debuggee) -> bool
    requires { IsDebuggee debuggee.now }
    ensures { (p : Program) → (w : World p) → Stands p w debuggee.now → IsTrue result ↔ MayStep p w }
{
    if debuggee.grant == 0 || room(debuggee) == 0 {
        return false;
    }
    true
}

/// Whether a goroutine can be lent.
pub(crate) fn can_lend(debuggee: &Debuggee) -> bool
    requires { IsDebuggee debuggee.now }
    ensures { (p : Program) → (w : World p) → Stands p w debuggee.now → IsTrue result ↔ CanLend p w }
{
    if !may_step(debuggee) {
        return false;
    }
    debuggee.machine.has_own_step()
}

/// Whether a turn is due.
pub(crate) fn turn_due(debuggee: &Debuggee) -> bool
    requires { IsDebuggee debuggee.now }
    ensures { (p : Program) → (w : World p) → Stands p w debuggee.now → IsTrue result ↔ IsTurnDue p w }
{
    if !may_step(debuggee) {
        return false;
    }
    match debuggee.machine.store().run() {
        Run::Live => {}
        Run::Ended | Run::Faulted(_) => return false,
    }
    let Some(_) = debuggee.machine.next_turn() else {
        return false;
    };
    !debuggee.machine.has_own_step()
}

/// Lends the goroutine at the place among those that can be lent.
pub(crate) fn lend(
    alloc: Global,
    debuggee: &Debuggee,
    place: u32,
) -> Result<Option<LentCopy>, NoMemory>
    requires { IsDebuggee debuggee.now }
    ensures lease { IfOk result (λ o. IfSome o IsLease) }
    ensures there { IfOk result (λ o. IfSome o (λ l. IsAsLent l (store_in debuggee.now))) }
    ensures leads { IfOk result (λ o. IfSome o CanLeadOn) }
    ensures lent { (p : Program) → (w : World p) → Stands p w debuggee.now → LeaseEnds p w place result }
{
    if !may_step(debuggee) {
        return Ok(None);
    }
    debuggee.machine.lend_at(alloc, place)
}
