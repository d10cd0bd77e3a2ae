//! Steps that are taken back, done again, and put in another order.

ghost use Rattle.std.specs.Prelude.{◌≡◌, [], Ok, Err, IfOk, OnErr};
ghost use Rattle.gr_program.specs.Programs.{Program};
ghost use Rattle.gr_command.specs.Replies.{said_of};
ghost use Rattle.gr_command.specs.Replies as said;
ghost use Rattle.gr_command.specs.declared.command.Command.TheVariants as commands;
ghost use Rattle.gr_rollback.specs.Stores.{SameListing};
ghost use Rattle.gr_session.specs.Journal.{World};
ghost use Rattle.gr_session.specs.Debuggees.{Stands, IsDebuggee, store_in};
ghost use Rattle.gr_session.specs.Carried.{Carries, LeadsTo, Tells};
ghost use Rattle.gr_session.specs.Wants.{KeepsContents};

use crate::debuggee::Debuggee;
use crate::journal::Memory;
use crate::refusing::refused;
use crate::targets::find;
use gr_base::{NoMemory, StepId};
use gr_command::{Refusal, Reply, Target};
use gr_rollback::BackRefused;
use std::alloc::Global;

/// The reply that a growth was refused after these steps.
fn partly(ids: Vec<StepId>) -> (Memory, Reply)
    ensures { Tells result (BackRefused.NoMemory ids) }
{
    (Memory::EnoughFor(ids.len() as u64), Reply::PartlyDone(ids))
}

/// Why steps were not taken back, done again, or put in another order, as a reply tells it.
fn refusal_told(why: BackRefused) -> (Memory, Reply)
    ensures { Tells result why }
{
    match why {
        BackRefused::NothingToUndo => refused(Refusal::NothingToUndo),
        BackRefused::NotKept => refused(Refusal::NotKept),
        BackRefused::NotTheSteps => refused(Refusal::NotTheSteps),
        BackRefused::BreaksDependence(earlier, later) => {
            (Memory::Enough, Reply::BreaksDependence { earlier, later })
        }
        BackRefused::NothingToRedo => refused(Refusal::NothingToRedo),
        BackRefused::NoMemory(ids) => partly(ids),
    }
}

/// Takes the last step back.
pub(crate) fn undo(alloc: Global, debuggee: &mut Debuggee) -> (Memory, Reply)
    requires { IsDebuggee debuggee.old }
    ensures leads { (p : Program) → (w : World p) → Stands p w debuggee.old
        → LeadsTo p w commands.Undo result.0 (said_of result.1) debuggee.new }
    ensures contents { KeepsContents (said_of result.1) (store_in debuggee.old) (store_in debuggee.new) }
    ensures listing { SameListing (store_in debuggee.old) (store_in debuggee.new) }
{
    match debuggee.machine.undo(alloc) {
        Ok(id) => (Memory::Enough, Reply::Undone(id)),
        Err(why) => refusal_told(why),
    }
}

/// Takes back the step that is asked for, with its consequences. An error means that there was no memory to look for it, and
/// then nothing has changed.
pub(crate) fn back(
    alloc: Global,
    debuggee: &mut Debuggee,
    target: &Target,
) -> Result<(Memory, Reply), NoMemory>
    requires { IsDebuggee debuggee.old }
    ensures leads { (p : Program) → (w : World p) → Stands p w debuggee.old
        → Carries p w (commands.Back target.now) result debuggee.new }
    ensures contents { IfOk result (λ answer. KeepsContents (said_of answer.1) (store_in debuggee.old) (store_in debuggee.new)) }
    ensures listing { SameListing (store_in debuggee.old) (store_in debuggee.new) }
    ensures err { OnErr result (debuggee.new.machine ≡ debuggee.old.machine) }
{
    let Some(id) = find(alloc, debuggee, target)? else {
        return Ok(refused(Refusal::NotKept));
    };
    match debuggee.machine.back(alloc, &id) {
        Ok(ids) => Ok((Memory::Enough, Reply::Steps(ids))),
        Err(why) => Ok(refusal_told(why)),
    }
}

/// Takes the steps again that were taken back last.
pub(crate) fn redo(alloc: Global, debuggee: &mut Debuggee) -> (Memory, Reply)
    requires { IsDebuggee debuggee.old }
    ensures leads { (p : Program) → (w : World p) → Stands p w debuggee.old
        → LeadsTo p w commands.Redo result.0 (said_of result.1) debuggee.new }
    ensures contents { KeepsContents (said_of result.1) (store_in debuggee.old) (store_in debuggee.new) }
    ensures listing { SameListing (store_in debuggee.old) (store_in debuggee.new) }
{
    match debuggee.machine.redo(alloc) {
        Ok(ids) => (Memory::Enough, Reply::Steps(ids)),
        Err(why) => refusal_told(why),
    }
}

/// Puts the steps that are kept in the order of these names.
pub(crate) fn order(alloc: Global, debuggee: &mut Debuggee, ids: &[StepId]) -> (Memory, Reply)
    requires { IsDebuggee debuggee.old }
    ensures leads { (p : Program) → (w : World p) → Stands p w debuggee.old
        → LeadsTo p w (commands.Order ids.now) result.0 (said_of result.1) debuggee.new }
    ensures contents { KeepsContents (said_of result.1) (store_in debuggee.old) (store_in debuggee.new) }
    ensures listing { SameListing (store_in debuggee.old) (store_in debuggee.new) }
{
    match debuggee.machine.reorder(alloc, ids) {
        Ok(()) => (Memory::Enough, Reply::Acknowledged),
        Err(why) => refusal_told(why),
    }
}
