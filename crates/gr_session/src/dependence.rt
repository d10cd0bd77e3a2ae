//! What depends on what in the log.

ghost use Rattle.gr_program.specs.Programs.{Program};
ghost use Rattle.gr_command.specs.declared.command.Command.TheVariants as commands;
ghost use Rattle.gr_session.specs.Journal.{World};
ghost use Rattle.gr_session.specs.Debuggees.{Stands, IsDebuggee};
ghost use Rattle.gr_session.specs.Carried.{Carries};

use crate::debuggee::Debuggee;
use crate::journal::Memory;
use crate::refusing::refused;
use gr_base::{NoMemory, StepId};
use gr_command::{Refusal, Reply};
use std::alloc::Global;

/// The steps that depend on the step of a name, itself included.
pub(crate) fn dependents(
    alloc: Global,
    debuggee: &Debuggee,
    id: &StepId,
) -> Result<(Memory, Reply), NoMemory>
    requires { IsDebuggee debuggee.now }
    ensures { (p : Program) → (w : World p) → Stands p w debuggee.now
        → Carries p w (commands.Dependents id.now) result debuggee.now }
{
    let ids = debuggee.machine.dependents(alloc, id)?;
    match ids {
        Some(ids) => Ok((Memory::Enough, Reply::Steps(ids))),
        None => Ok(refused(Refusal::NotKept)),
    }
}

/// The steps on which the step of a name depends, itself included.
pub(crate) fn causes(
    alloc: Global,
    debuggee: &Debuggee,
    id: &StepId,
) -> Result<(Memory, Reply), NoMemory>
    requires { IsDebuggee debuggee.now }
    ensures { (p : Program) → (w : World p) → Stands p w debuggee.now → Carries p w (commands.Causes id.now) result debuggee.now }
{
    let ids = debuggee.machine.causes(alloc, id)?;
    match ids {
        Some(ids) => Ok((Memory::Enough, Reply::Steps(ids))),
        None => Ok(refused(Refusal::NotKept)),
    }
}
