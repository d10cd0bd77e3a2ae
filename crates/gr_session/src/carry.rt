//! Commands carried out on a program under the debugger.

ghost use Rattle.std.specs.Prelude.{◌≡◌, IfOk, OnOk, OnErr};
ghost use Rattle.gr_program.specs.Programs.{Program};
ghost use Rattle.gr_command.specs.Replies.{said_of};
ghost use Rattle.gr_rollback.specs.Stores.{SameListing};
ghost use Rattle.gr_session.specs.Journal.{World};
ghost use Rattle.gr_session.specs.Debuggees.{Stands, IsDebuggee, store_in};
ghost use Rattle.gr_session.specs.Carried.{Carries};
ghost use Rattle.gr_session.specs.Wants.{KeepsContents, LeavesStore, MayWantMemory};

use crate::breakpoints;
use crate::debuggee::Debuggee;
use crate::dependence::{causes, dependents};
use crate::granting::{free, turn};
use crate::journal::Memory;
use crate::rollback::{back, order, redo, undo};
use crate::running::run;
use crate::stepping::step;
use gr_base::NoMemory;
use gr_command::{Command, Reply};
use gr_queries::{chan, console, log, show, text};
use std::alloc::Global;

/// Carries a command out, and tells how far memory allowed it. An error means that there was no memory to ask for the step, to
/// look for it, or to answer a query. Then nothing has changed.
pub(crate) fn carry_out(
    alloc: Global,
    debuggee: &mut Debuggee,
    command: &Command,
) -> Result<(Memory, Reply), NoMemory>
    requires { IsDebuggee debuggee.old }
    ensures leads { (p : Program) → (w : World p) → Stands p w debuggee.old → Carries p w command.now result debuggee.new }
    ensures listing { SameListing (store_in debuggee.old) (store_in debuggee.new) }
    ensures still { OnOk result (LeavesStore command.now → debuggee.new.machine ≡ debuggee.old.machine) }
    ensures contents { IfOk result (λ answer. KeepsContents (said_of answer.1) (store_in debuggee.old) (store_in debuggee.new)) }
    ensures err { OnErr result (debuggee.new.machine ≡ debuggee.old.machine) }
    ensures wants { OnErr result (MayWantMemory command.now) }
{
    match command {
        Command::Step { go, case } => step(alloc, debuggee, go, *case),
        Command::Run { count } => Ok(run(alloc, debuggee, *count)),
        Command::Undo => Ok(undo(alloc, debuggee)),
        Command::Back(target) => back(alloc, debuggee, target),
        Command::Redo => Ok(redo(alloc, debuggee)),
        Command::Order(ids) => Ok(order(alloc, debuggee, ids.as_slice())),
        Command::Dependents(id) => dependents(alloc, debuggee, id),
        Command::Causes(id) => causes(alloc, debuggee, id),
        Command::Break(line) => breakpoints::set(debuggee, *line),
        Command::Clear(line) => Ok(breakpoints::clear(debuggee, *line)),
        Command::Free(steps) => Ok(free(debuggee, *steps)),
        Command::Turn => Ok(turn(alloc, debuggee)),
        Command::Show(go) => Ok((Memory::Enough, show(alloc, debuggee.machine.store(), go)?)),
        Command::Chan(channel) => {
            Ok((
                Memory::Enough,
                chan(alloc, debuggee.machine.store(), channel)?,
            ))
        }
        Command::Text(go) => Ok((Memory::Enough, text(alloc, debuggee.machine.store(), go)?)),
        Command::Console => {
            let steps = debuggee.machine.log().as_slice();
            Ok((
                Memory::Enough,
                console(alloc, debuggee.machine.store(), steps)?,
            ))
        }
        Command::Log => Ok((
            Memory::Enough,
            log(alloc, debuggee.machine.log().as_slice())?,
        )),
    }
}
