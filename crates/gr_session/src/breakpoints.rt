//! Lines with a breakpoint.

ghost use Rattle.std.specs.Prelude.{◌≡◌, option_map, Some, None, OnErr};
ghost use Rattle.gr_program.specs.Programs.{Program};
ghost use Rattle.gr_rules.specs.Turns.{at_break, break_at, line_of};
ghost use Rattle.gr_command.specs.Replies.{said_of};
ghost use Rattle.gr_command.specs.declared.command.Command.TheVariants as commands;
ghost use Rattle.gr_rollback.specs.Stores.{SameListing};
ghost use Rattle.gr_session.specs.Journal.{World};
ghost use Rattle.gr_session.specs.Debuggees.{Stands, IsDebuggee, store_in};
ghost use Rattle.gr_session.specs.Carried.{Carries, LeadsTo};

use crate::debuggee::Debuggee;
use crate::journal::Memory;
use gr_base::{GoName, NoMemory};
use gr_command::Reply;
use gr_queries::next_line;

/// The line of a goroutine's next statement, if it has a breakpoint.
pub(crate) fn breakpoint_at(debuggee: &Debuggee, go: &GoName) -> Option<u32>
    requires { IsDebuggee debuggee.now }
    ensures { (p : Program) → (w : World p) → Stands p w debuggee.now
        → break_at w.lines (line_of (w.state.goroutines go.now)) ≡ option_map at_break result }
{
    if debuggee.lines.is_empty() {
        return None;
    }
    let Some(line) = next_line(debuggee.machine.store(), go) else {
        return None;
    };
    debuggee.lines.get(&line).copied()
}

/// Sets a breakpoint on a line. Refused, nothing has changed.
pub(crate) fn set(debuggee: &mut Debuggee, line: u32) -> Result<(Memory, Reply), NoMemory>
    requires { IsDebuggee debuggee.old }
    ensures leads { (p : Program) → (w : World p) → Stands p w debuggee.old
        → Carries p w (commands.Break line) result debuggee.new }
    ensures listing { SameListing (store_in debuggee.old) (store_in debuggee.new) }
    ensures machine { debuggee.new.machine ≡ debuggee.old.machine }
{
    match debuggee.lines.insert(line as usize, line) {
        Ok(_) => Ok((Memory::Enough, Reply::Acknowledged)),
        Err(_) => Err(NoMemory),
    }
}

/// Clears the breakpoint of a line, if it has one.
pub(crate) fn clear(debuggee: &mut Debuggee, line: u32) -> (Memory, Reply)
    requires { IsDebuggee debuggee.old }
    ensures leads { (p : Program) → (w : World p) → Stands p w debuggee.old
        → LeadsTo p w (commands.Clear line) result.0 (said_of result.1) debuggee.new }
    ensures listing { SameListing (store_in debuggee.old) (store_in debuggee.new) }
    ensures machine { debuggee.new.machine ≡ debuggee.old.machine }
{
    let _ = debuggee.lines.swap_remove(&(line as usize));
    (Memory::Enough, Reply::Acknowledged)
}
