//! Steps of a goroutine that is named.

ghost use Rattle.std.specs.Prelude.{◌≡◌, IfOk, OnErr};
ghost use Rattle.gr_program.specs.Programs.{Program};
ghost use Rattle.gr_command.specs.declared.command.Command.TheVariants as commands;
ghost use Rattle.gr_command.specs.Replies.{said_of};
ghost use Rattle.gr_rollback.specs.Stores.{SameListing, contents_at};
ghost use Rattle.gr_session.specs.Journal.{World, event_asked};
ghost use Rattle.gr_session.specs.Debuggees.{Stands, IsDebuggee, store_in};
ghost use Rattle.gr_session.specs.Refusing.{Takes};
ghost use Rattle.gr_session.specs.Carried.{Carries};
ghost use Rattle.gr_session.specs.Wants.{KeepsContents};

use crate::debuggee::Debuggee;
use crate::journal::Memory;
use crate::refusing::{refused, told};
use gr_base::{Choice, Event, GoName, NoMemory, StepId};
use gr_command::Reply;
use gr_rollback::{StepRefused, Stepped};
use std::alloc::Global;

/// Takes the step of a goroutine that picks the clause, or else the one of its usual choice. Refused, nothing has changed.
fn take_asked(
    debuggee: &mut Debuggee,
    go: GoName,
    case: Option<u32>,
) -> Result<Stepped, StepRefused>
    requires { IsDebuggee debuggee.old }
    ensures takes { (p : Program) → (w : World p) → Stands p w debuggee.old
        → Takes p w (event_asked p w.state go case) result debuggee.new }
    ensures err { OnErr result (contents_at (store_in debuggee.new) ≡ contents_at (store_in debuggee.old)) }
    ensures listing { SameListing (store_in debuggee.old) (store_in debuggee.new) }
{
    match case {
        Some(clause) => debuggee.machine.step(Event {
            go,
            choice: Choice::Pick(clause),
        }),
        None => debuggee.machine.step_usual(go),
    }
}

/// Takes a step of a goroutine, which picks the clause that is asked for, or makes its usual choice. An error means that there
/// was no memory to ask for the step, and then nothing has changed.
pub(crate) fn step(
    alloc: Global,
    debuggee: &mut Debuggee,
    go: &GoName,
    case: Option<u32>,
) -> Result<(Memory, Reply), NoMemory>
    requires { IsDebuggee debuggee.old }
    ensures leads { (p : Program) → (w : World p) → Stands p w debuggee.old
        → Carries p w (commands.Step go.now case) result debuggee.new }
    ensures contents { IfOk result (λ answer. KeepsContents (said_of answer.1) (store_in debuggee.old) (store_in debuggee.new)) }
    ensures listing { SameListing (store_in debuggee.old) (store_in debuggee.new) }
    ensures err { OnErr result (debuggee.new.machine ≡ debuggee.old.machine) }
{
    let named = go.copy(alloc)?;
    let asked = go.copy(alloc)?;
    match take_asked(debuggee, asked, case) {
        Ok(step) => {
            let id = StepId {
                go: named,
                n: step.ordinal,
            };
            Ok((Memory::Enough, Reply::Stepped(id, step.kind)))
        }
        Err(why) => Ok(refused(told(debuggee, why))),
    }
}
