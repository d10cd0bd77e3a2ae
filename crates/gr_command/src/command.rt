//! What may be asked of a session.

ghost use Rattle.std.specs.Prelude.{◌≡◌, IfOk, OnErr};

use crate::step_list::StepList;
use crate::target::Target;
use gr_base::{ChName, GoName, NoMemory, StepId};
use std::alloc::Global;

/// What an asker may ask.
#[derive(Drop)]
pub enum Command {
    /// One step of the goroutine. At a select it takes the clause with this number, counted from 1, or the usual choice
    /// where no number is given.
    Step { go: GoName, case: Option<u32> },
    /// Up to this many steps, from 1 to 1,000,000, of the ready goroutines, round robin.
    Run { count: u32 },
    /// To take the last step back.
    Undo,
    /// To take a step back with its consequences.
    Back(Target),
    /// To take again the steps that were taken back last.
    Redo,
    /// To put the kept steps in this order.
    Order(StepList),
    /// The steps that depend on the step, itself included.
    Dependents(StepId),
    /// The steps that the step depends on, itself included.
    Causes(StepId),
    /// To set a breakpoint: runs end before a step on this line.
    Break(u32),
    /// To clear the breakpoint on this line.
    Clear(u32),
    /// To let the workers take this many steps, from 0 to 1,000,000. What is left of the last grant is dropped.
    Free(u32),
    /// The step of the next turn, out of the workers' grant if that is above 0. A worker asks it, and no line says it.
    Turn,
    /// How the goroutine stands: its status, its steps, its line and its frames.
    Show(GoName),
    /// How the channel stands: its capacity, its items and who waits on it.
    Chan(ChName),
    /// The lines that the goroutine printed.
    Text(GoName),
    /// The lines that all goroutines printed, in the order of the steps.
    Console,
    /// The steps that are kept, with their kinds.
    Log,
}

impl Command {
    ghost use Rattle.gr_command.specs.Commands.{Names};

    /// A copy of the command. The one error is out of memory for a name.
    pub fn copy(&self, alloc: Global) -> Result<Command, NoMemory>
        ensures ok { IfOk result (λ command. command ≡ self.now) }
        ensures needed { OnErr result (Names self.now) }
    {
        match self {
            Command::Step { go, case } => {
                let go = go.copy(alloc)?;
                Ok(Command::Step { go, case: *case })
            }
            Command::Run { count } => Ok(Command::Run { count: *count }),
            Command::Undo => Ok(Command::Undo),
            Command::Back(target) => Ok(Command::Back(target.copy(alloc)?)),
            Command::Redo => Ok(Command::Redo),
            Command::Order(ids) => Ok(Command::Order(ids.copy(alloc)?)),
            Command::Dependents(id) => Ok(Command::Dependents(id.copy(alloc)?)),
            Command::Causes(id) => Ok(Command::Causes(id.copy(alloc)?)),
            Command::Break(line) => Ok(Command::Break(*line)),
            Command::Clear(line) => Ok(Command::Clear(*line)),
            Command::Free(steps) => Ok(Command::Free(*steps)),
            Command::Turn => Ok(Command::Turn),
            Command::Show(go) => Ok(Command::Show(go.copy(alloc)?)),
            Command::Chan(channel) => Ok(Command::Chan(channel.copy(alloc)?)),
            Command::Text(go) => Ok(Command::Text(go.copy(alloc)?)),
            Command::Console => Ok(Command::Console),
            Command::Log => Ok(Command::Log),
        }
    }
}

/// What a line of a command stream says.
#[derive(Drop)]
pub enum Line {
    /// To ask the session this.
    Command(Command),
    /// To end the stream.
    Quit,
    /// Nothing: the line has no word.
    Blank,
    /// Nothing that is a command, or a line that is too long.
    Rejected,
}
