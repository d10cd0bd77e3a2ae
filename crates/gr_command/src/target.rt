//! Which step is to be taken back.

ghost use Rattle.std.specs.Prelude.{◌≡◌, IfOk};

use crate::identifier::Identifier;
use gr_base::{ChName, GoName, NoMemory, StepId};
use std::alloc::Global;

/// Which step is to be taken back.
#[derive(Drop)]
pub enum Target {
    Step(StepId),
    /// The step that started the goroutine.
    Start(GoName),
    /// The send with a number on a channel, counted from 1.
    Send { number: u32, channel: ChName },
    /// The receive with a number from a channel, counted from 1.
    Receive { number: u32, channel: ChName },
    /// The last step of the goroutine that gave a variable of this name a value.
    Variable { go: GoName, name: Identifier },
}

impl Target {
    /// A copy of the target. The one error is out of memory for a name.
    pub fn copy(&self, alloc: Global) -> Result<Target, NoMemory>
        ensures { IfOk result (λ target. target ≡ self.now) }
    {
        match self {
            Target::Step(id) => Ok(Target::Step(id.copy(alloc)?)),
            Target::Start(go) => Ok(Target::Start(go.copy(alloc)?)),
            Target::Send { channel, number } => {
                let channel = channel.copy(alloc)?;
                Ok(Target::Send {
                    number: *number,
                    channel,
                })
            }
            Target::Receive { channel, number } => {
                let channel = channel.copy(alloc)?;
                Ok(Target::Receive {
                    number: *number,
                    channel,
                })
            }
            Target::Variable { go, name } => {
                let go = go.copy(alloc)?;
                let name = name.copy(alloc)?;
                Ok(Target::Variable { go, name })
            }
        }
    }
}
