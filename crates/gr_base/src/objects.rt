//! The objects that a state is made of.

ghost use Rattle.std.specs.Prelude.{◌≡◌, IfOk};

use crate::memory::NoMemory;
use crate::names::{ChName, GoName};
use std::alloc::Global;

/// A part of the state that steps read and write as a whole.
#[derive(PartialEq, Eq, Hash, Drop)]
pub enum Object {
    /// Whether the program runs, has ended, or has faulted.
    Run,
    Go(GoName),
    /// A channel's capacity, whether it is closed, and who waits on it.
    Gate(ChName),
    /// How many values have entered a channel's buffer.
    Tail(ChName),
    /// How many values have left a channel's buffer.
    Head(ChName),
    /// A place of a channel's buffer, counted from 0.
    Slot(ChName, u32),
}

impl Object {
    /// A copy of the object, which shares its name.
    pub fn copy(&self, alloc: Global) -> Result<Object, NoMemory>
        ensures { IfOk result (λ object. object ≡ self.now) }
    {
        match self {
            Object::Run => Ok(Object::Run),
            Object::Go(go) => Ok(Object::Go(go.copy(alloc)?)),
            Object::Gate(channel) => Ok(Object::Gate(channel.copy(alloc)?)),
            Object::Tail(channel) => Ok(Object::Tail(channel.copy(alloc)?)),
            Object::Head(channel) => Ok(Object::Head(channel.copy(alloc)?)),
            Object::Slot(channel, place) => Ok(Object::Slot(channel.copy(alloc)?, *place)),
        }
    }
}
