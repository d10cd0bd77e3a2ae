//! Events: which goroutine takes the next step, and what it chooses.

ghost use Rattle.std.specs.Prelude.{◌≡◌, IfOk};

use crate::memory::NoMemory;
use crate::names::GoName;
use std::alloc::Global;

/// What a step chooses. Only a step of a select chooses anything.
#[derive(Clone, Copy, PartialEq, Eq)]
pub enum Choice {
    /// No choice: the step is not one of a select.
    Plain,
    /// The communication of this clause, counted from 1.
    Pick(u32),
    /// The default clause.
    Default,
    /// To wait on all clauses.
    Park,
}

/// One step of one goroutine.
#[derive(PartialEq, Eq, Drop)]
pub struct Event {
    pub go: GoName,
    pub choice: Choice,
}

impl Event {
    /// A copy of the event, which shares its name.
    pub fn copy(&self, alloc: Global) -> Result<Event, NoMemory>
        ensures { IfOk result (λ event. event ≡ self.now) }
    {
        let go = self.go.copy(alloc)?;
        Ok(Event {
            go,
            choice: self.choice,
        })
    }
}
