//! Why commands are not carried out.

/// Why a command was not carried out, by the code that a reply tells.
#[derive(Clone, Copy, Debug, PartialEq, Eq)]
pub enum Refusal {
    /// N1: the program has ended, or a fault stopped it.
    Ended,
    /// N2: there is no such goroutine or channel.
    NotThere,
    /// N3: the goroutine waits.
    Waits,
    /// N4: the goroutine is done.
    Done,
    /// N5: the choice is not possible here.
    NoChoice,
    /// N6: a growth for the step was refused.
    NoMemory,
    /// B1: no step is kept.
    NothingToUndo,
    /// B2: no step of this name, or of this description, is kept.
    NotKept,
    /// B3: the names are not those of the kept steps, each once.
    NotTheSteps,
    /// B5: no step can be taken again.
    NothingToRedo,
    /// Q1: the log has no room for the step.
    LogFull,
}
