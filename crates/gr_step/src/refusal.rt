//! Why steps are refused.

ghost use Rattle.std.specs.Prelude.{◌≡◌};
ghost use Rattle.gr_step.specs.declared.refusal.StepRefused.TheVariants as refusals;

use gr_base::NoMemory;
use thiserror::Error;

/// Why an event is no step.
#[derive(Clone, Copy, Debug, PartialEq, Eq, Error)]
pub enum StepRefused {
    /// The program has ended, or a fault stopped it.
    #[error("the program is over")]
    Over,
    /// There is no such goroutine.
    #[error("no such goroutine")]
    NotThere,
    /// The goroutine is done.
    #[error("the goroutine is done")]
    Done,
    /// The goroutine waits.
    #[error("the goroutine waits")]
    Waits,
    /// The choice is not possible here.
    #[error("the choice is not possible here")]
    NoChoice,
    /// A growth for the step was refused.
    #[error("out of memory")]
    NoMemory,
}

impl From<NoMemory> for StepRefused {
    ghost from_gives = { λ _ why. why ≡ refusals.NoMemory };

    fn from(_error: NoMemory) -> StepRefused {
        StepRefused::NoMemory
    }
}
