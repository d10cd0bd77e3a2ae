//! Why an evaluation gave no value.
ghost use Rattle.std.specs.Prelude.{◌≡◌};
ghost use Rattle.gr_eval.specs.declared.stop.Stop.TheVariants as stops;

use gr_base::{Fault, NoMemory};
use std::alloc::{AllocError, AllocFailed};

/// Why an evaluation gave no value.
#[derive(Clone, Copy, PartialEq, Eq)]
pub enum Stop {
    /// The program stops with this fault.
    Fault(Fault),
    NoMemory,
}

impl From<Fault> for Stop {
    ghost from_gives = { λ f s. s ≡ stops.Fault f };

    fn from(fault: Fault) -> Stop {
        Stop::Fault(fault)
    }
}

impl From<NoMemory> for Stop {
    ghost from_gives = { λ _ s. s ≡ stops.NoMemory };

    fn from(_error: NoMemory) -> Stop {
        Stop::NoMemory
    }
}

impl From<AllocError> for Stop {
    ghost from_gives = { λ _ s. s ≡ stops.NoMemory };

    fn from(_error: AllocError) -> Stop {
        Stop::NoMemory
    }
}

impl<T: Drop> From<AllocFailed<T>> for Stop {
    ghost from_gives = { λ _ s. s ≡ stops.NoMemory };

    fn from(_error: AllocFailed<T>) -> Stop {
        Stop::NoMemory
    }
}
