//! What a caller learns of a step that was taken.

ghost use Rattle.std.specs.Prelude.{◌≡◌};
ghost use Rattle.gr_rollback.specs.Stepping.{told_by};

use gr_base::Kind;
use gr_step::Record;

/// A step that was taken: its ordinal among the steps of its goroutine, from 1, and its kind.
#[derive(Clone, Copy, PartialEq, Eq)]
pub struct Stepped {
    pub ordinal: u64,
    pub kind: Kind,
}

impl Stepped {
    /// What the record of a step tells.
    pub(crate) fn of(step: &Record) -> Stepped
        ensures { result ≡ told_by step.now }
    {
        Stepped {
            ordinal: step.id.n,
            kind: step.change.kind(),
        }
    }
}
