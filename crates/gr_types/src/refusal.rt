//! Why a file has no program.
ghost use Rattle.std.specs.Prelude.{◌≡◌};
ghost use Rattle.gr_types.specs.declared.refusal.CheckError.TheVariants as errors;
ghost use Rattle.gr_types.specs.Checking.{refused_at};

pub use gr_exprs::refusal::RefusalCode;
use gr_exprs::refusal::RuleError;
use gr_scan::token::Place;
use std::alloc::{AllocError, AllocFailed};
use thiserror::Error;

/// Why a file has no program.
#[derive(Clone, Copy, Debug, PartialEq, Eq, Error)]
pub enum CheckError {
    /// A rule is broken. The number counts the bytes before the statement, heading or package clause that breaks it, or
    /// before the closing brace that may be reached. Faults of the package clause come first, then those of headings, then
    /// those of the earliest statement.
    #[error("{code} at byte offset {at}")]
    Refused { code: RefusalCode, at: usize },
    /// There was not enough memory, which says nothing about the file.
    #[error("out of memory")]
    Memory,
}

impl From<AllocError> for CheckError {
    ghost from_gives = { λ _ e. e ≡ errors.Memory };

    fn from(_: AllocError) -> Self {
        CheckError::Memory
    }
}

impl<T: Drop> From<AllocFailed<T>> for CheckError {
    ghost from_gives = { λ _ e. e ≡ errors.Memory };

    fn from(_: AllocFailed<T>) -> Self {
        CheckError::Memory
    }
}

/// The fault of a statement, a heading or a package clause that begins at this place.
pub fn refused(fault: RuleError, place: Place) -> CheckError
    ensures { result ≡ refused_at place fault }
{
    match fault {
        RuleError::Broken(code) => CheckError::Refused {
            code,
            at: place.start,
        },
        RuleError::Memory => CheckError::Memory,
    }
}
