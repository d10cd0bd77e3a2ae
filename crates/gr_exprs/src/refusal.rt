//! Which rule of the language is broken, and what stops a check.
ghost use Rattle.std.specs.Prelude.{◌≡◌};
ghost use Rattle.gr_exprs.specs.declared.refusal.RuleError.TheVariants as faults;
ghost use Rattle.gr_exprs.specs.Codes.{constant_code};

use gr_const::ConstError;
use std::alloc::{AllocError, AllocFailed};
use thiserror::Error;

/// Which rule of the language a file breaks.
#[derive(Clone, Copy, Debug, PartialEq, Eq, Error)]
pub enum RefusalCode {
    /// C1: a name that is not declared, or the blank identifier as a value.
    #[error("undeclared name")]
    UnknownName,
    /// C2: a name or a label that is declared twice, or a name that may not be declared.
    #[error("name or label declared twice")]
    DeclaredTwice,
    /// C3: a value of the wrong type, or something of the wrong form.
    #[error("wrong type or form")]
    WrongForm,
    /// C4: not as many values as are wanted.
    #[error("wrong number of values")]
    WrongCount,
    /// C5: a channel of the wrong direction.
    #[error("channel of the wrong direction")]
    WrongDirection,
    /// C6: a function with a result whose end may be reached.
    #[error("missing return")]
    MissingReturn,
    /// C7: a constant out of range, a divisor 0, or a negative shift count or size.
    #[error("constant out of range")]
    Constant,
    /// C8: a label, a break or a continue out of place, or a label that is not used.
    #[error("label, break or continue out of place")]
    WrongLabel,
    /// C9: the package is not `main`, or has no function `main` without parameters and result.
    #[error("no function main in a package main")]
    NoMain,
    /// C10: `:=` that declares nothing.
    #[error("no new variable")]
    NoNewVariable,
}

/// What stops the check of an expression or a statement.
#[derive(Clone, Copy, Debug, PartialEq, Eq)]
pub enum RuleError {
    Broken(RefusalCode),
    Memory,
}

impl From<AllocError> for RuleError {
    ghost from_gives = { λ _ e. e ≡ faults.Memory };

    fn from(_: AllocError) -> Self {
        RuleError::Memory
    }
}

impl<T: Drop> From<AllocFailed<T>> for RuleError {
    ghost from_gives = { λ _ e. e ≡ faults.Memory };

    fn from(_: AllocFailed<T>) -> Self {
        RuleError::Memory
    }
}

/// The rule that is broken by a constant expression without a value.
pub fn code_of(error: ConstError) -> RefusalCode
    ensures { result ≡ constant_code error }
{
    match error {
        ConstError::Form => RefusalCode::WrongForm,
        ConstError::Range => RefusalCode::Constant,
    }
}
