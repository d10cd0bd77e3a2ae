//! Kinds of steps that reach no further than their goroutine.

ghost use Rattle.std.specs.Prelude.{◌≡◌};
ghost use Rattle.gr_goros.specs.Kinds.{kind_of};

use gr_base::{Fault, Kind};

/// The kind of a step that reaches no further than its goroutine. It takes two bytes, where any kind takes eight.
#[derive(Clone, Copy)]
pub enum LocalKind {
    Pure,
    Call,
    Return,
    /// It took `len` or `cap` of nil.
    Length,
    Fault(Fault),
}

impl LocalKind {
    /// The kind.
    pub fn kind(self) -> Kind
        ensures { result ≡ kind_of self }
    {
        match self {
            LocalKind::Pure => Kind::Pure,
            LocalKind::Call => Kind::Call,
            LocalKind::Return => Kind::Return,
            LocalKind::Length => Kind::Length,
            LocalKind::Fault(fault) => Kind::Fault(fault),
        }
    }
}
