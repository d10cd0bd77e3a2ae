//! Touches of an object.

ghost use Rattle.std.specs.Prelude.{◌≡◌, ◌<◌, ◌^◌};

use std::marker::Model;

/// A touch of an object by the step at a place of the log, and whether the step wrote the object. It takes four bytes.
#[derive(Clone, Copy, PartialEq, Eq)]
pub struct Touch {
    /// Twice the place in the log, counted from 0, and one more where the step wrote the object.
    number: u32,
}

impl Model for Touch {
    ghost use Rattle.std.proofs.Common.{ap};
    ghost use Rattle.gr_touches.specs.Kept.{TouchSeen, kept_in, number_of, kept_number};

    ghost Value = { TouchSeen };

    ghost view = { λ t. kept_in t.number };

    ghost inverse = { λ t. record { number = number_of t } };

    ghost inverse_ok = { λ t h. ap (λ n. record { number = n }) (kept_number t.number) };
}

impl Touch {
    /// A touch by the step at a place.
    #[inline(always)]
    pub fn new(place: u32, writes: bool) -> Touch
        requires { place < 2 ^ 31 }
        ensures { result ≡ record { place = place; writes = writes } }
    {
        Touch {
            number: place * 2 + u32::from(writes),
        }
    }

    /// The place of the step in the log, counted from 0.
    #[inline(always)]
    pub fn place(self) -> u32
        ensures { result ≡ self.place }
    {
        self.number / 2
    }

    /// Whether the step wrote the object.
    #[inline(always)]
    pub fn writes(self) -> bool
        ensures { result ≡ self.writes }
    {
        self.number % 2 == 1
    }
}
