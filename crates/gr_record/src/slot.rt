//! Places of slots.

ghost use Rattle.std.specs.Prelude.{◌≡◌, ◌<◌, ◌-◌, ◌^◌, Some, None};

use std::marker::Model;

/// The place of a slot of a channel, counted from 0, or none. It takes four bytes.
#[derive(Clone, Copy)]
pub struct SlotPlace {
    /// One more than the place, or 0 for none.
    number: u32,
}

impl Model for SlotPlace {
    ghost use Rattle.std.specs.Prelude.{Option, ℕ};
    ghost use Rattle.std.proofs.Common.{ap};
    ghost use Rattle.gr_record.specs.Places.{place_in, number_of, kept_number};

    ghost Value = { Option ℕ };

    ghost view = { λ p. place_in p.number };

    ghost inverse = { λ o. record { number = number_of o } };

    ghost inverse_ok = { λ p h. ap (λ n. record { number = n }) (kept_number p.number) };
}

impl SlotPlace {
    /// No place.
    #[inline(always)]
    pub fn none() -> SlotPlace
        ensures { result ≡ None }
    {
        SlotPlace { number: 0 }
    }

    /// The place of a slot.
    #[inline(always)]
    pub fn at(place: u32) -> SlotPlace
        requires { place < 2 ^ 32 - 1 }
        ensures { result ≡ Some place }
    {
        SlotPlace { number: place + 1 }
    }

    /// The place, if there is one.
    #[inline(always)]
    pub fn get(self) -> Option<u32>
        ensures { result ≡ self }
    {
        self.number.checked_sub(1)
    }
}
