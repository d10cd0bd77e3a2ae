//! What the operators on whole numbers come to: laws, each the contract of a function that does nothing.

ghost use Rattle.gr_const.specs.Examples.{Quotients, Remainders, Elevens, MinusElevens, Negatives, Limits, Comparisons};
ghost use Rattle.gr_const.specs.Laws.{Divides, RoundsDown, HasBits, BitsDecide};

/// The quotient is rounded toward zero, and the remainder is what it leaves.
#[tactic(auto, using(crate::proofs::Division::divides))]
pub fn law_of_division()
    ensures { Divides }
{}

/// A shift to the right rounds down.
#[tactic(auto, using(crate::proofs::Division::rounds_down))]
pub fn law_of_shifts()
    ensures { RoundsDown }
{}

/// Which bits the operators on bits give, and that no two numbers have the same bits.
#[tactic(auto, using(crate::proofs::Bools::has_bits, crate::proofs::Bools::bits_decide))]
pub fn law_of_bits()
    ensures each { HasBits }
    ensures unique { BitsDecide }
{}

/// The tables of the Go specification, and some values at the limits.
pub fn law_of_examples()
    ensures quotients { Quotients }
    ensures remainders { Remainders }
    ensures elevens { Elevens }
    ensures minus_elevens { MinusElevens }
    ensures negatives { Negatives }
    ensures limits { Limits }
    ensures comparisons { Comparisons }
{}
