//! The operators on bits. The machine's numbers have 128 bits, and those of constants have bits without end. Both give the
//! same bits.
ghost use Rattle.std.specs.Prelude.{◌≡◌};
ghost use Rattle.gr_const.specs.Bits.{both, either, differing, complement};

/// The bits that both numbers have.
#[tactic(auto, using(crate::proofs::Words::word_and))]
pub fn and(x: i128, y: i128) -> i128
    ensures { result ≡ both x y }
{
    x & y
}

/// The bits that either number has.
#[tactic(auto, using(crate::proofs::Words::word_or))]
pub fn or(x: i128, y: i128) -> i128
    ensures { result ≡ either x y }
{
    x | y
}

/// The bits that one number has and the other has not.
#[tactic(auto, using(crate::proofs::Words::word_xor))]
pub fn xor(x: i128, y: i128) -> i128
    ensures { result ≡ differing x y }
{
    x ^ y
}
