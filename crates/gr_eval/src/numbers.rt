//! Operators on the values of type `int`, which have 64 bits.
ghost use Rattle.std.specs.Prelude.{◌≡◌, IfOk, IfErr, ◌+ℤ◌, ◌-ℤ◌, ◌*ℤ◌, neg_ℤ, int_div, int_rem};
ghost use Rattle.gr_base.specs.declared.values.Value.TheVariants.{Int};
ghost use Rattle.gr_const.specs.Bits.{complement, both, either, differing, shift_left as left, shift_right as right};
ghost use Rattle.gr_rules.specs.Outcomes.{gives, faults};
ghost use Rattle.gr_rules.specs.Operators.{wrapped, divided, shifted};

use gr_base::Fault;

/// A shift by this many bits or more leaves none of them.
const BITS: i64 = 64;

/// The farthest shift to the right that differs from a shorter one.
const FAR_RIGHT: i64 = 63;

/// The sum.
pub fn add(x: i64, y: i64) -> i64
    ensures { result ≡ wrapped (x +ℤ y) }
{
    x.wrapping_add(y)
}

/// The difference.
pub fn subtract(x: i64, y: i64) -> i64
    ensures { result ≡ wrapped (x -ℤ y) }
{
    x.wrapping_sub(y)
}

/// The product.
#[tactic(auto, using(crate::proofs::Wrapping::product_is))]
pub fn multiply(x: i64, y: i64) -> i64
    ensures { result ≡ wrapped (x *ℤ y) }
{
    x.wrapping_mul(y)
}

/// The number with the other sign.
pub fn negate(x: i64) -> i64
    ensures { result ≡ wrapped (neg_ℤ x) }
{
    x.wrapping_neg()
}

/// The number with each bit turned.
pub fn turn(x: i64) -> i64
    ensures { result ≡ wrapped (complement x) }
{
    !x
}

/// The quotient, rounded toward zero; that of the least number by -1 is the least number.
pub fn divide(x: i64, y: i64) -> Result<i64, Fault>
    ensures ok { IfOk result (λ z. divided int_div x y ≡ gives (Int z)) }
    ensures fault { IfErr result (λ e. divided int_div x y ≡ faults e) }
{
    if y == 0 {
        return Err(Fault::DivideByZero);
    }
    Ok(x.wrapping_div(y))
}

/// What the quotient leaves, with the sign of `x`.
pub fn remainder(x: i64, y: i64) -> Result<i64, Fault>
    ensures ok { IfOk result (λ z. divided int_rem x y ≡ gives (Int z)) }
    ensures fault { IfErr result (λ e. divided int_rem x y ≡ faults e) }
{
    if y == 0 {
        return Err(Fault::DivideByZero);
    }
    Ok(x.wrapping_rem(y))
}

/// The number times 2 to the count.
pub fn shift_left(x: i64, count: i64) -> Result<i64, Fault>
    ensures ok { IfOk result (λ z. shifted left x count ≡ gives (Int z)) }
    ensures fault { IfErr result (λ e. shifted left x count ≡ faults e) }
{
    if count < 0 {
        return Err(Fault::NegativeShift);
    }
    if count >= BITS {
        return Ok(0);
    }
    Ok(x << count)
}

/// The number by 2 to the count, rounded down.
pub fn shift_right(x: i64, count: i64) -> Result<i64, Fault>
    ensures ok { IfOk result (λ z. shifted right x count ≡ gives (Int z)) }
    ensures fault { IfErr result (λ e. shifted right x count ≡ faults e) }
{
    if count < 0 {
        return Err(Fault::NegativeShift);
    }
    Ok(x >> count.min(FAR_RIGHT))
}

/// The bits that both numbers have.
#[tactic(auto, using(crate::proofs::Words::word_and))]
pub fn and(x: i64, y: i64) -> i64
    ensures { result ≡ wrapped (both x y) }
{
    x & y
}

/// The bits that the first number has and the second has not.
pub fn and_not(x: i64, y: i64) -> i64
    ensures { result ≡ wrapped (both x (complement y)) }
{
    and(x, !y)
}

/// The bits that either number has.
#[tactic(auto, using(crate::proofs::Words::word_or))]
pub fn or(x: i64, y: i64) -> i64
    ensures { result ≡ wrapped (either x y) }
{
    x | y
}

/// The bits that one number has and the other has not.
#[tactic(auto, using(crate::proofs::Words::word_xor))]
pub fn xor(x: i64, y: i64) -> i64
    ensures { result ≡ wrapped (differing x y) }
{
    x ^ y
}
