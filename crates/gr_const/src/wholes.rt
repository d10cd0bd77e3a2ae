//! The binary operators on whole numbers.
ghost use Rattle.std.specs.Prelude.{◌≡◌, Some, None, true, false, IfOk, OnErr, IsErrOf, ◌↔◌, int_div, int_rem, ◌*ℤ◌};
ghost use Rattle.gr_const.specs.Bits.{shift_left as left, shift_right as right};
ghost use Rattle.gr_const.specs.Constants.{part as number_part, on_wholes, is_for_wholes, divided, shifted};
ghost use Rattle.gr_const.specs.Outcomes.{in_range};
ghost use Rattle.gr_const.specs.declared.constant.ConstError.TheVariants.{Form};

use crate::bits;
use crate::constant::{ConstError, Constant, part, part_of};
use gr_tree::BinaryOp;

/// Shifted left by this many bits, no number but 0 is a part of a constant expression.
const FAR_LEFT: i128 = 64;

/// Shifted right by this many bits, each number of the machine is 0 or -1.
const FAR_RIGHT: i128 = 127;

/// The product.
fn product(x: i128, y: i128) -> Result<Constant, ConstError>
    ensures { result ≡ in_range (number_part (x *ℤ y)) }
{
    part_of(x.checked_mul(y))
}

/// The quotient, rounded toward zero.
fn quotient(x: i128, y: i128) -> Result<Constant, ConstError>
    ensures { result ≡ in_range (divided int_div x y) }
{
    part_of(x.checked_div(y))
}

/// What the quotient leaves, with the sign of `x`.
fn remainder(x: i128, y: i128) -> Result<Constant, ConstError>
    ensures { result ≡ in_range (divided int_rem x y) }
{
    if y == 0 {
        return Err(ConstError::Range);
    }
    part(x.wrapping_rem(y))
}

/// The number times 2 to the count.
fn shift_left(x: i128, count: i128) -> Result<Constant, ConstError>
    ensures { result ≡ in_range (shifted left x count) }
{
    if count < 0 {
        return Err(ConstError::Range);
    }
    if x == 0 {
        return part(0);
    }
    if count >= FAR_LEFT {
        return Err(ConstError::Range);
    }
    product(x, 1 << count)
}

/// The number by 2 to the count, rounded down.
fn shift_right(x: i128, count: i128) -> Result<Constant, ConstError>
    ensures { result ≡ in_range (shifted right x count) }
{
    if count < 0 {
        return Err(ConstError::Range);
    }
    part(x >> count.min(FAR_RIGHT))
}

/// The operator on two whole numbers.
pub fn of_wholes(op: BinaryOp, x: i128, y: i128) -> Result<Constant, ConstError>
    ensures ok { IfOk result (λ c. on_wholes op x y ≡ Some c) }
    ensures err { OnErr result (on_wholes op x y ≡ None) }
    ensures form { IsErrOf result Form ↔ (is_for_wholes op ≡ false) }
{
    match op {
        BinaryOp::Multiply => product(x, y),
        BinaryOp::Divide => quotient(x, y),
        BinaryOp::Remainder => remainder(x, y),
        BinaryOp::ShiftLeft => shift_left(x, y),
        BinaryOp::ShiftRight => shift_right(x, y),
        BinaryOp::BitAnd => part(bits::and(x, y)),
        BinaryOp::AndNot => part(bits::and(x, !y)),
        BinaryOp::Add => part_of(x.checked_add(y)),
        BinaryOp::Subtract => part_of(x.checked_sub(y)),
        BinaryOp::BitOr => part(bits::or(x, y)),
        BinaryOp::BitXor => part(bits::xor(x, y)),
        BinaryOp::Equal => Ok(Constant::Truth(x == y)),
        BinaryOp::NotEqual => Ok(Constant::Truth(x != y)),
        BinaryOp::Less => Ok(Constant::Truth(x < y)),
        BinaryOp::LessEqual => Ok(Constant::Truth(x <= y)),
        BinaryOp::Greater => Ok(Constant::Truth(x > y)),
        BinaryOp::GreaterEqual => Ok(Constant::Truth(x >= y)),
        BinaryOp::LogicalAnd | BinaryOp::LogicalOr => Err(ConstError::Form),
    }
}
