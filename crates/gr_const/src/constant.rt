//! Constants and the operators on them.
ghost use Rattle.std.specs.Prelude.{◌≡◌, Some, None, Err, false, IfSome, IfNone, IfOk, IfErr, OnErr, IsErrOf, ◌↔◌};
ghost use Rattle.gr_const.specs.Constants as spec;
ghost use Rattle.gr_const.specs.Outcomes.{in_range};
ghost use Rattle.gr_const.specs.declared.constant.ConstError.TheVariants.{Form, Range};

use crate::wholes::of_wholes;
use gr_tree::{BinaryOp, UnaryOp};

/// The greatest part of a constant expression, 2^63; the least is its negative.
const GREATEST: i128 = 0x8000_0000_0000_0000;

/// An exact constant: a part of a constant expression.
#[derive(Clone, Copy, PartialEq, Eq)]
pub enum Constant {
    /// A whole number, which the functions of this crate make from -2^63 to 2^63.
    Whole(i128),
    Truth(bool),
}

/// Why there is no constant.
#[derive(Clone, Copy, Debug, PartialEq, Eq)]
pub enum ConstError {
    /// The operator is not for such values (C3).
    Form,
    /// A value out of range, a divisor 0 or a negative shift count (C7).
    Range,
}

/// The number as a constant. Errors: `Range` where it may not be a part of a constant expression.
pub fn part(value: i128) -> Result<Constant, ConstError>
    ensures { result ≡ in_range (spec.part value) }
{
    if -GREATEST <= value && value <= GREATEST {
        return Ok(Constant::Whole(value));
    }
    Err(ConstError::Range)
}

/// The number as a constant. `None` stands for a number that the machine cannot hold, which is far out of range.
pub fn part_of(value: Option<i128>) -> Result<Constant, ConstError>
    ensures some { IfSome value (λ n. result ≡ in_range (spec.part n)) }
    ensures none { IfNone value (result ≡ Err Range) }
{
    match value {
        Some(value) => part(value),
        None => Err(ConstError::Range),
    }
}

/// The constant of a literal; `Range` where it is over 2^63.
pub fn number(n: u64) -> Result<Constant, ConstError>
    ensures ok { IfOk result (λ c. spec.number n ≡ Some c) }
    ensures err { IfErr result (λ e. (e ≡ Range) × (spec.number n ≡ None)) }
{
    part(n as i128)
}

/// The number of a constant expression as a whole; `None` where it does not fit `int`, or the constant is a truth value.
pub fn whole(a: Constant) -> Option<i64>
    ensures { result ≡ spec.whole a }
{
    match a {
        Constant::Whole(x) => i64::try_from(x).ok(),
        Constant::Truth(_) => None,
    }
}

/// The operator on a constant. Errors: `Form` where the operator is not for such a value, `Range` where the value is
/// out of range.
pub fn unary(op: UnaryOp, a: Constant) -> Result<Constant, ConstError>
    ensures ok { IfOk result (λ c. spec.unary op a ≡ Some c) }
    ensures err { OnErr result (spec.unary op a ≡ None) }
    ensures form { IsErrOf result Form ↔ (spec.suits op a ≡ false) }
{
    match (op, a) {
        (UnaryOp::Plus, Constant::Whole(x)) => part(x),
        (UnaryOp::Negate, Constant::Whole(x)) => part_of(x.checked_neg()),
        (UnaryOp::Complement, Constant::Whole(x)) => part(!x),
        (UnaryOp::Not, Constant::Truth(b)) => Ok(Constant::Truth(!b)),
        _ => Err(ConstError::Form),
    }
}

/// The operator on two truth values.
fn of_truths(op: BinaryOp, a: bool, b: bool) -> Result<Constant, ConstError>
    ensures ok { IfOk result (λ c. spec.on_truths op a b ≡ Some c) }
    ensures err { OnErr result (spec.on_truths op a b ≡ None) }
    ensures form { IsErrOf result Form ↔ (spec.is_for_truths op ≡ false) }
{
    match op {
        BinaryOp::LogicalAnd => Ok(Constant::Truth(a && b)),
        BinaryOp::LogicalOr => Ok(Constant::Truth(a || b)),
        BinaryOp::Equal => Ok(Constant::Truth(a == b)),
        BinaryOp::NotEqual => Ok(Constant::Truth(a != b)),
        _ => Err(ConstError::Form),
    }
}

/// The operator on two constants; a comparison of constants is a constant. Errors: `Form` where the operator is not for two
/// such values. `Range` where the value is out of range, a divisor is 0 or a shift count is negative.
pub fn binary(op: BinaryOp, a: Constant, b: Constant) -> Result<Constant, ConstError>
    ensures ok { IfOk result (λ c. spec.binary op a b ≡ Some c) }
    ensures err { OnErr result (spec.binary op a b ≡ None) }
    ensures form { IsErrOf result Form ↔ (spec.suits_both op a b ≡ false) }
{
    match (a, b) {
        (Constant::Whole(x), Constant::Whole(y)) => of_wholes(op, x, y),
        (Constant::Truth(x), Constant::Truth(y)) => of_truths(op, x, y),
        _ => Err(ConstError::Form),
    }
}
