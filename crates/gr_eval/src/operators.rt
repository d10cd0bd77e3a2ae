//! Operators on values. Each is given values that it is for.
ghost use Rattle.std.specs.Prelude.{◌≡◌, ◌≢◌, IfOk, IfErr};
ghost use Rattle.gr_rules.specs.Outcomes.{gives, faults, wrong};
ghost use Rattle.gr_rules.specs.Operators as rules;
ghost use Rattle.gr_eval.specs.Views.{value_of, scalar_value, scalar_outcome};

use crate::numbers;
use crate::seen::{Scalar, Seen};
use gr_base::{Fault, Value};
use gr_tree::{BinaryOp, UnaryOp};

/// The unary operator on a value that it is for. The crates above do not call it: it is for users of the library.
pub fn apply(op: UnaryOp, value: Value) -> Value
    requires { rules.apply op value ≢ wrong }
    ensures { rules.apply op value ≡ gives result }
{
    apply_seen(op, Seen::of(&value)).to_value()
}

/// The binary operator on two values that it is for. Errors: the fault with which the
/// program stops, for a divisor 0 or a negative shift count.
pub fn operate(op: BinaryOp, left: Value, right: Value) -> Result<Value, Fault>
    requires { rules.operate op left right ≢ wrong }
    ensures ok { IfOk result (λ v. rules.operate op left right ≡ gives v) }
    ensures fault { IfErr result (λ e. rules.operate op left right ≡ faults e) }
{
    Ok(operate_seen(op, Seen::of(&left), Seen::of(&right))?.to_value())
}

/// Whether the left operand alone decides.
pub fn settles(op: BinaryOp, value: &Value) -> bool
    ensures { result ≡ rules.settles op value.now }
{
    settles_seen(op, Seen::of(value))
}

/// Whether the left operand alone decides.
pub(crate) fn settles_seen(op: BinaryOp, value: Seen) -> bool
    ensures { result ≡ rules.settles op (value_of value.entry) }
{
    match (op, value) {
        (BinaryOp::LogicalAnd, Seen::Bool(b)) => !b,
        (BinaryOp::LogicalOr, Seen::Bool(b)) => b,
        _ => false,
    }
}

/// The unary operator on a value that it is for.
pub(crate) fn apply_seen(op: UnaryOp, value: Seen) -> Scalar
    requires { rules.apply op (value_of value) ≢ wrong }
    ensures { rules.apply op (value_of value.entry) ≡ gives (scalar_value result) }
{
    match (op, value) {
        (UnaryOp::Plus, Seen::Int(x)) => Scalar::Int(x),
        (UnaryOp::Negate, Seen::Int(x)) => Scalar::Int(numbers::negate(x)),
        (UnaryOp::Complement, Seen::Int(x)) => Scalar::Int(numbers::turn(x)),
        (UnaryOp::Not, Seen::Bool(b)) => Scalar::Bool(!b),
        _ => unreachable!(),
    }
}

/// The operator on two numbers.
#[inline]
pub fn on_ints(op: BinaryOp, x: i64, y: i64) -> Result<Scalar, Fault>
    requires { rules.on_ints op x y ≢ wrong }
    ensures { rules.on_ints op x y ≡ scalar_outcome result }
{
    match op {
        BinaryOp::Multiply => Ok(Scalar::Int(numbers::multiply(x, y))),
        BinaryOp::Divide => Ok(Scalar::Int(numbers::divide(x, y)?)),
        BinaryOp::Remainder => Ok(Scalar::Int(numbers::remainder(x, y)?)),
        BinaryOp::ShiftLeft => Ok(Scalar::Int(numbers::shift_left(x, y)?)),
        BinaryOp::ShiftRight => Ok(Scalar::Int(numbers::shift_right(x, y)?)),
        BinaryOp::BitAnd => Ok(Scalar::Int(numbers::and(x, y))),
        BinaryOp::AndNot => Ok(Scalar::Int(numbers::and_not(x, y))),
        BinaryOp::Add => Ok(Scalar::Int(numbers::add(x, y))),
        BinaryOp::Subtract => Ok(Scalar::Int(numbers::subtract(x, y))),
        BinaryOp::BitOr => Ok(Scalar::Int(numbers::or(x, y))),
        BinaryOp::BitXor => Ok(Scalar::Int(numbers::xor(x, y))),
        BinaryOp::Equal => Ok(Scalar::Bool(x == y)),
        BinaryOp::NotEqual => Ok(Scalar::Bool(x != y)),
        BinaryOp::Less => Ok(Scalar::Bool(x < y)),
        BinaryOp::LessEqual => Ok(Scalar::Bool(x <= y)),
        BinaryOp::Greater => Ok(Scalar::Bool(x > y)),
        BinaryOp::GreaterEqual => Ok(Scalar::Bool(x >= y)),
        BinaryOp::LogicalAnd | BinaryOp::LogicalOr => unreachable!(),
    }
}

/// `==` or `!=`, by whether the operands are equal.
fn compared(op: BinaryOp, equal: bool) -> Scalar
    requires { rules.compared op equal ≢ wrong }
    ensures { rules.compared op equal ≡ gives (scalar_value result) }
{
    match op {
        BinaryOp::Equal => Scalar::Bool(equal),
        BinaryOp::NotEqual => Scalar::Bool(!equal),
        _ => unreachable!(),
    }
}

/// The operator on two truth values.
fn on_truths(op: BinaryOp, a: bool, b: bool) -> Scalar
    requires { rules.on_truths op a b ≢ wrong }
    ensures { rules.on_truths op a b ≡ gives (scalar_value result) }
{
    match op {
        BinaryOp::LogicalAnd => Scalar::Bool(a && b),
        BinaryOp::LogicalOr => Scalar::Bool(a || b),
        BinaryOp::Equal => Scalar::Bool(a == b),
        BinaryOp::NotEqual => Scalar::Bool(a != b),
        _ => unreachable!(),
    }
}

/// The binary operator on two values that it is for.
#[inline]
pub(crate) fn operate_seen(op: BinaryOp, left: Seen, right: Seen) -> Result<Scalar, Fault>
    requires { rules.operate op (value_of left) (value_of right) ≢ wrong }
    ensures { rules.operate op (value_of left.entry) (value_of right.entry) ≡ scalar_outcome result }
{
    match (left, right) {
        (Seen::Int(x), Seen::Int(y)) => on_ints(op, x, y),
        (Seen::Bool(a), Seen::Bool(b)) => Ok(on_truths(op, a, b)),
        (Seen::Unit, Seen::Unit) | (Seen::Nil, Seen::Nil) => Ok(compared(op, true)),
        (Seen::Channel(c), Seen::Channel(d)) => Ok(compared(op, *c == *d)),
        (Seen::Nil, Seen::Channel(_)) | (Seen::Channel(_), Seen::Nil) => Ok(compared(op, false)),
        _ => unreachable!(),
    }
}
