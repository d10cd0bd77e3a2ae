//! Operators on values.
ghost use Rattle.std.specs.Prelude.{◌≡◌, Some};
ghost use Rattle.gr_tree.specs.Statements.{optional};
ghost use Rattle.gr_program.specs.Programs as terms;
ghost use Rattle.gr_program.specs.TypeViews.{ty_of};
ghost use Rattle.gr_program.specs.Views.{expr_of};
ghost use Rattle.gr_typing.specs.Values as rules;
ghost use Rattle.gr_exprs.specs.Finding as spec;
ghost use Rattle.gr_exprs.specs.Checking.{Agrees, meaning_of, channel_of};
ghost use Rattle.gr_exprs.specs.Codes.{Tells};
ghost use Rattle.gr_exprs.specs.declared.refusal.RefusalCode.TheVariants as codes;

use crate::operands::{Channel, Operand, as_channel, with_type};
use crate::refusal::{RefusalCode, RuleError, code_of};
use crate::types::{is_assignable, may_receive, zero};
use gr_const::Constant;
use gr_program as checked;
use gr_program::{Literal, Type};
use gr_tree::{BinaryOp, UnaryOp};
use std::alloc::Global;

fn unary_type(op: UnaryOp, operand: &Type) -> Option<Type>
    ensures { optional ty_of result ≡ rules.unary_type op (ty_of operand.now) }
{
    match (op, operand) {
        (UnaryOp::Plus | UnaryOp::Negate | UnaryOp::Complement, Type::Int) => Some(Type::Int),
        (UnaryOp::Not, Type::Bool) => Some(Type::Bool),
        _ => None,
    }
}

fn unary_made(
    alloc: Global,
    op: UnaryOp,
    operand: Type,
    term: checked::Expr,
) -> Result<Operand, RuleError>
    ensures value { Agrees meaning_of result (spec.unary_made op (ty_of operand) (expr_of term)) }
    ensures code { Tells result codes.WrongForm }
{
    match unary_type(op, &operand) {
        Some(own) => Ok(Operand::Made(own, checked::Expr::Unary(op, Box::new(alloc, term)?))),
        None => Err(RuleError::Broken(RefusalCode::WrongForm)),
    }
}

#[tactic(auto, unfolding(crate::specs::Finding::unary_value))]
fn unary_value(alloc: Global, op: UnaryOp, operand: Operand) -> Result<Operand, RuleError>
    ensures { Agrees meaning_of result (spec.unary_value op (meaning_of operand)) }
{
    match operand {
        Operand::Constant(constant) => match gr_const::unary(op, constant) {
            Ok(constant) => Ok(Operand::Constant(constant)),
            Err(error) => Err(RuleError::Broken(code_of(error))),
        },
        Operand::Nil => Err(RuleError::Broken(RefusalCode::WrongForm)),
        Operand::Made(own, term) => unary_made(alloc, op, own, term),
    }
}

fn receive_of(alloc: Global, channel: Channel) -> Result<Operand, RuleError>
    ensures value { Agrees meaning_of result (spec.received (channel_of channel)) }
    ensures code { Tells result codes.WrongDirection }
{
    if !may_receive(channel.direction) {
        return Err(RuleError::Broken(RefusalCode::WrongDirection));
    }
    let nothing = zero(&channel.element);
    let term = checked::Expr::Receive(Box::new(alloc, channel.term)?, nothing);
    Ok(Operand::Made(channel.element, term))
}

#[tactic(auto, unfolding(crate::specs::Finding::receive_value))]
fn receive(alloc: Global, operand: Operand) -> Result<Operand, RuleError>
    ensures { Agrees meaning_of result (spec.receive_value (meaning_of operand)) }
{
    receive_of(alloc, as_channel(operand)?)
}

/// A unary operator on a value.
pub fn unary(alloc: Global, op: UnaryOp, operand: Operand) -> Result<Operand, RuleError>
    ensures { Agrees meaning_of result (spec.on_operand op (meaning_of operand)) }
{
    match op {
        UnaryOp::Receive => receive(alloc, operand),
        UnaryOp::Plus | UnaryOp::Negate | UnaryOp::Not | UnaryOp::Complement => {
            unary_value(alloc, op, operand)
        }
    }
}

fn is_comparison(op: BinaryOp) -> bool
    ensures { result ≡ rules.is_comparison op }
{
    matches!(op, BinaryOp::Equal | BinaryOp::NotEqual)
}

fn compared(left: &Type, right: &Type) -> Option<Type>
    ensures { optional ty_of result ≡ rules.compared (ty_of left.now) (ty_of right.now) }
{
    if is_assignable(left, right) || is_assignable(right, left) {
        Some(Type::Bool)
    } else {
        None
    }
}

fn if_ints(left: &Type, right: &Type, own: Type) -> Option<Type>
    ensures { optional ty_of result ≡ rules.if_ints (ty_of left.now) (ty_of right.now) (ty_of own) }
{
    match (left, right) {
        (Type::Int, Type::Int) => Some(own),
        _ => None,
    }
}

fn if_truths(left: &Type, right: &Type) -> Option<Type>
    ensures { optional ty_of result ≡ rules.if_truths (ty_of left.now) (ty_of right.now) }
{
    match (left, right) {
        (Type::Bool, Type::Bool) => Some(Type::Bool),
        _ => None,
    }
}

/// The type of an operator's value on operands of these types; `None` where the operator is not for them.
pub fn binary_type(op: BinaryOp, left: &Type, right: &Type) -> Option<Type>
    ensures { optional ty_of result ≡ rules.binary_type op (ty_of left.now) (ty_of right.now) }
{
    match op {
        BinaryOp::Equal | BinaryOp::NotEqual => compared(left, right),
        BinaryOp::Less | BinaryOp::LessEqual | BinaryOp::Greater | BinaryOp::GreaterEqual => {
            if_ints(left, right, Type::Bool)
        }
        BinaryOp::LogicalAnd | BinaryOp::LogicalOr => if_truths(left, right),
        _ => if_ints(left, right, Type::Int),
    }
}

/// Whether a value may stand right of an operator: no constant divisor is 0, no constant shift count negative.
pub fn may_stand_right(op: BinaryOp, right: &Operand) -> bool
    ensures { result ≡ rules.may_stand_right op (meaning_of right.now) }
{
    match (op, right) {
        (BinaryOp::Divide | BinaryOp::Remainder, Operand::Constant(Constant::Whole(n))) => *n != 0,
        (BinaryOp::ShiftLeft | BinaryOp::ShiftRight, Operand::Constant(Constant::Whole(n))) => *n
            >= 0,
        _ => true,
    }
}

fn joined(
    alloc: Global,
    own: Type,
    op: BinaryOp,
    left: checked::Expr,
    right: checked::Expr,
) -> Result<Operand, RuleError>
    ensures { Agrees meaning_of result (Some (rules.Made (ty_of own) (terms.Binary op (expr_of left) (expr_of right)))) }
{
    let left = Box::new(alloc, left)?;
    let right = Box::new(alloc, right)?;
    Ok(Operand::Made(own, checked::Expr::Binary(op, left, right)))
}

fn binary_made(
    alloc: Global,
    op: BinaryOp,
    left: Operand,
    right: Operand,
) -> Result<Operand, RuleError>
    ensures { Agrees meaning_of result (spec.binary_made op (meaning_of left) (meaning_of right)) }
{
    let may_stand = may_stand_right(op, &right);
    let (left_type, left) = with_type(left)?;
    let (right_type, right) = with_type(right)?;
    let Some(own) = binary_type(op, &left_type, &right_type) else {
        return Err(RuleError::Broken(RefusalCode::WrongForm));
    };
    if !may_stand {
        return Err(RuleError::Broken(RefusalCode::Constant));
    }
    joined(alloc, own, op, left, right)
}

fn nil_left(alloc: Global, op: BinaryOp, right: Operand) -> Result<Operand, RuleError>
    ensures { Agrees meaning_of result
        (spec.nil_compared op (spec.as_channel (meaning_of right)) (λ q. terms.Binary op (terms.Literally terms.Nil) q)) }
{
    let channel = as_channel(right)?;
    if !is_comparison(op) {
        return Err(RuleError::Broken(RefusalCode::WrongForm));
    }
    joined(
        alloc,
        Type::Bool,
        op,
        checked::Expr::Literal(Literal::Nil),
        channel.term,
    )
}

fn nil_right(alloc: Global, op: BinaryOp, left: Operand) -> Result<Operand, RuleError>
    ensures { Agrees meaning_of result
        (spec.nil_compared op (spec.as_channel (meaning_of left)) (λ q. terms.Binary op q (terms.Literally terms.Nil))) }
{
    let channel = as_channel(left)?;
    if !is_comparison(op) {
        return Err(RuleError::Broken(RefusalCode::WrongForm));
    }
    joined(
        alloc,
        Type::Bool,
        op,
        channel.term,
        checked::Expr::Literal(Literal::Nil),
    )
}

/// A binary operator on values.
#[tactic(auto, unfolding(crate::specs::Finding::binary_value))]
pub fn binary(
    alloc: Global,
    op: BinaryOp,
    left: Operand,
    right: Operand,
) -> Result<Operand, RuleError>
    ensures { Agrees meaning_of result (spec.binary_value op (meaning_of left) (meaning_of right)) }
{
    match (left, right) {
        (Operand::Constant(a), Operand::Constant(b)) => match gr_const::binary(op, a, b) {
            Ok(constant) => Ok(Operand::Constant(constant)),
            Err(error) => Err(RuleError::Broken(code_of(error))),
        },
        (Operand::Nil, right) => nil_left(alloc, op, right),
        (left, Operand::Nil) => nil_right(alloc, op, left),
        (left, right) => binary_made(alloc, op, left, right),
    }
}
