//! Values of expressions, and places that they are given to.
ghost use Rattle.std.specs.Prelude.{◌≡◌};
ghost use Rattle.gr_program.specs.TypeViews.{ty_of};
ghost use Rattle.gr_program.specs.Views.{expr_of};
ghost use Rattle.gr_exprs.specs.Finding as spec;
ghost use Rattle.gr_typing.specs.Values.{may_be_size, Made};
ghost use Rattle.gr_exprs.specs.Checking.{Agrees, meaning_of, typed_of, channel_of};
ghost use Rattle.gr_exprs.specs.Codes.{Tells, value_code};
ghost use Rattle.gr_exprs.specs.declared.refusal.RefusalCode.TheVariants as codes;

use crate::refusal::{RefusalCode, RuleError};
use crate::types::is_assignable;
use gr_const::{Constant, whole};
use gr_program as checked;
use gr_program::{Literal, Type};
use gr_tree::Direction;

/// What an expression is.
#[derive(Drop)]
pub enum Operand {
    /// A constant; its type is that of the place it is given to.
    Constant(Constant),
    Nil,
    /// A value of a type that is known when the program runs.
    Made(Type, checked::Expr),
}

/// A channel that an expression gives.
#[derive(Drop)]
pub struct Channel {
    pub direction: Direction,
    /// The elements' type.
    pub element: Type,
    pub term: checked::Expr,
}

fn typed_constant(constant: Constant) -> Result<(Type, checked::Expr), RuleError>
    ensures value { Agrees typed_of result (spec.typed_constant constant) }
    ensures code { Tells result codes.Constant }
{
    match constant {
        Constant::Whole(_) => match whole(constant) {
            Some(n) => Ok((Type::Int, checked::Expr::Literal(Literal::Number(n)))),
            None => Err(RuleError::Broken(RefusalCode::Constant)),
        },
        Constant::Truth(b) => Ok((Type::Bool, checked::Expr::Literal(Literal::Truth(b)))),
    }
}

/// A value with its own type; a whole constant fits `int`, and `nil` has no type.
#[tactic(auto, unfolding(crate::specs::Finding::typed))]
pub fn with_type(value: Operand) -> Result<(Type, checked::Expr), RuleError>
    ensures value { Agrees typed_of result (spec.typed (meaning_of value)) }
    ensures code { Tells result (value_code (meaning_of value) (spec.typed (meaning_of value))) }
{
    match value {
        Operand::Constant(constant) => typed_constant(constant),
        Operand::Nil => Err(RuleError::Broken(RefusalCode::WrongForm)),
        Operand::Made(value_type, term) => Ok((value_type, term)),
    }
}

fn given_nil(target: &Type) -> Result<checked::Expr, RuleError>
    ensures value { Agrees expr_of result (spec.given_nil (ty_of target.now)) }
    ensures code { Tells result codes.WrongForm }
{
    match target {
        Type::Chan(_, _) => Ok(checked::Expr::Literal(Literal::Nil)),
        _ => Err(RuleError::Broken(RefusalCode::WrongForm)),
    }
}

fn given_typed(target: &Type, own: &Type, term: checked::Expr) -> Result<checked::Expr, RuleError>
    ensures value { Agrees expr_of result (spec.given_typed (ty_of target.now) (ty_of own.now, expr_of term)) }
    ensures code { Tells result codes.WrongForm }
{
    if is_assignable(own, target) {
        Ok(term)
    } else {
        Err(RuleError::Broken(RefusalCode::WrongForm))
    }
}

/// A value that is given to a place of a type.
#[tactic(auto, unfolding(crate::specs::Finding::given))]
pub fn as_type(target: &Type, value: Operand) -> Result<checked::Expr, RuleError>
    ensures value { Agrees expr_of result (spec.given (ty_of target.now) (meaning_of value)) }
    ensures code { Tells result (value_code (meaning_of value) (spec.typed (meaning_of value))) }
{
    match value {
        Operand::Nil => given_nil(target),
        value => {
            let (own, term) = with_type(value)?;
            given_typed(target, &own, term)
        }
    }
}

/// A value whose own type is `kind`, which is `int` or `bool`.
pub fn of_kind(kind: &Type, value: Operand) -> Result<checked::Expr, RuleError>
    ensures value { Agrees expr_of result (spec.of_kind (ty_of kind.now) (meaning_of value)) }
    ensures code { Tells result (value_code (meaning_of value) (spec.typed (meaning_of value))) }
{
    let (own, term) = with_type(value)?;
    match (kind, &own) {
        (Type::Int, Type::Int) | (Type::Bool, Type::Bool) => Ok(term),
        _ => Err(RuleError::Broken(RefusalCode::WrongForm)),
    }
}

/// Whether a value may be a size: no negative constant is.
fn may_be_size(value: &Operand) -> bool
    ensures { result ≡ may_be_size (meaning_of value.now) }
{
    match value {
        Operand::Constant(Constant::Whole(n)) => *n >= 0,
        _ => true,
    }
}

/// A value as the size of a channel's buffer.
pub fn size(value: Operand) -> Result<checked::Expr, RuleError>
    ensures { Agrees expr_of result (spec.size_of (meaning_of value)) }
{
    if !may_be_size(&value) {
        return Err(RuleError::Broken(RefusalCode::Constant));
    }
    of_kind(&Type::Int, value)
}

fn made_channel(value_type: Type, term: checked::Expr) -> Result<Channel, RuleError>
    ensures value { Agrees channel_of result (spec.as_channel (Made (ty_of value_type) (expr_of term))) }
    ensures code { Tells result codes.WrongForm }
{
    match value_type {
        Type::Chan(direction, element) => Ok(Channel {
            direction,
            element: Box::into_inner(element),
            term,
        }),
        _ => Err(RuleError::Broken(RefusalCode::WrongForm)),
    }
}

/// A value as a channel.
pub fn as_channel(value: Operand) -> Result<Channel, RuleError>
    ensures value { Agrees channel_of result (spec.as_channel (meaning_of value)) }
    ensures code { Tells result codes.WrongForm }
{
    match value {
        Operand::Made(value_type, term) => made_channel(value_type, term),
        Operand::Constant(_) | Operand::Nil => Err(RuleError::Broken(RefusalCode::WrongForm)),
    }
}
