//! Types.
ghost use Rattle.std.specs.Prelude.{◌≡◌, IfOk};
ghost use Rattle.gr_tree.specs.Statements.{optional};
ghost use Rattle.gr_program.specs.Types as spec;
ghost use Rattle.gr_program.specs.TypeViews.{ty_of};

use gr_tree::Direction;
use std::alloc::{AllocError, Global};

/// A type of a value.
#[derive(Drop)]
pub enum Type {
    /// `int`, of 64 bits.
    Int,
    Bool,
    /// `struct{}`
    Unit,
    /// A channel: what may be done with it, and its elements' type.
    Chan(Direction, Box<Type>),
}

/// A copy of a type.
pub fn copy(alloc: Global, original: &Type) -> Result<Type, AllocError>
    ensures { IfOk result (λ t. ty_of t ≡ ty_of original.now) }
{
    Ok(match original {
        Type::Int => Type::Int,
        Type::Bool => Type::Bool,
        Type::Unit => Type::Unit,
        Type::Chan(direction, element) => channel(alloc, *direction, copy(alloc, element)?)?,
    })
}

/// A copy of a type, where there is one.
pub fn copy_optional(alloc: Global, original: &Option<Type>) -> Result<Option<Type>, AllocError>
    ensures { IfOk result (λ o. optional ty_of o ≡ optional ty_of original.now) }
{
    match original {
        Some(own) => Ok(Some(copy(alloc, own)?)),
        None => Ok(None),
    }
}

/// The type of channels with this direction and elements.
pub fn channel(alloc: Global, direction: Direction, element: Type) -> Result<Type, AllocError>
    ensures { IfOk result (λ t. ty_of t ≡ spec.ChanType direction (ty_of element)) }
{
    Ok(Type::Chan(direction, Box::new(alloc, element)?))
}

fn is_same_direction(left: Direction, right: Direction) -> bool
    ensures { result ≡ spec.same_direction left right }
{
    left == right
}

/// Whether two types are identical (Go: Type identity).
pub fn is_same(left: &Type, right: &Type) -> bool
    ensures { result ≡ spec.same_type (ty_of left.now) (ty_of right.now) }
{
    match (left, right) {
        (Type::Int, Type::Int) | (Type::Bool, Type::Bool) | (Type::Unit, Type::Unit) => true,
        (Type::Chan(a, element), Type::Chan(b, other)) => {
            is_same_direction(*a, *b) && is_same(element, other)
        }
        _ => false,
    }
}
