//! The types that are written, and what may be done with values of a type.
ghost use Rattle.std.specs.Prelude.{◌≡◌, IfOk};
ghost use Rattle.gr_tree.specs.Exprs as trees;
ghost use Rattle.gr_tree.specs.Statements.{optional};
ghost use Rattle.gr_typing.specs.Types as spec;
ghost use Rattle.gr_program.specs.Programs.{zero_of};
ghost use Rattle.gr_program.specs.TypeViews.{ty_of, literal_of};

use gr_program::types::{channel, is_same};
use gr_program::{Literal, Type};
use gr_tree::{Direction, TypeTree};
use std::alloc::{AllocError, Global};

/// Whether a value of the first type may be given to a place of the second (Go: Assignability).
pub fn is_assignable(from: &Type, to: &Type) -> bool
    ensures { result ≡ spec.assignable (ty_of from.now) (ty_of to.now) }
{
    match (from, to) {
        (Type::Chan(Direction::Both, element), Type::Chan(_, other)) => is_same(element, other),
        _ => is_same(from, to),
    }
}

/// The type with this name.
fn named(name: &[u8]) -> Option<Type>
    ensures { optional ty_of result ≡ spec.type_written (trees.TypeName name.now) }
{
    if name == b"int".as_slice() {
        Some(Type::Int)
    } else if name == b"bool".as_slice() {
        Some(Type::Bool)
    } else {
        None
    }
}

/// The type that is written; `None` where a name is no type.
pub fn written(alloc: Global, tree: &TypeTree) -> Result<Option<Type>, AllocError>
    ensures { IfOk result (λ o. optional ty_of o ≡ spec.type_written (trees.type_of tree.now)) }
{
    Ok(match tree {
        TypeTree::Name(name) => named(name),
        TypeTree::Unit => Some(Type::Unit),
        TypeTree::Chan(direction, element) => match written(alloc, element)? {
            Some(element) => Some(channel(alloc, *direction, element)?),
            None => None,
        },
        TypeTree::Paren(inner) => written(alloc, inner)?,
    })
}

/// Whether values may be sent to a channel of this direction.
pub fn may_send(direction: Direction) -> bool
    ensures { result ≡ spec.may_send direction }
{
    match direction {
        Direction::Receive => false,
        _ => true,
    }
}

/// Whether values may be received from a channel of this direction.
pub fn may_receive(direction: Direction) -> bool
    ensures { result ≡ spec.may_receive direction }
{
    match direction {
        Direction::Send => false,
        _ => true,
    }
}

/// The zero value of a type.
pub fn zero(of: &Type) -> Literal
    ensures { literal_of result ≡ zero_of (ty_of of.now) }
{
    match of {
        Type::Int => Literal::Number(0),
        Type::Bool => Literal::Truth(false),
        Type::Unit => Literal::Empty,
        Type::Chan(_, _) => Literal::Nil,
    }
}

/// What a call of a function takes and gives.
#[derive(Drop)]
pub struct Signature {
    pub name: Vec<u8>,
    /// The parameters' types, in order.
    pub parameters: Vec<Type>,
    pub result: Option<Type>,
}
