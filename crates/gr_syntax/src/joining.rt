//! Joining operands by their operator.

ghost use Rattle.std.specs.Prelude.{◌≡◌, ◌<◌, ◌≤◌, ◌^◌, IfOk, length};
ghost use Rattle.gr_tree.specs.Exprs.{tree_of};
ghost use Rattle.gr_syntax.specs.Grammar.{level};
ghost use Rattle.gr_syntax.specs.Reading.{joined};
ghost use Rattle.gr_syntax.specs.Views.{found_of};

use crate::look::{Found, abandon, boxed};
use gr_tree::{BinaryOp, Expr};
use std::alloc::{AllocError, Global};

/// How strongly an operator binds (Go: Operator precedence).
pub(crate) fn precedence(op: BinaryOp) -> u32
    ensures value { result ≡ level op }
    ensures low { result ≤ 5 }
{
    match op {
        BinaryOp::Multiply
        | BinaryOp::Divide
        | BinaryOp::Remainder
        | BinaryOp::ShiftLeft
        | BinaryOp::ShiftRight
        | BinaryOp::BitAnd
        | BinaryOp::AndNot => 5,
        BinaryOp::Add | BinaryOp::Subtract | BinaryOp::BitOr | BinaryOp::BitXor => 4,
        BinaryOp::Equal
        | BinaryOp::NotEqual
        | BinaryOp::Less
        | BinaryOp::LessEqual
        | BinaryOp::Greater
        | BinaryOp::GreaterEqual => 3,
        BinaryOp::LogicalAnd => 2,
        BinaryOp::LogicalOr => 1,
    }
}

/// Two operands joined by this operator.
pub(crate) fn join<'a, 't>(
    alloc: Global,
    op: BinaryOp,
    left: Found<'a, 't, Expr>,
    right: Found<'a, 't, Expr>,
) -> Result<Found<'a, 't, Expr>, AllocError>
    requires left { left.height < 2 ^ 31 }
    requires right { right.height < 2 ^ 31 }
    ensures joined { IfOk result (λ f. found_of tree_of f
        ≡ joined op (found_of tree_of left.entry) (found_of tree_of right.entry)) }
    ensures rest { IfOk result (λ f. length f.rest.now ≡ length right.entry.rest.now) }
{
    let height = left.height.max(right.height) + 1;
    let rest = right.rest;
    let Ok(left) = boxed(alloc, left.value) else {
        return abandon(right, AllocError);
    };
    let Ok(right) = boxed(alloc, right.value) else {
        return abandon(left, AllocError);
    };
    Ok(Found {
        value: Expr::Binary(op, left, right),
        height,
        rest,
    })
}
