//! Trees of Go files, as a parser makes them.
#![tactic(auto)]

mod expr;
mod file;
mod stmt;

pub use crate::expr::{BinaryOp, Direction, Expr, TypeTree, UnaryOp};
pub use crate::file::{File, Func, Group};
pub use crate::stmt::{
    Action, Clause, Communication, ForHead, Header, IfHead, RangeTarget, Simple, Stmt,
};

/// The most levels that a tree may have.
pub const HEIGHT_LIMIT: usize = 200;
