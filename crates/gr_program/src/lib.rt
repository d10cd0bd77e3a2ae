//! Checked programs: names are resolved to numbers, constants to their values; parentheses and labels are gone.
#![tactic(auto)]

mod act_equality;
mod equality;
mod expr_equality;
pub mod forms;
pub mod laws;
pub mod order;
pub mod program;
mod stmt_equality;
pub mod types;

pub use crate::program::{
    Act, Case, Expr, Function, Literal, Opening, Parameter, Printed, Program, Stmt, Variable,
};
pub use crate::types::Type;
