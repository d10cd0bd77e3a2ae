//! Exact constants: the values of the parts of constant expressions, and the operators on them.
#![tactic(auto)]

mod bits;
mod constant;
pub mod laws;
mod wholes;

pub use crate::constant::{ConstError, Constant, binary, number, unary, whole};
