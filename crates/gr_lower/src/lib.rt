//! From checked programs to code.
#![tactic(auto)]

mod acts;
mod choices;
mod expressions;
mod frames;
mod heads;
pub mod laws;
mod lowering;
mod nesting;
mod parts;
mod performing;
mod placing;
mod sizes;
mod sizing;
mod statements;

pub use crate::lowering::lower;
