//! What an expression is, where variables and functions are in scope: its type and its term, or the rule that it breaks.
#![tactic(auto)]

pub mod bytes;
pub mod calls;
pub mod expressions;
pub mod functions;
pub mod names;
pub mod operands;
pub mod operators;
pub mod refusal;
pub mod scope;
pub mod types;
