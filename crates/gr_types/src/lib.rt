//! From the tree of a Go file to its checked program.
#![tactic(auto)]

mod acts;
mod assigning;
mod bodies;
pub mod check;
mod communications;
mod context;
mod endings;
mod expression_statements;
mod forms;
mod headings;
mod labels;
pub mod laws;
mod outlines;
mod parameters;
pub mod refusal;
mod selects;
mod statements;
