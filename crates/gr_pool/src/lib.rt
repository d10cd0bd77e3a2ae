//! The ready goroutines of a run, in the order of their names.
#![tactic(auto)]

mod places;
pub mod pool;

pub use pool::Pool;
