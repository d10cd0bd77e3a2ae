//! The log of the steps that were taken, and what depends on what in it.
#![tactic(auto)]

pub mod assigning;
mod conflicts;
mod dependence;
pub mod history;
pub mod log;
pub mod middle;
mod named;
pub mod order;
mod turning;

pub use log::Log;
pub use order::OrderRefused;
