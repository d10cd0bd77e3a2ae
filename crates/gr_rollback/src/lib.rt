//! A program that runs, with its steps: taken, taken back with their consequences, done again, and put in another order.
#![tactic(auto)]

mod asking;
mod back;
mod bringing;
mod course;
mod keeping;
pub mod laws;
mod leasing;
pub mod machine;
mod readiness;
mod redo;
pub mod refusal;
mod reorder;
pub mod stepped;

pub use gr_depend::assigning::law_of_assignments;
pub use gr_depend::history::law_of_history;
pub use gr_step::{LentCopy, LocalRun, Run, StepRefused};
pub use machine::Machine;
pub use refusal::BackRefused;
pub use stepped::Stepped;

/// The most steps that a log keeps.
pub const LOG_LIMIT: usize = 1_000_000;
