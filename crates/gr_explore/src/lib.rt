//! All schedules of a program, explored in place: a machine steps forward and back until none is left that is new, or one comes
//! to the aim.
#![tactic(auto)]

mod alone;
pub mod blaming;
mod book;
mod changed;
mod explorer;
mod keys;
mod leaking;
mod looking;
mod moving;
mod names;
mod offers;
mod pages;
pub mod searching;
mod stepping;

pub use blaming::{Blame, Span, find_blame};
pub use gr_schedules::Aim;
pub use gr_search::search::{Answer, Limits};
pub use gr_search::searched::Limit;
pub use gr_search::shortest::{Shortest, Unfinished};
pub use searching::{explore_for, explore_shortest};
