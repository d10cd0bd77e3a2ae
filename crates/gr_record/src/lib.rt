//! Records, what they touch, and what kept records are to each other.
#![tactic(auto)]

pub mod few;
pub mod laws;
pub mod listing;
pub mod record;
pub mod slot;

pub use few::Few;
pub use listing::Listing;
pub use record::{Operation, Record};
