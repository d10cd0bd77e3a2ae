//! JSON of what a session tells: replies, and what steps were.
#![tactic(auto)]

pub mod facts;
pub mod line;
pub mod parts;
pub mod replies;
mod stacks;

pub use line::write_line;
pub use parts::Told;
