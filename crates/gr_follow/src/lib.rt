//! A machine that goes to where the first steps of another machine of its program lead.
#![tactic(auto)]

pub mod following;
mod moving;

pub use following::{follow, follow_on};
