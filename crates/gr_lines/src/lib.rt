//! Lines of a reader and bytes for a writer, with a count of how often each of these devices failed.
#![tactic(auto)]

pub mod counted;
