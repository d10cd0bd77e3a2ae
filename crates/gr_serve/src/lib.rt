//! A session served to one client: commands from a reader, replies to a writer, and faults as a user reads them.
#![tactic(auto)]

pub mod client;
pub mod debug;
pub mod report;
pub mod stream;
