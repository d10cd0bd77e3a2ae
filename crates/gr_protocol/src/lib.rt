//! The protocol of clients: commands and queries, a line each, and a line of JSON for each answer.
#![tactic(auto)]

pub mod about;
pub mod answering;
pub mod client;
mod earlier;
pub mod serving;
mod telling;

pub use answering::answer_line;
pub use client::Client;
pub use serving::serve;
