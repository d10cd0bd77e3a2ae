//! Channels: a gate with two waiting lists, and a buffer with two ends, whose changes can be undone.
#![tactic(auto)]

pub mod changes;
pub mod channel;
mod queue;
pub mod waiter;

pub use changes::{ChanUndo, Offered, Taken, need_of};
pub use channel::Channel;
pub use waiter::Waiter;

pub mod laws;
