//! What the store of a running program is made of: its channels by name and its goroutines by name and number, whose changes can
//! be taken back.
#![tactic(auto)]

pub mod channel_laws;
pub mod channels;
pub mod goroutines;

pub use gr_goros::{GoUndo, KeptUndo, LocalKind, Spot};
