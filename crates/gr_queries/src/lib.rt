//! What a session tells of a running program without changing it: how its goroutines and channels stand, what was printed,
//! and which steps are kept.
#![tactic(auto)]

pub mod showing;
pub mod stacking;
pub mod telling;

pub use showing::{chan, next_line, show, text};
pub use stacking::{StackFrame, StackShown, stack};
pub use telling::{console, log};
