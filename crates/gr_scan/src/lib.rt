//! The tokens of a Go text.
#![tactic(auto)]

pub mod marks;
mod number;
pub mod piece;
pub mod position;
mod quoted;
pub mod scan;
pub mod token;
