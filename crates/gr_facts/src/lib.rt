//! What each step was: facts of the steps that are kept, by their records.
#![tactic(auto)]

mod asking;
mod giving;
pub mod moving;
mod reaching;
pub mod sources;
mod standing;
pub mod telling;
mod values;

pub use asking::{about, about_at};
pub use moving::{Moved, moves_from, moves_named};
pub use sources::{Source, law_of_sources};
pub use telling::Facts;
