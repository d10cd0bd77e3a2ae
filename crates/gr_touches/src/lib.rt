//! Lists of touches by object: the touches of a step are added and taken away, and the steps that conflict with one are marked.
#![tactic(auto)]

mod channel_parts;
mod forgetting;
mod guesses;
mod lane;
pub mod lanes;
pub mod marks;
mod noting;
pub mod object_ref;
pub mod objects;
mod reached;
pub mod touch;
mod walking;

pub use lanes::Lanes;
pub use marks::{LogSide, Origin, Wanted};
pub use object_ref::ObjectRef;
pub use objects::{TouchedObjects, reads, writes};
pub use touch::Touch;
