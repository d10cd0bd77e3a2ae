//! Surveys of a program: whether some schedule ends badly, from where the commands of a script leave it.
#![tactic(auto)]

pub mod bad_end;
pub mod blaming;
pub mod laws;
mod opening;
pub mod script;
pub mod surveying;
mod writing;

pub use bad_end::{BadEnd, BadEnds};
pub use blaming::{Blamed, blame};
pub use gr_explore::{Limit, Limits, Span, Unfinished};
pub use opening::SurveyFault;
pub use surveying::{Schedule, Surveyed, survey};
