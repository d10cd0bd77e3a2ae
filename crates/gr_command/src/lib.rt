//! Commands and replies of a session, as values and as bytes: what may be asked, and what is answered.
#![tactic(auto)]

mod arguments;
mod back;
mod channels;
pub mod command;
pub mod identifier;
pub mod laws;
mod parts;
mod pieces;
pub mod read;
pub mod refusal;
pub mod reply;
pub mod request;
pub mod step_list;
pub mod target;
mod words;
pub mod write;

pub use command::{Command, Line};
pub use identifier::Identifier;
pub use read::read_command;
pub use refusal::Refusal;
pub use reply::{ChannelShown, FrameShown, GoroutineShown, Reply, RunEnd, Status};
pub use request::{Query, Request, View, read_request};
pub use step_list::StepList;
pub use target::Target;
pub use write::write_reply;
