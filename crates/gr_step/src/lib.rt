//! The store of a running program: its state, whose steps are those of the rules, and how they are taken back.
#![tactic(auto)]

mod allowing;
mod awaiting;
mod beyond;
mod channels_named;
mod choosing;
mod clauses;
mod closing;
mod communicating;
mod crossing;
mod ending;
mod faults;
mod guard;
pub mod leasing;
mod local;
mod making;
pub mod objects;
mod partners;
mod picking;
mod queues;
mod receiving;
pub mod refusal;
mod selecting;
mod sending;
mod sides;
mod stepping;
pub mod store;
mod touching;
mod turn;
mod unstepping;
mod usual;
mod waiting;
mod waking;

pub use gr_goros::{Frame, GoUndo, Goroutine, Need, Status};
pub use gr_record::Record;
pub use gr_record::record::{Beyond, Change, Exchange, Form};
pub use leasing::{LentCopy, LocalRun};
pub use objects::Run;
pub use refusal::StepRefused;
pub use store::Store;
