//! One session, shared by desks and workers on threads.
#![tactic(auto)]

mod desk;
mod finishing;
mod locked;
mod shared;
mod tie;
mod views;
mod work;

pub use desk::{Asked, Call, Desk, Worker};
pub use finishing::{Finished, Unfinished, finish};
pub use gr_session::{
    AskRefused, Batch, Command, DeskId, EnrolRefused, Gate, Open, OpenError, Position, Receipt,
    Session, run_batch,
};
pub use shared::{Opened, Shared};
pub use views::Room;
pub use work::worker;
