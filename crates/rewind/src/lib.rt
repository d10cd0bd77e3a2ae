//! The debugger: lines of commands in, lines of replies out.
#![tactic(auto)]

pub mod desk;
pub mod searching;
mod threads;
pub mod workers;

pub use gr_base::print_step;
pub use gr_console::{command_line, explanations, settings, terminal, words};
pub use gr_lines::counted;
pub use gr_serve::{debug, report, stream};
pub use gr_share::{
    Batch, Desk, DeskId, EnrolRefused, Finished, Gate, Open, OpenError, Opened, Position, Receipt,
    Room, Session, Shared, Unfinished, Worker, finish, run_batch, worker,
};
