//! A session: a program under the debugger, and the journal of what was asked.
#![tactic(auto)]

mod breakpoints;
mod carry;
mod committing;
mod debuggee;
mod dependence;
mod granting;
pub mod journal;
pub mod laws;
pub mod leasing;
mod naming;
pub mod open;
mod refusing;
mod rollback;
mod running;
pub mod session;
mod stepping;
mod targets;
pub mod trips;

pub use gr_command::{Command, Refusal, Reply};
pub use gr_rollback::Machine;
pub use gr_scan::position::Position;
pub use journal::{AskRefused, Asked, DeskId, EnrolRefused, Entry, Memory, Receipt};
pub use leasing::{Batch, Gate, Lease, Open, run_batch};
pub use open::{OpenError, program_of_source};
pub use session::Session;

/// The most entries that a journal keeps.
pub const JOURNAL_LIMIT: usize = 2_000_000;

/// For how many entries a journal makes room at once.
pub const JOURNAL_GROWTH: usize = 64;

/// The most steps of a batch.
pub const BATCH_LIMIT: usize = 256;

/// The most askers of a session.
pub const ASKER_LIMIT: u32 = 1_000;
