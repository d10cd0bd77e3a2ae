//! What a command line asks of the program.

/// The greatest number of workers.
pub const WORKER_LIMIT: u32 = 64;

/// The greatest number of states that a search may be asked to keep.
pub const STATE_LIMIT: u32 = 1_000_000_000;

/// How many states a search keeps at most where nothing else is asked.
pub const USUAL_STATES: u32 = 1_000_000;

/// What a command line asks of the program.
#[derive(Clone, Copy)]
pub enum Settings<'a> {
    /// A session over the program in this file, beside this many workers.
    Debug {
        file: &'a str,
        workers: u32,
    },
    /// Whether the program in this file is accepted, and no more.
    Check {
        file: &'a str,
    },
    /// A session over the program in this file by the protocol of clients.
    Tell {
        file: &'a str,
    },
    /// What a code means.
    Explain {
        code: &'a str,
    },
    /// Whether some schedule of the program in this file ends badly, from where the commands of a script leave it. `leaks` says
    /// whether one that leaks goroutines does. At most so many states are kept.
    Search {
        file: &'a str,
        after: Option<&'a str>,
        leaks: bool,
        states: u32,
    },
    /// Which step of the run of a script is to blame that no schedule ends well any more. At most so many states are kept.
    Blame {
        file: &'a str,
        after: &'a str,
        states: u32,
    },
}
