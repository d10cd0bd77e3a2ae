//! What the objects of a running program contain.

use gr_base::Fault;
use gr_tables::channels::Channels;
use gr_tables::goroutines::Goroutines;
use std::alloc::Global;

/// Whether a program runs.
#[derive(Clone, Copy, PartialEq, Eq)]
pub enum Run {
    Live,
    Ended,
    /// A fault stopped it.
    Faulted(Fault),
}

/// What the objects of a running program contain.
pub struct Objects {
    pub run: Run,
    pub goroutines: Goroutines,
    pub channels: Channels,
    pub alloc: Global,
}

// Written out, so that crates above call it and need not prove it again.
impl Drop for Objects {
    fn drop(self) {
        let Objects {
            run: _,
            goroutines: _,
            channels: _,
            alloc: _,
        } = self;
    }
}
