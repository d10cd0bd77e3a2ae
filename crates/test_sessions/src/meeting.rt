//! Where threads wait for each other.

use gr_share::{Gate, Receipt};
use std::sync::atomic::{AtomicU64, Ordering};
use std::thread;
use std::time::{Clock, Duration};

/// Where workers are held, until the other side has come.
#[derive(Clone, Copy)]
pub(crate) enum Hold {
    Nowhere,
    /// Each in its first batch, until the other one is in its own.
    InBatch,
    /// Before a commit, until a desk has taken back.
    BeforeCommit,
}

/// Where threads meet: each side marks that it came, and waits for the other up to 10,000 times, a millisecond each.
#[derive(Drop)]
pub(crate) struct Meeting {
    hold: Hold,
    one: AtomicU64,
    other: AtomicU64,
    missed: AtomicU64,
}

impl Meeting {
    pub(crate) fn new(hold: Hold) -> Meeting {
        Meeting {
            hold,
            one: AtomicU64::new(0),
            other: AtomicU64::new(0),
            missed: AtomicU64::new(0),
        }
    }

    fn wait_for<C: Clock>(&self, clock: &C, mark: &AtomicU64) {
        for _ in 0..10_000u64 {
            if mark.load(Ordering::SeqCst) > 0 {
                return;
            }
            thread::sleep(clock, Duration::from_millis(1));
        }
        self.missed.store(1, Ordering::SeqCst);
    }

    /// Waits until a worker is held.
    pub(crate) fn wait_for_worker<C: Clock>(&self, clock: &C) {
        self.wait_for(clock, &self.one);
    }

    /// Lets the worker go that is held.
    pub(crate) fn let_go(&self) {
        self.other.store(1, Ordering::SeqCst);
    }

    /// Whether both sides came, and neither waited in vain.
    pub(crate) fn was_held(&self) -> bool {
        self.one.load(Ordering::SeqCst) == 1
            && self.other.load(Ordering::SeqCst) == 1
            && self.missed.load(Ordering::SeqCst) == 0
    }
}

/// The gate of a worker that is to be at a meeting.
#[derive(Drop)]
pub(crate) struct Door<'a, C: Clock> {
    pub(crate) clock: &'a C,
    pub(crate) meeting: &'a Meeting,
}

impl<C: Clock> Gate for Door<'_, C> {
    fn in_batch(&self, worker: u32) {
        let Hold::InBatch = self.meeting.hold else {
            return;
        };
        let (mine, other) = if worker == 1 {
            (&self.meeting.one, &self.meeting.other)
        } else {
            (&self.meeting.other, &self.meeting.one)
        };
        if mine.swap(1, Ordering::SeqCst) == 0 {
            self.meeting.wait_for(self.clock, other);
        }
    }

    fn before_commit(&self, _worker: u32) {
        let Hold::BeforeCommit = self.meeting.hold else {
            return;
        };
        self.meeting.one.store(1, Ordering::SeqCst);
        self.meeting.wait_for(self.clock, &self.meeting.other);
    }

    fn after_commit(&self, _worker: u32, _receipt: &Receipt) {}
}
