//! Marks for places of a log, set by touches.

ghost use Rattle.std.specs.Prelude.{◌≡◌, ◌<◌, ◌≤◌, ◌+◌, ◌||◌, ◌&&◌, ◌==◌, ℕ, List, length, slice_index_or, false, true, All};
ghost use Rattle.gr_touches.specs.Marks.{takes, is_beyond, IsAscending, hits, InReach, Marks};

use crate::touch::Touch;

/// A side of a place of the log.
#[derive(Clone, Copy)]
pub enum LogSide {
    Later,
    Earlier,
}

/// Where marks begin, and which touches are in reach: those on one side of a place of the log.
#[derive(Clone, Copy)]
pub struct Origin {
    pub side: LogSide,
    pub place: usize,
    /// The place of the first mark.
    pub base: usize,
}

impl Origin {
    /// The later side of a place, with the first mark at another.
    pub fn later(place: usize, base: usize) -> Origin
        ensures { result ≡ record { side = LogSide.Later; place = place; base = base } }
    {
        Origin {
            side: LogSide::Later,
            place,
            base,
        }
    }

    /// The earlier side of a place, with the first mark at the beginning of the log.
    pub fn earlier(place: usize) -> Origin
        ensures { result ≡ record { side = LogSide.Earlier; place = place; base = 0 } }
    {
        Origin {
            side: LogSide::Earlier,
            place,
            base: 0,
        }
    }
}

/// Which touches of an object are wanted.
#[derive(Clone, Copy)]
pub enum Wanted {
    All,
    /// Those that wrote it.
    Writes,
}

impl Wanted {
    /// Whether a touch is wanted.
    fn takes(self, touch: Touch) -> bool
        ensures { result ≡ takes self touch.writes }
    {
        match self {
            Wanted::All => true,
            Wanted::Writes => touch.writes(),
        }
    }
}

/// Sets the mark of a touch, if it is wanted.
fn mark(marks: &mut [bool], base: usize, touch: Touch, wanted: Wanted)
    requires from { base ≤ touch.place }
    requires below { touch.place < base + length marks.old }
    ensures { (j : ℕ) → j < length marks.old
        → slice_index_or marks.new j false
        ≡ (slice_index_or marks.old j false || (takes wanted touch.writes && (touch.place == base + j))) }
{
    if wanted.takes(touch) {
        marks[touch.place() as usize - base] = true;
    }
}

/// Sets the marks of the wanted touches later than a place.
fn mark_later(marks: &mut [bool], origin: Origin, touches: &[Touch], wanted: Wanted)
    requires later { origin.side ≡ LogSide.Later }
    requires ascending { IsAscending 0 touches.now }
    requires reach { InReach origin (length marks.old) touches.now }
    ensures { Marks origin (hits wanted touches.now) marks.old marks.new }
{
    let mut left = touches.len();
    while left > 0 {
        left -= 1;
        let touch = touches[left];
        let place = touch.place() as usize;
        if place <= origin.place {
            return;
        }
        mark(marks, origin.base, touch, wanted);
    }
}

/// Sets the marks of the wanted touches earlier than a place.
fn mark_earlier(marks: &mut [bool], origin: Origin, touches: &[Touch], wanted: Wanted)
    requires earlier { origin.side ≡ LogSide.Earlier }
    requires ascending { IsAscending 0 touches.now }
    requires reach { InReach origin (length marks.old) touches.now }
    ensures { Marks origin (hits wanted touches.now) marks.old marks.new }
{
    for i in 0..touches.len() {
        let touch = touches[i];
        let place = touch.place() as usize;
        if place >= origin.place {
            return;
        }
        mark(marks, origin.base, touch, wanted);
    }
}

/// Sets the marks of the wanted touches on one side of a place. The time is that of the touches on that side.
pub(crate) fn mark_list(marks: &mut [bool], origin: Origin, touches: &[Touch], wanted: Wanted)
    requires ascending { IsAscending 0 touches.now }
    requires reach { InReach origin (length marks.old) touches.now }
    ensures { Marks origin (hits wanted touches.now) marks.old marks.new }
{
    match origin.side {
        LogSide::Later => mark_later(marks, origin, touches, wanted),
        LogSide::Earlier => mark_earlier(marks, origin, touches, wanted),
    }
}
