//! Guesses of the number of a goroutine.

ghost use Rattle.std.specs.Prelude.{◌<◌};

use gr_base::GoName;
use std::array;
use std::cell::Cell;

/// How many guesses are kept: 2 KiB of them, and a power of two, so that a class is the low bits of a count.
const GUESSES: usize = 256;

/// For each last count of a name the number of the goroutine that was found last.
#[derive(Drop)]
pub(super) struct Guesses {
    numbers: [Cell<usize>; GUESSES],
}

/// The class of a name, by its last count. Few counts have a class each.
fn class(name: &GoName) -> usize
    ensures { result < 256 }
{
    match name.counts().last() {
        Some(count) => *count as usize % GUESSES,
        None => 0,
    }
}

impl Guesses {
    /// No goroutine was found yet.
    pub(super) fn new() -> Guesses {
        Guesses {
            numbers: array::from_fn(|_| Cell::new(0)),
        }
    }

    /// A guess of the number of a goroutine.
    pub(super) fn of(&self, name: &GoName) -> usize {
        self.numbers[class(name)].get()
    }

    /// Keeps the number of a goroutine.
    pub(super) fn keep(&self, name: &GoName, number: usize) {
        self.numbers[class(name)].set(number);
    }
}
