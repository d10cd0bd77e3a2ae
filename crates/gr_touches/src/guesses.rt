//! Guesses of the lane of an object.

ghost use Rattle.std.specs.Prelude.{◌<◌};

use crate::object_ref::ObjectRef;
use gr_base::GoName;
use std::array;
use std::cell::Cell;

/// How many guesses are kept: 2 KiB of them, and a power of two, so that a class is a kind and the low bits of a count.
const GUESSES: usize = 256;

/// How many classes there are for each count. There are fewer kinds of objects.
const KINDS: u32 = 8;

/// For each class of objects, the number of the lane of the object that was found last.
#[derive(Drop)]
pub(crate) struct Guesses {
    numbers: [Cell<usize>; GUESSES],
}

/// The class of the objects of a kind with a count. Few counts have a class each.
fn class(kind: u32, count: u32) -> usize
    ensures { result < 256 }
{
    count.wrapping_mul(KINDS).wrapping_add(kind) as usize % GUESSES
}

/// The class of a goroutine.
fn class_of_go(go: &GoName) -> usize
    ensures { result < 256 }
{
    match go.counts().last() {
        Some(count) => class(1, *count),
        None => 1,
    }
}

/// The class of an object.
fn class_of(object: &ObjectRef<'_>) -> usize
    ensures { result < 256 }
{
    match object {
        ObjectRef::Run => 0,
        ObjectRef::Go(go) => class_of_go(go),
        ObjectRef::Gate(channel) => class(2, channel.n),
        ObjectRef::Tail(channel) => class(3, channel.n),
        ObjectRef::Head(channel) => class(4, channel.n),
        ObjectRef::Slot(channel, place) => class(
            5,
            channel.n.wrapping_mul(KINDS).wrapping_add(*place),
        ),
    }
}

impl Guesses {
    /// No object was found yet.
    pub(crate) fn new() -> Guesses {
        Guesses {
            numbers: array::from_fn(|_| Cell::new(0)),
        }
    }

    /// A guess of the number of the lane of an object.
    pub(crate) fn of(&self, object: &ObjectRef<'_>) -> usize {
        self.numbers[class_of(object)].get()
    }

    /// A guess of the number of the lane of a goroutine.
    pub(crate) fn of_go(&self, go: &GoName) -> usize {
        self.numbers[class_of_go(go)].get()
    }

    /// Keeps the number of the lane of an object.
    pub(crate) fn keep(&self, object: &ObjectRef<'_>, number: usize) {
        self.numbers[class_of(object)].set(number);
    }
}
