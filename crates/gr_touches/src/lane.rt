//! The touches of one object.

ghost use Rattle.std.specs.Prelude.{◌≡◌, ◌≤◌, ◌<◌, ◌+◌, ◌^◌, [], ◌∷◌, ◌++◌, vec_len, vec_capacity, OnOk, OnErr, IsOk, true};
ghost use Rattle.gr_touches.specs.Touches.{stretch, without_last};
ghost use Rattle.gr_touches.specs.Room.{size_of};

use crate::touch::Touch;
use gr_base::NoMemory;
use std::alloc::Global;
use std::cell::Cell;
use std::marker::Model;

/// Adds the touches of `count` consecutive steps, the first of them at `place`. There is room for them.
pub(crate) fn extend(touches: &mut Vec<Touch>, place: u32, count: usize, writes: bool)
    requires room { vec_len touches.old + count ≤ vec_capacity touches.old }
    requires places { place + count ≤ 2 ^ 31 }
    ensures { touches.new.items ≡ touches.old.items ++ stretch writes place count }
{
    for i in 0..count {
        touches.push_reserved(Touch::new(place + i as u32, writes));
    }
}

/// The touches of an object, in the order of the log.
pub(crate) struct Lane {
    touches: Vec<Touch>,
    /// The number of the lane that was asked for after this one the last time: a guess of the next one.
    next: Cell<usize>,
}

// Written out, so that crates above call it and need not prove it again.
impl Drop for Lane {
    fn drop(self) {
        let Lane {
            touches: _,
            next: _,
        } = self;
    }
}

impl Model for Lane {
    ghost use Rattle.std.specs.Prelude.{List, ℕ, ◌-◌, vec_len, vec_capacity};
    ghost use Rattle.gr_touches.specs.declared.touch.Touch.{Touch};

    ghost Value = { List Touch × ℕ };

    ghost view = { λ lane. (lane.touches.items, vec_capacity lane.touches - vec_len lane.touches) };
}

impl Lane {
    /// No touch. It takes no memory.
    pub(crate) fn new(alloc: Global) -> Lane
        ensures { result.0 ≡ [] }
    {
        Lane {
            touches: Vec::new(alloc),
            next: Cell::new(0),
        }
    }

    pub(crate) fn as_slice(&self) -> &[Touch]
        ensures { result.now ≡ self.now.0 }
    {
        self.touches.as_slice()
    }

    /// Adds a touch. Refused, the touches are as before. It takes no memory where there is room.
    #[inline(always)]
    pub(crate) fn push(&mut self, touch: Touch) -> Result<(), NoMemory>
        ensures ok { OnOk result (self.new.0 ≡ self.old.0 ++ touch ∷ []) }
        ensures err { OnErr result (self.new.0 ≡ self.old.0) }
        ensures succeeds { 0 < self.old.1 → IsOk result }
        ensures room { size_of self.old ≤ size_of self.new }
    {
        self.touches.reserve(1)?;
        self.touches.push_reserved(touch);
        Ok(())
    }

    /// Adds the touches of `count` consecutive steps that wrote the object, the first of them at `place`. Refused, the
    /// touches are as before. It takes no memory where there is room.
    pub(crate) fn extend(&mut self, place: u32, count: usize) -> Result<(), NoMemory>
        requires { place + count ≤ 2 ^ 31 }
        ensures ok { OnOk result (self.new.0 ≡ self.old.0 ++ stretch true place count) }
        ensures err { OnErr result (self.new.0 ≡ self.old.0) }
        ensures succeeds { count ≤ self.old.1 → IsOk result }
    {
        self.touches.reserve(count)?;
        extend(&mut self.touches, place, count, true);
        Ok(())
    }

    /// Takes the last touch away, if there is one. It takes no memory.
    pub(crate) fn pop(&mut self)
        ensures touches { self.new.0 ≡ without_last self.old.0 }
        ensures room { size_of self.old ≤ size_of self.new }
    {
        let _ = self.touches.pop();
    }

    pub(crate) fn next(&self) -> usize {
        self.next.get()
    }

    pub(crate) fn guess_next(&self, number: usize) {
        self.next.set(number);
    }
}
