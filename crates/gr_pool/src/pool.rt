//! The pool of ready goroutines.

ghost use Rattle.std.specs.Prelude.{◌≡◌, ◌∷◌, ◌++◌, [], length, true, option_copied, slice_get, if◌then◌else◌, ◌↔◌, IsTrue, OnOk};
ghost use Rattle.std.specs.Prelude.{OnErr, IsOk};
ghost use Rattle.gr_pool.specs.Goroutines.{is_among, IsInOrder, with_name, without_name, next_name};

use crate::places::{known_place, next_place, place_of, stands_at};
use gr_base::{GoName, NoMemory};
use indexmap::IndexSet;
use std::alloc::Global;
use std::cell::Cell;
use std::marker::Model;

/// Goroutines, each known from a time on, and at each time ready or not. The ready ones stand in the order of their names.
pub struct Pool {
    alloc: Global,
    known: IndexSet<GoName>,
    /// The places of the ready names among the known ones, in the order of the names.
    ready: Vec<usize>,
    /// Where the last answer of `next_after` stood among the ready ones: a guess of where its next question begins.
    last: Cell<usize>,
    /// Where the name that was made unready last stands among the known ones: a guess of the next that is made ready.
    gone: Cell<usize>,
}

// Written out, so that crates above call it and need not prove it again.
impl Drop for Pool {
    fn drop(self) {
        let Pool {
            alloc: _,
            known: _,
            ready: _,
            last: _,
            gone: _,
        } = self;
    }
}

impl Model for Pool {
    ghost use Rattle.std.specs.Prelude.{◌<◌, ◌≤◌, All, length};
    ghost use Rattle.std.specs.Vec.{vec_capacity};
    ghost use Rattle.gr_pool.specs.Goroutines.{Goroutines, IsInOrder, names_at};

    ghost Value = { Goroutines };

    ghost view = { λ p. record { known = p.known.keys; ready = names_at p.known.keys p.ready.items } };

    ghost invariant = { λ p. All (λ place. place < length p.known.keys) p.ready.items
        × IsInOrder (names_at p.known.keys p.ready.items) × (length p.known.keys ≤ vec_capacity p.ready) };
}

impl Pool {
    /// A pool that knows no goroutine. It takes no memory.
    pub fn new(alloc: Global) -> Pool
        ensures { result ≡ record { known = []; ready = [] } }
    {
        Pool {
            alloc,
            known: IndexSet::new(alloc),
            ready: Vec::new(alloc),
            last: Cell::new(0),
            gone: Cell::new(0),
        }
    }

    /// Makes a name known, and makes room for it among the ready ones. A name that is already known takes no memory. Refused,
    /// nothing has changed.
    pub fn know(&mut self, name: &GoName) -> Result<(), NoMemory>
        ensures known { OnOk result (self.new.known
            ≡ (if is_among name.now self.old.known then self.old.known else self.old.known ++ name.now ∷ [])) }
        ensures there { OnOk result (is_among name.now self.new.known ≡ true) }
        ensures ready { self.new.ready ≡ self.old.ready }
        ensures err { OnErr result (self.new ≡ self.old) }
        ensures succeeds { is_among name.now self.old.known ≡ true → IsOk result }
    {
        if self.known.contains(name) {
            return Ok(());
        }
        let name = name.copy(self.alloc)?;
        let unready = self.known.len().saturating_sub(self.ready.len());
        self.ready.reserve(unready + 1)?;
        self.known.insert(name)?;
        Ok(())
    }

    /// Whether the goroutine is ready.
    pub fn contains(&self, name: &GoName) -> bool
        ensures { result ≡ is_among name.now self.now.ready }
    {
        match place_of(self.known.as_slice(), self.ready.as_slice(), name) {
            Ok(_) => true,
            Err(_) => false,
        }
    }

    /// How many goroutines are ready.
    pub fn len(&self) -> usize
        ensures count { result ≡ length self.now.ready }
        ensures ordered { IsInOrder self.now.ready }
    {
        self.ready.len()
    }

    /// The ready goroutine at a place, in name order.
    pub fn get(&self, place: usize) -> Option<&GoName>
        ensures { option_copied result ≡ slice_get self.now.ready place }
    {
        self.known.get_index(*self.ready.get(place)?)
    }

    /// Whether no goroutine is ready.
    pub fn is_empty(&self) -> bool
        ensures { IsTrue result ↔ (self.now.ready ≡ []) }
    {
        self.ready.is_empty()
    }

    /// Makes a known goroutine ready. It takes no memory. It takes constant time where the goroutine is the last answer of
    /// `next_after` and is ready. The goroutine that was made unready last is found without a search.
    pub fn insert(&mut self, name: &GoName)
        requires { is_among name.now self.old.known ≡ true }
        ensures ready { self.new.ready ≡ with_name name.now self.old.ready }
        ensures known { self.new.known ≡ self.old.known }
    {
        let guess = self.last.get();
        if stands_at(self.known.as_slice(), self.ready.as_slice(), name, guess) {
            return;
        }
        let found = place_of(self.known.as_slice(), self.ready.as_slice(), name);
        let Err(place) = found else { return };
        let known = known_place(&self.known, name, self.gone.get());
        self.ready.insert(place, known).unwrap();
    }

    /// Makes a goroutine unready. It takes no memory.
    pub fn remove(&mut self, name: &GoName)
        ensures ready { self.new.ready ≡ without_name name.now self.old.ready }
        ensures known { self.new.known ≡ self.old.known }
    {
        let found = place_of(self.known.as_slice(), self.ready.as_slice(), name);
        let Ok(place) = found else { return };
        self.gone.set(self.ready[place]);
        let _ = self.ready.remove(place);
    }

    /// The first ready goroutine after this one in name order, or else the first of all. The time is constant where just one
    /// is ready. It is constant too where this one was the last answer and the same goroutines are still ready. Otherwise it
    /// is logarithmic.
    #[inline(always)]
    pub fn next_after(&self, name: &GoName) -> Option<&GoName>
        ensures next { option_copied result ≡ next_name name.now self.now.ready }
        ensures ordered { IsInOrder self.now.ready }
    {
        if let [place] = self.ready.as_slice() {
            self.last.set(0);
            return self.known.get_index(*place);
        }
        let guess = self.last.get();
        let place = next_place(self.known.as_slice(), self.ready.as_slice(), name, guess);
        if place < self.ready.len() {
            self.last.set(place);
            return self.known.get_index(self.ready[place]);
        }
        None
    }
}
