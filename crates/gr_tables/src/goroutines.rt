//! The goroutines of a store, by name and by number.

ghost use Rattle.std.specs.Prelude.{◌≡◌, ◌≤◌, ◌<◌, ℕ, List, [], length, true, is_some, Some, None, option_copied, IfSome, IsSome};
ghost use Rattle.std.specs.Prelude.{IsTrue, IsOk, IfOk, OnOk, OnErr};
ghost use Rattle.gr_rules.specs.States.{same_go};
ghost use Rattle.indexmap.specs.IndexMap.{IsUnique};
ghost use Rattle.std.proofs.Props.{props};
ghost use Rattle.std.specs.List.{list_any};
ghost use Rattle.indexmap.specs.IndexSet.{insert_key};

mod changes;
mod guesses;

use crate::goroutines::guesses::Guesses;
use gr_base::{GoName, NoMemory};
use gr_goros::Goroutine;
use indexmap::IndexMap;
use std::alloc::Global;
use std::mem;

/// The goroutines of a store. A name that was known once keeps its number, and its goroutine may be absent.
pub struct Goroutines {
    map: IndexMap<GoName, Option<Goroutine>>,
    alloc: Global,
    guesses: Guesses,
    ghost unique: { IsUnique same_go map } by { Prim.hlevel props },
}

// Written out, so that crates above call it and need not prove it again.
impl Drop for Goroutines {
    fn drop(self) {
        let Goroutines {
            map: _,
            alloc: _,
            guesses: _,
        } = self;
    }
}

impl Goroutines {
    ghost use Rattle.gr_tables.specs.NamedGoroutines.{names_of, name_at, seen_of, seen_at, Sets};

    /// No goroutine, and no name. It takes no memory.
    pub fn new(alloc: Global) -> Goroutines
        ensures names { names_of result ≡ [] }
        ensures goroutines { (q : List ℕ) → seen_of result q ≡ None }
    {
        Goroutines {
            map: IndexMap::new(alloc),
            alloc,
            guesses: Guesses::new(),
        }
    }

    /// How many names are known.
    pub fn len(&self) -> usize
        ensures { result ≡ length (names_of self.now) }
    {
        self.map.len()
    }

    /// The number of a goroutine that is there.
    #[inline(always)]
    pub fn number(&self, name: &GoName) -> Option<usize>
        ensures named { IfSome result (λ i. name_at self.now i ≡ Some name.now) }
        ensures present { is_some result ≡ is_some (seen_of self.now name.now) }
    {
        let guess = self.guesses.of(name);
        if self.is_at(name, guess) {
            return Some(guess);
        }
        self.look_up(name)
    }

    /// Whether the goroutine of a name has the number, and is there.
    fn is_at(&self, name: &GoName, number: usize) -> bool
        ensures named { IsTrue result → name_at self.now number ≡ Some name.now }
        ensures present { IsTrue result → IsSome (seen_of self.now name.now) }
    {
        match self.map.get_index(number) {
            Some((known, Some(_))) => known == name,
            _ => false,
        }
    }

    /// The number of a goroutine that is there, found by its name. It becomes the guess for names like this.
    #[inline(never)]
    fn look_up(&self, name: &GoName) -> Option<usize>
        ensures named { IfSome result (λ i. name_at self.now i ≡ Some name.now) }
        ensures present { is_some result ≡ is_some (seen_of self.now name.now) }
    {
        let (number, _, goroutine) = self.map.get_full(name)?;
        match goroutine {
            Some(_) => {
                self.guesses.keep(name, number);
                Some(number)
            }
            None => None,
        }
    }

    /// The name with a number.
    pub fn name(&self, number: usize) -> Option<&GoName>
        ensures { option_copied result ≡ name_at self.now number }
    {
        let (name, _) = self.map.get_index(number)?;
        Some(name)
    }

    /// The goroutine with a number, if it is there.
    pub fn get(&self, number: usize) -> Option<&Goroutine>
        ensures value { option_copied result ≡ seen_at self.now number }
        ensures named { (name : List ℕ) → name_at self.now number ≡ Some name → option_copied result ≡ seen_of self.now name }
    {
        let (_, goroutine) = self.map.get_index(number)?;
        goroutine.as_ref()
    }

    /// The goroutine with a number, which is there.
    pub fn at(&self, number: usize) -> &Goroutine
        requires { ¬ (None ≡ seen_at self.now number) }
        ensures value { Some result.now ≡ seen_at self.now number }
        ensures named { (name : List ℕ) → name_at self.now number ≡ Some name → Some result.now ≡ seen_of self.now name }
    {
        match self.get(number) {
            Some(goroutine) => goroutine,
            None => unreachable!(),
        }
    }

    /// Makes a name known, and answers its number. One that is known takes no memory. Refused, nothing has changed.
    pub fn know(&mut self, name: &GoName) -> Result<usize, NoMemory>
        ensures number { IfOk result (λ i. name_at self.new i ≡ Some name.now) }
        ensures names { OnOk result (names_of self.new ≡ insert_key same_go (names_of self.old) name.now) }
        ensures goroutines { seen_of self.new ≡ seen_of self.old }
        ensures err { OnErr result (names_of self.new ≡ names_of self.old) }
        ensures succeeds { list_any (same_go name.now) (names_of self.old) ≡ true → IsOk result }
    {
        if let Some(number) = self.map.get_index_of(name) {
            return Ok(number);
        }
        let name = name.copy(self.alloc)?;
        let (number, _) = self.map.insert_full(name, None)?;
        Ok(number)
    }

    /// Puts a goroutine under a known number. It takes no memory.
    pub fn put(&mut self, number: usize, goroutine: Goroutine)
        requires { number < length (names_of self.old) }
        ensures { Sets number (Some goroutine) self.old self.new }
    {
        *self.map.get_index_mut(number).unwrap() = Some(goroutine);
    }

    /// Takes the goroutine with a known number out, if it is there.
    pub fn remove(&mut self, number: usize) -> Option<Goroutine>
        requires { number < length (names_of self.old) }
        ensures value { result ≡ seen_at self.old number }
        ensures after { Sets number None self.old self.new }
    {
        mem::replace(self.map.get_index_mut(number).unwrap(), None)
    }
}
