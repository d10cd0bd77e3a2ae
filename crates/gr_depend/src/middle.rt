//! Records that are taken out of the middle of the log, and put in again there.

ghost use Rattle.std.specs.Prelude.{◌≡◌, ◌<◌, ◌≤◌, ◌^◌, ◌∷◌, List, insert, length, remove, slice_get, take, Some, true};
ghost use Rattle.std.specs.List.{list_all};
ghost use Rattle.gr_causal.specs.Sequences.{Distinct};
ghost use Rattle.gr_record.specs.Conflicts.{touched_by};
ghost use Rattle.gr_touches.specs.Room.{Fits, KeepsRoom};
ghost use Rattle.gr_touches.specs.Touches.{touches_in, none_twice};
ghost use Rattle.gr_depend.specs.Logs.{AreListsOf};

use crate::log::Log;
use gr_record::Record;
use gr_touches::Lanes;

/// Takes the touches of the steps from a place on out of the lists of all steps. It takes no memory.
fn forget_from(lanes: &mut Lanes, steps: &[Record], at: usize)
    requires within { at ≤ length steps.now }
    requires once { list_all (λ r. none_twice (touched_by r)) steps.now ≡ true }
    requires lists { AreListsOf steps.now lanes.old }
    ensures lists { AreListsOf (take at steps.now) lanes.new }
    ensures room { KeepsRoom lanes.old lanes.new }
{
    let mut left = steps.len();
    while left > at {
        left -= 1;
        lanes.forget(&steps[left]);
    }
}

/// Adds the touches of the steps from a place on, for which there is room, to the lists of the others. It takes no memory.
fn note_from(lanes: &mut Lanes, steps: &[Record], at: usize)
    requires within { at ≤ length steps.now }
    requires few { length steps.now ≤ 2 ^ 31 }
    requires once { list_all (λ r. none_twice (touched_by r)) steps.now ≡ true }
    requires lists { AreListsOf (take at steps.now) lanes.old }
    requires room { Fits lanes.old (λ o. touches_in o 0 steps.now) }
    ensures lists { AreListsOf steps.now lanes.new }
    ensures room { KeepsRoom lanes.old lanes.new }
{
    for place in at..steps.len() {
        lanes.note(place as u32, &steps[place]).unwrap();
    }
}

impl Log {
    ghost use Rattle.gr_depend.specs.Logs.{records_of};
    ghost use Rattle.gr_depend.specs.Room.{CanTake};
    ghost use Rattle.gr_record.specs.declared.record.Record.{Record};

    /// Takes the record at a place out. Each step behind it then stands one place further down, with its touches. It takes no
    /// memory, and time for each of these steps.
    pub fn remove(&mut self, at: usize) -> Record
        requires { at < length (records_of self.old) }
        ensures removed { slice_get (records_of self.old) at ≡ Some result }
        ensures once { Distinct (touched_by result) }
        ensures others { records_of self.new ≡ remove (records_of self.old) at }
        ensures room { (rest : List Record) → CanTake self.old rest → CanTake self.new (result ∷ rest) }
    {
        forget_from(&mut self.lanes, self.records.as_slice(), at);
        let step = self.records.remove(at);
        note_from(&mut self.lanes, self.records.as_slice(), at);
        step
    }

    /// Puts a record in at a place, for which there is room. Each step from there on then stands one place further up, with
    /// its touches. It takes no memory, and time for each of these steps.
    pub fn put_back(&mut self, at: usize, step: Record)
        requires within { at ≤ length (records_of self.old) }
        requires once { Distinct (touched_by step) }
        requires room { (rest : List Record) × CanTake self.old (step ∷ rest) }
        ensures records { records_of self.new ≡ insert (records_of self.old) at step }
        ensures room { (rest : List Record) → CanTake self.old (step ∷ rest) → CanTake self.new rest }
    {
        forget_from(&mut self.lanes, self.records.as_slice(), at);
        self.records.insert(at, step).unwrap();
        note_from(&mut self.lanes, self.records.as_slice(), at);
    }
}
