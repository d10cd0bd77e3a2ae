//! The log of the steps that were taken.

ghost use Rattle.std.specs.Prelude.{◌≡◌, ◌<◌, ◌≤◌, ◌^◌, ◌++◌, vec_len, vec_capacity, ◌∷◌, [], ℕ, List, length, true};
ghost use Rattle.std.specs.Prelude.{slice_index_or, slice_get, option_copied, IfErr, OnOk, OnErr, IfSome, IfNone, IsOk, IsTrue};
ghost use Rattle.std.specs.Prelude.{MatchOption, All, ◌↔◌, ◌-◌};
ghost use Rattle.std.specs.List.{list_all};
ghost use Rattle.std.proofs.Props.{props};
ghost use Rattle.gr_base.specs.declared.objects.Object.{Object};
ghost use Rattle.gr_causal.specs.Sequences.{Distinct};
ghost use Rattle.gr_record.specs.Conflicts.{touched_by};
ghost use Rattle.gr_touches.specs.Lists.{list_of};
ghost use Rattle.gr_touches.specs.Touches.{touches_in, none_twice, if_any};

use gr_base::{GoName, NoMemory, Object};
use gr_record::Record;
use gr_touches::{Lanes, ObjectRef, Touch};
use std::alloc::Global;

/// The most steps of a log: a touch keeps the place of its step in 31 bits.
const MOST_STEPS: usize = 2_147_483_648;

/// The steps that were taken and are kept, in their order, with the touches of each object.
pub struct Log {
    pub(crate) records: Vec<Record>,
    pub(crate) lanes: Lanes,
    ghost touches: { (o : Object) → list_of lanes o ≡ touches_in o 0 records.items } by { Prim.hlevel props },
    ghost once: { list_all (λ r. none_twice (touched_by r)) records.items ≡ true },
    ghost few: { length records.items ≤ 2 ^ 31 },
}

// Written out, so that crates above call it and need not prove it again.
impl Drop for Log {
    fn drop(self) {
        let Log {
            records: _,
            lanes: _,
        } = self;
    }
}

impl Log {
    ghost use Rattle.gr_depend.specs.Logs.{IsAlone, records_of};
    ghost use Rattle.gr_depend.specs.Room.{CanTake};
    ghost use Rattle.gr_depend.specs.Aside.{IsLaidAside};
    ghost use Rattle.gr_record.specs.declared.record.Record.{Record};

    /// A log without steps. It takes no memory.
    pub fn new(alloc: Global) -> Log
        ensures { records_of result ≡ [] }
    {
        Log {
            records: Vec::new(alloc),
            lanes: Lanes::new(alloc),
        }
    }

    pub fn len(&self) -> usize
        ensures { result ≡ length (records_of self.now) }
    {
        self.records.len()
    }

    pub fn is_empty(&self) -> bool
        ensures { IsTrue result ↔ (records_of self.now ≡ []) }
    {
        self.records.is_empty()
    }

    pub fn as_slice(&self) -> &[Record]
        ensures { result.now ≡ records_of self.now }
    {
        self.records.as_slice()
    }

    /// The record at a place.
    pub fn record(&self, at: usize) -> &Record
        requires { at < length (records_of self.now) }
        ensures { slice_get (records_of self.now) at ≡ Some result.now }
    {
        self.records.get(at).unwrap()
    }

    /// The last record, if there is one.
    pub fn last(&self) -> Option<&Record>
        ensures { option_copied result ≡ slice_get (records_of self.now) (length (records_of self.now) - 1) }
    {
        self.records.last()
    }

    /// Adds a step at the end. Refused, the log is as before, and the record is handed back. It is not refused where there is
    /// room, which a log of 2^31 steps never has.
    #[inline(always)]
    pub fn push(&mut self, step: Record) -> Result<(), (Record, NoMemory)>
        requires { Distinct (touched_by step) }
        ensures ok { OnOk result (records_of self.new ≡ records_of self.old ++ step ∷ []) }
        ensures handed_back { IfErr result (λ refused. refused.0 ≡ step) }
        ensures err { OnErr result (records_of self.new ≡ records_of self.old) }
        ensures succeeds { (rest : List Record) → CanTake self.old (step ∷ rest) → IsOk result }
        ensures room { (rest : List Record) → CanTake self.old (step ∷ rest) → OnOk result (CanTake self.new rest) }
        ensures room_err { (rest : List Record) → CanTake self.old rest → OnErr result (CanTake self.new rest) }
    {
        let place = self.records.len();
        if place >= MOST_STEPS {
            return Err((step, NoMemory));
        }
        let reserved = self.records.reserve(1);
        if let Err(error) = reserved {
            return Err((step, NoMemory::from(error)));
        }
        self.records.push_reserved(step);
        match self.lanes.note(place as u32, &self.records[place]) {
            Ok(()) => Ok(()),
            Err(error) => Err((self.records.pop().unwrap(), error)),
        }
    }

    /// Adds steps at the end that a goroutine took by itself and that reached no further. Refused, the log is as before. It is
    /// not refused where there is room, which a log of 2^31 steps never has.
    pub fn append(&mut self, go: &GoName, steps: Vec<Record>) -> Result<(), NoMemory>
        requires { All (IsAlone go.now) steps.items }
        ensures ok { OnOk result (records_of self.new ≡ records_of self.old ++ steps.items) }
        ensures err { OnErr result (records_of self.new ≡ records_of self.old) }
        ensures succeeds { CanTake self.old steps.items → IsOk result }
    {
        let count = steps.len();
        if count == 0 {
            return Ok(());
        }
        let place = self.records.len();
        let left = MOST_STEPS - place;
        if count > left {
            return Err(NoMemory);
        }
        self.records.reserve(count)?;
        self.lanes.note_own(go, place as u32, count)?;
        let mut steps = steps;
        self.records.append(&mut steps).unwrap();
        Ok(())
    }

    /// Takes the last step out, if there is one. It takes no memory.
    pub fn pop(&mut self) -> Option<Record>
        ensures taken { MatchOption result (records_of self.old ≡ []) (λ step. records_of self.old ≡ records_of self.new ++ step
            ∷ []) }
        ensures none { IfNone result (records_of self.new ≡ []) }
        ensures room { (rest : List Record) → CanTake self.old rest → IfSome result (λ step. CanTake self.new (step ∷ rest)) }
        ensures room_none { (rest : List Record) → CanTake self.old rest → IfNone result (CanTake self.new rest) }
    {
        let step = self.records.pop()?;
        self.lanes.forget(&step);
        Some(step)
    }

    /// Lays the last step behind others that were laid aside. It takes no memory.
    pub fn lay_aside(&mut self, aside: &mut Vec<Record>)
        requires some { 0 < length (records_of self.old) }
        requires room { vec_len aside.old < vec_capacity aside.old }
        ensures { IsLaidAside self.old aside.old self.new aside.new }
    {
        let step = self.records.pop().unwrap();
        self.lanes.forget(&step);
        aside.push_reserved(step);
    }

    /// Adds a step at the end for which there is room. It takes no memory.
    pub fn push_reserved(&mut self, step: Record)
        requires once { Distinct (touched_by step) }
        requires room { (rest : List Record) × CanTake self.old (step ∷ rest) }
        ensures records { records_of self.new ≡ records_of self.old ++ step ∷ [] }
        ensures room { (rest : List Record) → CanTake self.old (step ∷ rest) → CanTake self.new rest }
    {
        self.lanes.note(self.records.len() as u32, &step).unwrap();
        self.records.push_reserved(step);
    }

    /// Every log can take no steps.
    pub fn law_of_no_steps(log: &Log)
        ensures { CanTake log.now [] }
    {}

    /// The touches of an object, by the places of the steps, if there are any. The crates above do not call it: it is for
    /// users of the library.
    pub fn touched(&self, object: &Object) -> Option<&[Touch]>
        ensures { option_copied result ≡ if_any (touches_in object.now 0 (records_of self.now)) }
    {
        let touches = self.lanes.list(&ObjectRef::of(object));
        if touches.is_empty() {
            return None;
        }
        Some(touches)
    }
}
