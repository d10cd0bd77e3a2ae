//! What depends on a step of the log, and what it depends on.

ghost use Rattle.std.specs.Prelude.{◌≡◌, ◌<◌, ◌≤◌, ◌+◌, ◌-◌, length, drop, slice_get, Some, true, false, IfOk, replicate};
ghost use Rattle.gr_causal.specs.Dependence.{dependents, kept, causes};
ghost use Rattle.indexmap.specs.IndexMap.{keys};
ghost use Rattle.gr_record.specs.Conflicts.{conflict_of};
ghost use Rattle.gr_record.specs.Back.{marked, unmarked};
ghost use Rattle.gr_depend.specs.Marked.{dependent_marks, cause_marks, conflict_at};
ghost use Rattle.gr_touches.specs.Marks.{Marks};
ghost use Rattle.gr_touches.specs.Walks.{AreWalked, HasMarks};

use crate::log::Log;
use gr_base::NoMemory;
use gr_touches::{Origin, Wanted};
use std::alloc::Global;

/// This many marks, none of them set.
fn no_marks(alloc: Global, count: usize) -> Result<Vec<bool>, NoMemory>
    ensures { IfOk result (λ marks. marks.items ≡ replicate count false) }
{
    let marks = vec![in alloc; false; count]?;
    Ok(marks)
}

impl Log {
    ghost use Rattle.gr_depend.specs.Logs.{records_of};

    /// Marks for the steps from a place on: set for the step there and for all that depend on it, and for no others.
    pub fn dependents(&self, alloc: Global, at: usize) -> Result<Vec<bool>, NoMemory>
        requires { at < length (records_of self.now) }
        ensures count { IfOk result (λ marks. length marks.items ≡ length (records_of self.now) - at) }
        ensures first { IfOk result (λ marks. slice_get marks.items 0 ≡ Some true) }
        ensures members { IfOk result (λ marks. marked marks.items (drop at (records_of self.now))
            ≡ dependents conflict_of (records_of self.now) at) }
        ensures others { IfOk result (λ marks. unmarked marks.items (drop at (records_of self.now))
            ≡ drop at (kept conflict_of (records_of self.now) at)) }
    {
        let mut marks = no_marks(alloc, self.records.len() - at)?;
        let mut read = no_marks(alloc, self.lanes.count())?;
        let mut written = no_marks(alloc, self.lanes.count())?;
        self.mark_dependents(at, &mut read, &mut written, &mut marks);
        Ok(marks)
    }

    /// Marks for the steps up to a place, that place included. They are set for the step there and for all that it depends
    /// on, and for no others.
    pub fn causes(&self, alloc: Global, at: usize) -> Result<Vec<bool>, NoMemory>
        requires { at < length (records_of self.now) }
        ensures count { IfOk result (λ marks. length marks.items ≡ at + 1) }
        ensures members { IfOk result (λ marks. marked marks.items (records_of self.now)
            ≡ causes conflict_of (records_of self.now) at) }
    {
        let mut marks = no_marks(alloc, at + 1)?;
        let mut read = no_marks(alloc, self.lanes.count())?;
        let mut written = no_marks(alloc, self.lanes.count())?;
        self.mark_causes(at, &mut read, &mut written, &mut marks);
        Ok(marks)
    }

    fn mark_dependents(
        &self,
        at: usize,
        read: &mut [bool],
        written: &mut [bool],
        marks: &mut [bool],
    )
        requires within { at < length (records_of self.now) }
        requires read { read.old ≡ replicate (length (keys self.now.lanes.map) + 1) false }
        requires written { written.old ≡ replicate (length (keys self.now.lanes.map) + 1) false }
        requires marks { marks.old ≡ replicate (length (records_of self.now) - at) false }
        ensures { marks.new ≡ dependent_marks conflict_of (records_of self.now) at }
    {
        marks[0] = true;
        self.mark_from(Origin::later(at, at), read, written, marks);
        for place in at + 1..self.records.len() {
            if !marks[place - at] {
                continue;
            }
            self.mark_from(Origin::later(place, at), read, written, marks);
        }
    }

    fn mark_causes(&self, at: usize, read: &mut [bool], written: &mut [bool], marks: &mut [bool])
        requires within { at < length (records_of self.now) }
        requires read { read.old ≡ replicate (length (keys self.now.lanes.map) + 1) false }
        requires written { written.old ≡ replicate (length (keys self.now.lanes.map) + 1) false }
        requires marks { marks.old ≡ replicate (at + 1) false }
        ensures { marks.new ≡ cause_marks conflict_of (records_of self.now) at }
    {
        marks[at] = true;
        self.mark_from(Origin::earlier(at), read, written, marks);
        let mut left = at;
        while left > 0 {
            left -= 1;
            if !marks[left] {
                continue;
            }
            self.mark_from(Origin::earlier(left), read, written, marks);
        }
    }

    /// Sets the marks of the steps on one side of a step that conflict with it.
    fn mark_from(&self, origin: Origin, read: &mut [bool], written: &mut [bool], marks: &mut [bool])
        requires within { origin.place < length (records_of self.now) }
        requires marks { HasMarks origin (length (records_of self.now)) (length marks.old) }
        requires no_more { origin.base + length marks.old ≤ length (records_of self.now) }
        requires read_count { length read.old ≡ length (keys self.now.lanes.map) + 1 }
        requires read_walked { AreWalked self.now.lanes origin Wanted.Writes read.old marks.old }
        requires written_count { length written.old ≡ length (keys self.now.lanes.map) + 1 }
        requires written_walked { AreWalked self.now.lanes origin Wanted.All written.old marks.old }
        ensures marks { Marks origin (conflict_at (records_of self.now) origin.place) marks.old marks.new }
        ensures read_walked { AreWalked self.now.lanes origin Wanted.Writes read.new marks.new }
        ensures written_walked { AreWalked self.now.lanes origin Wanted.All written.new marks.new }
    {
        let step = &self.records[origin.place];
        self.lanes.mark_step(origin, step, read, written, marks);
    }
}
