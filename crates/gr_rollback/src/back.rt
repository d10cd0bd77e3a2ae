//! A step taken back with its consequences, and nothing else.

ghost use Rattle.std.specs.Prelude.{◌≡◌, ◌<◌, ◌+◌, ◌++◌, [], length, vec_len, vec_capacity, reverse, IfOk, IfErr, OnOk, OnErr};
ghost use Rattle.gr_causal.specs.Sequences.{In, Distinct};
ghost use Rattle.gr_program.specs.Programs.{Program};
ghost use Rattle.gr_step.specs.Record.{Record as RecordSeen};
ghost use Rattle.gr_step.specs.Conflicts.{touched_by};
ghost use Rattle.gr_step.specs.Stores.{contents_at, taken_at, SameListing};
ghost use Rattle.gr_depend.specs.Logs.{records_of};
ghost use Rattle.gr_depend.specs.Room.{CanTake};
ghost use Rattle.gr_rollback.specs.Walks.{count_set, count_unset, IsNew, IsRolling, GoesOn, Removes};

use crate::course::Course;
use crate::machine::Machine;
use crate::refusal::BackRefused;
use gr_base::{Event, NoMemory, StepId};
use gr_depend::Log;
use gr_step::Record;
use std::alloc::Global;

/// A rollback on its way from the end of the log: each list begins with what was last in the log.
#[derive(Drop)]
pub struct Rollback {
    /// The records that stay.
    pub(crate) stay: Vec<Record>,
    /// The events of the steps that are taken back.
    pub(crate) gone: Vec<Event>,
    /// Their names.
    pub(crate) ids: Vec<StepId>,
}

/// How many of the marks are set.
fn count_marked(marks: &[bool]) -> usize
    ensures { result ≡ count_set marks.now }
{
    marks.iter().filter(|mark| **mark).count()
}

/// How many of the marks are not set.
fn count_unmarked(marks: &[bool]) -> usize
    ensures { result ≡ count_unset marks.now }
{
    marks.iter().filter(|mark| !**mark).count()
}

impl Rollback {
    /// With room for the steps that are marked, and for the others.
    fn with_room(alloc: Global, marks: &[bool]) -> Result<Rollback, NoMemory>
        ensures { IfOk result (IsNew marks.now) }
    {
        let gone = count_marked(marks);
        let stay = count_unmarked(marks);
        Ok(Rollback {
            stay: Vec::with_capacity(alloc, stay)?,
            gone: Vec::with_capacity(alloc, gone)?,
            ids: Vec::with_capacity(alloc, gone)?,
        })
    }
}

impl Course {
    ghost use Rattle.gr_rollback.specs.Retracting.{LastGoesBack, SameCourse, KeepsLogRoom};

    /// Takes the last step back, which joins those that are gone. Refused, nothing has changed.
    fn remove_last(&mut self, alloc: Global, rollback: &mut Rollback) -> Result<(), NoMemory>
        requires goes { LastGoesBack self.old }
        requires gone { vec_len rollback.old.gone < vec_capacity rollback.old.gone }
        requires ids { vec_len rollback.old.ids < vec_capacity rollback.old.ids }
        ensures ok { OnOk result (Removes self.old rollback.old self.new rollback.new) }
        ensures err { OnErr result (SameCourse self.old self.new) }
        ensures room { OnErr result (KeepsLogRoom self.old self.new) }
        ensures err_rollback { OnErr result (rollback.new ≡ rollback.old) }
        ensures listing { SameListing self.old.store self.new.store }
        ensures taken { taken_at self.new.store ≡ taken_at self.old.store }
    {
        let Some(last) = self.log.last() else {
            return Err(NoMemory);
        };
        let id = StepId {
            go: last.id.go.copy(alloc)?,
            n: last.id.n,
        };
        let event = self.retract()?;
        rollback.ids.push_reserved(id);
        rollback.gone.push_reserved(event);
        Ok(())
    }

    /// Takes the last step of the log back where it is marked, and else lays it aside. The marks are for the steps from a place
    /// on. Refused, nothing has changed.
    fn unwind_last(
        &mut self,
        alloc: Global,
        at: usize,
        marks: &[bool],
        rollback: &mut Rollback,
    ) -> Result<(), NoMemory>
        requires within { at < length (records_of self.old.log) }
        requires rolls { IsRolling at marks.now self.old rollback.old }
        ensures way { GoesOn at marks.now self.old rollback.old self.new rollback.new }
        ensures fewer { OnOk result (length (records_of self.new.log) + 1 ≡ length (records_of self.old.log)) }
        ensures err { OnErr result (records_of self.new.log ≡ records_of self.old.log) }
        ensures listing { SameListing self.old.store self.new.store }
        ensures taken { taken_at self.new.store ≡ taken_at self.old.store }
    {
        let place = self.log.len() - 1;
        if marks[place - at] {
            return self.remove_last(alloc, rollback);
        }
        self.log.lay_aside(&mut rollback.stay);
        Ok(())
    }

    /// Takes the log apart from its end down to a place: the steps that are marked are taken back, and the others laid aside.
    /// Refused, it stands where it came to.
    fn unwind(
        &mut self,
        alloc: Global,
        at: usize,
        marks: &[bool],
        rollback: &mut Rollback,
    ) -> Result<(), NoMemory>
        requires { IsRolling at marks.now self.old rollback.old }
        ensures way { GoesOn at marks.now self.old rollback.old self.new rollback.new }
        ensures whole { OnOk result (length (records_of self.new.log) ≡ at) }
        ensures left { OnErr result (at < length (records_of self.new.log)) }
        ensures listing { SameListing self.old.store self.new.store }
        ensures taken { taken_at self.new.store ≡ taken_at self.old.store }
    {
        while self.log.len() > at {
            self.unwind_last(alloc, at, marks, rollback)?;
        }
        Ok(())
    }

    /// Puts the records in again that were laid aside, which takes no memory.
    fn put_together(&mut self, stay: Vec<Record>)
        requires room { CanTake self.old.log (reverse stay.items) }
        requires once { (r : RecordSeen) → In r (reverse stay.items) → Distinct (touched_by r) }
        ensures records { records_of self.new.log ≡ records_of self.old.log ++ reverse stay.items }
        ensures store { self.new.store ≡ self.old.store }
        ensures pool { self.new.pool ≡ self.old.pool }
        ensures first { self.new.first ≡ self.old.first }
    {
        let mut stay = stay;
        while let Some(step) = stay.pop() {
            self.log.push_reserved(step);
        }
    }
}

impl Machine {
    ghost use Rattle.gr_rollback.specs.Pasts.{Timeline};
    ghost use Rattle.gr_rollback.specs.Machines.{store_of, steps_of, again_of, Stands, IsMachine};
    ghost use Rattle.gr_rollback.specs.Backs.{again_after, NamesNone, TakenBack};

    /// Puts in again the records that stay. Answers the names of the steps that are taken back, in the order of the log;
    /// these can be taken again.
    fn finish(&mut self, rollback: Rollback) -> Vec<StepId>
        requires room { CanTake self.old.course.log (reverse rollback.stay.items) }
        requires once { (r : RecordSeen) → In r (reverse rollback.stay.items) → Distinct (touched_by r) }
        ensures ids { result.items ≡ reverse rollback.ids.items }
        ensures records { steps_of self.new ≡ steps_of self.old ++ reverse rollback.stay.items }
        ensures store { self.new.course.store ≡ self.old.course.store }
        ensures pool { self.new.course.pool ≡ self.old.course.pool }
        ensures first { self.new.course.first ≡ self.old.course.first }
        ensures again { again_of self.new ≡ again_after (reverse rollback.gone.items) (again_of self.old) }
    {
        let Rollback { stay, gone, ids } = rollback;
        self.course.put_together(stay);
        if !gone.is_empty() {
            self.again = gone;
        }
        let mut ids = ids;
        ids.reverse();
        ids
    }

    /// Takes a step back with all that depends on it, and nothing else, from the last to the first. Nothing is replayed. It
    /// answers the names of the steps that were taken back, in the order of the log; they may be done again. Where memory runs
    /// out on the way, the last of these steps are back, but not all, and the refusal names them.
    pub fn back(&mut self, alloc: Global, id: &StepId) -> Result<Vec<StepId>, BackRefused>
        requires { IsMachine self.old }
        ensures back { (p : Program) (w : Timeline p) → Stands p w self.old → TakenBack p w id.now result self.new }
        ensures err { IfErr result (λ why. NamesNone why → contents_at (store_of self.new) ≡ contents_at (store_of self.old)) }
        ensures listing { SameListing (store_of self.old) (store_of self.new) }
        ensures taken { taken_at (store_of self.new) ≡ taken_at (store_of self.old) }
    {
        let Some(at) = self.course.log.place_of(id) else {
            return Err(BackRefused::NotKept);
        };
        let Ok(marks) = self.course.log.dependents(alloc, at) else {
            return Err(BackRefused::NoMemory(Vec::new(alloc)));
        };
        let Ok(rollback) = Rollback::with_room(alloc, &marks) else {
            return Err(BackRefused::NoMemory(Vec::new(alloc)));
        };
        let mut rollback = rollback;
        // brings the law to the prover
        Log::law_of_no_steps(&self.course.log);
        let done = self.course.unwind(alloc, at, &marks, &mut rollback);
        let ids = self.finish(rollback);
        match done {
            Ok(()) => Ok(ids),
            Err(NoMemory) => Err(BackRefused::NoMemory(ids)),
        }
    }
}
