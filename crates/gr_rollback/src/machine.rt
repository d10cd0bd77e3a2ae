//! The machine of a program: its state, the log of its steps, and the steps that may be done again.

ghost use Rattle.std.specs.Prelude.{◌≡◌, IfOk, IfErr, OnOk, OnErr, option_copied};
ghost use Rattle.gr_program.specs.Programs.{Program as ProgramSeen};
ghost use Rattle.gr_program.specs.Views.{program_of};
ghost use Rattle.gr_rules.specs.Turns.{IsTurn, last_owner};
ghost use Rattle.gr_step.specs.Running.{IsChecked};
ghost use Rattle.gr_step.specs.Choices.{usual_event};
ghost use Rattle.gr_step.specs.Stores.{contents_at, taken_at, SameListing};

use crate::course::Course;
use crate::refusal::BackRefused;
use crate::stepped::Stepped;
use gr_base::{Event, GoName, NoMemory, StepId};
use gr_depend::Log;
use gr_program::program::Program;
use gr_step::{StepRefused, Store};
use std::alloc::Global;

/// The machine of a program: its state, the log of the steps that led there, and the steps that were taken back last and can be
/// taken again.
pub struct Machine {
    pub(crate) course: Course,
    /// The events that `redo` takes, the first of them last.
    pub(crate) again: Vec<Event>,
}

// Written out, so that crates above call it and need not prove it again.
impl Drop for Machine {
    fn drop(self) {
        let Machine {
            course: _,
            again: _,
        } = self;
    }
}

impl Machine {
    ghost use Rattle.gr_rollback.specs.Pasts.{Timeline, first_timeline};
    ghost use Rattle.gr_rollback.specs.Machines.{store_of, log_of, Stands, IsMachine};
    ghost use Rattle.gr_rollback.specs.Retracting.{LastGoesBack, SameCourse, RetractsLast};
    ghost use Rattle.gr_rollback.specs.Stepping.{one_more, MayCount};
    ghost use Rattle.gr_rollback.specs.Steps.{Taken};
    ghost use Rattle.gr_rollback.specs.Backs.{Undone};

    /// The machine of a checked program before its first step.
    pub fn start(alloc: Global, program: Program) -> Result<Machine, NoMemory>
        requires { IsChecked (program_of program) }
        ensures { IfOk result (Stands (program_of program) (first_timeline (program_of program))) }
    {
        let course = Course::start(alloc, program)?;
        Ok(Machine {
            course,
            again: Vec::new(alloc),
        })
    }

    /// The state of the program, as the steps of the log led to it.
    pub fn store(&self) -> &Store
        ensures { result.now ≡ store_of self.now }
    {
        &self.course.store
    }

    /// The steps that are kept.
    pub fn log(&self) -> &Log
        ensures { result.now ≡ log_of self.now }
    {
        &self.course.log
    }

    /// Whose turn it is: the first ready goroutine after that of the last step, in the order of names, else the first of all.
    #[inline(always)]
    pub fn next_turn(&self) -> Option<&GoName>
        ensures { (p : ProgramSeen) (w : Timeline p) → Stands p w self.now
            → IsTurn w.past.state (last_owner p w.past.log) (option_copied result) }
    {
        let Some(last) = self.course.log.last() else {
            return self.course.pool.next_after(&self.course.first);
        };
        self.course.pool.next_after(&last.id.go)
    }

    /// Takes the step of an event, and tells its ordinal and its kind. Its record is then the last of the log, and nothing may
    /// be done again. Refused, nothing has changed; but a step whose record found no room was taken, and is counted. A full log
    /// and out of memory are one refusal.
    pub fn step(&mut self, event: Event) -> Result<Stepped, StepRefused>
        requires { IsMachine self.old }
        ensures taken { (p : ProgramSeen) (w : Timeline p) → Stands p w self.old → Taken p w event result self.new }
        ensures count { OnOk result (taken_at (store_of self.new) ≡ one_more (taken_at (store_of self.old))) }
        ensures refused { IfErr result (λ why. MayCount why (taken_at (store_of self.old)) (taken_at (store_of self.new))) }
        ensures err { OnErr result (contents_at (store_of self.new) ≡ contents_at (store_of self.old)) }
        ensures listing { SameListing (store_of self.old) (store_of self.new) }
    {
        let told = self.course.keep(event.go, Some(event.choice))?;
        self.again.clear();
        Ok(told)
    }

    /// Takes the step of a goroutine with its usual choice. At a select that is the lowest clause that can proceed, else the
    /// default clause, else to wait. All else is as for the step of an event.
    #[inline(always)]
    pub fn step_usual(&mut self, go: GoName) -> Result<Stepped, StepRefused>
        requires { IsMachine self.old }
        ensures taken { (p : ProgramSeen) (w : Timeline p) → Stands p w self.old
            → Taken p w (usual_event p w.past.state go) result self.new }
        ensures count { OnOk result (taken_at (store_of self.new) ≡ one_more (taken_at (store_of self.old))) }
        ensures refused { IfErr result (λ why. MayCount why (taken_at (store_of self.old)) (taken_at (store_of self.new))) }
        ensures err { OnErr result (contents_at (store_of self.new) ≡ contents_at (store_of self.old)) }
        ensures listing { SameListing (store_of self.old) (store_of self.new) }
    {
        let told = self.course.keep(go, None)?;
        self.again.clear();
        Ok(told)
    }

    /// Takes the last step back, which may then be done again. Refused, nothing has changed.
    pub fn undo(&mut self, alloc: Global) -> Result<StepId, BackRefused>
        requires { IsMachine self.old }
        ensures undone { (p : ProgramSeen) (w : Timeline p) → Stands p w self.old → Undone p w result self.new }
        ensures err { OnErr result (contents_at (store_of self.new) ≡ contents_at (store_of self.old)) }
        ensures listing { SameListing (store_of self.old) (store_of self.new) }
        ensures taken { taken_at (store_of self.new) ≡ taken_at (store_of self.old) }
    {
        let Some(last) = self.course.log.last() else {
            return Err(BackRefused::NothingToUndo);
        };
        let n = last.id.n;
        let Ok(go) = last.id.go.copy(alloc) else {
            return Err(BackRefused::NoMemory(Vec::new(alloc)));
        };
        match self.retract_last() {
            Ok(()) => Ok(StepId { go, n }),
            Err(NoMemory) => Err(BackRefused::NoMemory(Vec::new(alloc))),
        }
    }

    /// Takes the last step back, which alone may then be done again. Refused, nothing has changed.
    fn retract_last(&mut self) -> Result<(), NoMemory>
        requires { LastGoesBack self.old.course }
        ensures ok { OnOk result (RetractsLast self.old self.new) }
        ensures err { OnErr result (SameCourse self.old.course self.new.course) }
        ensures err_again { OnErr result (self.new.again.items ≡ self.old.again.items) }
        ensures listing { SameListing (store_of self.old) (store_of self.new) }
        ensures taken { taken_at (store_of self.new) ≡ taken_at (store_of self.old) }
    {
        self.again.reserve(1)?;
        let event = self.course.retract()?;
        self.again.clear();
        self.again.push_reserved(event);
        Ok(())
    }
}
