//! What depends on what among the steps that are kept.

ghost use Rattle.std.specs.Prelude.{◌≡◌, ◌<◌, length, map, IfOk};
ghost use Rattle.gr_causal.specs.Dependence.{dependents, causes};
ghost use Rattle.gr_program.specs.Programs.{Program};
ghost use Rattle.gr_laws.specs.Dependence.{clash};
ghost use Rattle.gr_step.specs.Conflicts.{conflict_of};
ghost use Rattle.gr_step.specs.Back.{marked};
ghost use Rattle.gr_depend.specs.Logs.{records_of};
ghost use Rattle.gr_rollback.specs.Asking.{IsTold};

use crate::machine::Machine;
use gr_base::{NoMemory, StepId};
use gr_depend::Log;
use gr_step::Record;
use std::alloc::Global;

/// The names of the steps that are marked.
fn names_marked(alloc: Global, steps: &[Record], marks: &[bool]) -> Result<Vec<StepId>, NoMemory>
    ensures { IfOk result (λ ids. ids.items ≡ map (λ r. r.id) (marked marks.now steps.now)) }
{
    let mut ids = Vec::new(alloc);
    for (step, mark) in steps.iter().zip(marks) {
        if *mark {
            ids.push(step.id.copy(alloc)?)?;
        }
    }
    Ok(ids)
}

/// The names of the step at a place and of all that depend on it.
fn names_of_dependents(alloc: Global, log: &Log, at: usize) -> Result<Vec<StepId>, NoMemory>
    requires { at < length (records_of log.now) }
    ensures { IfOk result (λ ids. ids.items ≡ map (λ r. r.id) (dependents conflict_of (records_of log.now) at)) }
{
    let marks = log.dependents(alloc, at)?;
    names_marked(alloc, &log.as_slice()[at..], &marks)
}

/// The names of the step at a place and of all that it depends on.
fn names_of_causes(alloc: Global, log: &Log, at: usize) -> Result<Vec<StepId>, NoMemory>
    requires { at < length (records_of log.now) }
    ensures { IfOk result (λ ids. ids.items ≡ map (λ r. r.id) (causes conflict_of (records_of log.now) at)) }
{
    let marks = log.causes(alloc, at)?;
    names_marked(alloc, log.as_slice(), &marks)
}

impl Machine {
    ghost use Rattle.gr_rollback.specs.Pasts.{Timeline};
    ghost use Rattle.gr_rollback.specs.Machines.{Stands};

    /// The names of a step and of all that depend on it, in the order of the log. `None` where no such step is kept. Out of
    /// memory only where it is kept.
    pub fn dependents(&self, alloc: Global, id: &StepId) -> Result<Option<Vec<StepId>>, NoMemory>
        ensures { (p : Program) (w : Timeline p) → Stands p w self.now
            → IsTold p w.past.log id.now (dependents (clash p) w.past.log) result }
    {
        let Some(at) = self.course.log.place_of(id) else {
            return Ok(None);
        };
        let ids = names_of_dependents(alloc, &self.course.log, at)?;
        Ok(Some(ids))
    }

    /// The names of a step and of all that it depends on, in the order of the log. `None` where no such step is kept. Out of
    /// memory only where it is kept.
    pub fn causes(&self, alloc: Global, id: &StepId) -> Result<Option<Vec<StepId>>, NoMemory>
        ensures { (p : Program) (w : Timeline p) → Stands p w self.now
            → IsTold p w.past.log id.now (causes (clash p) w.past.log) result }
    {
        let Some(at) = self.course.log.place_of(id) else {
            return Ok(None);
        };
        let ids = names_of_causes(alloc, &self.course.log, at)?;
        Ok(Some(ids))
    }
}
