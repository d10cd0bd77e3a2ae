//! Questions about the steps that a machine keeps.

ghost use Rattle.std.specs.Prelude.{◌≡◌, IfOk, option_copied, slice_get};
ghost use Rattle.gr_program.specs.Programs.{Program};
ghost use Rattle.gr_depend.specs.Logs.{records_of};
ghost use Rattle.gr_rollback.specs.Machines.{Stands};
ghost use Rattle.gr_rollback.specs.Pasts.{Timeline};
ghost use Rattle.gr_facts.specs.Asked.{Tells, TellsNamed};

use crate::telling::{Facts, told};
use gr_base::{NoMemory, StepId};
use gr_depend::Log;
use gr_record::Record;
use gr_rollback::Machine;
use std::alloc::Global;

/// The record at a place of the log.
fn step_at(log: &Log, place: usize) -> Option<&Record>
    ensures { option_copied result ≡ slice_get (records_of log.now) place }
{
    log.as_slice().get(place)
}

/// What is told of the step at a place of the log, counted from 0. `None` where the log has no such place.
pub fn about_at(alloc: Global, machine: &Machine, place: usize) -> Result<Option<Facts>, NoMemory>
    ensures { IfOk result (λ told. (p : Program) (w : Timeline p) → Stands p w machine.now → Tells p w.past.log place told) }
{
    let log = machine.log();
    let Some(step) = step_at(log, place) else {
        return Ok(None);
    };
    let store = machine.store();
    let told = told(alloc, store.program(), store.code(), log, place, step)?;
    Ok(Some(told))
}

/// What is told of the step of a name. `None` where no such step is kept.
pub fn about(alloc: Global, machine: &Machine, id: &StepId) -> Result<Option<Facts>, NoMemory>
    ensures { IfOk result (λ told. (p : Program) (w : Timeline p) → Stands p w machine.now
        → TellsNamed p w.past.log id.now told) }
{
    match machine.log().place_of(id) {
        Some(place) => about_at(alloc, machine, place),
        None => Ok(None),
    }
}
