//! The steps that are kept, put in another order.

ghost use Rattle.std.specs.Prelude.{◌≡◌, ◌<◌, length, IfOk};
ghost use Rattle.gr_program.specs.Programs.{Program};
ghost use Rattle.gr_step.specs.Stores.{taken_at, SameListing};
ghost use Rattle.gr_depend.specs.Logs.{records_of};
ghost use Rattle.gr_depend.specs.Named.{IsNamed};
ghost use Rattle.gr_rollback.specs.Reordering.{NamesPair};

use crate::machine::Machine;
use crate::refusal::BackRefused;
use gr_base::{NoMemory, StepId};
use gr_depend::{Log, OrderRefused};
use std::alloc::Global;

/// The names of the steps at two places of the log.
fn names_at(
    alloc: Global,
    log: &Log,
    earlier: usize,
    later: usize,
) -> Result<(StepId, StepId), NoMemory>
    requires earlier { earlier < length (records_of log.now) }
    requires later { later < length (records_of log.now) }
    ensures earlier { IfOk result (λ names. IsNamed (records_of log.now) earlier names.0) }
    ensures later { IfOk result (λ names. IsNamed (records_of log.now) later names.1) }
{
    let first = log.record(earlier).id.copy(alloc)?;
    let second = log.record(later).id.copy(alloc)?;
    Ok((first, second))
}

/// The refusal that names the steps at two places of the log, or, where there is no memory for their names, that.
fn broken(alloc: Global, log: &Log, earlier: usize, later: usize) -> BackRefused
    requires earlier { earlier < length (records_of log.now) }
    requires later { later < length (records_of log.now) }
    ensures { NamesPair (records_of log.now) earlier later result }
{
    match names_at(alloc, log, earlier, later) {
        Ok((first, second)) => BackRefused::BreaksDependence(first, second),
        Err(NoMemory) => BackRefused::NoMemory(Vec::new(alloc)),
    }
}

impl Machine {
    ghost use Rattle.gr_rollback.specs.Pasts.{Timeline};
    ghost use Rattle.gr_rollback.specs.Machines.{store_of, Stands, IsMachine};
    ghost use Rattle.gr_rollback.specs.Backs.{Reordered};

    /// Puts the steps in the order of their names. The order is accepted exactly where it respects dependence. The state stays,
    /// and nothing may be done again. Refused, nothing has changed.
    pub fn reorder(&mut self, alloc: Global, ids: &[StepId]) -> Result<(), BackRefused>
        requires { IsMachine self.old }
        ensures reordered { (p : Program) (w : Timeline p) → Stands p w self.old → Reordered p w ids.now result self.new }
        ensures store { store_of self.new ≡ store_of self.old }
        ensures listing { SameListing (store_of self.old) (store_of self.new) }
        ensures taken { taken_at (store_of self.new) ≡ taken_at (store_of self.old) }
    {
        match self.course.log.permuted(alloc, ids) {
            Ok(()) => {
                self.again.clear();
                Ok(())
            }
            Err(OrderRefused::NotTheSteps) => Err(BackRefused::NotTheSteps),
            Err(OrderRefused::Breaks { earlier, later }) => {
                Err(broken(alloc, &self.course.log, earlier, later))
            }
            Err(OrderRefused::NoMemory) => Err(BackRefused::NoMemory(Vec::new(alloc))),
        }
    }
}
