//! The steps that were taken back last, done again.

ghost use Rattle.std.specs.Prelude.{◌≡◌, ◌+◌, ◌<◌, ◌≤◌, [], vec_len, vec_capacity, IfErr, OnOk, OnErr};
ghost use Rattle.gr_program.specs.Programs.{Program};
ghost use Rattle.gr_step.specs.declared.refusal.StepRefused.TheVariants as refusals;
ghost use Rattle.gr_step.specs.Stores.{contents_at, taken_at, SameListing};

use crate::machine::Machine;
use crate::refusal::BackRefused;
use gr_base::{Event, NoMemory, StepId};
use gr_step::StepRefused;
use std::alloc::Global;

/// Why a step is refused that the rules allow.
fn only_memory(why: StepRefused) -> NoMemory
    requires { why ≡ refusals.NoMemory }
{
    match why {
        StepRefused::NoMemory => NoMemory,
        _ => unreachable!(),
    }
}

impl Machine {
    ghost use Rattle.gr_rollback.specs.Pasts.{Timeline};
    ghost use Rattle.gr_rollback.specs.Machines.{store_of, again_of, Stands, IsMachine};
    ghost use Rattle.gr_rollback.specs.Redoing.{GoesOn};
    ghost use Rattle.gr_rollback.specs.Backs.{CountsAgain, NamesNone, TakenAgain};
    ghost use Rattle.gr_rollback.specs.Stepping.{counted, one_more, MayCountOne};

    /// Takes the next of the steps again, whose name joins the others. Refused, nothing has changed.
    fn take_next(&mut self, alloc: Global, ids: &mut Vec<StepId>) -> Result<(), NoMemory>
        requires machine { IsMachine self.old }
        requires some { 0 < vec_len self.old.again }
        requires room { vec_len ids.old < vec_capacity ids.old }
        ensures goes { (p : Program) (w : Timeline p) → Stands p w self.old → GoesOn p w ids.old.items ids.new.items self.new }
        ensures taken { OnOk result (taken_at (store_of self.new) ≡ one_more (taken_at (store_of self.old))) }
        ensures not_taken { OnErr result (MayCountOne 0 (taken_at (store_of self.old)) (taken_at (store_of self.new))) }
        ensures ok { OnOk result (vec_len self.new.again + 1 ≡ vec_len self.old.again) }
        ensures ok_ids { OnOk result (vec_len ids.new ≡ vec_len ids.old + 1) }
        ensures ok_room { OnOk result (vec_capacity ids.new ≡ vec_capacity ids.old) }
        ensures err { OnErr result (vec_len self.new.again ≡ vec_len self.old.again) }
        ensures err_ids { OnErr result (vec_len ids.new ≡ vec_len ids.old) }
        ensures err_contents { OnErr result (contents_at (store_of self.new) ≡ contents_at (store_of self.old)) }
        ensures listing { SameListing (store_of self.old) (store_of self.new) }
    {
        let event = self.again.last().unwrap().copy(alloc)?;
        match self.course.keep(event.go, Some(event.choice)) {
            Ok(told) => {
                let Event { go, .. } = self.again.pop().unwrap();
                ids.push_reserved(StepId {
                    go,
                    n: told.ordinal,
                });
                Ok(())
            }
            Err(why) => Err(only_memory(why)),
        }
    }

    /// Takes the steps again, and puts down their names. Refused, it stands where it came to.
    fn take_all(&mut self, alloc: Global, ids: &mut Vec<StepId>) -> Result<(), NoMemory>
        requires machine { IsMachine self.old }
        requires room { vec_len ids.old + vec_len self.old.again ≤ vec_capacity ids.old }
        requires none { vec_len ids.old ≡ 0 }
        ensures goes { (p : Program) (w : Timeline p) → Stands p w self.old → GoesOn p w ids.old.items ids.new.items self.new }
        ensures taken { OnOk result (taken_at (store_of self.new) ≡ counted (vec_len ids.new) (taken_at (store_of self.old))) }
        ensures not_taken { OnErr result
            (MayCountOne (vec_len ids.new) (taken_at (store_of self.old)) (taken_at (store_of self.new))) }
        ensures all { OnOk result (vec_len self.new.again ≡ 0) }
        ensures left { OnErr result (0 < vec_len self.new.again) }
        ensures stays { OnErr result
            (vec_len ids.new ≡ 0 → contents_at (store_of self.new) ≡ contents_at (store_of self.old)) }
        ensures listing { SameListing (store_of self.old) (store_of self.new) }
    {
        while !self.again.is_empty() {
            self.take_next(alloc, ids)?;
        }
        Ok(())
    }

    /// Takes again the steps that the last `undo` or `back` took back, in their old order and with their choices, and answers
    /// their names. There are none where another step or order came since. Where memory runs out on the way, the first of these
    /// steps are taken. The refusal names them, and the others may still be done.
    pub fn redo(&mut self, alloc: Global) -> Result<Vec<StepId>, BackRefused>
        requires { IsMachine self.old }
        ensures again { (p : Program) (w : Timeline p) → Stands p w self.old → TakenAgain p w result self.new }
        ensures taken { CountsAgain result (taken_at (store_of self.old)) (taken_at (store_of self.new)) }
        ensures err { IfErr result (λ why. NamesNone why → contents_at (store_of self.new) ≡ contents_at (store_of self.old)) }
        ensures listing { SameListing (store_of self.old) (store_of self.new) }
    {
        if self.again.is_empty() {
            return Err(BackRefused::NothingToRedo);
        }
        let Ok(ids) = Vec::with_capacity(alloc, self.again.len()) else {
            return Err(BackRefused::NoMemory(Vec::new(alloc)));
        };
        let mut ids = ids;
        match self.take_all(alloc, &mut ids) {
            Ok(()) => Ok(ids),
            Err(NoMemory) => Err(BackRefused::NoMemory(ids)),
        }
    }
}
