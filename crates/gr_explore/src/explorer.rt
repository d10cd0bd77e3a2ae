//! A machine that explores, as one that is searched.

ghost use Rattle.std.specs.Prelude.{◌≡◌};
ghost use Rattle.gr_program.specs.Programs.{Program};
ghost use Rattle.gr_rules.specs.States.{State};
ghost use Rattle.gr_explore.specs.Books.{Fits};
ghost use Rattle.gr_explore.specs.Trying.{IsApartAtLast};

use crate::alone::alone_event;
use crate::book::Book;
use crate::looking::offered;
use crate::stepping::{is_at, take, take_back, taken_since};
use gr_base::{Event, NoMemory};
use gr_rollback::Machine;
use gr_schedules::Aim;
use gr_search::key::Key;
use gr_search::searched::{Limit, Searched};
use std::alloc::Global;

/// A machine, with how many steps it stood where the search began, what is looked for, and what was written of its state.
#[derive(Drop)]
pub(crate) struct Explorer<'a> {
    pub(crate) machine: &'a mut Machine,
    pub(crate) base: usize,
    pub(crate) aim: Aim,
    pub(crate) alloc: Global,
    pub(crate) book: &'a mut Book,
}

/// Notes in the book what the last step of the log changed.
fn note_last(alloc: Global, machine: &Machine, book: &mut Book)
    ensures { (p : Program) (s t : State) → IsApartAtLast machine.now s t → Fits p s book.old → Fits p t book.new }
{
    match machine.log().last() {
        Some(last) => book.note(alloc, last),
        None => book.is_whole = false,
    }
}

impl<'a> Searched for Explorer<'a> {
    ghost use Rattle.std.specs.Prelude.{◌≡◌, ℕ, List};
    ghost use Rattle.gr_rules.specs.States.{State as StateOfRules};
    ghost use Rattle.gr_schedules.specs.declared.Aim.{Aim as AimSought};
    ghost use Rattle.gr_schedules.specs.Schedules.{Origin};
    ghost use Rattle.gr_schedules.specs.Aims.{schedules_to};
    ghost use Rattle.gr_schedules.specs.Choices.{AreChoices};
    ghost use Rattle.gr_schedules.specs.Keys.{IsKey};
    ghost use Rattle.gr_schedules.specs.Matters.{Matter as MatterOfState};
    ghost use Rattle.gr_schedules.proofs.AimLemmas.{aim_laws, leads_to};
    ghost use Rattle.gr_schedules.proofs.KeyLemmas.{one_matter};
    ghost use Rattle.gr_explore.specs.Exploring.{StandsSince, events_since, longest_after, origin_of, state_seen};
    ghost use Rattle.gr_explore.specs.Leading.{since_leads};
    ghost use Rattle.gr_explore.specs.Books.{Fits};
    ghost use Rattle.gr_step.specs.Stores.{program_at};
    ghost use Rattle.gr_rollback.specs.Machines.{store_of};

    type Event = Event;

    ghost State = { StateOfRules };

    ghost Matter = { MatterOfState };

    // The reference to the machine, with how many steps it stood, where that was, and what is looked for.
    ghost Fixed = { ℕ × ℕ × Origin × AimSought };

    ghost fixed = { λ e. (e.machine.ghost_name, e.base, origin_of e.machine.now e.base, e.aim) };

    ghost system = { λ f. schedules_to f.3 f.2 };

    ghost means = { λ f key m. IsKey f.2.program key m };

    ghost state = { λ e. state_seen e.machine.now };

    ghost log = { λ e. events_since e.machine.now e.base };

    ghost stands = { λ e. StandsSince e.machine.now e.base × Fits (program_at (store_of e.machine.now)) (state_seen e.machine.now) e.book.now };

    ghost longest = { λ f. longest_after f.2 };

    ghost offers = { λ f s events. AreChoices f.2.program s events };

    fn step(&mut self, event: Event) -> Result<bool, Limit> {
        let taken = take(self.machine, self.base, event);
        note_last(self.alloc, self.machine, self.book);
        taken
    }

    fn back(&mut self) -> Result<(), Limit> {
        note_last(self.alloc, self.machine, self.book);
        take_back(self.alloc, self.machine, self.base)
    }

    fn taken(&self) -> u64 {
        taken_since(self.machine, self.base)
    }

    fn is_bad(&self) -> bool {
        is_at(self.machine, self.aim)
    }

    fn alone(&self, alloc: Global) -> Result<Option<Event>, Limit> {
        match alone_event(alloc, self.machine) {
            Ok(found) => Ok(found),
            Err(NoMemory) => Err(Limit::Memory),
        }
    }

    fn events(&self, alloc: Global) -> Result<Vec<Event>, Limit> {
        match offered(alloc, self.machine, self.book) {
            Ok(events) => Ok(events),
            Err(NoMemory) => Err(Limit::Memory),
        }
    }

    fn key(&mut self, alloc: Global) -> Result<Key, Limit> {
        match self.book.key(alloc, self.machine) {
            Ok(bytes) => Ok(Key::new(bytes)),
            Err(NoMemory) => Err(Limit::Memory),
        }
    }

    ghost leads = { λ e h. leads_to e.aim (origin_of e.machine.now e.base) (events_since e.machine.now e.base)
        (state_seen e.machine.now) (since_leads e.machine.now e.base h.0) };

    ghost laws = { λ e h. aim_laws e.aim (origin_of e.machine.now e.base) h.0.is.stands.holds.run.running.program };

    ghost one = { λ f key m n a b. one_matter f.2.program key m n a b };
}
