//! A machine of which only the runs of at most so many steps are searched.

ghost use Rattle.std.specs.Prelude.{◌≡◌, ◌≤◌, [], length, ℕ};
ghost use Rattle.gr_search.specs.System.{Leads};
ghost use Rattle.gr_search.specs.Going.{HasClosed, IsHome, Met};
ghost use Rattle.gr_search.specs.Bounds.{IsSafeWithin, bounded as bounded_by, MeansWithin, OffersWithin};
ghost use Rattle.gr_search.specs.declared.searched.Limit.{Limit as LimitMet};

use crate::key::Key;
use crate::search::{Answer, Limits, search};
use crate::searched::{Limit, Searched};
use std::alloc::Global;

/// A machine, and how many steps its runs may have.
#[derive(Drop)]
pub(crate) struct Bounded<'a, M> {
    pub(crate) machine: &'a mut M,
    pub(crate) most: u64,
}

impl<'a, M: Searched> Searched for Bounded<'a, M> {
    ghost use Rattle.std.specs.Prelude.{◌≡◌, ◌≤◌, ◌-◌, length, ℕ};
    ghost use Rattle.gr_search.specs.Bounds.{bounded, MeansWithin, OffersWithin};
    ghost use Rattle.gr_search.specs.BoundLaws.{left_and_taken, leads_within, bounded_laws, one_within};

    type Event = M::Event;

    ghost State = { M.State × ℕ };

    ghost Matter = { M.Matter × ℕ };

    // The reference to the machine, with what stays of it, and how many steps its runs may have.
    ghost Fixed = { ℕ × M.Fixed × ℕ };

    ghost fixed = { λ b. (b.machine.ghost_name, M.fixed b.machine.now, b.most) };

    ghost system = { λ f. bounded f.2 (M.system f.1) };

    ghost means = { λ f. MeansWithin (M.means f.1) };

    ghost state = { λ b. (M.state b.machine.now, b.most - length (M.log b.machine.now)) };

    ghost log = { λ b. M.log b.machine.now };

    ghost stands = { λ b. M.stands b.machine.now × (length (M.log b.machine.now) ≤ b.most) };

    ghost longest = { λ f. M.longest f.1 };

    ghost offers = { λ f. OffersWithin (M.offers f.1) };

    fn step(&mut self, event: M::Event) -> Result<bool, Limit> {
        if self.machine.taken() == self.most {
            return Ok(false);
        }
        self.machine.step(event)
    }

    fn back(&mut self) -> Result<(), Limit> {
        self.machine.back()
    }

    fn taken(&self) -> u64 {
        self.machine.taken()
    }

    fn is_bad(&self) -> bool {
        self.machine.is_bad()
    }

    fn alone(&self, _alloc: Global) -> Result<Option<M::Event>, Limit> {
        Ok(None)
    }

    fn events(&self, alloc: Global) -> Result<Vec<M::Event>, Limit> {
        if self.machine.taken() == self.most {
            return Ok(Vec::new(alloc));
        }
        self.machine.events(alloc)
    }

    fn key(&mut self, alloc: Global) -> Result<Key, Limit> {
        let left = self.most - self.machine.taken();
        match self.machine.key(alloc)?.with_number(left) {
            Ok(key) => Ok(key),
            Err(_) => Err(Limit::Memory),
        }
    }

    ghost leads = { λ b h. leads_within (M.system (M.fixed b.machine.now)) b.most (M.log b.machine.now)
        (M.state b.machine.now) (b.most - length (M.log b.machine.now)) (M.leads b.machine.now h.0) (left_and_taken _ _ h.1) };

    ghost laws = { λ b h. bounded_laws (M.system (M.fixed b.machine.now)) b.most (M.laws b.machine.now h.0) };

    ghost one = { λ f. one_within (M.means f.1) (M.one f.1) };
}

/// Searches the runs of at most so many steps of the machine, which stands at its start, for one that leads to a bad state. No step
/// is taken alone. After every answer but `Found` the machine stands at its start again, unless a step could not be taken back.
pub fn search_within<M: Searched>(
    alloc: Global,
    machine: &mut M,
    most: u64,
    limits: &Limits,
) -> Answer
    requires stands { M.stands machine.old }
    requires start { M.log machine.old ≡ [] }
    ensures stands { M.stands machine.new }
    ensures fixed { M.fixed machine.new ≡ M.fixed machine.old }
    ensures home { IsHome result (M.log machine.new) }
    // no run from the start of at most so many steps, with any choices, reaches a bad state
    ensures nothing { (states : ℕ) → result ≡ Answer.Nothing states → IsSafeWithin (M.system (M.fixed machine.old)) most }
    // the log is such a run that leads to a bad state
    ensures found { result ≡ Answer.Found → (M.system (M.fixed machine.old)).bad (M.state machine.new) }
    ensures leads { result ≡ Answer.Found → Leads (M.system (M.fixed machine.old)) (M.log machine.new) (M.state machine.new) }
    ensures within { result ≡ Answer.Found → length (M.log machine.new) ≤ most }
    // the same as for a search of all runs, where states with another number of steps left are others
    ensures closed { (states : ℕ) → result ≡ Answer.Nothing states
        → HasClosed (bounded_by most (M.system (M.fixed machine.old))) (MeansWithin (M.means (M.fixed machine.old))) states }
    ensures limited { (limit : LimitMet) → result ≡ Answer.Limited limit
        → Met (bounded_by most (M.system (M.fixed machine.old))) (MeansWithin (M.means (M.fixed machine.old)))
        (OffersWithin (M.offers (M.fixed machine.old))) (M.longest (M.fixed machine.old)) limits.now.states limits.now.turns limit }
{
    let mut bounded = Bounded { machine, most };
    search(alloc, &mut bounded, limits)
}
