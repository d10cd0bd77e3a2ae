//! Stairs, a small machine that can be searched.

ghost use Rattle.std.specs.Prelude.{◌≡◌, IfOk, IfErr};
ghost use Rattle.gr_search.specs.Going.{RefusesLook};
ghost use Rattle.test_parts.specs.Stairs.{stairs, plan_of};

use gr_search::key::Key;
use gr_search::searched::{Limit, Searched};
use std::alloc::Global;
use std::collections::VecDeque;

/// What can be done on the stairs.
#[derive(Clone, Copy)]
pub enum Move {
    Up,
    Fall,
}

/// A move, and the place from which it was made.
#[derive(Clone, Copy)]
pub struct Climb {
    pub by: Move,
    pub from: u8,
}

/// Stairs, with one who climbs them: the place, and the way there, the last move first.
#[derive(Drop)]
pub struct Stairs {
    pub landing: u8,
    pub trap: u8,
    pub place: u8,
    pub way: VecDeque<Climb>,
}

// How many moves a way may have.
const LONGEST: usize = 20;

impl Stairs {
    /// The place to which a move leads. The move to a place past the last one that a number has is out of memory.
    fn after(&self, by: Move) -> Result<Option<u8>, Limit>
        ensures next { IfOk result (λ place. place ≡ (stairs (plan_of self.now)).next self.now.place by) }
        ensures memory { IfErr result RefusesLook }
    {
        match (by, self.place == self.landing) {
            (Move::Fall, true) => Ok(Some(0)),
            (Move::Up, false) => match self.place.checked_add(1) {
                Some(place) => Ok(Some(place)),
                None => Err(Limit::Memory),
            },
            (Move::Up, true) | (Move::Fall, false) => Ok(None),
        }
    }
}

impl Searched for Stairs {
    ghost use Rattle.std.specs.Prelude.{ℕ, length};
    ghost use Rattle.test_parts.specs.Stairs as seen;

    type Event = Move;

    ghost State = { ℕ };

    ghost Matter = { ℕ };

    ghost Fixed = { seen.Plan };

    ghost fixed = { seen.plan_of };

    ghost system = { seen.stairs };

    ghost means = { λ plan key place. seen.IsKey key place };

    ghost state = { λ stairs. stairs.place };

    ghost log = { seen.moves_of };

    ghost stands = { seen.Stands };

    ghost longest = { λ plan. 20 };

    ghost offers = { λ plan place events. seen.AreOffered events };

    fn step(&mut self, event: Move) -> Result<bool, Limit> {
        let Some(place) = self.after(event)? else {
            return Ok(false);
        };
        if self.way.len() == LONGEST {
            return Err(Limit::Steps);
        }
        let climb = Climb {
            by: event,
            from: self.place,
        };
        let Ok(()) = self.way.push_front(climb) else {
            return Err(Limit::Memory);
        };
        self.place = place;
        Ok(true)
    }

    fn back(&mut self) -> Result<(), Limit> {
        if let Some(climb) = self.way.pop_front() {
            self.place = climb.from;
        }
        Ok(())
    }

    fn taken(&self) -> u64 {
        self.way.len() as u64
    }

    fn is_bad(&self) -> bool {
        self.place == self.trap
    }

    fn alone(&self, _alloc: Global) -> Result<Option<Move>, Limit> {
        if self.place == self.landing || self.place == self.trap {
            Ok(None)
        } else {
            Ok(Some(Move::Up))
        }
    }

    fn events(&self, alloc: Global) -> Result<Vec<Move>, Limit> {
        match vec![in alloc; Move::Up, Move::Fall] {
            Ok(events) => Ok(events),
            Err(_) => Err(Limit::Memory),
        }
    }

    fn key(&mut self, alloc: Global) -> Result<Key, Limit> {
        match vec![in alloc; self.place] {
            Ok(bytes) => Ok(Key::new(bytes)),
            Err(_) => Err(Limit::Memory),
        }
    }

    ghost leads = { seen.stairs_lead };

    ghost laws = { λ stairs h. seen.laws_of_stairs (seen.plan_of stairs) };

    ghost one = { λ plan key a b h g. seen.one_place key a b h g };
}
