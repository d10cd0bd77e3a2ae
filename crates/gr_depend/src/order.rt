//! Another order of the steps of a log, given by their names.

ghost use Rattle.std.specs.Prelude.{◌≡◌, ◌<◌, ◌≤◌, ℕ, List, [], ◌++◌, ◌↔◌, IfOk, IfErr, IfNone, IfSome, OnOk, OnErr, IsTrue};
ghost use Rattle.std.specs.Prelude.{MatchOption, length, map, None, Some, replicate, reverse, vec_capacity};
ghost use Rattle.gr_causal.specs.Orders.{IsOrder};
ghost use Rattle.gr_causal.specs.OrderByNames.{NamesEach};
ghost use Rattle.gr_causal.specs.Sequences.{Distinct};
ghost use Rattle.gr_record.specs.Conflicts.{conflict_of};
ghost use Rattle.gr_depend.specs.declared.order.OrderRefused.TheVariants as refusals;
ghost use Rattle.gr_depend.specs.Ordering.{name, elements_at, AreBelow, AreInverse, AreMoves, IsWhy};
ghost use Rattle.gr_depend.specs.Turned.{place_at, AreTurned, AreFirstTurned, TurnedFrom};

use crate::log::Log;
use crate::turning::first_turned;
use gr_base::{NoMemory, StepId};
use gr_record::Record;
use std::alloc::Global;

/// Why the steps of a log are not put in an order.
#[derive(Clone, Copy, Debug, PartialEq, Eq)]
pub enum OrderRefused {
    /// The names are not those of the steps, each once: one is missing, strange or repeated.
    NotTheSteps,
    /// The steps at these two places of the log, counted from 0, conflict and would change places. The second is the first
    /// step of the order that comes before a conflicting step which is earlier in the log. The first is the earliest such
    /// step of the log.
    Breaks { earlier: usize, later: usize },
    /// A growth was refused. There are as many names as steps.
    NoMemory,
}

impl From<NoMemory> for OrderRefused {
    ghost from_gives = { λ _ why. why ≡ refusals.NoMemory };

    fn from(_error: NoMemory) -> OrderRefused {
        OrderRefused::NoMemory
    }
}

/// Where the steps of a log come from, and where they go, in another order.
#[derive(Drop)]
struct Moves {
    /// For each place in the order the place of its step in the log.
    from: Vec<usize>,
    /// For each place in the log the place of its step in the order.
    to: Vec<usize>,
}

/// A list of this many places, all the same.
fn places(alloc: Global, count: usize, place: usize) -> Result<Vec<usize>, NoMemory>
    ensures { IfOk result (λ places. places.items ≡ replicate count place) }
{
    let places = vec![in alloc; place; count]?;
    Ok(places)
}

/// Whether all of these places are below a number.
fn are_below(places: &[usize], count: usize) -> bool
    ensures { IsTrue result ↔ AreBelow count places.now }
{
    places.iter().all(|place| *place < count)
}

/// A vector without elements that has room for as many steps.
fn room_for(alloc: Global, count: usize) -> Result<Vec<Option<Record>>, NoMemory>
    ensures empty { IfOk result (λ steps. steps.items ≡ []) }
    ensures room { IfOk result (λ steps. count ≤ vec_capacity steps) }
{
    let steps = Vec::with_capacity(alloc, count)?;
    Ok(steps)
}

impl Log {
    ghost use Rattle.gr_depend.specs.Logs.{records_of};
    ghost use Rattle.gr_depend.specs.Room.{CanTake};
    ghost use Rattle.gr_record.specs.declared.record.Record.{Record};

    /// Puts the steps in the order of these names. No two steps of the log may have one name.
    ///
    /// # Errors
    ///
    /// `NotTheSteps` where the names are not those of the steps, each once. Else `Breaks` where the order does not respect
    /// dependence. `NoMemory` where a growth was refused, which only as many names as there are steps can want. After an error
    /// the log is as before.
    pub fn permuted(&mut self, alloc: Global, order: &[StepId]) -> Result<(), OrderRefused>
        requires { Distinct (map name (records_of self.old)) }
        ensures order { OnOk result (IsOrder conflict_of (records_of self.old) (records_of self.new)) }
        ensures names { OnOk result (map name (records_of self.new) ≡ order.now) }
        ensures err { OnErr result (records_of self.new ≡ records_of self.old) }
        ensures why { IfErr result (λ why. IsWhy why (records_of self.old) order.now) }
        ensures room { (rest : List Record) → CanTake self.old rest → CanTake self.new rest }
    {
        let moves = self.moves(alloc, order)?;
        if let Some((earlier, later)) = self.first_to_change(&moves.from, &moves.to) {
            return Err(OrderRefused::Breaks { earlier, later });
        }
        self.rearrange(alloc, &moves.from)?;
        Ok(())
    }

    /// The moves of the steps into the order of these names.
    fn moves(&self, alloc: Global, order: &[StepId]) -> Result<Moves, OrderRefused>
        requires { Distinct (map name (records_of self.now)) }
        ensures ok { IfOk result (λ moves. AreMoves (records_of self.now) order.now moves.from.items moves.to.items) }
        ensures count { OnOk result (length order.now ≡ length (records_of self.now)) }
        ensures err { IfErr result (λ why. IsWhy why (records_of self.now) order.now) }
    {
        if order.len() != self.records.len() {
            return Err(OrderRefused::NotTheSteps);
        }
        let mut from = places(alloc, order.len(), 0)?;
        // The number of the names stands for a place that no name has given yet.
        let mut to = places(alloc, self.records.len(), order.len())?;
        if !self.find_moves(order, &mut from, &mut to) {
            return Err(OrderRefused::NotTheSteps);
        }
        Ok(Moves { from, to })
    }

    /// Finds the moves of the steps into the order of these names. It tells whether the names are those of the steps, each once.
    fn find_moves(&self, order: &[StepId], from: &mut [usize], to: &mut [usize]) -> bool
        requires distinct { Distinct (map name (records_of self.now)) }
        requires from { length from.old ≡ length order.now }
        requires to { to.old ≡ replicate (length (records_of self.now)) (length order.now) }
        ensures found { IsTrue result → AreMoves (records_of self.now) order.now from.new to.new }
        ensures others { IsTrue result ↔ NamesEach name (records_of self.now) order.now }
    {
        for i in 0..order.len() {
            let Some(place) = self.place_of(&order[i]) else {
                return false;
            };
            if to[place] < order.len() {
                return false;
            }
            from[i] = place;
            to[place] = i;
        }
        are_below(to, order.len())
    }

    /// The places of the first two steps that change places.
    fn first_to_change(&self, from: &[usize], to: &[usize]) -> Option<(usize, usize)>
        requires places { length to.now ≡ length (records_of self.now) }
        requires inverse { AreInverse from.now to.now }
        ensures { MatchOption result ((p q : ℕ) → AreTurned (records_of self.now) to.now p q
            → ⊥) (λ places. AreFirstTurned (records_of self.now) to.now places.0 places.1) }
    {
        for place in self.first_turned(to, from.len())..from.len() {
            let later = from[place];
            if let Some(earlier) = self.turned_with(later, to) {
                return Some((earlier, later));
            }
        }
        None
    }

    /// The first step of the log that is turned round with the step at a place.
    fn turned_with(&self, later: usize, to: &[usize]) -> Option<usize>
        requires within { later < length (records_of self.now) }
        requires places { length to.now ≡ length (records_of self.now) }
        ensures { MatchOption result ((p : ℕ) → AreTurned (records_of self.now) to.now p later
            → ⊥) (λ earlier. AreTurned (records_of self.now) to.now earlier later
            × ((p : ℕ) → AreTurned (records_of self.now) to.now p later → earlier ≤ p)) }
    {
        for earlier in 0..later {
            if to[later] < to[earlier] && self.conflicts(earlier, later) {
                return Some(earlier);
            }
        }
        None
    }

    /// The first place of the order whose step changes places with an earlier one of the log, or the bound where that is
    /// less. The time is that of the touches.
    fn first_turned(&self, to: &[usize], bound: usize) -> usize
        ensures within { result ≤ bound }
        ensures turned { TurnedFrom result (records_of self.now) to.now }
    {
        let mut first = bound;
        for number in 0..self.lanes.count() {
            first = first_turned(self.lanes.list_with(number), to, first);
        }
        first
    }

    /// Puts the steps in the order in which they come from these places.
    fn rearrange(&mut self, alloc: Global, from: &[usize]) -> Result<(), NoMemory>
        requires distinct { Distinct (records_of self.old) }
        requires order { IsOrder conflict_of (records_of self.old) (elements_at from.now (records_of self.old)) }
        requires within { AreBelow (length (records_of self.old)) from.now }
        ensures ok { OnOk result (records_of self.new ≡ elements_at from.now (records_of self.old)) }
        ensures err { OnErr result (records_of self.new ≡ records_of self.old) }
        ensures room { (rest : List Record) → CanTake self.old rest → CanTake self.new rest }
    {
        let mut steps = room_for(alloc, self.records.len())?;
        self.take_all(&mut steps);
        for i in 0..from.len() {
            let step = steps[from[i]].take().unwrap();
            self.push(step).unwrap();
        }
        Ok(())
    }

    /// Takes all steps out, in their order.
    fn take_all(&mut self, steps: &mut Vec<Option<Record>>)
        requires empty { steps.old.items ≡ [] }
        requires room { length (records_of self.old) ≤ vec_capacity steps.old }
        ensures steps { steps.new.items ≡ map Some (records_of self.old) }
        ensures none { records_of self.new ≡ [] }
        ensures room { (rest : List Record) → CanTake self.old rest → CanTake self.new (records_of self.old ++ rest) }
    {
        while let Some(step) = self.pop() {
            steps.push_reserved(Some(step));
        }
        steps.reverse();
    }
}
