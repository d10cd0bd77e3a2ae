//! A search for a run of the fewest steps that leads to a bad state.

ghost use Rattle.std.specs.Prelude.{◌≡◌, ◌+◌, ◌-◌, ◌<◌, [], List, ℕ, Some, None, length};
ghost use Rattle.gr_search.specs.System.{Leads};
ghost use Rattle.gr_search.specs.Bounds.{IsSafeWithin};
ghost use Rattle.gr_search.specs.Shortest.{IsShortest};
ghost use Rattle.gr_search.specs.Narrowing.{IsBetween, IsCloser, IsCutAt, IsNarrowed};
ghost use Rattle.gr_search.specs.declared.shortest.Between.{Between as Numbers};

use crate::bounded::search_within;
use crate::search::{Answer, Limits, search, take_all_back};
use crate::searched::{Limit, Searched};
use std::alloc::Global;

/// What a search for the fewest steps came to.
#[derive(Clone, Copy)]
pub enum Shortest {
    /// No run from the start reaches a bad state. So many states were seen, and each of their events leads to one of them.
    Nothing(usize),
    /// The machine stands in a bad state, and no run of fewer steps than its log reaches one.
    Found,
    /// A limit was met.
    Limited(Unfinished),
}

/// What is known where a limit was met.
#[derive(Clone, Copy)]
pub struct Unfinished {
    /// The limit that was met in a search of runs of one step more than are safe.
    pub limit: Limit,
    /// No run of at most so many steps reaches a bad state.
    pub safe: u64,
    /// A run of so many steps reaches one, if one was found.
    pub known: Option<u64>,
}

/// Why no runs of more steps are searched.
#[derive(Clone, Copy)]
enum End {
    /// A run of so many steps reaches a bad state.
    Bad,
    /// The search of runs of at most so many steps met a limit.
    Cut(Limit),
}

/// Between which numbers the fewest steps are.
#[derive(Clone, Copy)]
struct Between {
    /// No run of at most so many steps reaches a bad state.
    safe: u64,
    /// No runs of more steps are searched.
    top: u64,
    end: End,
    /// A run of so many steps reaches a bad state, if one was found.
    known: Option<u64>,
}

/// Whether a search goes on between two numbers, or has ended.
#[derive(Clone, Copy)]
enum Narrowed {
    GoesOn(Between),
    Ended(Shortest),
}

/// Goes on from a run that leads to a bad state, in which the machine stands: to fewer steps, unless it has only one more than are
/// safe.
fn come_closer<M: Searched>(machine: &mut M, safe: u64) -> Narrowed
    requires stands { M.stands machine.old }
    requires safe { IsSafeWithin (M.system (M.fixed machine.old)) safe }
    requires bad { (M.system (M.fixed machine.old)).bad (M.state machine.old) }
    requires room { safe < 0xFFFF_FFFF_FFFF_FFFF }
    ensures stands { M.stands machine.new }
    ensures fixed { M.fixed machine.new ≡ M.fixed machine.old }
    ensures narrowed { (states turns : ℕ) → IsNarrowed (M.system (M.fixed machine.old)) (M.means (M.fixed machine.old))
        (M.offers (M.fixed machine.old)) (M.longest (M.fixed machine.old)) states turns result (M.log machine.new) (M.state machine.new) }
    ensures closer { (b : Numbers) → b.safe ≡ safe → length (M.log machine.old) < b.top → IsCloser b result }
{
    let steps = machine.taken();
    if steps == safe + 1 {
        return Narrowed::Ended(Shortest::Found);
    }
    match take_all_back(machine) {
        Ok(()) => Narrowed::GoesOn(Between {
            safe,
            top: steps,
            end: End::Bad,
            known: Some(steps),
        }),
        Err(limit) => Narrowed::Ended(Shortest::Limited(Unfinished {
            limit,
            safe,
            known: Some(steps),
        })),
    }
}

/// Goes on after the search of runs of at most so many steps met a limit, unless it was met on the way back.
fn cut_at(limit: Limit, top: u64, safe: u64, known: Option<u64>) -> Narrowed
    ensures { IsCutAt limit top safe known result }
{
    match limit {
        Limit::Back => Narrowed::Ended(Shortest::Limited(Unfinished { limit, safe, known })),
        _ => Narrowed::GoesOn(Between {
            safe,
            top,
            end: End::Cut(limit),
            known,
        }),
    }
}

/// Searches the runs of at most a number of steps between the two.
fn narrow_once<M: Searched>(
    alloc: Global,
    machine: &mut M,
    between: Between,
    limits: &Limits,
) -> Narrowed
    requires stands { M.stands machine.old }
    requires start { M.log machine.old ≡ [] }
    requires between { IsBetween (M.system (M.fixed machine.old)) (M.means (M.fixed machine.old)) (M.offers (M.fixed machine.old))
        (M.longest (M.fixed machine.old)) limits.now.states limits.now.turns between }
    requires apart { between.safe + 1 < between.top }
    ensures stands { M.stands machine.new }
    ensures fixed { M.fixed machine.new ≡ M.fixed machine.old }
    ensures narrowed { IsNarrowed (M.system (M.fixed machine.old)) (M.means (M.fixed machine.old)) (M.offers (M.fixed machine.old))
        (M.longest (M.fixed machine.old)) limits.now.states limits.now.turns result (M.log machine.new) (M.state machine.new) }
    ensures closer { IsCloser between result }
{
    let half = (between.top - between.safe) / 2;
    let middle = between.safe + half.min(between.safe + 1);
    match search_within(alloc, machine, middle, limits) {
        Answer::Nothing(_) => Narrowed::GoesOn(Between {
            safe: middle,
            ..between
        }),
        Answer::Found => come_closer(machine, between.safe),
        Answer::Limited(limit) => cut_at(limit, middle, between.safe, between.known),
    }
}

/// Ends where the two numbers are next to each other.
fn settle<M: Searched>(
    alloc: Global,
    machine: &mut M,
    between: Between,
    limits: &Limits,
) -> Shortest
    requires stands { M.stands machine.old }
    requires start { M.log machine.old ≡ [] }
    requires between { IsBetween (M.system (M.fixed machine.old)) (M.means (M.fixed machine.old)) (M.offers (M.fixed machine.old))
        (M.longest (M.fixed machine.old)) limits.now.states limits.now.turns between }
    requires next { between.safe + 1 ≡ between.top }
    ensures stands { M.stands machine.new }
    ensures fixed { M.fixed machine.new ≡ M.fixed machine.old }
    ensures ends { IsShortest (M.system (M.fixed machine.old)) (M.means (M.fixed machine.old)) (M.offers (M.fixed machine.old))
        (M.longest (M.fixed machine.old)) limits.now.states limits.now.turns result (M.log machine.new) (M.state machine.new) }
{
    let limit = match between.end {
        End::Cut(limit) => limit,
        End::Bad => match search_within(alloc, machine, between.top, limits) {
            Answer::Found => return Shortest::Found,
            Answer::Nothing(_) => unreachable!(),
            Answer::Limited(limit) => limit,
        },
    };
    Shortest::Limited(Unfinished {
        limit,
        safe: between.safe,
        known: between.known,
    })
}

/// Searches until the two numbers are next to each other, or the fewest steps are found.
fn narrow<M: Searched>(alloc: Global, machine: &mut M, first: Between, limits: &Limits) -> Shortest
    requires stands { M.stands machine.old }
    requires start { M.log machine.old ≡ [] }
    requires between { IsBetween (M.system (M.fixed machine.old)) (M.means (M.fixed machine.old)) (M.offers (M.fixed machine.old))
        (M.longest (M.fixed machine.old)) limits.now.states limits.now.turns first }
    ensures stands { M.stands machine.new }
    ensures fixed { M.fixed machine.new ≡ M.fixed machine.old }
    ensures ends { IsShortest (M.system (M.fixed machine.old)) (M.means (M.fixed machine.old)) (M.offers (M.fixed machine.old))
        (M.longest (M.fixed machine.old)) limits.now.states limits.now.turns result (M.log machine.new) (M.state machine.new) }
{
    let mut between = first;
    while between.safe + 1 < between.top {
        match narrow_once(alloc, machine, between, limits) {
            Narrowed::GoesOn(closer) => between = closer,
            Narrowed::Ended(shortest) => return shortest,
        }
    }
    settle(alloc, machine, between, limits)
}

/// Searches all runs.
fn search_all<M: Searched>(alloc: Global, machine: &mut M, limits: &Limits) -> Narrowed
    requires stands { M.stands machine.old }
    requires start { M.log machine.old ≡ [] }
    requires safe { IsSafeWithin (M.system (M.fixed machine.old)) 0 }
    ensures stands { M.stands machine.new }
    ensures fixed { M.fixed machine.new ≡ M.fixed machine.old }
    ensures narrowed { IsNarrowed (M.system (M.fixed machine.old)) (M.means (M.fixed machine.old)) (M.offers (M.fixed machine.old))
        (M.longest (M.fixed machine.old)) limits.now.states limits.now.turns result (M.log machine.new) (M.state machine.new) }
{
    match search(alloc, machine, limits) {
        Answer::Nothing(states) => Narrowed::Ended(Shortest::Nothing(states)),
        Answer::Found => come_closer(machine, 0),
        Answer::Limited(limit) => cut_at(limit, u64::MAX, 0, None),
    }
}

/// Searches the machine, which stands at its start, for a run of the fewest steps that leads to a bad state. It searches all runs,
/// and then those of at most so many steps, for several numbers. Each of these searches has the limits for itself.
///
/// After every answer but `Found` the machine stands at its start again, unless a step could not be taken back.
pub fn search_shortest<M: Searched>(alloc: Global, machine: &mut M, limits: &Limits) -> Shortest
    requires stands { M.stands machine.old }
    requires start { M.log machine.old ≡ [] }
    ensures stands { M.stands machine.new }
    ensures fixed { M.fixed machine.new ≡ M.fixed machine.old }
    // no run reaches a bad state; or the log leads to one, and no run of fewer steps does; or a limit was met where runs of one
    // step more are searched than are safe
    ensures ends { IsShortest (M.system (M.fixed machine.old)) (M.means (M.fixed machine.old)) (M.offers (M.fixed machine.old))
        (M.longest (M.fixed machine.old)) limits.now.states limits.now.turns result (M.log machine.new) (M.state machine.new) }
    ensures leads { Leads (M.system (M.fixed machine.old)) (M.log machine.new) (M.state machine.new) }
{
    if machine.is_bad() {
        return Shortest::Found;
    }
    match search_all(alloc, machine, limits) {
        Narrowed::GoesOn(between) => narrow(alloc, machine, between, limits),
        Narrowed::Ended(shortest) => shortest,
    }
}
