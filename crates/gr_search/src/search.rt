//! The search, depth first.

ghost use Rattle.std.specs.Prelude.{◌≡◌, ◌⊎◌, ◌+◌, IfOk, IfErr, OnOk, drop, true, false, Some, [], List, ℕ};
ghost use Rattle.gr_search.specs.System.{Follows, IsSafe, Leads};
ghost use Rattle.gr_search.specs.Going.{Going, Arriving, Turned, Known, RefusesBack, RefusesLook, AreReached, keys_of, tries};
ghost use Rattle.gr_search.specs.Going.{Met, MetThere, MetByRun, Does, Ended, HasClosed, IsHome};

use crate::key::Key;
use crate::searched::{Limit, Searched};
use std::alloc::Global;
use std::collections::{HashSet, VecDeque};

/// What is still to be done.
#[derive(Drop)]
pub enum Task<E> {
    /// Tries an event where the machine then stands.
    Try(E),
    /// Takes so many steps back.
    TakeBack(u64),
}

/// How far a search goes.
#[derive(Clone, Copy)]
pub struct Limits {
    /// How many steps in a row may be taken alone before a state is looked at. With 0 no step is taken alone.
    pub alone: u32,
    /// How many keys may be kept.
    pub states: usize,
    /// How many tasks may be done. Each event that is tried is one, and so is each return from a state.
    pub turns: u64,
}

/// What a turn of the search came to.
#[derive(Clone, Copy)]
pub enum Turn {
    GoOn,
    Found,
    Done,
}

/// Takes steps that may be taken alone, at most so many. Tells how many.
fn follow<M: Searched>(alloc: Global, machine: &mut M, most: u32) -> Result<u32, Limit>
    requires { M.stands machine.old }
    ensures stands { M.stands machine.new }
    ensures fixed { M.fixed machine.new ≡ M.fixed machine.old }
    ensures follows { OnOk result (Follows (M.system (M.fixed machine.old)) (M.state machine.old) (M.state machine.new)) }
    ensures log { IfOk result (λ n. drop n (M.log machine.new) ≡ M.log machine.old) }
    ensures met { IfErr result (MetByRun (M.system (M.fixed machine.old)) (M.means (M.fixed machine.old))
        (M.longest (M.fixed machine.old))) }
{
    for count in 0..most {
        match machine.alone(alloc) {
            Err(limit) => return Err(limit),
            Ok(None) => return Ok(count),
            Ok(Some(event)) => match machine.step(event) {
                Err(limit) => return Err(limit),
                Ok(false) => return Ok(count),
                Ok(true) => {}
            },
        }
    }
    Ok(most)
}

/// Takes so many steps back.
fn go_back<M: Searched>(machine: &mut M, count: u64) -> Result<(), Limit>
    requires { M.stands machine.old }
    ensures stands { M.stands machine.new }
    ensures fixed { M.fixed machine.new ≡ M.fixed machine.old }
    ensures log { OnOk result (M.log machine.new ≡ drop count (M.log machine.old)) }
    ensures refuses { IfErr result RefusesBack }
{
    for _ in 0..count {
        match machine.back() {
            Err(limit) => return Err(limit),
            Ok(()) => {}
        }
    }
    Ok(())
}

/// Lets tries of these events come before the tasks.
fn push_tries<E: Drop>(tasks: &mut VecDeque<Task<E>>, events: Vec<E>) -> Result<(), Limit>
    ensures tries { OnOk result (tasks.new.items ≡ tries events.items tasks.old.items) }
    ensures refuses { IfErr result RefusesLook }
{
    for event in events {
        if let Err(_) = tasks.push_front(Task::Try(event)) {
            return Err(Limit::Memory);
        }
    }
    Ok(())
}

/// Looks at the state to which so many steps led, after which the tasks go on from before them. Its events are tried where its
/// key is new; else the steps are taken back.
fn arrive<M: Searched>(
    alloc: Global,
    machine: &mut M,
    seen: &mut HashSet<Key>,
    tasks: &mut VecDeque<Task<M::Event>>,
    steps: u64,
    most: usize,
) -> Result<Turn, Limit>
    requires stands { M.stands machine.old }
    requires arriving { Arriving (M.system (M.fixed machine.old))
        (Known (M.means (M.fixed machine.old)) (keys_of seen.old)) tasks.old.items (drop steps (M.log machine.old)) (M.state machine.old) }
    requires reached { AreReached (M.system (M.fixed machine.old)) (M.means (M.fixed machine.old)) (keys_of seen.old) }
    ensures stands { M.stands machine.new }
    ensures fixed { M.fixed machine.new ≡ M.fixed machine.old }
    ensures turned { IfOk result (λ turn. Turned (M.system (M.fixed machine.old)) turn
        (Known (M.means (M.fixed machine.old)) (keys_of seen.new)) tasks.new.items (M.log machine.new) (M.state machine.new)) }
    ensures reached { AreReached (M.system (M.fixed machine.old)) (M.means (M.fixed machine.old)) (keys_of seen.new) }
    ensures met { IfErr result (MetThere (M.system (M.fixed machine.old)) (M.means (M.fixed machine.old))
        (M.offers (M.fixed machine.old)) (M.longest (M.fixed machine.old)) most) }
    ensures does { OnOk result ((done : ℕ)
        → Does (M.system (M.fixed machine.old)) (M.means (M.fixed machine.old)) (M.offers (M.fixed machine.old))
        (keys_of seen.old) tasks.old.items done
        → Does (M.system (M.fixed machine.old)) (M.means (M.fixed machine.old)) (M.offers (M.fixed machine.old))
        (keys_of seen.new) tasks.new.items done) }
{
    if machine.is_bad() {
        return Ok(Turn::Found);
    }
    let key = machine.key(alloc)?;
    let Ok(is_new) = seen.insert(key) else {
        return Err(Limit::Memory);
    };
    if !is_new {
        go_back(machine, steps)?;
        return Ok(Turn::GoOn);
    }
    if seen.len() > most {
        return Err(Limit::States);
    }
    let events = machine.events(alloc)?;
    let Ok(()) = tasks.push_front(Task::TakeBack(steps)) else {
        return Err(Limit::Memory);
    };
    push_tries(tasks, events)?;
    Ok(Turn::GoOn)
}

/// Does the next task.
fn take_turn<M: Searched>(
    alloc: Global,
    machine: &mut M,
    seen: &mut HashSet<Key>,
    tasks: &mut VecDeque<Task<M::Event>>,
    limits: &Limits,
) -> Result<Turn, Limit>
    requires stands { M.stands machine.old }
    requires going { Going (M.system (M.fixed machine.old)) (Known (M.means (M.fixed machine.old)) (keys_of seen.old))
        tasks.old.items (M.log machine.old) }
    requires reached { AreReached (M.system (M.fixed machine.old)) (M.means (M.fixed machine.old)) (keys_of seen.old) }
    ensures stands { M.stands machine.new }
    ensures fixed { M.fixed machine.new ≡ M.fixed machine.old }
    ensures turned { IfOk result (λ turn. Turned (M.system (M.fixed machine.old)) turn
        (Known (M.means (M.fixed machine.old)) (keys_of seen.new)) tasks.new.items (M.log machine.new) (M.state machine.new)) }
    ensures reached { AreReached (M.system (M.fixed machine.old)) (M.means (M.fixed machine.old)) (keys_of seen.new) }
    ensures met { IfErr result (MetThere (M.system (M.fixed machine.old)) (M.means (M.fixed machine.old))
        (M.offers (M.fixed machine.old)) (M.longest (M.fixed machine.old)) limits.now.states) }
    ensures does { IfOk result (λ turn. turn ≡ Turn.GoOn → (done : ℕ)
        → Does (M.system (M.fixed machine.old)) (M.means (M.fixed machine.old)) (M.offers (M.fixed machine.old))
        (keys_of seen.old) tasks.old.items done
        → Does (M.system (M.fixed machine.old)) (M.means (M.fixed machine.old)) (M.offers (M.fixed machine.old))
        (keys_of seen.new) tasks.new.items (done + 1)) }
{
    match tasks.pop_front() {
        None => Ok(Turn::Done),
        Some(Task::TakeBack(count)) => {
            go_back(machine, count)?;
            Ok(Turn::GoOn)
        }
        Some(Task::Try(event)) => {
            if !machine.step(event)? {
                return Ok(Turn::GoOn);
            }
            let more = follow(alloc, machine, limits.alone)?;
            arrive(alloc, machine, seen, tasks, more as u64 + 1, limits.states)
        }
    }
}

/// What a search came to.
#[derive(Clone, Copy)]
pub enum Answer {
    /// No run from the start reaches a bad state. So many states were seen, and each of their events leads to one of them.
    Nothing(usize),
    /// The machine stands in a bad state, and its log leads there.
    Found,
    /// A limit was met.
    Limited(Limit),
}

/// Looks at the start.
fn begin<M: Searched>(
    alloc: Global,
    machine: &mut M,
    seen: &mut HashSet<Key>,
    tasks: &mut VecDeque<Task<M::Event>>,
    limits: &Limits,
) -> Result<Turn, Limit>
    requires stands { M.stands machine.old }
    requires start { M.log machine.old ≡ [] }
    requires no_keys { (k : List ℕ) → keys_of seen.old k ≡ false }
    requires no_tasks { tasks.old.items ≡ [] }
    ensures stands { M.stands machine.new }
    ensures fixed { M.fixed machine.new ≡ M.fixed machine.old }
    ensures turned { IfOk result (λ turn. Turned (M.system (M.fixed machine.old)) turn
        (Known (M.means (M.fixed machine.old)) (keys_of seen.new)) tasks.new.items (M.log machine.new) (M.state machine.new)) }
    ensures reached { AreReached (M.system (M.fixed machine.old)) (M.means (M.fixed machine.old)) (keys_of seen.new) }
    ensures met { IfErr result (MetThere (M.system (M.fixed machine.old)) (M.means (M.fixed machine.old))
        (M.offers (M.fixed machine.old)) (M.longest (M.fixed machine.old)) limits.now.states) }
    ensures does { OnOk result (Does (M.system (M.fixed machine.old)) (M.means (M.fixed machine.old))
        (M.offers (M.fixed machine.old)) (keys_of seen.new) tasks.new.items 0) }
{
    let steps = follow(alloc, machine, limits.alone)?;
    arrive(alloc, machine, seen, tasks, steps as u64, limits.states)
}

/// What exploring came to.
#[derive(Clone, Copy)]
enum Explored {
    /// The machine stands in a bad state.
    BadState,
    /// Nothing is left, and so many states were seen.
    AllStates(usize),
}

/// Explores until nothing is left, a bad state is found, or a limit is met.
fn explore<M: Searched>(alloc: Global, machine: &mut M, limits: &Limits) -> Result<Explored, Limit>
    requires stands { M.stands machine.old }
    requires start { M.log machine.old ≡ [] }
    ensures stands { M.stands machine.new }
    ensures fixed { M.fixed machine.new ≡ M.fixed machine.old }
    ensures ended { IfOk result (λ explored. Ended (M.system (M.fixed machine.old)) (M.means (M.fixed machine.old))
        explored (M.log machine.new) (M.state machine.new)) }
    ensures met { IfErr result (Met (M.system (M.fixed machine.old)) (M.means (M.fixed machine.old))
        (M.offers (M.fixed machine.old)) (M.longest (M.fixed machine.old)) limits.now.states limits.now.turns) }
{
    let mut seen = HashSet::new(alloc);
    let mut tasks = VecDeque::new(alloc);
    match begin(alloc, machine, &mut seen, &mut tasks, limits)? {
        Turn::Found => return Ok(Explored::BadState),
        Turn::Done => return Ok(Explored::AllStates(seen.len())),
        Turn::GoOn => {}
    }
    for _ in 0..limits.turns {
        match take_turn(alloc, machine, &mut seen, &mut tasks, limits)? {
            Turn::Found => return Ok(Explored::BadState),
            Turn::Done => return Ok(Explored::AllStates(seen.len())),
            Turn::GoOn => {}
        }
    }
    Err(Limit::Turns)
}

/// Takes all steps back.
pub fn take_all_back<M: Searched>(machine: &mut M) -> Result<(), Limit>
    requires { M.stands machine.old }
    ensures stands { M.stands machine.new }
    ensures fixed { M.fixed machine.new ≡ M.fixed machine.old }
    ensures home { OnOk result (M.log machine.new ≡ []) }
    ensures refuses { IfErr result RefusesBack }
{
    let count = machine.taken();
    go_back(machine, count)
}

/// Takes all steps back, after this limit was met.
fn go_home<M: Searched>(machine: &mut M, limit: Limit) -> Limit
    requires { M.stands machine.old }
    ensures stands { M.stands machine.new }
    ensures fixed { M.fixed machine.new ≡ M.fixed machine.old }
    ensures home { IsHome (Answer.Limited result) (M.log machine.new) }
    ensures limit { (result ≡ limit) ⊎ (result ≡ Limit.Back) }
{
    match take_all_back(machine) {
        Ok(()) => limit,
        Err(limit) => limit,
    }
}

/// Searches all runs of the machine, which stands at its start, for one that leads to a bad state. Steps that may be taken alone
/// are taken alone. After every answer but `Found` the machine stands at its start again, unless a step could not be taken back.
pub fn search<M: Searched>(alloc: Global, machine: &mut M, limits: &Limits) -> Answer
    requires stands { M.stands machine.old }
    requires start { M.log machine.old ≡ [] }
    ensures stands { M.stands machine.new }
    ensures fixed { M.fixed machine.new ≡ M.fixed machine.old }
    ensures home { IsHome result (M.log machine.new) }
    // no run from the start, of any length and any choices, reaches a bad state
    ensures nothing { (states : ℕ) → result ≡ Answer.Nothing states → IsSafe (M.system (M.fixed machine.old)) }
    // the keys of so many reached states, no two of them the same, are closed
    ensures closed { (states : ℕ) → result ≡ Answer.Nothing states
        → HasClosed (M.system (M.fixed machine.old)) (M.means (M.fixed machine.old)) states }
    // the log is a run that leads to a bad state
    ensures found { result ≡ Answer.Found → (M.system (M.fixed machine.old)).bad (M.state machine.new) }
    ensures leads { result ≡ Answer.Found → Leads (M.system (M.fixed machine.old)) (M.log machine.new) (M.state machine.new) }
    // more than so many states are reached of which no two have one key; or a run of so many steps is possible; or the states
    // that are reached make as many tasks
    ensures limited { (limit : Limit) → result ≡ Answer.Limited limit
        → Met (M.system (M.fixed machine.old)) (M.means (M.fixed machine.old)) (M.offers (M.fixed machine.old))
        (M.longest (M.fixed machine.old)) limits.now.states limits.now.turns limit }
{
    match explore(alloc, machine, limits) {
        Ok(Explored::BadState) => Answer::Found,
        Ok(Explored::AllStates(states)) => Answer::Nothing(states),
        Err(limit) => Answer::Limited(go_home(machine, limit)),
    }
}
