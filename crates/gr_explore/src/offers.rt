//! The events that are tried in a state.

ghost use Rattle.std.specs.Prelude.{◌≡◌, ◌++◌, ◌∷◌, [], map, if◌then◌else◌, OnOk};
ghost use Rattle.gr_base.specs.declared.events.Choice.TheVariants.{Pick};
ghost use Rattle.gr_step.specs.Stores.{IsRun, program_at, state_at};
ghost use Rattle.gr_schedules.specs.Choices.{all_choices, can_act as acts_by_rules, choices_at, choices_of};
ghost use Rattle.gr_schedules.specs.Choices.{event_by, is_pick};
ghost use Rattle.gr_explore.specs.Keeping.{names_of};

use crate::pages::Page;
use gr_base::{Choice, Event, GoName, NoMemory};
use gr_step::{Run, Status, Store};
use std::alloc::Global;

/// Whether a goroutine is there and ready, while the program runs.
fn can_act(store: &Store, go: &GoName) -> bool
    ensures { result ≡ acts_by_rules (state_at store.now) go.now }
{
    let Run::Live = store.run() else {
        return false;
    };
    let Some(goroutine) = store.goroutine(go) else {
        return false;
    };
    match goroutine.status() {
        Status::Ready => true,
        _ => false,
    }
}

/// Adds the event of a goroutine with a choice.
fn push_choice(
    alloc: Global,
    events: &mut Vec<Event>,
    go: &GoName,
    choice: Choice,
) -> Result<(), NoMemory>
    ensures { OnOk result (events.new.items ≡ events.old.items ++ event_by go.now choice ∷ []) }
{
    let go = go.copy(alloc)?;
    events.push(Event { go, choice })?;
    Ok(())
}

/// Adds the picks of these clauses.
fn push_picks(
    alloc: Global,
    events: &mut Vec<Event>,
    go: &GoName,
    cases: &[u32],
) -> Result<(), NoMemory>
    ensures { OnOk result (events.new.items ≡ events.old.items ++ map (λ i. event_by go.now (Pick i)) cases.now) }
{
    for case in cases {
        push_choice(alloc, events, go, Choice::Pick(*case))?;
    }
    Ok(())
}

/// Adds the event of a goroutine with a choice, unless that picks a clause.
fn push_unless_pick(
    alloc: Global,
    events: &mut Vec<Event>,
    go: &GoName,
    choice: Choice,
) -> Result<(), NoMemory>
    ensures { OnOk result (events.new.items
        ≡ events.old.items ++ (if is_pick choice then [] else event_by go.now choice ∷ [])) }
{
    match choice {
        Choice::Pick(_) => Ok(()),
        choice => push_choice(alloc, events, go, choice),
    }
}

/// Adds the choices of a goroutine that can act.
fn push_choices(
    alloc: Global,
    store: &Store,
    events: &mut Vec<Event>,
    go: &GoName,
) -> Result<(), NoMemory>
    requires { IsRun store.now }
    ensures { OnOk result (events.new.items ≡ events.old.items ++ choices_of (program_at store.now) (state_at store.now) go.now) }
{
    let usual = store.usual_choice(go)?;
    push_unless_pick(alloc, events, go, usual)?;
    let cases = store.ready_cases(go)?;
    push_picks(alloc, events, go, cases.as_slice())
}

/// Adds the choices of a goroutine, if it can act.
fn push_offers(
    alloc: Global,
    store: &Store,
    events: &mut Vec<Event>,
    go: &GoName,
) -> Result<(), NoMemory>
    requires { IsRun store.now }
    ensures { OnOk result (events.new.items ≡ events.old.items ++ choices_at (program_at store.now) (state_at store.now) go.now) }
{
    if can_act(store, go) {
        return push_choices(alloc, store, events, go);
    }
    Ok(())
}

/// Adds the choices of these goroutines.
pub(crate) fn push_all_offers(
    alloc: Global,
    store: &Store,
    events: &mut Vec<Event>,
    names: &[GoName],
) -> Result<(), NoMemory>
    requires { IsRun store.now }
    ensures { OnOk result (events.new.items
        ≡ events.old.items ++ all_choices (program_at store.now) (state_at store.now) names.now) }
{
    for go in names {
        push_offers(alloc, store, events, go)?;
    }
    Ok(())
}

/// Adds the choices of the goroutines that have these pages.
pub(crate) fn push_page_offers(
    alloc: Global,
    store: &Store,
    events: &mut Vec<Event>,
    pages: &[Page<GoName>],
) -> Result<(), NoMemory>
    requires { IsRun store.now }
    ensures { OnOk result (events.new.items
        ≡ events.old.items ++ all_choices (program_at store.now) (state_at store.now) (names_of pages.now)) }
{
    for page in pages {
        push_offers(alloc, store, events, &page.name)?;
    }
    Ok(())
}
