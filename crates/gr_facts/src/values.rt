//! The value that a step moves over a channel, by the state before the step.

ghost use Rattle.std.specs.Prelude.{◌≡◌, if◌then◌else◌, List, Some, None, IfOk, option_copied, option_map, option_and_then, slice_get};
ghost use Rattle.gr_depend.specs.Histories.{is_fault as is_stopping};
ghost use Rattle.gr_goros.specs.Views.{communication_of, communications_of};
ghost use Rattle.gr_code.specs.CodeFrames.{CodeFrame};
ghost use Rattle.gr_code.specs.Goroutines.{CodeGoroutine};
ghost use Rattle.gr_refine.specs.Attempting.{IsUp};
ghost use Rattle.gr_rules.specs.Actors.{clause_at as clause_numbered};
ghost use Rattle.gr_rules.specs.Deeds.{Receiving};
ghost use Rattle.gr_step.specs.Records.{event_of};
ghost use Rattle.gr_step.specs.Stores.{IsRun, contents_at, state_at};
ghost use Rattle.gr_facts.specs.Moved.{value_in, value_moved};
ghost use Rattle.gr_facts.specs.Wanted.{communication_wanted, next_value};

use gr_base::{ChName, Choice, Kind, NoMemory, Value};
use gr_channels::Channel;
use gr_goros::{Clause, Need};
use gr_record::Record;
use gr_step::Store;
use std::alloc::Global;

/// The value that a receive from the channel gets, where it gets one that was sent.
fn next_sent(channel: &Channel) -> Option<&Value>
    ensures { option_copied result ≡ next_value channel.now.content }
{
    if let Some(item) = channel.item(0) {
        return Some(item);
    }
    let sender = channel.sender(0)?;
    Some(&sender.value)
}

/// What a receive gets from a channel that holds nothing, if it gets something. A closed channel gives `zero`.
fn left(alloc: Global, channel: &Channel, zero: &Value) -> Result<Option<Value>, NoMemory>
    ensures { IfOk result (λ value. value ≡ (if channel.now.content.closed then Some zero.now else None)) }
{
    if !channel.is_closed() {
        return Ok(None);
    }
    let value = zero.copy(alloc)?;
    Ok(Some(value))
}

/// What a receive from a channel gets, if it gets something. A closed channel gives `zero`.
fn received(
    alloc: Global,
    store: &Store,
    channel: &ChName,
    zero: &Value,
) -> Result<Option<Value>, NoMemory>
    ensures { IfOk result (λ value. value ≡ value_in (state_at store.now) (Receiving (Some channel.now) zero.now)) }
{
    let Some(channel) = store.channel(channel) else {
        return Ok(None);
    };
    let Some(value) = next_sent(channel) else {
        return left(alloc, channel, zero);
    };
    let value = value.copy(alloc)?;
    Ok(Some(value))
}

/// What the communication of a clause moves.
fn value_of_clause(alloc: Global, store: &Store, clause: &Clause) -> Result<Option<Value>, NoMemory>
    ensures { IfOk result (λ value. value ≡ value_in (state_at store.now) (communication_of clause.now)) }
{
    match clause {
        Clause::Send {
            value: Ok(value),
            ..
        } => Ok(Some(value.copy(alloc)?)),
        Clause::Receive {
            channel: Some(channel),
            zero,
        } => received(alloc, store, channel, zero),
        _ => Ok(None),
    }
}

/// The clause at a place among those of a select, counted from 0.
fn clause_at(clauses: &[Clause], place: usize) -> Option<&Clause>
    ensures { option_copied result ≡ slice_get clauses.now place }
{
    clauses.get(place)
}

/// The clause with a number, counted from 1, if there is one.
fn clause_with(clauses: &[Clause], number: u32) -> Option<&Clause>
    ensures { option_map communication_of (option_copied result) ≡ clause_numbered (communications_of clauses.now) number }
{
    let place = (number as usize).checked_sub(1)?;
    clause_at(clauses, place)
}

/// What a step moves that asks for this, with a choice.
fn value_of_need(
    alloc: Global,
    store: &Store,
    need: &Need,
    choice: Choice,
) -> Result<Option<Value>, NoMemory>
    ensures { IfOk result (λ value. value ≡ option_and_then (value_in (state_at store.now)) (communication_wanted choice need.now)) }
{
    match (choice, need) {
        (Choice::Plain, Need::Send { value, .. }) => Ok(Some(value.copy(alloc)?)),
        (
            Choice::Plain,
            Need::Receive {
                channel: Some(channel),
                zero,
            },
        ) => received(alloc, store, channel, zero),
        (Choice::Pick(number), Need::Select { clauses }) => match clause_with(clauses, number) {
            Some(clause) => value_of_clause(alloc, store, clause),
            None => Ok(None),
        },
        _ => Ok(None),
    }
}

/// Whether a step was a fault.
fn is_fault(step: &Record) -> bool
    ensures { result ≡ is_stopping step.now.change.kind }
{
    matches!(step.kind(), Kind::Fault(_))
}

/// The value that a step moves, in the store before the step.
pub(crate) fn value_of(
    alloc: Global,
    store: &Store,
    step: &Record,
) -> Result<Option<Value>, NoMemory>
    requires { IsRun store.now }
    ensures { IfOk result (λ value. (g : CodeGoroutine) (f : CodeFrame) (below : List CodeFrame)
        → IsUp (contents_at store.now) (event_of step.now) g f below
        → value ≡ value_moved (state_at store.now) (event_of step.now) step.now.change.kind) }
{
    if is_fault(step) {
        return Ok(None);
    }
    let Some(need) = store.need(&step.id.go)? else {
        return Ok(None);
    };
    value_of_need(alloc, store, &need, step.choice)
}
