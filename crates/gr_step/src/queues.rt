//! Queues of channels, in which a goroutine comes to stand.

ghost use Rattle.std.specs.Prelude.{◌≡◌, ◌∷◌, [], Some, None, IfOk, IfSome, OnOk, OnErr, option_map};
ghost use Rattle.std.specs.Option.{option_to_list};
ghost use Rattle.gr_base.specs.declared.values.Value as value;
ghost use Rattle.gr_channels.specs.Channels.{each};
ghost use Rattle.gr_channels.specs.Changes.{need};
ghost use Rattle.gr_channels.specs.declared.changes.ChanUndo.TheVariants as undos;
ghost use Rattle.gr_rules.specs.Deeds.{Sending, Receiving};
ghost use Rattle.gr_rules.specs.Outcomes.{gives};
ghost use Rattle.gr_goros.specs.Views.{communication_of, wait_of, waits_of};
ghost use Rattle.gr_rules.specs.Communications as rules;
ghost use Rattle.gr_tables.specs.NamedChannels.{contents_of, AreAtGates, GoesBack};
ghost use Rattle.gr_record.specs.Fews.{members};
ghost use Rattle.gr_step.specs.Parks.{pending_of, channels_awaited, queued, queued_for, AreMade, NeedNoRoom};

use gr_base::{ChName, GoName, NoMemory, Value};
use gr_channels::{ChanUndo, Waiter};
use gr_goros::{Clause, Wait};
use gr_record::Few;
use gr_tables::channels::Channels;
use std::alloc::Global;

/// What a communication waits for, with the number of its clause where it is one of a select. On nil it waits for nothing.
fn wait_for(
    alloc: Global,
    clause: Option<u32>,
    communication: &Clause,
) -> Result<Option<Wait>, NoMemory>
    ensures { IfOk result (λ wait. option_to_list (option_map wait_of wait)
        ≡ rules.waits_for clause (communication_of communication.now)) }
{
    match communication {
        Clause::Send {
            channel: Some(channel),
            ..
        } => Ok(Some(Wait::Send(channel.copy(alloc)?, clause))),
        Clause::Receive {
            channel: Some(channel),
            ..
        } => Ok(Some(Wait::Receive(channel.copy(alloc)?, clause))),
        _ => Ok(None),
    }
}

/// What these communications wait for, each with the number of its clause where it is one of a select.
pub(crate) fn all_waits(
    alloc: Global,
    pending: &[(Option<u32>, Clause)],
) -> Result<Vec<Wait>, NoMemory>
    ensures { IfOk result (λ waits. waits_of waits.items ≡ rules.all_waits (pending_of pending.now)) }
{
    let mut waits = Vec::with_capacity(alloc, pending.len())?;
    for (clause, communication) in pending {
        let Some(wait) = wait_for(alloc, *clause, communication)? else {
            continue;
        };
        waits.push(wait)?;
    }
    Ok(waits)
}

/// Puts a goroutine at the end of the queue of those that wait to send on a channel, outside a select. Refused, no content has
/// changed.
pub(crate) fn queue_to_send(
    channels: &mut Channels,
    alloc: Global,
    go: &GoName,
    channel: &ChName,
    value: Value,
) -> Result<(), NoMemory>
    requires { AreMade ((None, Sending (Some channel.now) (gives value)) ∷ []) (contents_of channels.old) }
    ensures contents { OnOk result (contents_of channels.new
        ≡ queued_for go.now (contents_of channels.old) (None, Sending (Some channel.now) (gives value))) }
    ensures back { OnOk result (GoesBack ((channel.now, undos.ParkedSender) ∷ []) channels.old channels.new) }
    ensures err { OnErr result (contents_of channels.new ≡ contents_of channels.old) }
{
    let waiter = Waiter {
        go: go.copy(alloc)?,
        case: None,
        value,
    };
    channels.park_sender(channel, waiter)?;
    Ok(())
}

/// Puts a goroutine at the end of the queue of those that wait to receive from a channel, outside a select. Refused, no content
/// has changed.
pub(crate) fn queue_to_receive(
    channels: &mut Channels,
    alloc: Global,
    go: &GoName,
    channel: &ChName,
) -> Result<(), NoMemory>
    requires { (initial : value.Value) → AreMade ((None, Receiving (Some channel.now) initial) ∷ []) (contents_of channels.old) }
    ensures contents { OnOk result ((initial : value.Value) → contents_of channels.new
        ≡ queued_for go.now (contents_of channels.old) (None, Receiving (Some channel.now) initial)) }
    ensures back { OnOk result (GoesBack ((channel.now, undos.ParkedReceiver) ∷ []) channels.old channels.new) }
    ensures err { OnErr result (contents_of channels.new ≡ contents_of channels.old) }
{
    let waiter = Waiter {
        go: go.copy(alloc)?,
        case: None,
        value: (),
    };
    channels.park_receiver(channel, waiter)?;
    Ok(())
}

/// Puts a goroutine at the end of the queue for a communication; on nil it stands in none. Refused, no content has changed.
fn park_for(
    channels: &mut Channels,
    alloc: Global,
    go: &GoName,
    clause: Option<u32>,
    communication: &Clause,
) -> Result<Option<(ChName, ChanUndo)>, NoMemory>
    requires { AreMade ((clause, communication_of communication.now) ∷ []) (contents_of channels.old) }
    ensures contents { OnOk result (contents_of channels.new
        ≡ queued_for go.now (contents_of channels.old) (clause, communication_of communication.now)) }
    ensures back { IfOk result (λ change. GoesBack (option_to_list change) channels.old channels.new) }
    ensures room { IfOk result (λ change. NeedNoRoom (option_to_list change)) }
    ensures gate { IfOk result (λ change. AreAtGates (channels_awaited ((clause, communication_of communication.now) ∷ []))
        (option_to_list change)) }
    ensures err { OnErr result (contents_of channels.new ≡ contents_of channels.old) }
{
    match communication {
        Clause::Send {
            channel: Some(channel),
            value: Ok(value),
        } => {
            let name = channel.copy(alloc)?;
            let waiter = Waiter {
                go: go.copy(alloc)?,
                case: clause,
                value: value.copy(alloc)?,
            };
            let undo = channels.park_sender(channel, waiter)?;
            Ok(Some((name, undo)))
        }
        Clause::Receive {
            channel: Some(channel),
            ..
        } => {
            let name = channel.copy(alloc)?;
            let waiter = Waiter {
                go: go.copy(alloc)?,
                case: clause,
                value: (),
            };
            let undo = channels.park_receiver(channel, waiter)?;
            Ok(Some((name, undo)))
        }
        _ => Ok(None),
    }
}

/// Puts a goroutine at the end of the queues for these communications, one after the other. Refused, no content has changed.
fn park_for_all(
    channels: &mut Channels,
    alloc: Global,
    go: &GoName,
    pending: &[(Option<u32>, Clause)],
) -> Result<Vec<(ChName, ChanUndo)>, NoMemory>
    requires { AreMade (pending_of pending.now) (contents_of channels.old) }
    ensures contents { OnOk result (contents_of channels.new
        ≡ queued go.now (pending_of pending.now) (contents_of channels.old)) }
    ensures back { IfOk result (λ undos. GoesBack undos.items channels.old channels.new) }
    ensures gates { IfOk result (λ undos. AreAtGates (channels_awaited (pending_of pending.now)) undos.items) }
    ensures err { OnErr result (contents_of channels.new ≡ contents_of channels.old) }
{
    let mut undos = Vec::with_capacity(alloc, pending.len())?;
    for (clause, communication) in pending {
        let change = match park_for(channels, alloc, go, *clause, communication) {
            Ok(change) => change,
            Err(error) => {
                channels.put_all_back(undos);
                return Err(error);
            }
        };
        let Some(change) = change else {
            continue;
        };
        undos.push_reserved(change);
    }
    Ok(undos)
}

/// Puts a goroutine at the end of the queues for these communications, mostly for one alone. Refused, no content has changed.
pub(crate) fn park_for_few(
    channels: &mut Channels,
    alloc: Global,
    go: &GoName,
    pending: &[(Option<u32>, Clause)],
) -> Result<Few<(ChName, ChanUndo)>, NoMemory>
    requires { AreMade (pending_of pending.now) (contents_of channels.old) }
    ensures contents { OnOk result (contents_of channels.new
        ≡ queued go.now (pending_of pending.now) (contents_of channels.old)) }
    ensures back { IfOk result (λ undos. GoesBack (members undos) channels.old channels.new) }
    ensures gates { IfOk result (λ undos. AreAtGates (channels_awaited (pending_of pending.now)) (members undos)) }
    ensures err { OnErr result (contents_of channels.new ≡ contents_of channels.old) }
{
    if let [(clause, communication)] = pending {
        let undo = park_for(channels, alloc, go, *clause, communication)?;
        return Ok(Few::of_one(undo));
    }
    let undos = park_for_all(channels, alloc, go, pending)?;
    Ok(Few::of_many(undos))
}
