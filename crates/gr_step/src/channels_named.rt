//! The channels of waits, and their queues that a goroutine leaves.

ghost use Rattle.std.specs.Prelude.{◌≡◌, [], ◌∷◌, if◌then◌else◌, List, IfOk, IsTrue, OnErr, OnOk};
ghost use Rattle.std.specs.List.{list_any};
ghost use Rattle.gr_rules.specs.Operators.{same_channel};
ghost use Rattle.gr_rules.specs.Actors.{channels_but as ruled};
ghost use Rattle.gr_rules.specs.Goroutines.{channel_of as channel_ruled};
ghost use Rattle.gr_rules.specs.Goroutines.{Wait as WaitSeen, waiting};
ghost use Rattle.gr_refine.specs.Partners.{waits_in};
ghost use Rattle.gr_goros.specs.Views.{status_of, wait_of, waits_of};
ghost use Rattle.gr_record.specs.Fews.{members};
ghost use Rattle.gr_tables.specs.NamedChannels.{contents_of, rooms_of, withdrawn, ChansFit, HasRooms};
ghost use Rattle.gr_tables.specs.NamedChannels.{Follows, MoreAtGates, TookBack};
ghost use Rattle.gr_step.specs.Preparing.{AreToLeave};

use crate::unstepping::put_back;
use gr_base::{ChName, GoName, NoMemory};
use gr_channels::ChanUndo;
use gr_goros::{Status, Wait};
use gr_record::Few;
use gr_tables::channels::Channels;
use std::alloc::Global;
use std::slice;

/// The channel of a wait.
pub(crate) fn channel_of(wait: &Wait) -> &ChName
    ensures { result.now ≡ channel_ruled (wait_of wait.now) }
{
    match wait {
        Wait::Send(channel, _) => channel,
        Wait::Receive(channel, _) => channel,
    }
}

/// Whether the name is one of these.
fn is_among(channel: &ChName, names: &[ChName]) -> bool
    ensures { result ≡ list_any (same_channel channel.now) names.now }
{
    names.contains(channel)
}

/// The channels of these waits, each once, but for those that were seen.
pub(crate) fn channels_but(
    alloc: Global,
    seen: &[ChName],
    waits: &[Wait],
) -> Result<Vec<ChName>, NoMemory>
    ensures { IfOk result (λ names. names.items ≡ ruled seen.now (waits_of waits.now)) }
{
    let mut names = Vec::new(alloc);
    for wait in waits {
        let channel = channel_of(wait);
        if is_among(channel, seen) {
            continue;
        }
        if is_among(channel, &names) {
            continue;
        }
        names.push(channel.copy(alloc)?)?;
    }
    Ok(names)
}

/// This channel, but for those that were seen.
fn channel_but(alloc: Global, seen: &[ChName], channel: &ChName) -> Result<Vec<ChName>, NoMemory>
    ensures { IfOk result (λ names. names.items
        ≡ (if list_any (same_channel channel.now) seen.now then [] else channel.now ∷ [])) }
{
    let mut names = Vec::new(alloc);
    if !is_among(channel, seen) {
        names.push(channel.copy(alloc)?)?;
    }
    Ok(names)
}

/// The channels on which a goroutine of this status waits, each once, but for those that were seen.
pub(crate) fn channels_awaited(
    alloc: Global,
    seen: &[ChName],
    status: &Status,
) -> Result<Vec<ChName>, NoMemory>
    ensures { IfOk result (λ names. names.items ≡ ruled seen.now (waits_in (status_of status.now))) }
{
    match status {
        Status::Sending(channel) | Status::Receiving(channel) => {
            channel_but(alloc, seen, channel)
        }
        Status::Waiting(waits) => channels_but(alloc, seen, waits),
        Status::Ready | Status::Finished => Ok(Vec::new(alloc)),
    }
}

/// The channels of these waits, each once, but for this one: none where that is all for which they wait, as mostly.
#[tactic(auto, using(crate::proofs::ChannelsButLemmas::none_but))]
fn other_channels(alloc: Global, channel: &ChName, waits: &[Wait]) -> Result<Vec<ChName>, NoMemory>
    ensures { IfOk result (λ names. names.items ≡ ruled (channel.now ∷ []) (waits_of waits.now)) }
{
    if let [wait] = waits {
        if channel_of(wait) == channel {
            return Ok(Vec::new(alloc));
        }
    }
    channels_but(alloc, slice::from_ref(channel), waits)
}

/// The channels on which a goroutine of this status waits, each once, but for this one.
pub(crate) fn others_awaited(
    alloc: Global,
    channel: &ChName,
    status: &Status,
) -> Result<Vec<ChName>, NoMemory>
    ensures { IfOk result (λ names. names.items ≡ ruled (channel.now ∷ []) (waits_in (status_of status.now))) }
{
    match status {
        Status::Sending(own) | Status::Receiving(own) => {
            channel_but(alloc, slice::from_ref(channel), own)
        }
        Status::Waiting(waits) => other_channels(alloc, channel, waits),
        Status::Ready | Status::Finished => Ok(Vec::new(alloc)),
    }
}

/// The channels that a goroutine with these waits still has to leave, after it left a queue of this one. There is none where
/// it waits for one thing alone. Else they are this one and the others.
fn channels_to_leave(
    alloc: Global,
    channel: &ChName,
    waits: &[Wait],
    others: Vec<ChName>,
) -> Result<Vec<ChName>, NoMemory>
    requires { others.items ≡ ruled (channel.now ∷ []) (waits_of waits.now) }
    ensures { IfOk result (λ names. AreToLeave names.items channel.now (waits_of waits.now)) }
{
    if waits.len() == 1 {
        return Ok(Vec::new(alloc));
    }
    let mut names = others;
    names.push(channel.copy(alloc)?)?;
    Ok(names)
}

/// Whether a goroutine of this status waits on a channel, and for nothing else, outside a select.
#[tactic(auto, using(crate::proofs::PrepareLemmas::waits_for_one))]
pub(crate) fn waits_alone(channel: &ChName, status: &Status) -> bool
    ensures { (ws : List WaitSeen) → status_of status.now ≡ waiting ws → IsTrue result
        → AreToLeave [] channel.now ws × (ruled (channel.now ∷ []) ws ≡ []) }
{
    match status {
        Status::Sending(own) => own == channel,
        Status::Receiving(own) => own == channel,
        Status::Waiting(_) | Status::Ready | Status::Finished => false,
    }
}

/// The channels that a goroutine with this status is still to leave, where it waits and left a queue of this channel.
#[tactic(auto, using(crate::proofs::PrepareLemmas::alone_leaves_none))]
pub(crate) fn still_to_leave(
    alloc: Global,
    channel: &ChName,
    status: &Status,
    others: Vec<ChName>,
) -> Result<Vec<ChName>, NoMemory>
    requires { others.items ≡ ruled (channel.now ∷ []) (waits_in (status_of status.now)) }
    ensures { (ws : List WaitSeen) → status_of status.now ≡ waiting ws
        → IfOk result (λ names. AreToLeave names.items channel.now ws) }
{
    match status {
        Status::Waiting(waits) => channels_to_leave(alloc, channel, waits, others),
        Status::Sending(_) | Status::Receiving(_) | Status::Ready | Status::Finished => {
            Ok(Vec::new(alloc))
        }
    }
}

/// A goroutine leaves the queues of the channels of these names, after a change of a channel in the same step. Refused, that
/// change is taken back.
pub(crate) fn leave_after(
    channels: &mut Channels,
    alloc: Global,
    change: (ChName, ChanUndo),
    names: &[ChName],
    go: &GoName,
) -> Result<Few<(ChName, ChanUndo)>, NoMemory>
    requires fits { ChansFit (change ∷ []) (contents_of channels.old) }
    requires room { HasRooms (change ∷ []) (rooms_of channels.old) }
    ensures contents { OnOk result (contents_of channels.new ≡ withdrawn go.now names.now (contents_of channels.old)) }
    ensures back { IfOk result (λ undos. Follows (change ∷ []) (members undos) channels.old channels.new) }
    ensures gates { IfOk result (λ undos. MoreAtGates names.now (change ∷ []) (members undos)) }
    ensures err { OnErr result (TookBack (change ∷ []) channels.old channels.new) }
{
    if names.is_empty() {
        return Ok(Few::One(change));
    }
    let Ok(mut done) = Vec::with_capacity(alloc, names.len() + 1) else {
        put_back(channels, Few::One(change));
        return Err(NoMemory);
    };
    done.push_reserved(change);
    let done = channels.withdraw_after(done, names, go)?;
    Ok(Few::of_many(done))
}
