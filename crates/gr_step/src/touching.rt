//! What steps touch of channels.

ghost use Rattle.std.specs.Prelude.{◌≡◌, ◌∷◌, [], ◌++◌, List, Some, map, IfOk, OnOk};
ghost use Rattle.gr_base.specs.declared.objects.Object.TheVariants as objects;
ghost use Rattle.gr_channels.specs.Channels.{tail_of};
ghost use Rattle.gr_rules.specs.Touches.{slot_numbered};
ghost use Rattle.gr_record.specs.Effects.{touched_to_receive, touched_to_send};
ghost use Rattle.gr_record.specs.Parts.{slot_before, AreTouched};

use gr_base::{ChName, NoMemory, Object};
use gr_channels::Channel;
use gr_record::record::{Parts, Touched};
use gr_record::slot::SlotPlace;
use std::alloc::Global;

/// Adds the slot of a number, if the channel has any.
fn push_slot(
    alloc: Global,
    touched: &mut Vec<Object>,
    name: &ChName,
    capacity: u32,
    number: u64,
) -> Result<(), NoMemory>
    ensures { OnOk result (touched.new.items ≡ touched.old.items ++ slot_numbered name.now capacity number) }
{
    if capacity == 0 {
        return Ok(());
    }
    let place = (number % capacity as u64) as u32;
    touched.push(Object::Slot(name.copy(alloc)?, place))?;
    Ok(())
}

/// The gate alone.
pub(crate) fn gate_side(alloc: Global, name: &ChName) -> Result<Vec<Object>, NoMemory>
    ensures { IfOk result (λ touched. touched.items ≡ objects.Gate name.now ∷ []) }
{
    let mut touched = Vec::with_capacity(alloc, 1)?;
    touched.push(Object::Gate(name.copy(alloc)?))?;
    Ok(touched)
}

/// What a wait to send looks at: the gate, and where the next value enters.
pub(crate) fn send_side(
    alloc: Global,
    name: &ChName,
    channel: &Channel,
) -> Result<Vec<Object>, NoMemory>
    ensures { IfOk result (λ touched. touched.items ≡ objects.Gate name.now ∷ objects.Tail name.now
        ∷ slot_numbered name.now channel.now.content.capacity (tail_of channel.now.content)) }
{
    let mut touched = Vec::with_capacity(alloc, 3)?;
    touched.push(Object::Gate(name.copy(alloc)?))?;
    touched.push(Object::Tail(name.copy(alloc)?))?;
    push_slot(
        alloc,
        &mut touched,
        name,
        channel.capacity(),
        channel.tail(),
    )?;
    Ok(touched)
}

/// What a wait to receive looks at: the gate, and where the front item is.
pub(crate) fn receive_side(
    alloc: Global,
    name: &ChName,
    channel: &Channel,
) -> Result<Vec<Object>, NoMemory>
    ensures { IfOk result (λ touched. touched.items ≡ objects.Gate name.now ∷ objects.Head name.now
        ∷ slot_numbered name.now channel.now.content.capacity channel.now.content.head) }
{
    let mut touched = Vec::with_capacity(alloc, 3)?;
    touched.push(Object::Gate(name.copy(alloc)?))?;
    touched.push(Object::Head(name.copy(alloc)?))?;
    push_slot(
        alloc,
        &mut touched,
        name,
        channel.capacity(),
        channel.head(),
    )?;
    Ok(touched)
}

/// Adds the gates of these channels.
pub(crate) fn push_gates(
    alloc: Global,
    touched: &mut Vec<Object>,
    names: &[ChName],
) -> Result<(), NoMemory>
    ensures { OnOk result (touched.new.items ≡ touched.old.items ++ map objects.Gate names.now) }
{
    for name in names {
        touched.push(Object::Gate(name.copy(alloc)?))?;
    }
    Ok(())
}

/// The place of the slot of a number, if the channel has any.
fn slot(capacity: u32, number: u64) -> SlotPlace
    ensures alone { (c : ChName) → slot_before c result [] ≡ slot_numbered c capacity number }
    ensures before { (c : ChName) (os : List Object) → slot_before c result os ≡ slot_numbered c capacity number ++ os }
{
    if capacity == 0 {
        return SlotPlace::none();
    }
    SlotPlace::at((number % capacity as u64) as u32)
}

/// The place of the slot that the next value enters.
fn slot_at_tail(channel: &Channel) -> SlotPlace
    ensures alone { (c : ChName) → slot_before c result []
        ≡ slot_numbered c channel.now.content.capacity (tail_of channel.now.content) }
    ensures before { (c : ChName) (os : List Object)
        → slot_before c result os ≡ slot_numbered c channel.now.content.capacity (tail_of channel.now.content) ++ os }
{
    slot(channel.capacity(), channel.tail())
}

/// The place of the slot of the front item.
fn slot_at_head(channel: &Channel) -> SlotPlace
    ensures alone { (c : ChName) → slot_before c result []
        ≡ slot_numbered c channel.now.content.capacity channel.now.content.head }
    ensures before { (c : ChName) (os : List Object)
        → slot_before c result os ≡ slot_numbered c channel.now.content.capacity channel.now.content.head ++ os }
{
    slot(channel.capacity(), channel.head())
}

/// No part of a channel.
pub(crate) fn untouched() -> Touched
    ensures { result ≡ record { read = Parts.Nothing; written = Parts.Nothing; slot = None } }
{
    Touched {
        read: Parts::Nothing,
        written: Parts::Nothing,
        slot: SlotPlace::none(),
    }
}

/// What a send touches that hands its value to one who waits: it writes the gate.
pub(crate) fn gate_written() -> Touched
    ensures { (c : ChName) → AreTouched result (Some c) [] (objects.Gate c ∷ []) }
{
    Touched {
        read: Parts::Nothing,
        written: Parts::Gate,
        slot: SlotPlace::none(),
    }
}

/// What a send touches whose value enters the buffer: it writes the tail and its slot.
pub(crate) fn entered(channel: &Channel) -> Touched
    ensures { (c : ChName) → AreTouched result (Some c) (objects.Gate c ∷ []) (objects.Tail c
        ∷ slot_numbered c channel.now.content.capacity (tail_of channel.now.content)) }
{
    Touched {
        read: Parts::Gate,
        written: Parts::Entrance,
        slot: slot_at_tail(channel),
    }
}

/// What a receive touches that takes the front item: it writes the head and its slot.
pub(crate) fn left(channel: &Channel) -> Touched
    ensures { (c : ChName) → AreTouched result (Some c) (objects.Gate c ∷ []) (objects.Head c
        ∷ slot_numbered c channel.now.content.capacity channel.now.content.head) }
{
    Touched {
        read: Parts::Gate,
        written: Parts::Exit,
        slot: slot_at_head(channel),
    }
}

/// What a receive touches that takes the front item, into whose place a waiting sender's value moves: it writes all parts.
pub(crate) fn moved(channel: &Channel) -> Touched
    ensures { (c : ChName) → AreTouched result (Some c) [] (objects.Gate c ∷ objects.Head c ∷ objects.Tail c
        ∷ slot_numbered c channel.now.content.capacity channel.now.content.head) }
{
    Touched {
        read: Parts::Nothing,
        written: Parts::All,
        slot: slot_at_head(channel),
    }
}

/// The place of the slot that a send reads when it comes to wait: it reads where the next value enters, and writes the gate.
pub(crate) fn entrance_of(channel: &Channel) -> SlotPlace
    ensures { (c : ChName) → AreTouched (touched_to_send result) (Some c) (objects.Tail c
        ∷ slot_numbered c channel.now.content.capacity (tail_of channel.now.content)) (objects.Gate c ∷ []) }
{
    slot_at_tail(channel)
}

/// The place of the slot that a receive reads when it comes to wait: it reads where the front item is, and writes the gate.
pub(crate) fn exit_of(channel: &Channel) -> SlotPlace
    ensures { (c : ChName) → AreTouched (touched_to_receive result) (Some c) (objects.Head c
        ∷ slot_numbered c channel.now.content.capacity channel.now.content.head) (objects.Gate c ∷ []) }
{
    slot_at_head(channel)
}

/// What a receive touches that meets a sender: it writes the gate, and reads where the front item is.
pub(crate) fn exit_read(channel: &Channel) -> Touched
    ensures { (c : ChName) → AreTouched result (Some c) (objects.Head c
        ∷ slot_numbered c channel.now.content.capacity channel.now.content.head) (objects.Gate c ∷ []) }
{
    Touched::to_receive(exit_of(channel))
}

/// What a receive reads that finds a closed channel empty: the gate, and where the front item is.
pub(crate) fn end_read(channel: &Channel) -> Touched
    ensures { (c : ChName) → AreTouched result (Some c) (objects.Gate c ∷ objects.Head c
        ∷ slot_numbered c channel.now.content.capacity channel.now.content.head) [] }
{
    Touched {
        read: Parts::GateAndExit,
        written: Parts::Nothing,
        slot: slot_at_head(channel),
    }
}
