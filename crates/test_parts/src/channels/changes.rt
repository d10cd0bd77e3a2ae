//! Changes of a channel. Each is made once more where memory was refused, after a look that nothing has changed.

ghost use Rattle.std.specs.Prelude.{◌≡◌, ◌<◌, IfOk, OnErr};
ghost use Rattle.gr_channels.specs.Changes.{undone, Fits, Undoes};

use crate::channels::shown::{CHANNELS, Shown, has_number, show};
use gr_base::{ChName, GoName, NoMemory, Value};
use gr_channels::{ChanUndo, Channel, Offered, Taken, Waiter};
use std::alloc::Global;
use std::process::Abort;

/// From where a value is taken.
#[derive(Clone, Copy)]
pub(super) enum Place {
    /// The buffer, while no sender waits.
    Buffer,
    /// The buffer, which the first waiting sender's value enters.
    BufferBeforeSenders,
    /// The first waiting sender.
    Sender,
}

/// A change of a channel. A goroutine is a child of `main`'s, named by its count. A number stands for a value.
#[derive(Clone, Copy)]
pub(super) enum Change {
    /// A value is offered, and enters the buffer.
    Buffer(u32),
    /// A value is offered, and the first waiting receiver gets it.
    Hand(u32),
    /// A value is taken, which is this one.
    Take(Place, u32),
    /// A goroutine waits to send a value, in this case of a select.
    ParkSender(u32, Option<u32>, u32),
    /// A goroutine waits to receive, in this case of a select.
    ParkReceiver(u32, Option<u32>),
    /// A goroutine waits no more.
    Withdraw(u32),
    Close,
}

fn child_of_main(alloc: Global, go: u32) -> Result<GoName, NoMemory>
    requires { 0 < go }
{
    GoName::main(alloc)?.child(alloc, go)
}

fn child(rt: &impl Abort, alloc: Global, go: u32) -> GoName {
    assert!(rt; go > 0);
    if let Ok(name) = child_of_main(alloc, go) {
        return name;
    }
    child_of_main(alloc, go).expect(rt, "memory for a name")
}

/// The value with this number.
fn value(rt: &impl Abort, alloc: Global, number: u32) -> Value {
    if number < CHANNELS {
        return Value::Int(number as i64);
    }
    let go = child(rt, alloc, 1);
    Value::Chan(Some(ChName { go, n: number }))
}

fn buffer(
    rt: &impl Abort,
    alloc: Global,
    channel: &mut Channel,
    number: u32,
) -> Result<ChanUndo, NoMemory>
    ensures ok { IfOk result (λ undo. Undoes undo channel.old channel.new) }
    ensures err { OnErr result (channel.new.content ≡ channel.old.content) }
{
    assert!(rt; channel.tail() < u64::MAX);
    let offered = channel.offer(value(rt, alloc, number))?;
    match offered {
        Offered::Buffered(undo) => Ok(undo),
        _ => panic!(rt; "the value is not buffered"),
    }
}

fn hand(
    rt: &impl Abort,
    alloc: Global,
    channel: &mut Channel,
    number: u32,
) -> Result<ChanUndo, NoMemory>
    ensures ok { IfOk result (λ undo. Undoes undo channel.old channel.new) }
    ensures err { OnErr result (channel.new.content ≡ channel.old.content) }
{
    assert!(rt; channel.tail() < u64::MAX);
    let offered = channel.offer(value(rt, alloc, number))?;
    match offered {
        Offered::Handed(_, undo) => Ok(undo),
        _ => panic!(rt; "the value is not handed over"),
    }
}

fn is_from(taken: &Taken, place: Place) -> bool {
    match taken {
        Taken::Item(_, _) => matches!(place, Place::Buffer),
        Taken::Moved(_, _) => matches!(place, Place::BufferBeforeSenders),
        Taken::Met(_, _) => matches!(place, Place::Sender),
        Taken::Closed | Taken::Empty => false,
    }
}

fn take(
    rt: &impl Abort,
    channel: &mut Channel,
    place: Place,
    number: u32,
) -> Result<ChanUndo, NoMemory>
    ensures ok { IfOk result (λ undo. Undoes undo channel.old channel.new) }
    ensures err { OnErr result (channel.new.content ≡ channel.old.content) }
{
    assert!(rt; channel.tail() < u64::MAX);
    let taken = channel.take()?;
    assert!(rt; is_from(&taken, place));
    match taken {
        Taken::Item(value, undo) | Taken::Moved(value, undo) | Taken::Met(value, undo) => {
            assert!(rt; has_number(&value, number));
            Ok(undo)
        }
        Taken::Closed | Taken::Empty => panic!(rt; "there is nothing to take"),
    }
}

fn close(rt: &impl Abort, channel: &mut Channel) -> Result<ChanUndo, NoMemory>
    ensures ok { IfOk result (λ undo. Undoes undo channel.old channel.new) }
    ensures err { OnErr result (channel.new.content ≡ channel.old.content) }
{
    assert!(rt; !channel.is_closed());
    channel.close()
}

/// Makes a change, where memory allows.
fn attempt(
    rt: &impl Abort,
    alloc: Global,
    channel: &mut Channel,
    change: Change,
) -> Result<ChanUndo, NoMemory>
    ensures ok { IfOk result (λ undo. Undoes undo channel.old channel.new) }
    ensures err { OnErr result (channel.new.content ≡ channel.old.content) }
{
    match change {
        Change::Buffer(number) => buffer(rt, alloc, channel, number),
        Change::Hand(number) => hand(rt, alloc, channel, number),
        Change::Take(place, number) => take(rt, channel, place, number),
        Change::ParkSender(go, case, number) => channel.park_sender(Waiter {
            go: child(rt, alloc, go),
            case,
            value: value(rt, alloc, number),
        }),
        Change::ParkReceiver(go, case) => channel.park_receiver(Waiter {
            go: child(rt, alloc, go),
            case,
            value: (),
        }),
        Change::Withdraw(go) => channel.withdraw(&child(rt, alloc, go)),
        Change::Close => close(rt, channel),
    }
}

/// Makes a change of a channel that showed this before.
pub(super) fn make(
    rt: &impl Abort,
    alloc: Global,
    channel: &mut Channel,
    change: Change,
    before: Shown,
) -> ChanUndo
    ensures back { undone result channel.new.content ≡ channel.old.content }
    ensures fits { Fits result channel.new.content }
{
    match attempt(rt, alloc, channel, change) {
        Ok(undo) => undo,
        Err(_) => {
            show(rt, channel, before);
            attempt(rt, alloc, channel, change).expect(rt, "memory for a change")
        }
    }
}

/// Takes a change back.
pub(super) fn take_back(rt: &impl Abort, channel: &mut Channel, undo: ChanUndo, before: Shown)
    requires { Fits undo channel.old.content }
    ensures { channel.new.content ≡ undone undo channel.old.content }
{
    if let Err((kept, _)) = channel.undo(undo) {
        show(rt, channel, before);
        let Ok(()) = channel.undo(kept) else {
            panic!(rt; "no memory to go back");
        };
    }
}

/// Makes room for this many more of each kind.
pub(super) fn reserve(rt: &impl Abort, channel: &mut Channel, count: usize, before: Shown) {
    if channel.reserve(count).is_err() {
        show(rt, channel, before);
        channel.reserve(count).expect(rt, "memory for room");
    }
}

/// Offers a value, for which there is neither a receiver nor room.
pub(super) fn find_full(rt: &impl Abort, alloc: Global, channel: &mut Channel, number: u32)
    ensures { channel.new.content ≡ channel.old.content }
{
    assert!(rt; channel.tail() < u64::MAX);
    let offered = channel.offer(value(rt, alloc, number));
    match offered.expect(rt, "no need of memory") {
        Offered::Full(_) => {}
        _ => panic!(rt; "the value finds room"),
    }
}

/// Finds a closed channel, by both ends.
pub(super) fn find_closed(rt: &impl Abort, alloc: Global, channel: &mut Channel)
    ensures { channel.new.content ≡ channel.old.content }
{
    assert!(rt; channel.tail() < u64::MAX);
    let offered = channel.offer(value(rt, alloc, 0));
    match offered.expect(rt, "no need of memory") {
        Offered::Closed(_) => {}
        _ => panic!(rt; "a closed channel takes a value"),
    }
    assert!(rt; channel.tail() < u64::MAX);
    match channel.take().expect(rt, "no need of memory") {
        Taken::Closed => {}
        _ => panic!(rt; "an empty and closed channel gives a value"),
    }
}
