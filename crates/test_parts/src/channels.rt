//! Channels: each change is made, looked at and taken back, as a run of a program leaves them.

mod changes;
mod refusals;
mod shown;

ghost use Rattle.std.specs.Prelude.{◌≡◌};

use crate::channels::changes::{Change, Place, find_closed, find_full, make, take_back};
use crate::channels::shown::{NOTHING, Shown, show};
use gr_channels::Channel;
use std::alloc::Global;
use std::process::Abort;

/// What is done to a channel.
#[derive(Clone, Copy)]
enum Act<'a> {
    /// A change is made, after which the channel shows this. It is taken back at last, after those that follow.
    Make(Change, Shown<'a>),
    /// A value is offered in vain.
    FindFull(u32),
    FindClosed,
}

/// Carries out all acts, takes the changes back, the last one first, and looks at the channel before and after each.
fn there_and_back(
    rt: &impl Abort,
    alloc: Global,
    channel: &mut Channel,
    before: Shown,
    acts: &[Act],
)
    ensures { channel.new.content ≡ channel.old.content }
{
    let [act, rest @ ..] = acts else {
        return;
    };
    match *act {
        Act::Make(change, after) => {
            let undo = make(rt, alloc, channel, change, before);
            show(rt, channel, after);
            there_and_back(rt, alloc, channel, after, rest);
            take_back(rt, channel, undo, after);
            show(rt, channel, before);
        }
        Act::FindFull(number) => {
            find_full(rt, alloc, channel, number);
            there_and_back(rt, alloc, channel, before, rest);
        }
        Act::FindClosed => {
            find_closed(rt, alloc, channel);
            there_and_back(rt, alloc, channel, before, rest);
        }
    }
}

/// Carries out all acts on a new channel, and takes the changes back.
fn play(rt: &impl Abort, alloc: Global, capacity: u32, acts: &[Act]) {
    let mut channel = Channel::new(alloc, capacity);
    assert!(rt; channel.capacity() == capacity);
    show(rt, &channel, NOTHING);
    there_and_back(rt, alloc, &mut channel, NOTHING, acts);
}

const MOVING_UP: [Act<'static>; 5] = [
    Act::Make(
        Change::Buffer(1),
        Shown {
            items: &[1],
            ..NOTHING
        },
    ),
    Act::Make(
        Change::Buffer(2),
        Shown {
            items: &[1, 2],
            ..NOTHING
        },
    ),
    Act::FindFull(3),
    Act::Make(
        Change::ParkSender(3, None, 3),
        Shown {
            items: &[1, 2],
            senders: &[(3, None, 3)],
            ..NOTHING
        },
    ),
    Act::Make(
        Change::Take(Place::BufferBeforeSenders, 1),
        Shown {
            head: 1,
            items: &[2, 3],
            ..NOTHING
        },
    ),
];

#[test]
fn a_sender_moves_up_and_goes_back(rt: HostRuntime) {
    play(&rt, rt.alloc(), 2, &MOVING_UP);
}

const HANDING: [Act<'static>; 3] = [
    Act::FindFull(5),
    Act::Make(
        Change::ParkReceiver(1, Some(2)),
        Shown {
            receivers: &[(1, Some(2))],
            ..NOTHING
        },
    ),
    Act::Make(Change::Hand(5), NOTHING),
];

const MEETING: [Act<'static>; 2] = [
    Act::Make(
        Change::ParkSender(2, None, 6),
        Shown {
            senders: &[(2, None, 6)],
            ..NOTHING
        },
    ),
    Act::Make(Change::Take(Place::Sender, 6), NOTHING),
];

#[test]
fn values_pass_without_a_buffer(rt: HostRuntime) {
    play(&rt, rt.alloc(), 0, &HANDING);
    play(&rt, rt.alloc(), 0, &MEETING);
}

const EMPTYING: [Act<'static>; 4] = [
    Act::Make(
        Change::Buffer(7),
        Shown {
            items: &[7],
            ..NOTHING
        },
    ),
    Act::Make(
        Change::Close,
        Shown {
            closed: true,
            items: &[7],
            ..NOTHING
        },
    ),
    Act::Make(
        Change::Take(Place::Buffer, 7),
        Shown {
            closed: true,
            head: 1,
            ..NOTHING
        },
    ),
    Act::FindClosed,
];

#[test]
fn a_closed_channel_is_emptied_first(rt: HostRuntime) {
    play(&rt, rt.alloc(), 2, &EMPTYING);
}

const CLOSING: [Act<'static>; 4] = [
    Act::Make(
        Change::ParkReceiver(1, None),
        Shown {
            receivers: &[(1, None)],
            ..NOTHING
        },
    ),
    Act::Make(
        Change::ParkReceiver(2, Some(1)),
        Shown {
            receivers: &[(1, None), (2, Some(1))],
            ..NOTHING
        },
    ),
    Act::Make(
        Change::ParkReceiver(3, None),
        Shown {
            receivers: &[(1, None), (2, Some(1)), (3, None)],
            ..NOTHING
        },
    ),
    Act::Make(
        Change::Close,
        Shown {
            closed: true,
            ..NOTHING
        },
    ),
];

const LEAVING_A_SEND: [Act<'static>; 2] = [
    Act::Make(
        Change::ParkSender(2, Some(2), 4),
        Shown {
            senders: &[(2, Some(2), 4)],
            ..NOTHING
        },
    ),
    Act::Make(Change::Withdraw(2), NOTHING),
];

const LEAVING_A_RECEIVE: [Act<'static>; 2] = [
    Act::Make(
        Change::ParkReceiver(2, Some(3)),
        Shown {
            receivers: &[(2, Some(3))],
            ..NOTHING
        },
    ),
    Act::Make(Change::Withdraw(2), NOTHING),
];

/// The first case of the select of `g0.2` is on the channel that is closed, and the others are on the two others.
#[test]
fn waiters_of_a_closed_channel_come_back_in_order(rt: HostRuntime) {
    play(&rt, rt.alloc(), 0, &CLOSING);
    play(&rt, rt.alloc(), 0, &LEAVING_A_SEND);
    play(&rt, rt.alloc(), 0, &LEAVING_A_RECEIVE);
}
