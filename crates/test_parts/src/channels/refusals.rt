//! Channels that go on after each refusal of memory. `tests/refusals.sh` runs these tests once for each growth in them,
//! which it refuses.

ghost use Rattle.std.specs.Prelude.{IsTrue};
ghost use Rattle.gr_channels.specs.Changes.{Fits};

use crate::channels::changes::{Change, Place, make, reserve, take_back};
use crate::channels::shown::{NOTHING, Shown, show};
use gr_channels::{ChanUndo, Channel};
use std::alloc::Global;
use std::process::Abort;

/// A change, and what the channel shows then.
#[derive(Clone, Copy)]
struct Made<'a> {
    change: Change,
    after: Shown<'a>,
}

/// Changes, of which one is taken back after others came. These took the room that it left, so it needs memory to go back.
#[derive(Clone, Copy)]
struct Detour<'a> {
    first: &'a [Made<'a>],
    turned: Made<'a>,
    others: &'a [Made<'a>],
    /// What the channel shows in the end.
    back: Shown<'a>,
}

/// Makes changes, and looks at the channel after each. Answers what it shows in the end.
fn make_all<'a>(
    rt: &impl Abort,
    alloc: Global,
    channel: &mut Channel,
    changes: &[Made<'a>],
    before: Shown<'a>,
) -> Shown<'a> {
    let mut last = before;
    for made in changes {
        make(rt, alloc, channel, made.change, last);
        show(rt, channel, made.after);
        last = made.after;
    }
    last
}

/// Whether a change of a kind that leaves room can be taken back.
fn fits(channel: &Channel, undo: &ChanUndo) -> bool
    ensures { IsTrue result → Fits undo.now channel.now.content }
{
    match undo {
        ChanUndo::Handed(_) | ChanUndo::Met(_) => true,
        ChanUndo::Took(_) => channel.head() > 0 && channel.len() < channel.capacity() as usize,
        ChanUndo::Moved { .. } => channel.head() > 0 && channel.len() > 0,
        _ => false,
    }
}

fn go_round(rt: &impl Abort, alloc: Global, channel: &mut Channel, detour: Detour) {
    let before = make_all(rt, alloc, channel, detour.first, NOTHING);
    let undo = make(rt, alloc, channel, detour.turned.change, before);
    show(rt, channel, detour.turned.after);
    let last = make_all(rt, alloc, channel, detour.others, detour.turned.after);
    assert!(rt; fits(channel, &undo));
    take_back(rt, channel, undo, last);
    show(rt, channel, detour.back);
}

const ITEMS: Detour<'static> = Detour {
    first: &[
        Made {
            change: Change::Buffer(101),
            after: Shown {
                items: &[101],
                ..NOTHING
            },
        },
        Made {
            change: Change::Buffer(102),
            after: Shown {
                items: &[101, 102],
                ..NOTHING
            },
        },
        Made {
            change: Change::Buffer(103),
            after: Shown {
                items: &[101, 102, 103],
                ..NOTHING
            },
        },
        Made {
            change: Change::Buffer(104),
            after: Shown {
                items: &[101, 102, 103, 104],
                ..NOTHING
            },
        },
    ],
    turned: Made {
        change: Change::Take(Place::Buffer, 101),
        after: Shown {
            head: 1,
            items: &[102, 103, 104],
            ..NOTHING
        },
    },
    others: &[Made {
        change: Change::Buffer(105),
        after: Shown {
            head: 1,
            items: &[102, 103, 104, 105],
            ..NOTHING
        },
    }],
    back: Shown {
        items: &[101, 102, 103, 104, 105],
        ..NOTHING
    },
};

#[test]
fn items(rt: HostRuntime) {
    let mut channel = Channel::new(rt.alloc(), 9);
    assert!(rt; channel.reserve(usize::MAX).is_err());
    show(&rt, &channel, NOTHING);
    go_round(&rt, rt.alloc(), &mut channel, ITEMS);
    reserve(&rt, &mut channel, 100, ITEMS.back);
    show(&rt, &channel, ITEMS.back);
}

const RECEIVERS: Detour<'static> = Detour {
    first: &[
        Made {
            change: Change::ParkReceiver(1, None),
            after: Shown {
                receivers: &[(1, None)],
                ..NOTHING
            },
        },
        Made {
            change: Change::ParkReceiver(2, None),
            after: Shown {
                receivers: &[(1, None), (2, None)],
                ..NOTHING
            },
        },
        Made {
            change: Change::ParkReceiver(3, None),
            after: Shown {
                receivers: &[(1, None), (2, None), (3, None)],
                ..NOTHING
            },
        },
        Made {
            change: Change::ParkReceiver(4, None),
            after: Shown {
                receivers: &[(1, None), (2, None), (3, None), (4, None)],
                ..NOTHING
            },
        },
    ],
    turned: Made {
        change: Change::Hand(107),
        after: Shown {
            receivers: &[(2, None), (3, None), (4, None)],
            ..NOTHING
        },
    },
    others: &[Made {
        change: Change::ParkReceiver(5, None),
        after: Shown {
            receivers: &[(2, None), (3, None), (4, None), (5, None)],
            ..NOTHING
        },
    }],
    back: Shown {
        receivers: &[(1, None), (2, None), (3, None), (4, None), (5, None)],
        ..NOTHING
    },
};

#[test]
fn receivers(rt: HostRuntime) {
    let mut channel = Channel::new(rt.alloc(), 0);
    go_round(&rt, rt.alloc(), &mut channel, RECEIVERS);
}

const SENDERS: Detour<'static> = Detour {
    first: &[
        Made {
            change: Change::Buffer(109),
            after: Shown {
                items: &[109],
                ..NOTHING
            },
        },
        Made {
            change: Change::ParkSender(1, None, 101),
            after: Shown {
                items: &[109],
                senders: &[(1, None, 101)],
                ..NOTHING
            },
        },
        Made {
            change: Change::ParkSender(2, None, 102),
            after: Shown {
                items: &[109],
                senders: &[(1, None, 101), (2, None, 102)],
                ..NOTHING
            },
        },
        Made {
            change: Change::ParkSender(3, None, 103),
            after: Shown {
                items: &[109],
                senders: &[(1, None, 101), (2, None, 102), (3, None, 103)],
                ..NOTHING
            },
        },
        Made {
            change: Change::ParkSender(4, None, 104),
            after: Shown {
                items: &[109],
                senders: &[
                    (1, None, 101),
                    (2, None, 102),
                    (3, None, 103),
                    (4, None, 104),
                ],
                ..NOTHING
            },
        },
    ],
    turned: Made {
        change: Change::Take(Place::BufferBeforeSenders, 109),
        after: Shown {
            head: 1,
            items: &[101],
            senders: &[(2, None, 102), (3, None, 103), (4, None, 104)],
            ..NOTHING
        },
    },
    others: &[Made {
        change: Change::ParkSender(5, None, 105),
        after: Shown {
            head: 1,
            items: &[101],
            senders: &[
                (2, None, 102),
                (3, None, 103),
                (4, None, 104),
                (5, None, 105),
            ],
            ..NOTHING
        },
    }],
    back: Shown {
        items: &[109],
        senders: &[
            (1, None, 101),
            (2, None, 102),
            (3, None, 103),
            (4, None, 104),
            (5, None, 105),
        ],
        ..NOTHING
    },
};

#[test]
fn senders(rt: HostRuntime) {
    let mut channel = Channel::new(rt.alloc(), 1);
    go_round(&rt, rt.alloc(), &mut channel, SENDERS);
}

const WAITERS: Detour<'static> = Detour {
    first: &[
        Made {
            change: Change::ParkSender(1, None, 101),
            after: Shown {
                senders: &[(1, None, 101)],
                ..NOTHING
            },
        },
        Made {
            change: Change::ParkSender(2, None, 102),
            after: Shown {
                senders: &[(1, None, 101), (2, None, 102)],
                ..NOTHING
            },
        },
        Made {
            change: Change::ParkReceiver(2, None),
            after: Shown {
                senders: &[(1, None, 101), (2, None, 102)],
                receivers: &[(2, None)],
                ..NOTHING
            },
        },
        Made {
            change: Change::ParkReceiver(3, None),
            after: Shown {
                senders: &[(1, None, 101), (2, None, 102)],
                receivers: &[(2, None), (3, None)],
                ..NOTHING
            },
        },
    ],
    turned: Made {
        change: Change::Take(Place::Sender, 101),
        after: Shown {
            senders: &[(2, None, 102)],
            receivers: &[(2, None), (3, None)],
            ..NOTHING
        },
    },
    others: &[],
    back: Shown {
        senders: &[(1, None, 101), (2, None, 102)],
        receivers: &[(2, None), (3, None)],
        ..NOTHING
    },
};

const LEAVING: [Made<'static>; 2] = [
    Made {
        change: Change::Withdraw(2),
        after: Shown {
            senders: &[(1, None, 101)],
            receivers: &[(3, None)],
            ..NOTHING
        },
    },
    Made {
        change: Change::Close,
        after: Shown {
            closed: true,
            ..NOTHING
        },
    },
];

#[test]
fn all_waiters(rt: HostRuntime) {
    let mut channel = Channel::new(rt.alloc(), 0);
    go_round(&rt, rt.alloc(), &mut channel, WAITERS);
    make_all(&rt, rt.alloc(), &mut channel, &LEAVING, WAITERS.back);
}
