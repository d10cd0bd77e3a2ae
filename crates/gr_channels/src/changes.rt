//! What a channel answers to a change, and what a change took out.

ghost use Rattle.std.specs.Prelude.{◌≡◌};
ghost use Rattle.gr_channels.specs.Changes.{need};

use crate::waiter::Waiter;
use gr_base::{GoName, Value};

/// What a change of a channel took out, by which it is undone.
#[derive(Drop)]
pub enum ChanUndo {
    /// The first waiting receiver left.
    Handed(Waiter<()>),
    /// A value entered the buffer.
    Buffered,
    /// The front item left the buffer.
    Took(Value),
    /// The front item left the buffer, and the value of the first waiting sender, who left, entered it.
    Moved {
        item: Value,
        go: GoName,
        case: Option<u32>,
    },
    /// The first waiting sender left.
    Met(Waiter<Value>),
    /// A sender came to wait.
    ParkedSender,
    /// A receiver came to wait.
    ParkedReceiver,
    /// A goroutine left both waiting lists: its waiters in the order of leaving, each with its place at that moment.
    Withdrawn {
        senders: Vec<(usize, Waiter<Value>)>,
        receivers: Vec<(usize, Waiter<()>)>,
    },
    /// The channel was closed, and all waiters left, in the order of leaving, each with its place at that moment.
    Closed {
        senders: Vec<(usize, Waiter<Value>)>,
        receivers: Vec<(usize, Waiter<()>)>,
    },
}

/// The answer to a value that is offered for sending.
#[derive(Drop)]
pub enum Offered {
    /// The channel is closed: here is the value back.
    Closed(Value),
    /// The value is for the first waiting receiver, who left.
    Handed(Value, ChanUndo),
    /// The value entered the buffer.
    Buffered(ChanUndo),
    /// There is no receiver and no room: here is the value back.
    Full(Value),
}

/// The answer to one who wants to receive.
#[derive(Drop)]
pub enum Taken {
    /// The front item.
    Item(Value, ChanUndo),
    /// The front item; the value of the first waiting sender, who left, entered the buffer.
    Moved(Value, ChanUndo),
    /// The value of the first waiting sender, who left.
    Met(Value, ChanUndo),
    /// The channel is closed, and there is nothing to take.
    Closed,
    /// There is nothing to take.
    Empty,
}

/// How much room taking a change back needs: of items, of waiting senders, and of waiting receivers.
pub fn need_of(undo: &ChanUndo) -> (usize, usize, usize)
    ensures items { result.0 ≡ (need undo.now).items }
    ensures senders { result.1 ≡ (need undo.now).senders }
    ensures receivers { result.2 ≡ (need undo.now).receivers }
{
    match undo {
        ChanUndo::Handed(_) => (0, 0, 1),
        ChanUndo::Took(_) => (1, 0, 0),
        ChanUndo::Moved { .. } | ChanUndo::Met(_) => (0, 1, 0),
        ChanUndo::Buffered | ChanUndo::ParkedSender | ChanUndo::ParkedReceiver => (0, 0, 0),
        ChanUndo::Withdrawn { senders, receivers } | ChanUndo::Closed { senders, receivers } => {
            (0, senders.len(), receivers.len())
        }
    }
}
