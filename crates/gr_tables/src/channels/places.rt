//! How much room a channel needs for going back.

ghost use Rattle.std.specs.Prelude.{◌≡◌, ◌^◌, ◌-◌, ◌≤◌, length, drop, IsSome, IfSome};
ghost use Rattle.gr_channels.specs.Channels.{Within, plus, each};
ghost use Rattle.gr_channels.specs.Changes.{need, entered};
ghost use Rattle.gr_tables.specs.NamedChannels.{minus, needs};
ghost use Rattle.gr_tables.specs.Places.{room_of};

use gr_base::ChName;
use gr_channels::{ChanUndo, need_of};

/// A number of items, of waiting senders and of waiting receivers.
#[derive(Clone, Copy)]
pub(super) struct Places {
    pub(super) items: usize,
    pub(super) senders: usize,
    pub(super) receivers: usize,
}

impl Places {
    /// Nothing.
    fn none() -> Places
        ensures { room_of result ≡ each 0 }
    {
        Places {
            items: 0,
            senders: 0,
            receivers: 0,
        }
    }

    /// The sum of both, if it is a number of places in memory.
    fn plus(self, other: Places) -> Option<Places>
        ensures some { IfSome result (λ sum. room_of sum ≡ plus (room_of self) (room_of other)) }
        ensures fits { Within (plus (room_of self) (room_of other)) (each (2 ^ 64 - 1)) → IsSome result }
    {
        let items = self.items.checked_add(other.items)?;
        let senders = self.senders.checked_add(other.senders)?;
        let receivers = self.receivers.checked_add(other.receivers)?;
        Some(Places {
            items,
            senders,
            receivers,
        })
    }

    /// The places that are left over when the others are taken off, none below 0.
    fn minus(self, other: Places) -> Places
        ensures { room_of result ≡ minus (room_of self) (room_of other) }
    {
        Places {
            items: self.items.saturating_sub(other.items),
            senders: self.senders.saturating_sub(other.senders),
            receivers: self.receivers.saturating_sub(other.receivers),
        }
    }
}

/// How much room taking a change back needs.
pub(super) fn needed_by(undo: &ChanUndo) -> Places
    ensures { room_of result ≡ need undo.now }
{
    let (items, senders, receivers) = need_of(undo);
    Places {
        items,
        senders,
        receivers,
    }
}

/// How much room taking a change back frees.
fn freed_by(undo: &ChanUndo) -> Places
    ensures { room_of result ≡ entered undo.now }
{
    let mut freed = Places::none();
    match undo {
        ChanUndo::Buffered => freed.items = 1,
        ChanUndo::ParkedSender => freed.senders = 1,
        ChanUndo::ParkedReceiver => freed.receivers = 1,
        _ => {}
    }
    freed
}

/// The room that one channel needs for taking back the changes from a place on, if it is a number of places in memory.
pub(super) fn room_to_go_back(
    undos: &[(ChName, ChanUndo)],
    from: usize,
    name: &ChName,
) -> Option<Places>
    requires { from ≤ length undos.now }
    ensures some { IfSome result (λ room. room_of room ≡ needs (drop from undos.now) name.now) }
    ensures fits { Within (needs (drop from undos.now) name.now) (each (2 ^ 64 - 1)) → IsSome result }
{
    let mut needed = Places::none();
    let mut freed = Places::none();
    let mut place = undos.len();
    while place > from {
        place -= 1;
        let (at, undo) = &undos[place];
        if name == at {
            let need = needed_by(undo);
            needed = needed.plus(need.minus(freed))?;
            freed = freed_by(undo).plus(freed.minus(need))?;
        }
    }
    Some(needed)
}
