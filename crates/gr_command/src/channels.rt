//! The rows of a channel that a reply shows.

ghost use Rattle.std.specs.Prelude.{◌≡◌};
ghost use Rattle.gr_command.specs.Texts.{state_text};

use crate::pieces::{EachSpaced, RowOf, Written, put_three, put_two};
use crate::reply::ChannelShown;
use gr_base::NoMemory;

fn state_word(closed: bool) -> &'static [u8]
    ensures { result.now ≡ state_text closed }
{
    if closed { b" closed" } else { b" open" }
}

/// A channel without what it holds.
#[derive(Drop)]
struct Empty {
    capacity: u32,
    closed: bool,
}

impl Written for Empty {
    ghost use Rattle.gr_command.specs.Texts.{capacity_text};

    ghost text_of = { λ channel. capacity_text channel.capacity channel.closed };

    fn put_into(&self, text: &mut Vec<u8>) -> Result<(), NoMemory> {
        put_three(text, b"cap ", &self.capacity, &state_word(self.closed))
    }
}

/// A list behind its name.
#[derive(Drop)]
struct Listed<'a, W> {
    name: &'a [u8],
    items: &'a [W],
}

impl<W: Written> Written for Listed<'_, W> {
    ghost use Rattle.gr_command.specs.Texts.{list_text};

    ghost text_of = { λ listed. list_text listed.name.now W.text_of listed.items.now };

    fn put_into(&self, text: &mut Vec<u8>) -> Result<(), NoMemory> {
        put_two(text, &self.name, &EachSpaced(self.items))
    }
}

impl Written for ChannelShown {
    ghost use Rattle.gr_command.specs.Texts.{channel_rows};
    ghost use Rattle.gr_command.specs.Replies.{channel_in};

    ghost text_of = { λ channel. channel_rows (channel_in channel) };

    fn put_into(&self, text: &mut Vec<u8>) -> Result<(), NoMemory> {
        let empty = Empty {
            capacity: self.capacity,
            closed: self.closed,
        };
        let items = Listed {
            name: b"items",
            items: self.items.as_slice(),
        };
        let senders = Listed {
            name: b"senders",
            items: self.senders.as_slice(),
        };
        let receivers = Listed {
            name: b"receivers",
            items: self.receivers.as_slice(),
        };
        RowOf(&empty).put_into(text)?;
        put_three(text, &RowOf(&items), &RowOf(&senders), &RowOf(&receivers))
    }
}
