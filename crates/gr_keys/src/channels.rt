//! Channels as bytes.

ghost use Rattle.std.specs.Prelude.{◌≡◌, ◌++◌, OnOk};
ghost use Rattle.gr_keys.specs.Codes.{list_code};
ghost use Rattle.gr_keys.specs.ValueCodes.{value_code};
ghost use Rattle.gr_keys.specs.GoroutineCodes.{sender_code, receiver_code, gate_code, channel_code};

use crate::lists::{Coded, write_byte, write_option};
use crate::numbers::{write_bit, write_number};
use gr_base::{NoMemory, Value};
use gr_channels::{Channel, Waiter};

impl Coded for Waiter<Value> {
    ghost use Rattle.gr_keys.specs.GoroutineCodes.{sender_code};

    ghost code = { sender_code };

    fn write(&self, bytes: &mut Vec<u8>) -> Result<(), NoMemory> {
        self.go.write(bytes)?;
        write_option(self.case.as_ref(), bytes)?;
        self.value.write(bytes)
    }
}

impl Coded for Waiter<()> {
    ghost use Rattle.gr_keys.specs.GoroutineCodes.{receiver_code};

    ghost code = { receiver_code };

    fn write(&self, bytes: &mut Vec<u8>) -> Result<(), NoMemory> {
        self.go.write(bytes)?;
        write_option(self.case.as_ref(), bytes)
    }
}

/// Appends the code of those who wait to send, the first to be served first.
fn write_senders(channel: &Channel, bytes: &mut Vec<u8>) -> Result<(), NoMemory>
    ensures { OnOk result (bytes.new.items ≡ bytes.old.items ++ list_code sender_code channel.now.content.senders) }
{
    for place in 0..usize::MAX {
        let Some(waiter) = channel.sender(place) else {
            return write_byte(0, bytes);
        };
        write_byte(1, bytes)?;
        waiter.write(bytes)?;
    }
    Err(NoMemory)
}

/// Appends the code of those who wait to receive, the first to be served first.
fn write_receivers(channel: &Channel, bytes: &mut Vec<u8>) -> Result<(), NoMemory>
    ensures { OnOk result (bytes.new.items ≡ bytes.old.items ++ list_code receiver_code channel.now.content.receivers) }
{
    for place in 0..usize::MAX {
        let Some(waiter) = channel.receiver(place) else {
            return write_byte(0, bytes);
        };
        write_byte(1, bytes)?;
        waiter.write(bytes)?;
    }
    Err(NoMemory)
}

/// Appends the code of the items in the buffer, the next to be taken first.
fn write_items(channel: &Channel, bytes: &mut Vec<u8>) -> Result<(), NoMemory>
    ensures { OnOk result (bytes.new.items ≡ bytes.old.items ++ list_code value_code channel.now.content.items) }
{
    for place in 0..usize::MAX {
        let Some(item) = channel.item(place) else {
            return write_byte(0, bytes);
        };
        write_byte(1, bytes)?;
        item.write(bytes)?;
    }
    Err(NoMemory)
}

/// Appends the code of the capacity, of whether the channel is closed, and of who waits.
fn write_gate(channel: &Channel, bytes: &mut Vec<u8>) -> Result<(), NoMemory>
    ensures { OnOk result (bytes.new.items ≡ bytes.old.items ++ gate_code channel.now.content) }
{
    write_number(u64::from(channel.capacity()), bytes)?;
    write_bit(channel.is_closed(), bytes)?;
    write_senders(channel, bytes)?;
    write_receivers(channel, bytes)
}

/// Appends the code of a channel, which leaves out how many values left its buffer.
pub fn write_channel(channel: &Channel, bytes: &mut Vec<u8>) -> Result<(), NoMemory>
    ensures { OnOk result (bytes.new.items ≡ bytes.old.items ++ channel_code channel.now.content) }
{
    write_gate(channel, bytes)?;
    write_items(channel, bytes)
}
