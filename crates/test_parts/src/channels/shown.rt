//! What a channel shows of itself.

use gr_base::Value;
use gr_channels::Channel;
use std::process::Abort;

/// A number from here on stands for a channel, and one below for itself.
pub(super) const CHANNELS: u32 = 100;

/// What a channel shows: its items, those who wait to send, each with its case and its value, and those who wait to
/// receive, each with its case. Each goroutine is a child of `main`'s, named by its count, and each value by its number.
#[derive(Clone, Copy)]
pub(super) struct Shown<'a> {
    pub(super) closed: bool,
    pub(super) head: u64,
    pub(super) items: &'a [u32],
    pub(super) senders: &'a [(u32, Option<u32>, u32)],
    pub(super) receivers: &'a [(u32, Option<u32>)],
}

/// What a channel shows at first.
pub(super) const NOTHING: Shown<'static> = Shown {
    closed: false,
    head: 0,
    items: &[],
    senders: &[],
    receivers: &[],
};

/// Whether it is the value with this number.
pub(super) fn has_number(value: &Value, number: u32) -> bool {
    match value {
        Value::Int(n) => number < CHANNELS && *n == number as i64,
        Value::Chan(Some(name)) => {
            number >= CHANNELS && name.n == number && name.go.counts() == [1].as_slice()
        }
        _ => false,
    }
}

fn show_items(rt: &impl Abort, channel: &Channel, items: &[u32]) {
    assert!(rt; channel.tail() - channel.head() == items.len() as u64);
    assert!(rt; channel.len() == items.len());
    assert!(rt; channel.is_empty() == items.is_empty());
    for (place, number) in items.iter().enumerate() {
        let item = channel.item(place).expect(rt, "an item");
        assert!(rt; has_number(item, *number));
    }
    assert!(rt; channel.item(items.len()).is_none());
}

fn show_senders(rt: &impl Abort, channel: &Channel, senders: &[(u32, Option<u32>, u32)]) {
    for (place, (go, case, number)) in senders.iter().enumerate() {
        let waiter = channel.sender(place).expect(rt, "a sender");
        assert!(rt; waiter.go.counts() == [*go].as_slice());
        assert!(rt; waiter.case == *case);
        assert!(rt; has_number(&waiter.value, *number));
    }
    assert!(rt; channel.sender(senders.len()).is_none());
}

fn show_receivers(rt: &impl Abort, channel: &Channel, receivers: &[(u32, Option<u32>)]) {
    for (place, (go, case)) in receivers.iter().enumerate() {
        let waiter = channel.receiver(place).expect(rt, "a receiver");
        assert!(rt; waiter.go.counts() == [*go].as_slice());
        assert!(rt; waiter.case == *case);
    }
    assert!(rt; channel.receiver(receivers.len()).is_none());
}

/// Whether the channel shows this, and nothing else.
pub(super) fn show(rt: &impl Abort, channel: &Channel, shown: Shown) {
    assert!(rt; channel.is_closed() == shown.closed);
    assert!(rt; channel.head() == shown.head);
    show_items(rt, channel, shown.items);
    show_senders(rt, channel, shown.senders);
    show_receivers(rt, channel, shown.receivers);
}
