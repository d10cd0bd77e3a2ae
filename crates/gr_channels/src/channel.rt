//! A channel, whose changes can be undone.

ghost use Rattle.std.specs.Prelude.{◌≡◌, ◌+◌, ◌-◌, ◌^◌, ◌↔◌, ◌∷◌, ◌++◌, [], true, false, length, slice_get, option_copied};
ghost use Rattle.std.specs.Prelude.{IsTrue, IfOk, IfErr, OnOk, OnErr, IsOk};
ghost use Rattle.gr_channels.specs.Queues.{others};
ghost use Rattle.gr_channels.specs.Channels.{IsChannel, CanEnter, tail_of, Within, plus, each};
ghost use Rattle.gr_channels.specs.Changes.{OfferRule, OfferUndone, OfferNeedsMemory, TakeRule, TakeUndone, TakeNeedsMemory};
ghost use Rattle.gr_channels.specs.Changes.{WithdrawNeedsMemory, CloseNeedsMemory};
ghost use Rattle.gr_channels.specs.Changes.{undone, need, entered, Fits, Undoes, IsWithdrawn, IsClosed};

use crate::changes::{ChanUndo, Offered, Taken, need_of};
use crate::queue::{empty_out, put_back, withdraw_from};
use crate::waiter::Waiter;
use gr_base::{GoName, NoMemory, Value};
use std::alloc::Global;
use std::collections::VecDeque;
use std::marker::Model;

/// A channel of a running program (Go specification, "Channel types"): a buffer of values, and two waiting lists,
/// both served in the order of arrival. Each change can be undone.
pub struct Channel {
    alloc: Global,
    capacity: u32,
    closed: bool,
    senders: VecDeque<Waiter<Value>>,
    receivers: VecDeque<Waiter<()>>,
    head: u64,
    items: VecDeque<Value>,
}

// Written out, so that crates above call it and need not prove it again.
impl Drop for Channel {
    fn drop(self) {
        let Channel {
            alloc: _,
            capacity: _,
            closed: _,
            senders: _,
            receivers: _,
            head: _,
            items: _,
        } = self;
    }
}

impl Model for Channel {
    ghost use Rattle.std.specs.Prelude.{◌-◌, ◌^◌};
    ghost use Rattle.std.specs.VecDeque.{deque_len, deque_capacity};
    ghost use Rattle.gr_channels.specs.Channels.{Seen, IsChannel};

    ghost Value = { Seen };

    ghost view = { λ c. record {
      content = record {
        capacity = c.capacity;
        closed = c.closed;
        senders = c.senders.items;
        receivers = c.receivers.items;
        head = c.head;
        items = c.items.items;
      };
      room = record {
        items = deque_capacity c.items - deque_len c.items;
        senders = deque_capacity c.senders - deque_len c.senders;
        receivers = deque_capacity c.receivers - deque_len c.receivers;
      };
    } };

    ghost invariant = { λ c. IsChannel (record {
      capacity = c.capacity;
      closed = c.closed;
      senders = c.senders.items;
      receivers = c.receivers.items;
      head = c.head;
      items = c.items.items;
    }) };
}

impl Channel {
    /// A new channel, open and empty, whose buffer holds `capacity` values. It takes no memory.
    pub fn new(alloc: Global, capacity: u32) -> Channel
        ensures { result.content ≡ record {
          capacity = capacity;
          closed = false;
          senders = [];
          receivers = [];
          head = 0;
          items = [];
        } }
    {
        Channel {
            alloc,
            capacity,
            closed: false,
            senders: VecDeque::new(alloc),
            receivers: VecDeque::new(alloc),
            head: 0,
            items: VecDeque::new(alloc),
        }
    }

    /// How many values the buffer holds at most.
    pub fn capacity(&self) -> u32
        ensures value { result ≡ self.now.content.capacity }
        ensures valid { IsChannel self.now.content }
    {
        self.capacity
    }

    /// How many values are in the buffer.
    pub fn len(&self) -> usize
        ensures { result ≡ length self.now.content.items }
    {
        self.items.len()
    }

    /// Whether no value is in the buffer.
    pub fn is_empty(&self) -> bool
        ensures { IsTrue result ↔ (self.now.content.items ≡ []) }
    {
        self.items.is_empty()
    }

    /// Whether the channel is closed.
    pub fn is_closed(&self) -> bool
        ensures { result ≡ self.now.content.closed }
    {
        self.closed
    }

    /// How many values have left the buffer: the number of the front item.
    pub fn head(&self) -> u64
        ensures { result ≡ self.now.content.head }
    {
        self.head
    }

    /// How many values have entered the buffer: the number of the next one.
    pub fn tail(&self) -> u64
        ensures { result ≡ tail_of self.now.content }
    {
        self.head + self.items.len() as u64
    }

    /// The item at a place of the buffer, counted from the front and from 0.
    pub fn item(&self, place: usize) -> Option<&Value>
        ensures { option_copied result ≡ slice_get self.now.content.items place }
    {
        self.items.get(place)
    }

    /// The waiting sender at a place of the list, counted from the one that is served next and from 0.
    pub fn sender(&self, place: usize) -> Option<&Waiter<Value>>
        ensures { option_copied result ≡ slice_get self.now.content.senders place }
    {
        self.senders.get(place)
    }

    /// The waiting receiver at a place of the list, counted from the one that is served next and from 0.
    pub fn receiver(&self, place: usize) -> Option<&Waiter<()>>
        ensures { option_copied result ≡ slice_get self.now.content.receivers place }
    {
        self.receivers.get(place)
    }

    /// Hands a value over to the first waiting receiver, or puts it into the buffer, as the Go specification's
    /// "Send statements" say. Refused, nothing has changed.
    pub fn offer(&mut self, value: Value) -> Result<Offered, NoMemory>
        requires { CanEnter self.old.content }
        ensures rule { IfOk result (λ r. OfferRule self.old.content value r self.new.content) }
        ensures undone { IfOk result (λ r. OfferUndone r self.old self.new) }
        ensures err { OnErr result (self.new.content ≡ self.old.content) }
        ensures needed { OnErr result (OfferNeedsMemory self.old) }
    {
        if self.closed {
            return Ok(Offered::Closed(value));
        }
        if let Some(receiver) = self.receivers.pop_front() {
            return Ok(Offered::Handed(value, ChanUndo::Handed(receiver)));
        }
        if self.items.len() < self.capacity as usize {
            self.items.push_back(value)?;
            return Ok(Offered::Buffered(ChanUndo::Buffered));
        }
        Ok(Offered::Full(value))
    }

    /// Takes the front item, and then the value of the first waiting sender moves up; or meets the first waiting sender. This
    /// is the Go specification's "Receive operator". Refused, nothing has changed.
    pub fn take(&mut self) -> Result<Taken, NoMemory>
        requires { ¬ (self.old.content.senders ≡ []) → CanEnter self.old.content }
        ensures rule { IfOk result (λ r. TakeRule self.old.content r self.new.content) }
        ensures undone { IfOk result (λ r. TakeUndone r self.old self.new) }
        ensures err { OnErr result (self.new ≡ self.old) }
        ensures needed { OnErr result (TakeNeedsMemory self.old.content) }
    {
        if let Some(front) = self.items.front() {
            let value = front.copy(self.alloc)?;
            return Ok(self.take_front(value));
        }
        if let Some(first) = self.senders.front() {
            let value = first.value.copy(self.alloc)?;
            let sender = self.senders.pop_front().unwrap();
            return Ok(Taken::Met(value, ChanUndo::Met(sender)));
        }
        if self.closed {
            return Ok(Taken::Closed);
        }
        Ok(Taken::Empty)
    }

    /// Takes the front item, whose copy is here.
    fn take_front(&mut self, value: Value) -> Taken
        requires counted { ¬ (self.old.content.senders ≡ []) → CanEnter self.old.content }
        requires front { slice_get self.old.content.items 0 ≡ Some value }
        ensures rule { TakeRule self.old.content result self.new.content }
        ensures undone { TakeUndone result self.old self.new }
    {
        let item = self.items.pop_front().unwrap();
        self.head += 1;
        if let Some(sender) = self.senders.pop_front() {
            let Waiter {
                go,
                case,
                value: entering,
            } = sender;
            self.items.push_back_reserved(entering);
            return Taken::Moved(value, ChanUndo::Moved { item, go, case });
        }
        Taken::Item(value, ChanUndo::Took(item))
    }

    /// Puts a sender at the end of its waiting list. Refused, nothing has changed.
    pub fn park_sender(&mut self, waiter: Waiter<Value>) -> Result<ChanUndo, NoMemory>
        ensures ok { OnOk result (self.new.content
            ≡ record self.old.content { senders = self.old.content.senders ++ waiter ∷ [] }) }
        ensures undo_value { IfOk result (λ undo. undo ≡ ChanUndo.ParkedSender) }
        ensures undone { IfOk result (λ undo. Undoes undo self.old self.new) }
        ensures err { OnErr result (self.new.content ≡ self.old.content) }
        ensures refused_without_room { OnErr result (self.old.room.senders ≡ 0) }
    {
        self.senders.push_back(waiter)?;
        Ok(ChanUndo::ParkedSender)
    }

    /// Puts a receiver at the end of its waiting list. Refused, nothing has changed.
    pub fn park_receiver(&mut self, waiter: Waiter<()>) -> Result<ChanUndo, NoMemory>
        ensures ok { OnOk result (self.new.content
            ≡ record self.old.content { receivers = self.old.content.receivers ++ waiter ∷ [] }) }
        ensures undo_value { IfOk result (λ undo. undo ≡ ChanUndo.ParkedReceiver) }
        ensures undone { IfOk result (λ undo. Undoes undo self.old self.new) }
        ensures err { OnErr result (self.new.content ≡ self.old.content) }
        ensures refused_without_room { OnErr result (self.old.room.receivers ≡ 0) }
    {
        self.receivers.push_back(waiter)?;
        Ok(ChanUndo::ParkedReceiver)
    }

    /// Takes a goroutine out of both waiting lists, with all its cases. Refused, nothing has changed.
    pub fn withdraw(&mut self, name: &GoName) -> Result<ChanUndo, NoMemory>
        ensures ok { OnOk result (self.new.content ≡ record self.old.content {
          senders = others name.now self.old.content.senders;
          receivers = others name.now self.old.content.receivers;
        }) }
        ensures undo_value { IfOk result IsWithdrawn }
        ensures undone { IfOk result (λ undo. Undoes undo self.old self.new) }
        ensures err { OnErr result (self.new.content ≡ self.old.content) }
        ensures err_room { OnErr result (Within self.old.room self.new.room) }
        ensures needed { OnErr result (WithdrawNeedsMemory name.now self.old.content) }
    {
        let senders = withdraw_from(self.alloc, &mut self.senders, name)?;
        match withdraw_from(self.alloc, &mut self.receivers, name) {
            Ok(receivers) => Ok(ChanUndo::Withdrawn { senders, receivers }),
            Err(error) => {
                put_back(&mut self.senders, senders);
                Err(error.into())
            }
        }
    }

    /// Closes the channel and takes all waiters out (Go specification, "Close"). Refused, nothing has changed.
    pub fn close(&mut self) -> Result<ChanUndo, NoMemory>
        requires { self.old.content.closed ≡ false }
        ensures ok { OnOk result (self.new.content ≡ record self.old.content { closed = true; senders = []; receivers = [] }) }
        ensures undo_value { IfOk result IsClosed }
        ensures undone { IfOk result (λ undo. Undoes undo self.old self.new) }
        ensures err { OnErr result (self.new.content ≡ self.old.content) }
        ensures err_room { OnErr result (Within self.old.room self.new.room) }
        ensures needed { OnErr result (CloseNeedsMemory self.old.content) }
    {
        let senders = empty_out(self.alloc, &mut self.senders)?;
        match empty_out(self.alloc, &mut self.receivers) {
            Ok(receivers) => {
                self.closed = true;
                Ok(ChanUndo::Closed { senders, receivers })
            }
            Err(error) => {
                put_back(&mut self.senders, senders);
                Err(error.into())
            }
        }
    }

    /// Makes room for `count` more items, waiting senders and waiting receivers each. No content changes.
    pub fn reserve(&mut self, count: usize) -> Result<(), NoMemory>
        ensures content { self.new.content ≡ self.old.content }
        ensures ok { OnOk result (Within (each count) self.new.room) }
        ensures succeeds { Within (each count) self.old.room → IsOk result }
        ensures grows { Within self.old.room self.new.room }
    {
        self.make_room(count, count, count)
    }

    /// Makes room for this many more items, waiting senders and waiting receivers. No content changes.
    pub fn make_room(
        &mut self,
        items: usize,
        senders: usize,
        receivers: usize,
    ) -> Result<(), NoMemory>
        ensures content { self.new.content ≡ self.old.content }
        ensures ok { OnOk result (Within (record { items = items; senders = senders; receivers = receivers }) self.new.room) }
        ensures succeeds { Within (record { items = items; senders = senders; receivers = receivers }) self.old.room
            → IsOk result }
        ensures grows { Within self.old.room self.new.room }
    {
        self.items.reserve(items)?;
        self.senders.reserve(senders)?;
        self.receivers.reserve(receivers)?;
        Ok(())
    }

    /// The room is a number of places in memory.
    pub fn room_is_small(&self)
        ensures { Within self.now.room (each (2 ^ 64 - 1)) }
    {
        let _items = self.items.capacity();
        let _senders = self.senders.capacity();
        let _receivers = self.receivers.capacity();
    }

    /// Takes a change back. It takes memory only where there is no room; refused, nothing has changed.
    pub fn undo(&mut self, undo: ChanUndo) -> Result<(), (ChanUndo, NoMemory)>
        requires { Fits undo self.old.content }
        ensures ok { OnOk result (self.new.content ≡ undone undo self.old.content) }
        ensures err { OnErr result (self.new.content ≡ self.old.content) }
        ensures undo_returned { IfErr result (λ e. e.0 ≡ undo) }
        ensures err_room { OnErr result (Within self.old.room self.new.room) }
        ensures succeeds { Within (need undo) self.old.room → IsOk result }
        ensures spends { OnOk result (Within (plus self.old.room (entered undo)) (plus self.new.room (need undo))) }
    {
        let (items, senders, receivers) = need_of(&undo);
        if let Err(error) = self.make_room(items, senders, receivers) {
            return Err((undo, error));
        }
        self.put_back(undo);
        Ok(())
    }

    /// Takes a change back, for which there is room.
    fn put_back(&mut self, undo: ChanUndo)
        requires fits { Fits undo self.old.content }
        requires room { Within (need undo) self.old.room }
        ensures content { self.new.content ≡ undone undo self.old.content }
        ensures spends { Within (plus self.old.room (entered undo)) (plus self.new.room (need undo)) }
    {
        match undo {
            ChanUndo::Handed(waiter) => self.receivers.push_front_reserved(waiter),
            ChanUndo::Buffered => {
                let _ = self.items.pop_back();
            }
            ChanUndo::Took(front) => {
                self.head -= 1;
                self.items.push_front_reserved(front);
            }
            ChanUndo::Moved { item, go, case } => {
                let value = self.items.pop_back().unwrap();
                self.head -= 1;
                self.items.push_front_reserved(item);
                self.senders.push_front_reserved(Waiter { go, case, value });
            }
            ChanUndo::Met(waiter) => self.senders.push_front_reserved(waiter),
            ChanUndo::ParkedSender => {
                let _ = self.senders.pop_back();
            }
            ChanUndo::ParkedReceiver => {
                let _ = self.receivers.pop_back();
            }
            ChanUndo::Withdrawn { senders, receivers } => {
                put_back(&mut self.senders, senders);
                put_back(&mut self.receivers, receivers);
            }
            ChanUndo::Closed { senders, receivers } => {
                put_back(&mut self.senders, senders);
                put_back(&mut self.receivers, receivers);
                self.closed = false;
            }
        }
    }
}
