//! The channels of a store, by name.

ghost use Rattle.std.specs.Prelude.{◌≡◌, [], ◌∷◌, ◌++◌, false, Some, None, option_copied, IsSome, IfOk, OnOk, OnErr};
ghost use Rattle.std.specs.BTreeMap.{get};
ghost use Rattle.gr_base.specs.declared.names.ChName.{ChName};
ghost use Rattle.gr_base.specs.Names.{ch_cmp};
ghost use Rattle.gr_channels.specs.Channels.{Content, IsChannel, CanEnter};
ghost use Rattle.gr_channels.specs.Changes.{IsClosed, OfferNeedsMemory, TakeNeedsMemory, CloseNeedsMemory};
ghost use Rattle.gr_rules.specs.Operators.{same_channel};
ghost use Rattle.gr_rules.specs.States.{updated};
ghost use Rattle.gr_tables.specs.AreChannels.{AreChannels};

mod going_back;
mod places;
mod withdrawal;

use gr_base::{ChName, NoMemory, Value};
use gr_channels::{ChanUndo, Channel, Offered, Taken, Waiter};
use std::alloc::Global;
use std::collections::BTreeMap;

/// The channels of a store, each under its name.
pub struct Channels {
    map: BTreeMap<ChName, Channel>,
    alloc: Global,
    ghost are_channels: { AreChannels (get ch_cmp map) },
}

// Written out, so that crates above call it and need not prove it again.
impl Drop for Channels {
    fn drop(self) {
        let Channels { map: _, alloc: _ } = self;
    }
}

impl Channels {
    ghost use Rattle.gr_tables.specs.NamedChannels.{seen_of, contents_of, rooms_of, fresh, At, IsOpen, GoesBack, KeepsRooms};
    ghost use Rattle.gr_tables.specs.NamedChannels.{OfferAt, OfferGoesBack, TakeAt, TakeGoesBack, ChangesAt, with_sender};
    ghost use Rattle.gr_tables.specs.NamedChannels.{with_receiver, once_closed};

    /// No channel.
    pub fn new(alloc: Global) -> Channels
        ensures { (q : ChName) → seen_of result q ≡ None }
    {
        Channels {
            map: BTreeMap::new(alloc),
            alloc,
        }
    }

    /// The channel of a name, if there is one.
    pub fn get(&self, name: &ChName) -> Option<&Channel>
        ensures { option_copied result ≡ seen_of self.now name.now }
    {
        self.map.get(name)
    }

    /// The channel of a name, which is there.
    pub fn at(&self, name: &ChName) -> &Channel
        requires { ¬ (None ≡ seen_of self.now name.now) }
        ensures { Some result.now ≡ seen_of self.now name.now }
    {
        match self.map.get(name) {
            Some(channel) => channel,
            None => unreachable!(),
        }
    }

    /// The content of each channel is one that a channel can have.
    pub fn are_channels(&self)
        ensures { (name : ChName) (x : Content) → contents_of self.now name ≡ Some x → IsChannel x }
    {}

    /// Adds a new channel under a name that no channel has. Refused, nothing has changed.
    pub fn add(&mut self, name: ChName, capacity: u32) -> Result<(), NoMemory>
        requires { contents_of self.old name ≡ None }
        ensures contents { OnOk result (contents_of self.new
            ≡ updated same_channel (contents_of self.old) name (Some (fresh capacity))) }
        ensures rooms { OnOk result (KeepsRooms self.old self.new) }
        ensures err { OnErr result (seen_of self.new ≡ seen_of self.old) }
    {
        let channel = Channel::new(self.alloc, capacity);
        self.map.insert(name, channel)?;
        Ok(())
    }

    /// Removes the channel of a name.
    pub fn remove(&mut self, name: &ChName)
        ensures { seen_of self.new ≡ updated same_channel (seen_of self.old) name.now None }
    {
        let _ = self.map.remove(name);
    }

    /// Offers a value to a channel, as `Channel::offer` does. Refused, nothing has changed.
    pub fn offer(&mut self, name: &ChName, value: Value) -> Result<Offered, NoMemory>
        requires { At CanEnter (contents_of self.old name.now) }
        ensures rule { IfOk result (λ answer. OfferAt name.now value answer self.old self.new) }
        ensures back { IfOk result (λ answer. OfferGoesBack name.now answer self.old self.new) }
        ensures err { OnErr result (contents_of self.new ≡ contents_of self.old) }
        ensures needed { OnErr result (At OfferNeedsMemory (seen_of self.old name.now)) }
    {
        self.map.get_mut(name).unwrap().offer(value)
    }

    /// Takes a value from a channel, as `Channel::take` does. Refused, nothing has changed.
    pub fn take(&mut self, name: &ChName) -> Result<Taken, NoMemory>
        requires { At CanEnter (contents_of self.old name.now) }
        ensures rule { IfOk result (λ answer. TakeAt name.now answer self.old self.new) }
        ensures back { IfOk result (λ answer. TakeGoesBack name.now answer self.old self.new) }
        ensures err { OnErr result (seen_of self.new ≡ seen_of self.old) }
        ensures needed { OnErr result (At TakeNeedsMemory (contents_of self.old name.now)) }
    {
        self.map.get_mut(name).unwrap().take()
    }

    /// Puts a sender at the end of a channel's waiting list. Refused, nothing has changed.
    pub fn park_sender(
        &mut self,
        name: &ChName,
        waiter: Waiter<Value>,
    ) -> Result<ChanUndo, NoMemory>
        requires { IsSome (contents_of self.old name.now) }
        ensures change { OnOk result (ChangesAt name.now (with_sender waiter) self.old self.new) }
        ensures undo_value { IfOk result (λ undo. undo ≡ ChanUndo.ParkedSender) }
        ensures back { IfOk result (λ undo. GoesBack ((name.now, undo) ∷ []) self.old self.new) }
        ensures err { OnErr result (contents_of self.new ≡ contents_of self.old) }
        ensures refused_without_room { OnErr result ((rooms_of self.old name.now).senders ≡ 0) }
    {
        self.map.get_mut(name).unwrap().park_sender(waiter)
    }

    /// Puts a receiver at the end of a channel's waiting list. Refused, nothing has changed.
    pub fn park_receiver(&mut self, name: &ChName, waiter: Waiter<()>) -> Result<ChanUndo, NoMemory>
        requires { IsSome (contents_of self.old name.now) }
        ensures change { OnOk result (ChangesAt name.now (with_receiver waiter) self.old self.new) }
        ensures undo_value { IfOk result (λ undo. undo ≡ ChanUndo.ParkedReceiver) }
        ensures back { IfOk result (λ undo. GoesBack ((name.now, undo) ∷ []) self.old self.new) }
        ensures err { OnErr result (contents_of self.new ≡ contents_of self.old) }
        ensures refused_without_room { OnErr result ((rooms_of self.old name.now).receivers ≡ 0) }
    {
        self.map.get_mut(name).unwrap().park_receiver(waiter)
    }

    /// Closes a channel and takes all its waiters out. Refused, nothing has changed.
    pub fn close(&mut self, name: &ChName) -> Result<ChanUndo, NoMemory>
        requires { At IsOpen (contents_of self.old name.now) }
        ensures change { OnOk result (ChangesAt name.now once_closed self.old self.new) }
        ensures undo_value { IfOk result IsClosed }
        ensures back { IfOk result (λ undo. GoesBack ((name.now, undo) ∷ []) self.old self.new) }
        ensures err { OnErr result (contents_of self.new ≡ contents_of self.old) }
        ensures err_rooms { OnErr result (KeepsRooms self.old self.new) }
        ensures needed { OnErr result (At CloseNeedsMemory (contents_of self.old name.now)) }
    {
        self.map.get_mut(name).unwrap().close()
    }
}
