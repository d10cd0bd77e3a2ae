//! Steps that make a channel, start a goroutine and count (Go: Making slices, maps and channels, Go statements, Length and
//! capacity).

ghost use Rattle.std.specs.Prelude.{◌≡◌, ◌+◌, ◌<◌, ◌∷◌, [], pos, false, Some, None, length, MatchOption, option_map, IfOk, OnErr};
ghost use Rattle.gr_base.specs.declared.events.Choice.TheVariants as choices;
ghost use Rattle.gr_base.specs.declared.kinds.Kind.TheVariants as kinds;
ghost use Rattle.gr_base.specs.declared.objects.Object.TheVariants as objects;
ghost use Rattle.gr_base.specs.declared.values.Value.TheVariants.{Int};
ghost use Rattle.gr_rules.specs.Limits.{most_places, most_counts, greatest_count};
ghost use Rattle.gr_rules.specs.Outcomes.{gives};
ghost use Rattle.gr_rules.specs.Deeds as deeds;
ghost use Rattle.gr_rules.specs.Steps.{attempt};
ghost use Rattle.gr_code.specs.CodeFrames.{Wants};
ghost use Rattle.gr_code.specs.Goroutines.{task_of};
ghost use Rattle.gr_code.specs.CodeViews.{program_code_of};
ghost use Rattle.gr_code.specs.Goroutines as arrivals;
ghost use Rattle.gr_tables.specs.NamedGoroutines.{At, Arrives, CanArrive, ChangesBy, seen_at};
ghost use Rattle.gr_step.specs.Beyonds.{Reaches, ReachesChannel, ReachesChild, IsBadSize, ChangesObjects};
ghost use Rattle.gr_lower.specs.Lowered.{lowered};
ghost use Rattle.gr_record.specs.Listings.{program_in, IsCoded};
ghost use Rattle.gr_step.specs.Objects.{contents_in};
ghost use Rattle.gr_step.specs.Room.{HasRoom};
ghost use Rattle.gr_step.specs.Premises.{Acting, OfGoroutine};
ghost use Rattle.gr_record.specs.Taking.{Takes};
ghost use Rattle.gr_step.specs.Stepping.{MayAct, IsPlain, OfItsGoroutine, AsksFor, TakesStep, LeavesRoom, event_for};

use crate::beyond::{reached, with_more};
use crate::objects::Objects;
use crate::touching::gate_side;
use crate::turn::Turn;
use gr_base::{ChName, Event, Fault, GoName, Kind, NoMemory, Object, Value};
use gr_channels::Channel;
use gr_goros::{Arrival, Goroutine, KeptUndo, LocalKind};
use gr_record::Listing;
use gr_record::record::{Change, Further, More, Operation};
use std::alloc::Global;

/// How many places a channel may have.
const MOST_PLACES: u32 = 1_000_000;

/// How many counts the name of a goroutine may have.
const MOST_COUNTS: usize = 32;

/// How many places that is, if a channel can have them.
fn places_of(size: i64) -> Option<u32>
    ensures { MatchOption result (IsBadSize size) (λ places. (size ≡ pos places) × (places < most_places + 1)) }
{
    let places = u32::try_from(size).ok()?;
    if places > MOST_PLACES {
        return None;
    }
    Some(places)
}

/// What a step reaches beyond its goroutine that makes a channel of this name.
fn making(alloc: Global, name: &ChName) -> Result<Box<Further>, NoMemory>
    ensures { IfOk result (λ further. ReachesChannel name.now further.value.beyond) }
{
    let more = More {
        reads: Vec::new(alloc),
        writes: gate_side(alloc, name)?,
        begins: None,
        makes: Some(name.copy(alloc)?),
    };
    with_more(alloc, None, more, false)
}

/// What a step reaches beyond its goroutine that starts a goroutine of this name.
fn starting(alloc: Global, child: GoName) -> Result<Box<Further>, NoMemory>
    ensures { IfOk result (λ further. ReachesChild child further.value.beyond) }
{
    let mut writes = Vec::with_capacity(alloc, 1)?;
    writes.push(Object::Go(child.copy(alloc)?))?;
    let more = More {
        reads: Vec::new(alloc),
        writes,
        begins: Some(child),
        makes: None,
    };
    with_more(alloc, None, more, false)
}

/// How many items are in the buffer of a channel: at most as many as the buffer has places.
fn items_of(channel: &Channel) -> u32
    ensures { result ≡ length channel.now.content.items }
{
    let places = channel.capacity() as usize;
    channel.len().min(places) as u32
}

/// A count as a value.
fn whole(count: u32) -> Value
    ensures { result ≡ Int (pos count) }
{
    Value::Int(i64::from(count))
}

/// The objects that a count of the items of a channel reads: its gate, and the ends of its buffer.
fn read_for_len(alloc: Global, channel: &ChName) -> Result<Vec<Object>, NoMemory>
    ensures { IfOk result (λ reads. reads.items ≡ objects.Gate channel.now ∷ objects.Head channel.now ∷ objects.Tail channel.now
        ∷ []) }
{
    let mut reads = Vec::with_capacity(alloc, 3)?;
    reads.push(Object::Gate(channel.copy(alloc)?))?;
    reads.push(Object::Head(channel.copy(alloc)?))?;
    reads.push(Object::Tail(channel.copy(alloc)?))?;
    Ok(reads)
}

/// What a step reaches beyond its goroutine that did this with a channel and read these.
fn reading(
    alloc: Global,
    operation: Operation,
    reads: Vec<Object>,
) -> Result<Box<Further>, NoMemory>
    ensures { IfOk result (λ further. Reaches (Some operation) reads.items [] false further.value.beyond) }
{
    reached(alloc, Some(operation), reads, Vec::new(alloc), false)
}

impl Objects {
    /// Makes a channel of this size; it may be a fault. Refused, nothing has changed.
    pub(crate) fn make(&mut self, turn: &Turn<'_>, size: i64) -> Result<Change, NoMemory>
        requires may { MayAct turn.now self.old }
        requires plain { IsPlain turn.now }
        requires task { AsksFor turn.now self.old (deeds.Makes size) }
        ensures ok { IfOk result (TakesStep turn.now self.old self.new) }
        ensures room { IfOk result (LeavesRoom turn.now self.new) }
        ensures err { OnErr result (contents_in self.new ≡ contents_in self.old) }
    {
        let Some(places) = places_of(size) else {
            return self.plain_fault(turn.number, Fault::BadSize);
        };
        let made = self.goroutines.get(turn.number).unwrap().channels();
        if made == u32::MAX {
            return self.plain_fault(turn.number, Fault::NameCount);
        }
        self.make_next(turn, made + 1, places)
    }

    /// Makes the next channel of a goroutine, with this number of its own. Refused, nothing has changed.
    fn make_next(&mut self, turn: &Turn<'_>, count: u32, places: u32) -> Result<Change, NoMemory>
        requires may { MayAct turn.now self.old }
        requires plain { IsPlain turn.now }
        requires task { AsksFor turn.now self.old (deeds.Makes (pos places)) }
        requires small { places < most_places + 1 }
        requires few { OfItsGoroutine turn.now self.old (λ g. (g.channels + 1 ≡ count)
            × (g.channels < greatest_count)) }
        ensures ok { IfOk result (TakesStep turn.now self.old self.new) }
        ensures room { IfOk result (LeavesRoom turn.now self.new) }
        ensures err { OnErr result (contents_in self.new ≡ contents_in self.old) }
    {
        let go = turn.event.go.copy(self.alloc)?;
        let name = ChName { go, n: count };
        let further = making(self.alloc, &name)?;
        let value = Value::Chan(Some(name.copy(self.alloc)?));
        let own = self
            .goroutines
            .deliver(turn.number, &turn.listing.code, Arrival::Channel(value))?;
        if let Err(error) = self.channels.add(name, places) {
            self.goroutines.undo(turn.number, own).unwrap();
            return Err(error);
        }
        Ok(Change::further(Kind::Make, own, further))
    }

    /// Starts a goroutine; it may be a fault. Refused, nothing has changed.
    pub(crate) fn start(
        &mut self,
        turn: &Turn<'_>,
        function: u32,
        arguments: Vec<Value>,
    ) -> Result<Change, NoMemory>
        requires may { MayAct turn.now self.old }
        requires plain { IsPlain turn.now }
        requires task { AsksFor turn.now self.old (deeds.Starts function arguments.items) }
        ensures ok { IfOk result (TakesStep turn.now self.old self.new) }
        ensures room { IfOk result (LeavesRoom turn.now self.new) }
        ensures err { OnErr result (contents_in self.new ≡ contents_in self.old) }
    {
        if turn.event.go.counts().len() >= MOST_COUNTS {
            return self.plain_fault(turn.number, Fault::NameDepth);
        }
        let started = self.goroutines.get(turn.number).unwrap().children();
        if started == u32::MAX {
            return self.plain_fault(turn.number, Fault::NameCount);
        }
        self.start_next(turn, started + 1, function, arguments)
    }

    /// Starts the next child of a goroutine, with this number among its children. Refused, nothing has changed.
    fn start_next(
        &mut self,
        turn: &Turn<'_>,
        count: u32,
        function: u32,
        arguments: Vec<Value>,
    ) -> Result<Change, NoMemory>
        requires may { MayAct turn.now self.old }
        requires plain { IsPlain turn.now }
        requires task { AsksFor turn.now self.old (deeds.Starts function arguments.items) }
        requires short { length (event_for turn.now).go < most_counts }
        requires few { OfItsGoroutine turn.now self.old (λ g. (g.children + 1 ≡ count)
            × (g.children < greatest_count)) }
        ensures ok { IfOk result (TakesStep turn.now self.old self.new) }
        ensures room { IfOk result (LeavesRoom turn.now self.new) }
        ensures err { OnErr result (contents_in self.new ≡ contents_in self.old) }
    {
        let child = turn.event.go.child(self.alloc, count)?;
        let goroutine = Goroutine::start(self.alloc, &turn.listing.code, function, arguments)?;
        let place = self.goroutines.know(&child)?;
        let further = starting(self.alloc, child)?;
        let own = self
            .goroutines
            .deliver(turn.number, &turn.listing.code, Arrival::Child)?;
        self.goroutines.put(place, goroutine);
        Ok(Change::further(Kind::Go, own, further))
    }

    /// Counts the items of a channel. Refused, nothing has changed.
    pub(crate) fn len(
        &mut self,
        turn: &Turn<'_>,
        channel: Option<ChName>,
    ) -> Result<Change, NoMemory>
        requires may { MayAct turn.now self.old }
        requires plain { IsPlain turn.now }
        requires task { AsksFor turn.now self.old (deeds.TakesLen channel) }
        ensures ok { IfOk result (TakesStep turn.now self.old self.new) }
        ensures room { IfOk result (LeavesRoom turn.now self.new) }
        ensures err { OnErr result (contents_in self.new ≡ contents_in self.old) }
    {
        let Some(channel) = channel else {
            return self.count(turn.listing, turn.number, 0, None);
        };
        let items = items_of(self.channels.get(&channel).unwrap());
        let reads = read_for_len(self.alloc, &channel)?;
        let further = reading(self.alloc, Operation::TakesLenOf(channel), reads)?;
        self.count(turn.listing, turn.number, items, Some(further))
    }

    /// Counts the places of a channel. Refused, nothing has changed.
    pub(crate) fn cap(
        &mut self,
        turn: &Turn<'_>,
        channel: Option<ChName>,
    ) -> Result<Change, NoMemory>
        requires may { MayAct turn.now self.old }
        requires plain { IsPlain turn.now }
        requires task { AsksFor turn.now self.old (deeds.TakesCap channel) }
        ensures ok { IfOk result (TakesStep turn.now self.old self.new) }
        ensures room { IfOk result (LeavesRoom turn.now self.new) }
        ensures err { OnErr result (contents_in self.new ≡ contents_in self.old) }
    {
        let Some(channel) = channel else {
            return self.count(turn.listing, turn.number, 0, None);
        };
        let places = self.channels.get(&channel).unwrap().capacity();
        let reads = gate_side(self.alloc, &channel)?;
        let further = reading(self.alloc, Operation::TakesCapOf(channel), reads)?;
        self.count(turn.listing, turn.number, places, Some(further))
    }

    /// The goroutine with a number goes on with a count, which reached this beyond it. Refused, nothing has changed.
    fn count(
        &mut self,
        listing: &Listing,
        number: usize,
        count: u32,
        further: Option<Box<Further>>,
    ) -> Result<Change, NoMemory>
        requires { At (CanArrive (program_code_of listing.now.code.value) (arrivals.Value (Int (pos count))))
            (seen_at self.old.goroutines number) }
        ensures ok { IfOk result (λ change. (change.kind ≡ kinds.Length)
            × (change.beyond ≡ option_map (λ f. f.value.beyond) further)
            × ChangesObjects (ChangesBy number
            (Arrives (program_code_of listing.now.code.value)
            (arrivals.Value (Int (pos count))) change.own)) self.old.run self.old self.new) }
        ensures err { OnErr result (contents_in self.new ≡ contents_in self.old) }
    {
        let arrival = Arrival::Value(whole(count));
        let own = self.goroutines.deliver(number, &listing.code, arrival)?;
        match further {
            Some(further) => Ok(Change::further(Kind::Length, own, further)),
            None => Ok(Change::alone(LocalKind::Length, KeptUndo::new(own))),
        }
    }
}
