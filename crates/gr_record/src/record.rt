//! Records of steps.

ghost use Rattle.std.specs.Prelude.{◌≡◌, Some, None, option_copied, IfOk};
ghost use Rattle.gr_record.specs.Effects.{effect_in, touched_to_receive, touched_to_send};
ghost use Rattle.gr_tables.specs.Kinds.{kind_of};
ghost use Rattle.gr_record.specs.Parts.{begun_in, channel_in};
ghost use Rattle.gr_tables.specs.Before.{is_printed};
ghost use Rattle.gr_record.specs.Records.{event_of};

use crate::few::Few;
use crate::slot::SlotPlace;
use gr_base::{ChName, Choice, Event, GoName, Kind, NoMemory, Object, StepId};
use gr_channels::ChanUndo;
use gr_tables::{GoUndo, KeptUndo, LocalKind, Spot};
use std::alloc::Global;
use std::marker::Model;

/// What a step did with a channel.
#[derive(Drop)]
pub enum Operation {
    SendsOn(ChName),
    ReceivesFrom(ChName),
    TakesLenOf(ChName),
    TakesCapOf(ChName),
    Closes(ChName),
}

impl Operation {
    /// The channel.
    pub fn channel(&self) -> &ChName
        ensures { result.now ≡ channel_in self.now }
    {
        match self {
            Operation::SendsOn(channel) => channel,
            Operation::ReceivesFrom(channel) => channel,
            Operation::TakesLenOf(channel) => channel,
            Operation::TakesCapOf(channel) => channel,
            Operation::Closes(channel) => channel,
        }
    }
}

/// Parts of one channel, in the order of gate, head, tail and slot.
#[derive(Clone, Copy, PartialEq, Eq)]
pub enum Parts {
    Nothing,
    Gate,
    /// The tail, and the slot that the next value enters.
    Entrance,
    /// The head, and the slot of the front item.
    Exit,
    /// The gate, the head, and the slot of the front item.
    GateAndExit,
    /// The gate, the head, the tail, and the slot of the front item.
    All,
}

/// What a step touched of the channel with which it did something.
#[derive(Clone, Copy)]
pub struct Touched {
    /// What it read and did not write.
    pub read: Parts,
    pub written: Parts,
    /// The place of the slot, counted from 0; none at capacity 0.
    pub slot: SlotPlace,
}

/// What few steps reach.
#[derive(Drop)]
pub struct More {
    /// What it read and did not write beside its channel, but for whether the program runs.
    pub reads: Vec<Object>,
    /// What it wrote beside its channel, but for its goroutine and the one that it met.
    pub writes: Vec<Object>,
    /// The goroutine that it started.
    pub begins: Option<GoName>,
    /// The channel that it made.
    pub makes: Option<ChName>,
}

/// What a step reached beyond its goroutine.
#[derive(Drop)]
pub struct Beyond {
    pub operation: Option<Operation>,
    /// What it touched of the channel of the operation.
    pub touched: Touched,
    /// Whether it ended or stopped the program.
    pub stops: bool,
    /// The goroutine that it met, which it wrote.
    pub partner: Option<GoName>,
    /// The goroutines that it met or woke, with their changes.
    pub met: Few<(GoName, KeptUndo)>,
    /// Its changes of channels, in their order.
    pub channels: Few<(ChName, ChanUndo)>,
    pub more: Option<Box<More>>,
}

impl Beyond {
    /// The goroutine that it started.
    pub fn begins(&self) -> Option<&GoName>
        ensures { option_copied result ≡ begun_in self.now }
    {
        match &self.more {
            Some(more) => more.begins.as_ref(),
            None => None,
        }
    }
}

/// What a step did with one channel, and what it touched of it.
#[derive(Drop)]
pub struct Contact {
    pub operation: Operation,
    pub touched: Touched,
}

/// What a step replaced and reached that communicated over one channel and met nobody.
#[derive(Drop)]
pub struct Passage {
    /// What it replaced in its goroutine.
    pub own: KeptUndo,
    pub contact: Contact,
    /// What it replaced in the channel, if it changed that.
    pub undo: Option<ChanUndo>,
}

/// What a step replaced and reached that communicated over one channel with a goroutine which waited for this alone.
#[derive(Drop)]
pub struct Exchange {
    pub passage: Passage,
    /// The goroutine that it met, with what it replaced there.
    pub met: (GoName, KeptUndo),
}

/// What a step replaced and reached that reached further.
#[derive(Drop)]
pub struct Further {
    /// What it replaced in its goroutine.
    pub own: KeptUndo,
    pub beyond: Beyond,
}

impl Passage {
    /// What a step will reach, before it replaces anything.
    pub fn new(alloc: Global, contact: Contact) -> Result<Box<Passage>, NoMemory>
        ensures { IfOk result (λ passage. passage.value.contact ≡ contact) }
    {
        Ok(Box::new(alloc, Passage::of(contact))?)
    }

    fn of(contact: Contact) -> Passage
        ensures { result.contact ≡ contact }
    {
        Passage {
            own: KeptUndo::none_yet(),
            contact,
            undo: None,
        }
    }
}

impl Exchange {
    /// What a step will reach that meets this goroutine, before it replaces anything.
    #[inline(always)]
    pub fn new(alloc: Global, contact: Contact, partner: GoName) -> Result<Box<Exchange>, NoMemory>
        ensures contact { IfOk result (λ exchange. exchange.value.passage.contact ≡ contact) }
        ensures partner { IfOk result (λ exchange. exchange.value.met.0 ≡ partner) }
    {
        let exchange = Exchange {
            passage: Passage::of(contact),
            met: (partner, KeptUndo::none_yet()),
        };
        Ok(Box::new(alloc, exchange)?)
    }
}

impl Further {
    /// What a step will reach, before it replaces anything in its goroutine.
    pub fn new(alloc: Global, beyond: Beyond) -> Result<Box<Further>, NoMemory>
        ensures { IfOk result (λ further. further.value.beyond ≡ beyond) }
    {
        let own = KeptUndo::none_yet();
        Ok(Box::new(alloc, Further { own, beyond })?)
    }
}

/// How what a step did is kept, in 32 bytes and a box where there is need for one.
#[derive(Drop)]
pub enum Form {
    /// It reached no further than its goroutine: its kind, and what it replaced there.
    Alone(LocalKind, KeptUndo),
    /// Its goroutine came to wait for one send on a channel, outside a select: the place of the slot that the next value
    /// enters, and where the innermost frame stands.
    WaitsToSend(SlotPlace, ChName, Spot),
    /// Its goroutine came to wait for one receive, outside a select: the slot of the front item, and where its frame stands.
    WaitsToReceive(SlotPlace, ChName, Spot),
    /// It communicated over a channel, and met nobody.
    Passes(Kind, Box<Passage>),
    /// It communicated over a channel with a goroutine that waited for this alone.
    Exchanges(Kind, Box<Exchange>),
    /// It reached further.
    Further(Kind, Box<Further>),
}

/// What a step did, and what it replaced.
#[derive(Drop)]
pub struct Change {
    pub form: Form,
}

impl Model for Change {
    ghost use Rattle.gr_record.specs.Effects.{Effect, effect_in};

    ghost Value = { Effect };

    ghost view = { λ c. effect_in c.form };
}

impl Change {
    ghost use Rattle.gr_record.specs.Effects.{met_on, reached_on, wait_to_receive, wait_to_send};

    /// What a step did of this kind that reached no further than its goroutine.
    pub fn alone(kind: LocalKind, own: KeptUndo) -> Change
        ensures { result ≡ record { kind = kind_of kind; own = own; beyond = None } }
    {
        Change {
            form: Form::Alone(kind, own),
        }
    }

    /// What a step did whose goroutine came to wait for a send.
    pub fn waits_to_send(slot: SlotPlace, channel: ChName, spot: Spot) -> Change
        ensures { result ≡ wait_to_send slot channel spot }
    {
        Change {
            form: Form::WaitsToSend(slot, channel, spot),
        }
    }

    /// What a step did whose goroutine came to wait for a receive.
    pub fn waits_to_receive(slot: SlotPlace, channel: ChName, spot: Spot) -> Change
        ensures { result ≡ wait_to_receive slot channel spot }
    {
        Change {
            form: Form::WaitsToReceive(slot, channel, spot),
        }
    }

    /// What a step did of this kind that communicated over a channel, met nobody, and replaced this in the channel.
    #[inline(always)]
    pub fn passed(kind: Kind, own: GoUndo, passage: Box<Passage>, undo: Option<ChanUndo>) -> Change
        ensures { result ≡ record { kind = kind; own = own; beyond = Some (reached_on passage.value.contact undo) } }
    {
        let mut passage = passage;
        passage.own = KeptUndo::new(own);
        passage.undo = undo;
        Change {
            form: Form::Passes(kind, passage),
        }
    }

    /// What a step did of this kind that met a goroutine over a channel, and replaced this in both goroutines and the channel.
    #[inline(always)]
    pub fn exchanged(
        kind: Kind,
        own: GoUndo,
        exchange: Box<Exchange>,
        met: GoUndo,
        undo: ChanUndo,
    ) -> Change
        ensures { result ≡ record {
          kind = kind;
          own = own;
          beyond = Some (met_on exchange.value.passage.contact (Some undo) (exchange.value.met.0, met));
        } }
    {
        let mut exchange = exchange;
        exchange.passage.own = KeptUndo::new(own);
        exchange.passage.undo = Some(undo);
        exchange.met.1 = KeptUndo::new(met);
        Change {
            form: Form::Exchanges(kind, exchange),
        }
    }

    /// What a step did of this kind that reached further.
    pub fn further(kind: Kind, own: GoUndo, further: Box<Further>) -> Change
        ensures { result ≡ record { kind = kind; own = own; beyond = Some further.value.beyond } }
    {
        let mut further = further;
        further.own = KeptUndo::new(own);
        Change {
            form: Form::Further(kind, further),
        }
    }

    /// How it is kept.
    pub fn form(&self) -> &Form
        ensures { effect_in result.now ≡ self.now }
    {
        &self.form
    }

    /// The kind of the step.
    pub fn kind(&self) -> Kind
        ensures { result ≡ self.now.kind }
    {
        match &self.form {
            Form::Alone(kind, _) => kind.kind(),
            Form::WaitsToSend(_, _, _) => Kind::SendWait,
            Form::WaitsToReceive(_, _, _) => Kind::RecvWait,
            Form::Passes(kind, _) | Form::Exchanges(kind, _) | Form::Further(kind, _) => *kind,
        }
    }

    /// Whether the step printed a line.
    pub fn printed(&self) -> bool
        ensures { result ≡ is_printed self.now.own }
    {
        match &self.form {
            Form::Alone(_, own) => own.has_printed(),
            Form::WaitsToSend(_, _, _) | Form::WaitsToReceive(_, _, _) => false,
            Form::Passes(_, passage) => passage.own.has_printed(),
            Form::Exchanges(_, exchange) => exchange.passage.own.has_printed(),
            Form::Further(_, further) => further.own.has_printed(),
        }
    }
}

impl Touched {
    /// What a step touched that came to wait for a send: it read where the next value enters, and wrote the gate.
    pub fn to_send(slot: SlotPlace) -> Touched
        ensures { result ≡ touched_to_send slot }
    {
        Touched {
            read: Parts::Entrance,
            written: Parts::Gate,
            slot,
        }
    }

    /// What a step touched that came to wait for a receive: it read where the front item is, and wrote the gate.
    pub fn to_receive(slot: SlotPlace) -> Touched
        ensures { result ≡ touched_to_receive slot }
    {
        Touched {
            read: Parts::Exit,
            written: Parts::Gate,
            slot,
        }
    }
}

/// A step that was taken, by which it can be taken back.
#[derive(Drop)]
pub struct Record {
    pub id: StepId,
    pub choice: Choice,
    pub change: Change,
}

impl Record {
    /// The event whose step it is. It takes no memory: a name is shared.
    pub fn event(&self, alloc: Global) -> Result<Event, NoMemory>
        ensures { IfOk result (λ event. event ≡ event_of self.now) }
    {
        let go = self.id.go.copy(alloc)?;
        Ok(Event {
            go,
            choice: self.choice,
        })
    }

    /// The kind of the step.
    pub fn kind(&self) -> Kind
        ensures { result ≡ self.now.change.kind }
    {
        self.change.kind()
    }

    /// Whether the step printed a line.
    pub fn printed(&self) -> bool
        ensures { result ≡ is_printed self.now.change.own }
    {
        self.change.printed()
    }
}
