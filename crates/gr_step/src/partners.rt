//! Communications with a goroutine that waits (Go: Send statements, Receive operator, Select statements).

ghost use Rattle.std.specs.Prelude.{◌≡◌, List, [], ◌∷◌, false, true, Some, IfOk, OnOk, OnErr};
ghost use Rattle.gr_base.specs.declared.objects.Object.TheVariants as objects;
ghost use Rattle.gr_rules.specs.Attempts as attempts;
ghost use Rattle.gr_rules.specs.States.{same_go};
ghost use Rattle.gr_rules.specs.Goroutines.{waiting, Wait};
ghost use Rattle.gr_refine.specs.Partners.{is_waiting};
ghost use Rattle.gr_code.specs.CodeViews.{program_code_of};
ghost use Rattle.gr_goros.specs.Views.{arrival_of, status_of};
ghost use Rattle.gr_record.specs.Fews.{members};
ghost use Rattle.gr_tables.specs.NamedChannels.{TookBack, listed};
ghost use Rattle.gr_tables.specs.NamedGoroutines.{At, goroutines_of, name_at, seen_at, CanArrive, Arrives, ChangesBy};
ghost use Rattle.gr_tables.specs.NamedGoroutines.{KeepsContents};
ghost use Rattle.gr_record.specs.Effects.{reached_by_passage};
ghost use Rattle.gr_record.specs.Parts.{channel_in, AreTouched};
ghost use Rattle.gr_record.specs.Records.{operation_of};
ghost use Rattle.gr_step.specs.Passing.{CanArriveAt, BothArrive, Tells};
ghost use Rattle.gr_step.specs.Preparing.{IsReached, IsPrepared, CanPass, IsPass, CanExchange, IsExchange, WaitsFor};
ghost use Rattle.gr_step.specs.Preparing.{before_exchange, channel_of, go_of, left_by, reached_by};
ghost use Rattle.gr_step.specs.Preparing.{IsPartner, IsSelecting, MayExchange};
ghost use Rattle.gr_step.specs.Stepping.{event_for, code_for};

use crate::beyond::{exchange, reached_with, with_changes};
use crate::channels_named::{leave_after, others_awaited, still_to_leave, waits_alone};
use crate::crossing::Crossing;
use crate::objects::Objects;
use crate::turn::Turn;
use crate::unstepping::{put_back, put_one_back};
use gr_base::{ChName, GoName, Kind, NoMemory, Object};
use gr_channels::ChanUndo;
use gr_goros::{Arrival, GoUndo, KeptUndo, Status};
use gr_record::Few;
use gr_record::record::{Change, Contact, Exchange, Further, Operation, Passage, Touched};
use std::alloc::Global;

/// The change of a step that met nobody, with its change of the channel, if there was one.
#[inline(always)]
fn told(kind: Kind, own: GoUndo, passage: Box<Passage>, undo: Option<ChanUndo>) -> Change
    ensures { (operation : attempts.Operation) (reads writes : List Object)
        → IsReached operation reads writes (reached_by_passage passage.value)
        → Tells result kind (Some operation) reads writes own [] (listed (channel_in passage.value.contact.operation) undo) }
{
    Change::passed(kind, own, passage, undo)
}

/// The change of a step that met one goroutine, and changed these channels.
fn told_with(
    kind: Kind,
    own: GoUndo,
    further: Box<Further>,
    met: (GoName, GoUndo),
    channels: Few<(ChName, ChanUndo)>,
) -> Change
    ensures { (operation : attempts.Operation) (reads writes : List Object)
        → IsReached operation reads writes further.value.beyond
        → Tells result kind (Some operation) reads writes own (met ∷ []) (members channels) }
{
    let (go, undo) = met;
    let met = Few::One((go, KeptUndo::new(undo)));
    Change::further(kind, own, with_changes(further, met, channels))
}

/// The change of a step that met one goroutine, which waited for this alone, with its change of the channel.
#[inline(always)]
fn told_alone(
    kind: Kind,
    own: GoUndo,
    exchange: Box<Exchange>,
    met: GoUndo,
    undo: ChanUndo,
) -> Change
    ensures { (operation : attempts.Operation) (reads writes : List Object)
        → IsReached operation reads writes (before_exchange exchange.value)
        → Tells result kind (Some operation) reads writes own ((exchange.value.met.0, met) ∷ [])
        ((channel_in exchange.value.passage.contact.operation, undo) ∷ []) }
{
    Change::exchanged(kind, own, exchange, met, undo)
}

/// A goroutine that waits for more than the communication in which a step meets it.
#[derive(Drop)]
pub(crate) struct Selecting {
    pub(crate) go: GoName,
    /// The channels that it is still to leave, where it left a queue of that of the communication.
    pub(crate) names: Vec<ChName>,
    /// The channel of the communication.
    pub(crate) channel: ChName,
    pub(crate) further: Box<Further>,
}

/// A goroutine that waits, and what the step reaches that meets it.
#[derive(Drop)]
pub(crate) enum Partner {
    /// It waits for this alone.
    Alone(Box<Exchange>),
    Selects(Selecting),
}

/// What a step with a goroutine that waits has ready before it changes anything.
#[derive(Drop)]
pub(crate) struct Prepared {
    /// The number of the goroutine.
    pub(crate) number: usize,
    pub(crate) partner: Partner,
}

/// A goroutine with this status is made ready for a communication on a channel, where it waits for more things.
#[inline(never)]
fn prepare_selecting(
    alloc: Global,
    contact: Contact,
    channel: &ChName,
    go: &GoName,
    status: &Status,
) -> Result<Selecting, NoMemory>
    ensures { (ws : List Wait) (reads writes : List Object) → status_of status.now ≡ waiting ws
        → AreTouched contact.touched (Some (channel_in contact.operation)) reads writes
        → IfOk result (λ s. IsSelecting (operation_of contact.operation) reads writes channel.now go.now ws s) }
{
    let others = others_awaited(alloc, channel, status)?;
    let further = reached_with(alloc, contact, go, &others)?;
    let names = still_to_leave(alloc, channel, status, others)?;
    Ok(Selecting {
        go: go.copy(alloc)?,
        names,
        channel: channel.copy(alloc)?,
        further,
    })
}

/// A goroutine with this status is made ready for a communication on a channel.
#[inline(always)]
fn prepare_partner(
    alloc: Global,
    contact: Contact,
    channel: &ChName,
    go: &GoName,
    status: &Status,
) -> Result<Partner, NoMemory>
    requires { channel_in contact.operation ≡ channel.now }
    ensures { (ws : List Wait) (reads writes : List Object) → status_of status.now ≡ waiting ws
        → AreTouched contact.touched (Some (channel_in contact.operation)) reads writes
        → IfOk result (λ r. IsPartner (operation_of contact.operation) reads writes channel.now go.now ws r) }
{
    if waits_alone(channel, status) {
        return Ok(Partner::Alone(exchange(alloc, contact, go)?));
    }
    Ok(Partner::Selects(prepare_selecting(alloc, contact, channel, go, status)?))
}

impl Objects {
    /// Makes all ready for a communication on a channel with a goroutine that waits there.
    #[inline(always)]
    pub(crate) fn prepare(
        &self,
        operation: Operation,
        touched: Touched,
        channel: &ChName,
        go: &GoName,
    ) -> Result<Prepared, NoMemory>
        requires waits { is_waiting (goroutines_of self.now.goroutines go.now) ≡ true }
        requires channel { channel_in operation ≡ channel.now }
        ensures { (ws : List Wait) (reads writes : List Object) → At (WaitsFor ws) (goroutines_of self.now.goroutines go.now)
            → AreTouched touched (Some (channel_in operation)) reads writes
            → IfOk result (λ r. IsPrepared (operation_of operation) reads writes channel.now go.now ws self.now r) }
    {
        let number = self.goroutines.number(go).unwrap();
        let goroutine = self.goroutines.at(number);
        let contact = Contact { operation, touched };
        let status = goroutine.status();
        let partner = prepare_partner(self.alloc, contact, channel, go, status)?;
        Ok(Prepared { number, partner })
    }

    /// The goroutine with a number goes past its communication and meets nobody, after a change of its channel in the same
    /// step, if there was one. Refused, that change is taken back.
    #[inline(always)]
    pub(crate) fn pass(
        &mut self,
        turn: &Turn<'_>,
        passes: Arrival,
        kind: Kind,
        passage: Box<Passage>,
        undo: Option<ChanUndo>,
    ) -> Result<Change, NoMemory>
        requires { CanPass (code_for turn.now) (event_for turn.now) turn.now.number (arrival_of passes)
            (listed (channel_in passage.value.contact.operation) undo) self.old }
        ensures ok { (operation : attempts.Operation) (reads writes : List Object)
            → IsReached operation reads writes (reached_by_passage passage.value)
            → IfOk result (λ change. IsPass (code_for turn.now) (event_for turn.now).go
            (arrival_of passes) kind operation reads writes
            (listed (channel_in passage.value.contact.operation) undo) change self.old self.new) }
        ensures err_goroutines { OnErr result (goroutines_of self.new.goroutines ≡ goroutines_of self.old.goroutines) }
        ensures err_channels { OnErr result
            (TookBack (listed (channel_in passage.value.contact.operation) undo) self.old.channels self.new.channels) }
        ensures run { self.new.run ≡ self.old.run }
    {
        match self
            .goroutines
            .deliver(turn.number, &turn.listing.code, passes)
        {
            Ok(own) => Ok(told(kind, own, passage, undo)),
            Err(error) => {
                put_one_back(
                    &mut self.channels,
                    passage.contact.operation.channel(),
                    undo,
                );
                Err(error)
            }
        }
    }

    /// What arrives takes two goroutines past their communication, one after the other. Refused, neither has changed.
    #[inline(always)]
    fn both_arrive(
        &mut self,
        turn: &Turn<'_>,
        passes: Arrival,
        go: &GoName,
        partner: usize,
        meets: Arrival,
    ) -> Result<(GoUndo, GoUndo), NoMemory>
        requires named { name_at self.old.goroutines turn.now.number ≡ Some (event_for turn.now).go }
        requires partner_named { name_at self.old.goroutines partner ≡ Some go.now }
        requires apart { same_go go.now (event_for turn.now).go ≡ false }
        requires can { CanArriveAt (code_for turn.now) (arrival_of passes)
            (goroutines_of self.old.goroutines (event_for turn.now).go) }
        requires partner_can { CanArriveAt (code_for turn.now) (arrival_of meets)
            (goroutines_of self.old.goroutines go.now) }
        ensures after { IfOk result (λ r. BothArrive (code_for turn.now) (event_for turn.now).go go.now (arrival_of passes)
            (arrival_of meets) r.0 r.1
            (goroutines_of self.old.goroutines) (goroutines_of self.new.goroutines)) }
        ensures err { OnErr result (goroutines_of self.new.goroutines ≡ goroutines_of self.old.goroutines) }
        ensures channels { self.new.channels ≡ self.old.channels }
        ensures run { self.new.run ≡ self.old.run }
    {
        let code = &*turn.listing.code;
        let own = self.goroutines.deliver(turn.number, code, passes)?;
        match self.goroutines.deliver(partner, code, meets) {
            Ok(met) => Ok((own, met)),
            Err(error) => {
                self.goroutines.undo(turn.number, own).unwrap();
                Err(error)
            }
        }
    }

    /// The goroutine with a number goes past its communication, and so does its partner, which waits for more things, after a
    /// change of their channel. Refused, that change is taken back.
    #[inline(never)]
    fn exchange_with_more(
        &mut self,
        turn: &Turn<'_>,
        partner: usize,
        selecting: Selecting,
        undo: ChanUndo,
        crossing: Crossing,
    ) -> Result<Change, NoMemory>
        requires { MayExchange (code_for turn.now) (event_for turn.now) turn.now.number partner
            selecting.go selecting.channel undo (arrival_of crossing.passes) (arrival_of crossing.meets) self.old }
        ensures ok { (operation : attempts.Operation) (reads writes : List Object)
            → IsReached operation reads writes selecting.further.value.beyond
            → IfOk result (λ change. IsExchange (code_for turn.now) (event_for turn.now).go selecting.go
            (arrival_of crossing.passes) (arrival_of crossing.meets)
            selecting.names.items crossing.kind operation reads writes
            ((selecting.channel, undo) ∷ []) change self.old self.new) }
        ensures err_goroutines { OnErr result (goroutines_of self.new.goroutines ≡ goroutines_of self.old.goroutines) }
        ensures err_channels { OnErr result (TookBack ((selecting.channel, undo) ∷ []) self.old.channels self.new.channels) }
        ensures run { self.new.run ≡ self.old.run }
    {
        let Selecting {
            go,
            names,
            channel,
            further,
        } = selecting;
        let Crossing {
            kind,
            passes,
            meets,
        } = crossing;
        let change = (channel, undo);
        let done = leave_after(&mut self.channels, self.alloc, change, &names, &go)?;
        match self.both_arrive(turn, passes, &go, partner, meets) {
            Ok((own, met)) => Ok(told_with(kind, own, further, (go, met), done)),
            Err(error) => {
                put_back(&mut self.channels, done);
                Err(error)
            }
        }
    }

    /// The goroutine with a number goes past its communication, and so does its partner, which waits for this alone, after a
    /// change of their channel. Refused, that change is taken back.
    #[inline(always)]
    fn exchange_alone(
        &mut self,
        turn: &Turn<'_>,
        partner: usize,
        exchange: Box<Exchange>,
        undo: ChanUndo,
        crossing: Crossing,
    ) -> Result<Change, NoMemory>
        requires { MayExchange (code_for turn.now) (event_for turn.now) turn.now.number partner exchange.value.met.0
            (channel_in exchange.value.passage.contact.operation) undo
            (arrival_of crossing.passes) (arrival_of crossing.meets) self.old }
        ensures ok { (operation : attempts.Operation) (reads writes : List Object)
            → IsReached operation reads writes (before_exchange exchange.value)
            → IfOk result (λ change. IsExchange (code_for turn.now) (event_for turn.now).go exchange.value.met.0
            (arrival_of crossing.passes) (arrival_of crossing.meets) [] crossing.kind operation reads writes
            ((channel_in exchange.value.passage.contact.operation, undo) ∷ []) change self.old self.new) }
        ensures err_goroutines { OnErr result (goroutines_of self.new.goroutines ≡ goroutines_of self.old.goroutines) }
        ensures err_channels { OnErr result
            (TookBack ((channel_in exchange.value.passage.contact.operation, undo) ∷ []) self.old.channels self.new.channels) }
        ensures run { self.new.run ≡ self.old.run }
    {
        let Crossing {
            kind,
            passes,
            meets,
        } = crossing;
        match self.both_arrive(turn, passes, &exchange.met.0, partner, meets) {
            Ok((own, met)) => Ok(told_alone(kind, own, exchange, met, undo)),
            Err(error) => {
                let channel = exchange.passage.contact.operation.channel();
                self.channels.put_back(channel, undo);
                Err(error)
            }
        }
    }

    /// The goroutine with a number goes past its communication, with all made ready for that, and its partner too, after a change
    /// of their channel. Refused, that change is taken back.
    #[inline(always)]
    pub(crate) fn exchange(
        &mut self,
        turn: &Turn<'_>,
        prepared: Prepared,
        undo: ChanUndo,
        crossing: Crossing,
    ) -> Result<Change, NoMemory>
        requires { CanExchange (code_for turn.now) (event_for turn.now) turn.now.number prepared undo
            (arrival_of crossing.passes) (arrival_of crossing.meets) self.old }
        ensures ok { (operation : attempts.Operation) (reads writes : List Object)
            → IsReached operation reads writes (reached_by prepared.partner)
            → IfOk result (λ change. IsExchange (code_for turn.now) (event_for turn.now).go (go_of prepared.partner)
            (arrival_of crossing.passes) (arrival_of crossing.meets)
            (left_by prepared.partner) crossing.kind operation reads writes
            ((channel_of prepared.partner, undo) ∷ []) change self.old self.new) }
        ensures err_goroutines { OnErr result (goroutines_of self.new.goroutines ≡ goroutines_of self.old.goroutines) }
        ensures err_channels { OnErr result
            (TookBack ((channel_of prepared.partner, undo) ∷ []) self.old.channels self.new.channels) }
        ensures run { self.new.run ≡ self.old.run }
    {
        let Prepared { number, partner } = prepared;
        match partner {
            Partner::Alone(exchange) => {
                self.exchange_alone(turn, number, exchange, undo, crossing)
            }
            Partner::Selects(selecting) => {
                self.exchange_with_more(turn, number, selecting, undo, crossing)
            }
        }
    }
}
