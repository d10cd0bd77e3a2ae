//! The step of a goroutine that comes to wait (Go: Send statements, Receive operator, Select statements).

ghost use Rattle.std.specs.Prelude.{◌≡◌, ◌^◌, ◌≤◌, ◌∷◌, [], ◌++◌, true, false, Some, None, option_map, map, length};
ghost use Rattle.std.specs.Prelude.{IfOk, IfErr, OnOk, OnErr, IsOk, List, Option, vec_len, vec_capacity};
ghost use Rattle.gr_base.specs.declared.events.Choice.TheVariants as choices;
ghost use Rattle.gr_base.specs.declared.kinds.Kind.TheVariants as kinds;
ghost use Rattle.gr_rules.specs.Outcomes.{gives, faults};
ghost use Rattle.gr_rules.specs.Deeds as deeds;
ghost use Rattle.gr_rules.specs.Attempts as attempts;
ghost use Rattle.gr_rules.specs.Communications as rules;
ghost use Rattle.gr_rules.specs.Steps.{attempt};
ghost use Rattle.gr_rules.specs.Selects as rules_of_selects;
ghost use Rattle.gr_code.specs.CodeFrames.{Wants};
ghost use Rattle.gr_code.specs.Goroutines.{task_of, is_local};
ghost use Rattle.gr_refine.specs.Leaves.{Refuses};
ghost use Rattle.gr_refine.specs.Presence.{Sound};
ghost use Rattle.gr_goros.specs.Views.{communication_of, communications_of, waits_of};
ghost use Rattle.gr_goros.specs.Needs.{NeedIs};
ghost use Rattle.gr_lower.specs.Lowered.{lowered};
ghost use Rattle.gr_record.specs.Listings.{program_in, frame_in, state_in, IsCoded};
ghost use Rattle.gr_step.specs.Objects.{contents_in};
ghost use Rattle.gr_base.specs.declared.objects.Object.TheVariants as objects;
ghost use Rattle.gr_base.specs.declared.values.Value as value;
ghost use Rattle.gr_rules.specs.Actors as actors;
ghost use Rattle.gr_tables.specs.NamedChannels.{contents_of};
ghost use Rattle.gr_tables.specs.NamedGoroutines.{seen_at, At, CanPark};
ghost use Rattle.gr_step.specs.Parks.{pending_of, gates_of, with_channels, AreMade, Parks};
ghost use Rattle.gr_step.specs.Beyonds.{Reaches};
ghost use Rattle.gr_record.specs.Effects.{touched_to_receive, touched_to_send};
ghost use Rattle.gr_record.specs.Parts.{channel_on, AreTouched};
ghost use Rattle.gr_record.specs.declared.record.Operation.TheVariants as operations;
ghost use Rattle.gr_laws.specs.Touched.{each_once as each_read};
ghost use Rattle.gr_rules.specs.Touches.{side as side_by};
ghost use Rattle.gr_rules.specs.Frames.{Frame};
ghost use Rattle.gr_code.specs.CodeFrames.{CodeFrame};
ghost use Rattle.gr_refine.specs.Contents.{state_of};
ghost use Rattle.gr_refine.specs.Partners.{is_made_for};
ghost use Rattle.gr_record.specs.Records.{operation_of};
ghost use Rattle.gr_step.specs.Room.{HasRoom};
ghost use Rattle.gr_step.specs.Premises.{Acting, OfGoroutine, OfActor};
ghost use Rattle.gr_record.specs.Taking.{Takes};
ghost use Rattle.gr_step.specs.Communicating.{HasValues};
ghost use Rattle.gr_step.specs.Stepping.{MayAct, AsksFor, LeavesRoom, program_for, event_for};

use crate::beyond::{reached, waited};
use crate::channels_named::channels_but;
use crate::objects::Objects;
use crate::queues::{all_waits, park_for_few, queue_to_receive, queue_to_send};
use crate::sides::{each_once, sides};
use crate::touching::{entrance_of, exit_of, push_gates, untouched};
use crate::turn::Turn;
use gr_base::{ChName, Event, Kind, NoMemory, Object, Value};
use gr_goros::{Clause, Wait};
use gr_record::Listing;
use gr_record::record::{Change, Further, Operation};
use gr_record::slot::SlotPlace;
use gr_tables::channels::Channels;
use std::alloc::Global;

/// The clauses of a select, each with its number, counted from 1, on a list with room for them. It takes no memory, and is
/// refused only at 2^32 clauses or more.
fn numbered(
    mut pending: Vec<(Option<u32>, Clause)>,
    clauses: Vec<Clause>,
) -> Result<Vec<(Option<u32>, Clause)>, NoMemory>
    requires empty { pending.items ≡ [] }
    requires room { vec_len clauses ≤ vec_capacity pending }
    ensures ok { IfOk result (λ pending. pending_of pending.items
        ≡ rules_of_selects.numbered 1 (communications_of clauses.items)) }
    ensures refused { OnErr result (2 ^ 32 ≤ length clauses.items) }
{
    let mut number: u32 = 0;
    for clause in clauses {
        let Some(next) = number.checked_add(1) else {
            return Err(NoMemory);
        };
        number = next;
        pending.push_reserved((Some(number), clause));
    }
    Ok(pending)
}

/// The gates of the channels on which one waits.
fn gates(alloc: Global, waits: &[Wait]) -> Result<Vec<Object>, NoMemory>
    ensures { IfOk result (λ gates. gates.items ≡ map objects.Gate (actors.channels_but [] (waits_of waits.now))) }
{
    let names = channels_but(alloc, &[], waits)?;
    let mut gates = Vec::with_capacity(alloc, names.len())?;
    push_gates(alloc, &mut gates, &names)?;
    Ok(gates)
}

/// The place of the slot that a wait to send reads of its channel, which is there: it reads where the next value enters, and
/// writes the gate.
fn slot_to_send(channels: &Channels, channel: &ChName, value: &Value) -> SlotPlace
    requires { AreMade ((None, deeds.Sending (Some channel.now) (gives value.now)) ∷ []) (contents_of channels.now) }
    ensures { (frame : CodeFrame → Frame) → AreTouched (touched_to_send result) (Some channel.now)
        (each_read (gates_of ((None, deeds.Sending (Some channel.now) (gives value.now)) ∷ []))
        (side_by (state_of frame (with_channels (contents_of channels.now)))
        (deeds.Sending (Some channel.now) (gives value.now))))
        (gates_of ((None, deeds.Sending (Some channel.now) (gives value.now)) ∷ [])) }
{
    entrance_of(channels.get(channel).unwrap())
}

/// The place of the slot that a wait to receive reads of its channel, which is there: it reads where the front item is, and
/// writes the gate.
fn slot_to_receive(channels: &Channels, channel: &ChName) -> SlotPlace
    requires { (initial : value.Value)
        → AreMade ((None, deeds.Receiving (Some channel.now) initial) ∷ []) (contents_of channels.now) }
    ensures { (frame : CodeFrame → Frame) (initial : value.Value) → AreTouched (touched_to_receive result) (Some channel.now)
        (each_read (gates_of ((None, deeds.Receiving (Some channel.now) initial) ∷ []))
        (side_by (state_of frame (with_channels (contents_of channels.now))) (deeds.Receiving (Some channel.now) initial)))
        (gates_of ((None, deeds.Receiving (Some channel.now) initial) ∷ [])) }
{
    exit_of(channels.get(channel).unwrap())
}

impl Objects {
    /// Begins to wait for these, each with the number of its clause where it is one of a select. What the step reaches is
    /// given, except its changes of channels. Refused, nothing has changed.
    fn begin_to_wait(
        &mut self,
        turn: &Turn<'_>,
        kind: Kind,
        further: Box<Further>,
        waits: Box<Vec<Wait>>,
        pending: &[(Option<u32>, Clause)],
    ) -> Result<Change, NoMemory>
        requires parks { At CanPark (seen_at self.old.goroutines turn.now.number) }
        requires made { AreMade (pending_of pending.now) (contents_of self.old.channels) }
        requires waits { waits_of waits.value.items ≡ rules.all_waits (pending_of pending.now) }
        ensures ok { (operation : Option Operation) (sides : List Object)
            → Reaches operation (each_read (gates_of (pending_of pending.now)) sides)
            (gates_of (pending_of pending.now)) false further.value.beyond
            → IfOk result (λ change. Parks (event_for turn.now) turn.now.number kind operation sides
            (pending_of pending.now) change self.old self.new) }
        ensures err { OnErr result (contents_in self.new ≡ contents_in self.old) }
    {
        let mut further = further;
        further.beyond.channels = park_for_few(
            &mut self.channels,
            self.alloc,
            &turn.event.go,
            pending,
        )?;
        let own = self.goroutines.park(turn.number, waits);
        Ok(Change::further(kind, own, further))
    }

    /// Begins to wait for any of these, each with the number of its clause, after a look at the sides. Refused, nothing has
    /// changed.
    fn wait_for(
        &mut self,
        turn: &Turn<'_>,
        kind: Kind,
        operation: Option<Operation>,
        sides: &[Object],
        pending: &[(Option<u32>, Clause)],
    ) -> Result<Change, NoMemory>
        requires parks { At CanPark (seen_at self.old.goroutines turn.now.number) }
        requires made { AreMade (pending_of pending.now) (contents_of self.old.channels) }
        ensures ok { IfOk result (λ change. Parks (event_for turn.now) turn.now.number kind operation sides.now
            (pending_of pending.now) change self.old self.new) }
        ensures err { OnErr result (contents_in self.new ≡ contents_in self.old) }
    {
        let alloc = self.alloc;
        let waits = all_waits(alloc, pending)?;
        let writes = gates(alloc, &waits)?;
        let reads = each_once(alloc, &writes, sides)?;
        let further = reached(alloc, operation, reads, writes, false)?;
        let waits = Box::new(alloc, waits)?;
        self.begin_to_wait(turn, kind, further, waits, pending)
    }

    /// Begins to wait for a communication on nil, forever. Refused, nothing has changed.
    fn wait_on_nil(
        &mut self,
        turn: &Turn<'_>,
        kind: Kind,
        communication: Clause,
    ) -> Result<Change, NoMemory>
        requires parks { At CanPark (seen_at self.old.goroutines turn.now.number) }
        requires nil { channel_on (communication_of communication) ≡ None }
        ensures ok { (frame : CodeFrame → Frame) → IfOk result (λ change. Parks (event_for turn.now) turn.now.number kind None
            (side_by (state_of frame (with_channels (contents_of self.old.channels))) (communication_of communication))
            ((None, communication_of communication) ∷ []) change self.old self.new) }
        ensures err { OnErr result (contents_in self.new ≡ contents_in self.old) }
    {
        let further = waited(self.alloc, None, untouched())?;
        let waits = Box::new(self.alloc, Vec::new(self.alloc))?;
        self.begin_to_wait(turn, kind, further, waits, &[(None, communication)])
    }

    /// Begins to wait to send a value on a channel. Refused, nothing has changed.
    fn wait_for_receiver(
        &mut self,
        turn: &Turn<'_>,
        channel: ChName,
        value: Value,
    ) -> Result<Change, NoMemory>
        requires parks { At CanPark (seen_at self.old.goroutines turn.now.number) }
        requires made { AreMade ((None, deeds.Sending (Some channel) (gives value)) ∷ []) (contents_of self.old.channels) }
        ensures ok { (frame : CodeFrame → Frame)
            → IfOk result (λ change. Parks (event_for turn.now) turn.now.number kinds.SendWait (Some (operations.SendsOn channel))
            (side_by (state_of frame (with_channels (contents_of self.old.channels)))
            (deeds.Sending (Some channel) (gives value)))
            ((None, deeds.Sending (Some channel) (gives value)) ∷ []) change self.old self.new) }
        ensures err { OnErr result (contents_in self.new ≡ contents_in self.old) }
    {
        let name = channel.copy(self.alloc)?;
        let slot = slot_to_send(&self.channels, &channel, &value);
        queue_to_send(
            &mut self.channels,
            self.alloc,
            &turn.event.go,
            &channel,
            value,
        )?;
        let spot = self.goroutines.park_to_send(turn.number, name);
        Ok(Change::waits_to_send(slot, channel, spot))
    }

    /// Begins to wait to receive from a channel. The zero value serves only to compare the clauses with those of the rules.
    /// Refused, nothing has changed.
    fn wait_for_sender(
        &mut self,
        turn: &Turn<'_>,
        channel: ChName,
        zero: Value,
    ) -> Result<Change, NoMemory>
        requires parks { At CanPark (seen_at self.old.goroutines turn.now.number) }
        requires made { AreMade ((None, deeds.Receiving (Some channel) zero) ∷ []) (contents_of self.old.channels) }
        ensures ok { (frame : CodeFrame → Frame)
            → IfOk result (λ change. Parks (event_for turn.now) turn.now.number kinds.RecvWait
            (Some (operations.ReceivesFrom channel))
            (side_by (state_of frame (with_channels (contents_of self.old.channels))) (deeds.Receiving (Some channel) zero))
            ((None, deeds.Receiving (Some channel) zero) ∷ []) change self.old self.new) }
        ensures err { OnErr result (contents_in self.new ≡ contents_in self.old) }
    {
        let name = channel.copy(self.alloc)?;
        let slot = slot_to_receive(&self.channels, &channel);
        queue_to_receive(&mut self.channels, self.alloc, &turn.event.go, &channel)?;
        let spot = self.goroutines.park_to_receive(turn.number, name);
        Ok(Change::waits_to_receive(slot, channel, spot))
    }

    /// Begins to wait to send a value, on nil forever. Refused, nothing has changed.
    fn begin_to_send(
        &mut self,
        turn: &Turn<'_>,
        channel: Option<ChName>,
        value: Value,
    ) -> Result<Change, NoMemory>
        requires parks { At CanPark (seen_at self.old.goroutines turn.now.number) }
        requires made { AreMade ((None, deeds.Sending channel (gives value)) ∷ []) (contents_of self.old.channels) }
        ensures ok { (frame : CodeFrame → Frame)
            → IfOk result (λ change. Parks (event_for turn.now) turn.now.number kinds.SendWait
            (option_map operations.SendsOn channel)
            (side_by (state_of frame (with_channels (contents_of self.old.channels))) (deeds.Sending channel (gives value)))
            ((None, deeds.Sending channel (gives value)) ∷ []) change self.old self.new) }
        ensures err { OnErr result (contents_in self.new ≡ contents_in self.old) }
    {
        match channel {
            Some(channel) => self.wait_for_receiver(turn, channel, value),
            None => {
                let clause = Clause::Send {
                    channel: None,
                    value: Ok(value),
                };
                self.wait_on_nil(turn, Kind::SendWait, clause)
            }
        }
    }

    /// Begins to wait to receive, on nil forever. The zero value serves only to compare the clauses with those of the rules.
    /// Refused, nothing has changed.
    fn begin_to_receive(
        &mut self,
        turn: &Turn<'_>,
        channel: Option<ChName>,
        zero: Value,
    ) -> Result<Change, NoMemory>
        requires parks { At CanPark (seen_at self.old.goroutines turn.now.number) }
        requires made { AreMade ((None, deeds.Receiving channel zero) ∷ []) (contents_of self.old.channels) }
        ensures ok { (frame : CodeFrame → Frame)
            → IfOk result (λ change. Parks (event_for turn.now) turn.now.number kinds.RecvWait
            (option_map operations.ReceivesFrom channel)
            (side_by (state_of frame (with_channels (contents_of self.old.channels))) (deeds.Receiving channel zero))
            ((None, deeds.Receiving channel zero) ∷ []) change self.old self.new) }
        ensures err { OnErr result (contents_in self.new ≡ contents_in self.old) }
    {
        match channel {
            Some(channel) => self.wait_for_sender(turn, channel, zero),
            None => {
                let clause = Clause::Receive {
                    channel: None,
                    zero,
                };
                self.wait_on_nil(turn, Kind::RecvWait, clause)
            }
        }
    }

    /// Waits to send a value. Refused, nothing has changed.
    pub(crate) fn wait_to_send(
        &mut self,
        turn: &Turn<'_>,
        channel: Option<ChName>,
        value: Value,
    ) -> Result<Change, NoMemory>
        requires may { MayAct turn.now self.old }
        requires sound { OfActor (program_for turn.now) (event_for turn.now) (contents_in self.old)
            (λ a. Sound (frame_in (program_for turn.now)) (contents_in self.old)
            (rules.wait a (option_map attempts.sends_on channel) kinds.SendWait ((None, deeds.Sending channel (gives value))
            ∷ []))) }
        ensures ok { IfOk result (λ change. OfActor (program_for turn.now) (event_for turn.now) (contents_in self.old)
            (λ a. Takes (program_for turn.now) (event_for turn.now)
            (rules.wait a (option_map attempts.sends_on channel) kinds.SendWait ((None, deeds.Sending channel (gives value))
            ∷ [])) (contents_in self.old) change (contents_in self.new))) }
        ensures room { IfOk result (LeavesRoom turn.now self.new) }
        ensures err { OnErr result (contents_in self.new ≡ contents_in self.old) }
    {
        self.begin_to_send(turn, channel, value)
    }

    /// Waits to receive. The zero value serves only to compare the clauses with those of the rules. Refused, nothing has
    /// changed.
    pub(crate) fn wait_to_receive(
        &mut self,
        turn: &Turn<'_>,
        channel: Option<ChName>,
        zero: Value,
    ) -> Result<Change, NoMemory>
        requires may { MayAct turn.now self.old }
        requires sound { OfActor (program_for turn.now) (event_for turn.now) (contents_in self.old)
            (λ a. Sound (frame_in (program_for turn.now)) (contents_in self.old)
            (rules.wait a (option_map attempts.receives_from channel) kinds.RecvWait ((None, deeds.Receiving channel zero)
            ∷ []))) }
        ensures ok { IfOk result (λ change. OfActor (program_for turn.now) (event_for turn.now) (contents_in self.old)
            (λ a. Takes (program_for turn.now) (event_for turn.now)
            (rules.wait a (option_map attempts.receives_from channel) kinds.RecvWait ((None, deeds.Receiving channel zero) ∷ []))
            (contents_in self.old) change (contents_in self.new))) }
        ensures room { IfOk result (LeavesRoom turn.now self.new) }
        ensures err { OnErr result (contents_in self.new ≡ contents_in self.old) }
    {
        self.begin_to_receive(turn, channel, zero)
    }

    /// Waits for any clause of its select. None of the values to send is a fault. Refused, nothing has changed.
    pub(crate) fn wait_in_select(
        &mut self,
        turn: &Turn<'_>,
        clauses: Vec<Clause>,
    ) -> Result<Change, NoMemory>
        requires may { MayAct turn.now self.old }
        requires task { AsksFor turn.now self.old (deeds.Chooses (communications_of clauses.items)) }
        requires parks { (event_for turn.now).choice ≡ choices.Park }
        requires given { HasValues clauses.items }
        requires sound { OfActor (program_for turn.now) (event_for turn.now) (contents_in self.old)
            (λ a. Sound (frame_in (program_for turn.now)) (contents_in self.old)
            (rules.wait a None kinds.SelectWait (rules_of_selects.numbered 1 (communications_of clauses.items)))) }
        ensures ok { IfOk result (λ change. OfActor (program_for turn.now) (event_for turn.now) (contents_in self.old)
            (λ a. Takes (program_for turn.now) (event_for turn.now)
            (rules.wait a None kinds.SelectWait (rules_of_selects.numbered 1 (communications_of clauses.items)))
            (contents_in self.old) change (contents_in self.new))) }
        ensures room { IfOk result (LeavesRoom turn.now self.new) }
        ensures err { OnErr result (contents_in self.new ≡ contents_in self.old) }
    {
        let alloc = self.alloc;
        let sides = sides(alloc, &self.channels, &clauses)?;
        let room = Vec::with_capacity(alloc, clauses.len())?;
        let pending = numbered(room, clauses)?;
        self.wait_for(turn, Kind::SelectWait, None, &sides, &pending)
    }
}
