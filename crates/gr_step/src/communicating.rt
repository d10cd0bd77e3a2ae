//! Communications that proceed (Go: Send statements, Receive operator).

ghost use Rattle.std.specs.Prelude.{◌≡◌, ◌∷◌, [], ◌++◌, true, false, Some, None, option_map, length, IfOk, IfErr, OnOk, OnErr};
ghost use Rattle.std.specs.Prelude.{IfSome, IfNone, IsOk};
ghost use Rattle.gr_base.specs.declared.events.Choice.TheVariants as choices;
ghost use Rattle.gr_base.specs.declared.kinds.Kind.TheVariants as kinds;
ghost use Rattle.gr_rules.specs.Outcomes.{gives, faults};
ghost use Rattle.gr_rules.specs.Deeds as deeds;
ghost use Rattle.gr_rules.specs.Attempts as attempts;
ghost use Rattle.gr_rules.specs.Communications as rules;
ghost use Rattle.gr_rules.specs.Steps.{attempt};
ghost use Rattle.gr_rules.specs.Selects.{numbered};
ghost use Rattle.gr_code.specs.CodeFrames.{Wants};
ghost use Rattle.gr_code.specs.Goroutines.{task_of, is_local};
ghost use Rattle.gr_code.specs.Programs.{IsClause};
ghost use Rattle.gr_refine.specs.Arriving.{HasClauseHere};
ghost use Rattle.gr_refine.specs.Presence.{Sound};
ghost use Rattle.gr_goros.specs.Views.{communications_of};
ghost use Rattle.gr_goros.specs.Needs.{NeedIs};
ghost use Rattle.gr_lower.specs.Lowered.{lowered};
ghost use Rattle.gr_record.specs.Listings.{program_in, frame_in, state_in, IsCoded};
ghost use Rattle.gr_step.specs.Objects.{contents_in};
ghost use Rattle.gr_step.specs.Room.{HasRoom};
ghost use Rattle.gr_step.specs.Premises.{Acting, OfGoroutine, OfActor};
ghost use Rattle.gr_record.specs.Taking.{Takes};
ghost use Rattle.gr_step.specs.Communicating.{TrialIsSound, Tried};
ghost use Rattle.gr_step.specs.Stepping.{LeavesRoom, MayMeet, to_send, to_receive, MayTry, HasTried};

use crate::objects::Objects;
use crate::touching::gate_side;
use crate::turn::Meeting;
use gr_base::{ChName, Event, Fault, NoMemory, Value};
use gr_record::Listing;
use gr_record::record::{Change, Operation};

impl Objects {
    /// Sends a value, as a statement or as the clause of a select with this number, if that can proceed. On a closed channel
    /// it is a fault. Refused, nothing has changed.
    pub(crate) fn send(
        &mut self,
        meeting: &Meeting<'_>,
        value: Value,
    ) -> Result<Option<Change>, NoMemory>
        requires may { MayMeet meeting.now self.old }
        requires sound { MayTry meeting.now self.old (to_send meeting.now value) }
        ensures ok { IfOk result (λ change. HasTried meeting.now (to_send meeting.now value) self.old change self.new) }
        ensures room { IfOk result (λ change. IfSome change (LeavesRoom meeting.now.turn.now self.new)) }
        ensures stays { IfOk result (λ change. IfNone change (self.new ≡ self.old)) }
        ensures err { OnErr result (contents_in self.new ≡ contents_in self.old) }
    {
        let found = self.channels.at(meeting.channel);
        if found.is_closed() {
            let operation = Operation::SendsOn(meeting.channel.copy(self.alloc)?);
            let reads = gate_side(self.alloc, meeting.channel)?;
            let change = self.fault(
                meeting.turn.number,
                Fault::SendOnClosed,
                Some(operation),
                reads,
            )?;
            return Ok(Some(change));
        }
        if let Some(_) = found.receiver(0) {
            let change = self.hand(meeting, value)?;
            return Ok(Some(change));
        }
        if found.len() < found.capacity() as usize {
            let change = self.buffer(meeting, value)?;
            return Ok(Some(change));
        }
        Ok(None)
    }

    /// Receives a value, as a statement or as the clause of a select with this number, if that can proceed. A closed channel
    /// gives the zero value. Refused, nothing has changed.
    pub(crate) fn receive(
        &mut self,
        meeting: &Meeting<'_>,
        zero: Value,
    ) -> Result<Option<Change>, NoMemory>
        requires may { MayMeet meeting.now self.old }
        requires sound { MayTry meeting.now self.old (to_receive meeting.now zero) }
        ensures ok { IfOk result (λ change. HasTried meeting.now (to_receive meeting.now zero) self.old change self.new) }
        ensures room { IfOk result (λ change. IfSome change (LeavesRoom meeting.now.turn.now self.new)) }
        ensures stays { IfOk result (λ change. IfNone change (self.new ≡ self.old)) }
        ensures err { OnErr result (contents_in self.new ≡ contents_in self.old) }
    {
        let found = self.channels.at(meeting.channel);
        if let Some(_) = found.sender(0) {
            if found.is_empty() {
                let change = self.meet(meeting, zero)?;
                return Ok(Some(change));
            }
            let change = self.move_up(meeting, zero)?;
            return Ok(Some(change));
        }
        if !found.is_empty() {
            let change = self.take_item(meeting, zero)?;
            return Ok(Some(change));
        }
        if found.is_closed() {
            let change = self.receive_zero(meeting, zero)?;
            return Ok(Some(change));
        }
        Ok(None)
    }
}
