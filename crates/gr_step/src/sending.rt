//! Sends that proceed (Go: Send statements).

ghost use Rattle.std.specs.Prelude.{◌≡◌, ◌<◌, true, false, Some, None, length, IfOk, OnErr, [], ◌∷◌};
ghost use Rattle.gr_channels.specs.Objects.{has_any};
ghost use Rattle.gr_rules.specs.Communications as rules;
ghost use Rattle.gr_code.specs.Programs.{IsClause};
ghost use Rattle.gr_refine.specs.Arriving.{HasClauseHere};
ghost use Rattle.gr_lower.specs.Lowered.{lowered};
ghost use Rattle.gr_tables.specs.NamedChannels.{At, contents_of};
ghost use Rattle.gr_record.specs.Listings.{program_in, IsCoded};
ghost use Rattle.gr_step.specs.Objects.{contents_in};
ghost use Rattle.gr_step.specs.Room.{HasRoom};
ghost use Rattle.gr_step.specs.Premises.{Acting, OfGoroutine};
ghost use Rattle.gr_step.specs.Communicating.{TrialIsSound, Tried};
ghost use Rattle.gr_step.specs.Stepping.{LeavesRoom, MayMeet, to_send, MayTry, HasTried};

use crate::beyond::passage;
use crate::crossing::{Crossing, kind_by};
use crate::objects::Objects;
use crate::touching::{entered, gate_written};
use crate::turn::Meeting;
use gr_base::{ChName, Event, Kind, NoMemory, Value};
use gr_channels::Offered;
use gr_goros::Arrival;
use gr_record::Listing;
use gr_record::record::{Change, Contact, Operation};

impl Objects {
    /// Hands a value to the first goroutine that waits to receive it. Refused, nothing has changed.
    pub(crate) fn hand(&mut self, meeting: &Meeting<'_>, value: Value) -> Result<Change, NoMemory>
        requires may { MayMeet meeting.now self.old }
        requires sound { MayTry meeting.now self.old (to_send meeting.now value) }
        requires waits { At (λ x. (x.closed ≡ false)
            × (has_any x.receivers ≡ true)) (contents_of self.old.channels meeting.now.channel.now) }
        ensures ok { IfOk result (λ change. HasTried meeting.now (to_send meeting.now value) self.old (Some change) self.new) }
        ensures room { IfOk result (LeavesRoom meeting.now.turn.now self.new) }
        ensures err { OnErr result (contents_in self.new ≡ contents_in self.old) }
    {
        let found = self.channels.at(meeting.channel);
        let Some(receiver) = found.receiver(0) else {
            unreachable!()
        };
        let case = receiver.case;
        let operation = Operation::SendsOn(meeting.channel.copy(self.alloc)?);
        let touched = gate_written();
        let prepared = self.prepare(operation, touched, meeting.channel, &receiver.go)?;
        let Ok(Offered::Handed(value, undo)) = self.channels.offer(meeting.channel, value) else {
            unreachable!()
        };
        let given = Some((value, true));
        let crossing = Crossing::of(meeting, Kind::Hand, None, case, given);
        self.exchange(meeting.turn, prepared, undo, crossing)
    }

    /// Puts a value into the buffer. Refused, nothing has changed.
    pub(crate) fn buffer(&mut self, meeting: &Meeting<'_>, value: Value) -> Result<Change, NoMemory>
        requires may { MayMeet meeting.now self.old }
        requires sound { MayTry meeting.now self.old (to_send meeting.now value) }
        requires space { At (λ x. (x.closed ≡ false) × (x.receivers ≡ [])
            × (length x.items < x.capacity)) (contents_of self.old.channels meeting.now.channel.now) }
        ensures ok { IfOk result (λ change. HasTried meeting.now (to_send meeting.now value) self.old (Some change) self.new) }
        ensures room { IfOk result (LeavesRoom meeting.now.turn.now self.new) }
        ensures err { OnErr result (contents_in self.new ≡ contents_in self.old) }
    {
        let found = self.channels.at(meeting.channel);
        let contact = Contact {
            operation: Operation::SendsOn(meeting.channel.copy(self.alloc)?),
            touched: entered(found),
        };
        let passage = passage(self.alloc, contact)?;
        let Offered::Buffered(undo) = self.channels.offer(meeting.channel, value)? else {
            unreachable!()
        };
        let clause = meeting.clause;
        let kind = kind_by(clause, Kind::Buffer);
        let passes = Arrival::Passes { clause, got: None };
        self.pass(meeting.turn, passes, kind, passage, Some(undo))
    }
}
