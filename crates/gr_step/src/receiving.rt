//! Receives that proceed (Go: Receive operator).

ghost use Rattle.std.specs.Prelude.{◌≡◌, true, false, Some, None, IfOk, OnErr, [], ◌∷◌};
ghost use Rattle.gr_channels.specs.Objects.{has_any};
ghost use Rattle.gr_rules.specs.Communications as rules;
ghost use Rattle.gr_code.specs.Programs.{IsClause};
ghost use Rattle.gr_refine.specs.Arriving.{HasClauseHere};
ghost use Rattle.gr_lower.specs.Lowered.{lowered};
ghost use Rattle.gr_tables.specs.NamedChannels.{At, contents_of};
ghost use Rattle.gr_record.specs.Listings.{program_in, IsCoded};
ghost use Rattle.gr_step.specs.Objects.{contents_in};
ghost use Rattle.gr_step.specs.Room.{HasRoom};
ghost use Rattle.gr_step.specs.Premises.{Acting, OfGoroutine};
ghost use Rattle.gr_step.specs.Communicating.{TrialIsSound, Tried};
ghost use Rattle.gr_step.specs.Stepping.{LeavesRoom, MayMeet, to_receive, MayTry, HasTried};

use crate::beyond::passage;
use crate::crossing::{Crossing, kind_by};
use crate::objects::Objects;
use crate::touching::{end_read, exit_read, left, moved};
use crate::turn::Meeting;
use gr_base::{ChName, Event, Kind, NoMemory, Value};
use gr_channels::Taken;
use gr_goros::Arrival;
use gr_record::Listing;
use gr_record::record::{Change, Contact, Operation};

impl Objects {
    /// Takes the front item, where nobody waits to send. The zero value serves only to compare the clauses with those of the
    /// rules. Refused, nothing has changed.
    pub(crate) fn take_item(
        &mut self,
        meeting: &Meeting<'_>,
        zero: Value,
    ) -> Result<Change, NoMemory>
        requires may { MayMeet meeting.now self.old }
        requires sound { MayTry meeting.now self.old (to_receive meeting.now zero) }
        requires item { At (λ x. (has_any x.items ≡ true)
            × (x.senders ≡ [])) (contents_of self.old.channels meeting.now.channel.now) }
        ensures ok { IfOk result (λ change. HasTried meeting.now (to_receive meeting.now zero) self.old (Some change) self.new) }
        ensures room { IfOk result (LeavesRoom meeting.now.turn.now self.new) }
        ensures err { OnErr result (contents_in self.new ≡ contents_in self.old) }
    {
        let found = self.channels.at(meeting.channel);
        let contact = Contact {
            operation: Operation::ReceivesFrom(meeting.channel.copy(self.alloc)?),
            touched: left(found),
        };
        let passage = passage(self.alloc, contact)?;
        let Taken::Item(value, undo) = self.channels.take(meeting.channel)? else {
            unreachable!()
        };
        let clause = meeting.clause;
        let kind = kind_by(clause, Kind::Take);
        let got = Some((value, true));
        let passes = Arrival::Passes { clause, got };
        self.pass(meeting.turn, passes, kind, passage, Some(undo))
    }

    /// Takes the front item, into whose place the value of the first goroutine that waits to send moves up. The zero value
    /// serves only to compare the clauses with those of the rules. Refused, nothing has changed.
    #[inline(never)]
    pub(crate) fn move_up(&mut self, meeting: &Meeting<'_>, zero: Value) -> Result<Change, NoMemory>
        requires may { MayMeet meeting.now self.old }
        requires sound { MayTry meeting.now self.old (to_receive meeting.now zero) }
        requires filled { At (λ x. (has_any x.items ≡ true)
            × (has_any x.senders ≡ true)) (contents_of self.old.channels meeting.now.channel.now) }
        ensures ok { IfOk result (λ change. HasTried meeting.now (to_receive meeting.now zero) self.old (Some change) self.new) }
        ensures room { IfOk result (LeavesRoom meeting.now.turn.now self.new) }
        ensures err { OnErr result (contents_in self.new ≡ contents_in self.old) }
    {
        let found = self.channels.at(meeting.channel);
        let Some(sender) = found.sender(0) else {
            unreachable!()
        };
        let case = sender.case;
        let operation = Operation::ReceivesFrom(meeting.channel.copy(self.alloc)?);
        let touched = moved(found);
        let prepared = self.prepare(operation, touched, meeting.channel, &sender.go)?;
        let Taken::Moved(value, undo) = self.channels.take(meeting.channel)? else {
            unreachable!()
        };
        let got = Some((value, true));
        let crossing = Crossing::of(meeting, Kind::Take, got, case, None);
        self.exchange(meeting.turn, prepared, undo, crossing)
    }

    /// Takes the value of the first goroutine that waits to send, where there is no item. The zero value serves only to compare
    /// the clauses with those of the rules. Refused, nothing has changed.
    pub(crate) fn meet(&mut self, meeting: &Meeting<'_>, zero: Value) -> Result<Change, NoMemory>
        requires may { MayMeet meeting.now self.old }
        requires sound { MayTry meeting.now self.old (to_receive meeting.now zero) }
        requires empty { At (λ x. (x.items ≡ [])
            × (has_any x.senders ≡ true)) (contents_of self.old.channels meeting.now.channel.now) }
        ensures ok { IfOk result (λ change. HasTried meeting.now (to_receive meeting.now zero) self.old (Some change) self.new) }
        ensures room { IfOk result (LeavesRoom meeting.now.turn.now self.new) }
        ensures err { OnErr result (contents_in self.new ≡ contents_in self.old) }
    {
        let found = self.channels.at(meeting.channel);
        let Some(sender) = found.sender(0) else {
            unreachable!()
        };
        let case = sender.case;
        let operation = Operation::ReceivesFrom(meeting.channel.copy(self.alloc)?);
        let touched = exit_read(found);
        let prepared = self.prepare(operation, touched, meeting.channel, &sender.go)?;
        let Taken::Met(value, undo) = self.channels.take(meeting.channel)? else {
            unreachable!()
        };
        let got = Some((value, true));
        let crossing = Crossing::of(meeting, Kind::Meet, got, case, None);
        self.exchange(meeting.turn, prepared, undo, crossing)
    }

    /// Receives the zero value of a closed channel that is empty. Refused, nothing has changed.
    #[inline(never)]
    pub(crate) fn receive_zero(
        &mut self,
        meeting: &Meeting<'_>,
        zero: Value,
    ) -> Result<Change, NoMemory>
        requires may { MayMeet meeting.now self.old }
        requires sound { MayTry meeting.now self.old (to_receive meeting.now zero) }
        requires at_end { At (λ x. (x.items ≡ []) × (x.senders ≡ [])
            × (x.closed ≡ true)) (contents_of self.old.channels meeting.now.channel.now) }
        ensures ok { IfOk result (λ change. HasTried meeting.now (to_receive meeting.now zero) self.old (Some change) self.new) }
        ensures room { IfOk result (LeavesRoom meeting.now.turn.now self.new) }
        ensures err { OnErr result (contents_in self.new ≡ contents_in self.old) }
    {
        let found = self.channels.at(meeting.channel);
        let contact = Contact {
            operation: Operation::ReceivesFrom(meeting.channel.copy(self.alloc)?),
            touched: end_read(found),
        };
        let passage = passage(self.alloc, contact)?;
        let clause = meeting.clause;
        let kind = kind_by(clause, Kind::Closed);
        let got = Some((zero, false));
        let passes = Arrival::Passes { clause, got };
        self.pass(meeting.turn, passes, kind, passage, None)
    }
}
