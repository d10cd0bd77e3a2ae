//! The step of an event.

ghost use Rattle.std.specs.Prelude.{◌≡◌, true, false, IfOk, IfErr, OnErr};
ghost use Rattle.gr_base.specs.declared.events.Choice.TheVariants as choices;
ghost use Rattle.gr_rules.specs.Outcomes.{gives};
ghost use Rattle.gr_rules.specs.Deeds as deeds;
ghost use Rattle.gr_record.specs.Listings.{program_in, IsCoded};
ghost use Rattle.gr_step.specs.Objects.{contents_in};
ghost use Rattle.gr_step.specs.Room.{HasRoom};
ghost use Rattle.gr_step.specs.Premises.{Acting};
ghost use Rattle.gr_step.specs.Refusals.{SaysWhy};
ghost use Rattle.gr_step.specs.Stepping.{MayAct, IsPlain, AsksNothing, AsksFor, HasNeed, IsPossible, TakesStep, LeavesRoom};
ghost use Rattle.gr_step.specs.Stepping.{program_for, event_for};

use crate::objects::Objects;
use crate::refusal::StepRefused;
use crate::turn::{Meeting, Turn};
use gr_base::{ChName, Choice, Event, NoMemory, Value};
use gr_goros::Need;
use gr_record::Listing;
use gr_record::record::Change;

impl Objects {
    /// Takes the step of an event, whose goroutine is ready. Refused, nothing has changed.
    pub(crate) fn take(&mut self, turn: &Turn<'_>) -> Result<Change, StepRefused>
        requires may { MayAct turn.now self.old }
        ensures ok { IfOk result (TakesStep turn.now self.old self.new) }
        ensures room { IfOk result (LeavesRoom turn.now self.new) }
        ensures why { IfErr result (SaysWhy (program_for turn.now) (contents_in self.old) (event_for turn.now)) }
        ensures err { OnErr result (contents_in self.new ≡ contents_in self.old) }
    {
        let goroutine = self.goroutines.at(turn.number);
        if goroutine.is_local(&turn.listing.code) {
            return self.take_alone(turn);
        }
        self.take_beyond(turn)
    }

    /// Takes a step that reaches no further than its goroutine.
    fn take_alone(&mut self, turn: &Turn<'_>) -> Result<Change, StepRefused>
        requires may { MayAct turn.now self.old }
        requires task { AsksNothing turn.now self.old true }
        ensures ok { IfOk result (TakesStep turn.now self.old self.new) }
        ensures room { IfOk result (LeavesRoom turn.now self.new) }
        ensures why { IfErr result (SaysWhy (program_for turn.now) (contents_in self.old) (event_for turn.now)) }
        ensures err { OnErr result (contents_in self.new ≡ contents_in self.old) }
    {
        let Choice::Plain = turn.event.choice else {
            return Err(StepRefused::NoChoice);
        };
        Ok(self.local(turn)?)
    }

    /// Takes a step that reaches beyond its goroutine.
    #[inline(never)]
    fn take_beyond(&mut self, turn: &Turn<'_>) -> Result<Change, StepRefused>
        requires may { MayAct turn.now self.old }
        requires task { AsksNothing turn.now self.old false }
        ensures ok { IfOk result (TakesStep turn.now self.old self.new) }
        ensures room { IfOk result (LeavesRoom turn.now self.new) }
        ensures why { IfErr result (SaysWhy (program_for turn.now) (contents_in self.old) (event_for turn.now)) }
        ensures err { OnErr result (contents_in self.new ≡ contents_in self.old) }
    {
        if !self.allows(turn) {
            return Err(StepRefused::NoChoice);
        }
        if let Some(picked) = self.picked(turn)? {
            return Ok(self.receive_picked(turn, picked)?);
        }
        let goroutine = self.goroutines.at(turn.number);
        let need = goroutine.next_need(self.alloc, &turn.listing.code)?;
        Ok(self.take_needed(turn, need)?)
    }

    /// Takes the step of an event that is possible, which asks for this. Refused, nothing has changed.
    #[inline(always)]
    fn take_needed(&mut self, turn: &Turn<'_>, need: Need) -> Result<Change, NoMemory>
        requires may { MayAct turn.now self.old }
        requires task { AsksNothing turn.now self.old false }
        requires need { HasNeed turn.now self.old need }
        requires possible { IsPossible turn.now self.old }
        ensures ok { IfOk result (TakesStep turn.now self.old self.new) }
        ensures room { IfOk result (LeavesRoom turn.now self.new) }
        ensures err { OnErr result (contents_in self.new ≡ contents_in self.old) }
    {
        match need {
            Need::Local => unreachable!(),
            Need::Exit => self.exit(turn),
            Need::Start {
                function,
                arguments,
            } => self.start(turn, function, arguments),
            Need::Make { size } => self.make(turn, size),
            Need::Len { channel } => self.len(turn, channel),
            Need::Cap { channel } => self.cap(turn, channel),
            Need::Close { channel } => self.close(turn, channel),
            Need::Send { channel, value } => { self.send_or_wait(turn, channel, value) }
            Need::Receive { channel, zero } => { self.receive_or_wait(turn, channel, zero) }
            Need::Select { clauses } => match self.select(turn, clauses)? {
                Some(change) => Ok(change),
                None => unreachable!(),
            },
            Need::Fault(fault) => self.fail(turn, fault),
        }
    }

    /// Sends a value, or waits to send it. Refused, nothing has changed.
    #[inline(always)]
    fn send_or_wait(
        &mut self,
        turn: &Turn<'_>,
        channel: Option<ChName>,
        value: Value,
    ) -> Result<Change, NoMemory>
        requires may { MayAct turn.now self.old }
        requires plain { IsPlain turn.now }
        requires task { AsksFor turn.now self.old (deeds.Communicates (deeds.Sending channel (gives value))) }
        ensures ok { IfOk result (TakesStep turn.now self.old self.new) }
        ensures room { IfOk result (LeavesRoom turn.now self.new) }
        ensures err { OnErr result (contents_in self.new ≡ contents_in self.old) }
    {
        let Some(name) = channel else {
            return self.wait_to_send(turn, None, value);
        };
        let sent = value.copy(self.alloc)?;
        let meeting = Meeting {
            turn: &*turn,
            clause: None,
            channel: &name,
        };
        if let Some(change) = self.send(&meeting, sent)? {
            return Ok(change);
        }
        self.wait_to_send(turn, Some(name), value)
    }

    /// Receives a value, or waits to receive one. Refused, nothing has changed.
    #[inline(always)]
    fn receive_or_wait(
        &mut self,
        turn: &Turn<'_>,
        channel: Option<ChName>,
        zero: Value,
    ) -> Result<Change, NoMemory>
        requires may { MayAct turn.now self.old }
        requires plain { IsPlain turn.now }
        requires task { AsksFor turn.now self.old (deeds.Communicates (deeds.Receiving channel zero)) }
        ensures ok { IfOk result (TakesStep turn.now self.old self.new) }
        ensures room { IfOk result (LeavesRoom turn.now self.new) }
        ensures err { OnErr result (contents_in self.new ≡ contents_in self.old) }
    {
        let Some(name) = channel else {
            return self.wait_to_receive(turn, None, zero);
        };
        let given = zero.copy(self.alloc)?;
        let meeting = Meeting {
            turn: &*turn,
            clause: None,
            channel: &name,
        };
        if let Some(change) = self.receive(&meeting, given)? {
            return Ok(change);
        }
        self.wait_to_receive(turn, Some(name), zero)
    }
}
