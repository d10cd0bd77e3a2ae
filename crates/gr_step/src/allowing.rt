//! Which choices are possible, found out without memory (Go: Select statements).

ghost use Rattle.std.specs.Prelude.{◌≡◌, false, is_none, slice_get, option_copied};
ghost use Rattle.std.specs.List.{list_any, list_all};
ghost use Rattle.std.specs.Option.{option_map_or};
ghost use Rattle.gr_rules.specs.Steps.{refusal};
ghost use Rattle.gr_code.specs.CodeViews.{arm_of, arms_of, operand_of};
ghost use Rattle.gr_refine.specs.Attempting.{is_plain as is_no_choice};
ghost use Rattle.gr_goros.specs.Needs.{one_channel};
ghost use Rattle.gr_record.specs.Listings.{program_in, state_in, IsCoded};
ghost use Rattle.gr_step.specs.Objects.{contents_in};
ghost use Rattle.gr_step.specs.Possible.{is_given, channel_given, arm_given, arm_goes, is_default, arm_at, arms_go};
ghost use Rattle.gr_step.specs.Premises.{Acting};
ghost use Rattle.gr_step.specs.Stepping.{MayAct, program_for, event_for};

use crate::choosing::{can_receive, can_send};
use crate::objects::Objects;
use crate::turn::Turn;
use gr_base::{ChName, Choice, Event, Value};
use gr_code::code::{Arm, Operand};
use gr_eval::settles;
use gr_program::Literal;
use gr_record::Listing;

/// Whether it is no choice.
fn is_plain(choice: Choice) -> bool
    ensures { result ≡ is_no_choice choice }
{
    matches!(choice, Choice::Plain)
}

/// Whether the operand is a channel, or nil. No operator makes a channel.
fn is_channel(cells: &[Option<Value>], operand: &Operand) -> bool
    ensures { result ≡ is_given (one_channel cells.now (operand_of operand.now)) }
{
    match operand {
        Operand::Literal(literal) => matches!(literal, Literal::Nil),
        Operand::Variable(cell) => matches!(cells.get(*cell as usize), Some(Some(Value::Chan(_)))),
        Operand::Decided(op, cell, right) => match cells.get(*cell as usize) {
            Some(Some(value)) => !settles(*op, value) && is_channel(cells, right),
            _ => false,
        },
        _ => false,
    }
}

/// The channel that the operand is, where it lies, unless it is nil.
pub(crate) fn channel_at<'a>(cells: &'a [Option<Value>], operand: &Operand) -> Option<&'a ChName>
    ensures { option_copied result ≡ channel_given (one_channel cells.now (operand_of operand.now)) }
{
    match operand {
        Operand::Variable(cell) => match cells.get(*cell as usize) {
            Some(Some(Value::Chan(Some(name)))) => Some(name),
            _ => None,
        },
        Operand::Decided(op, cell, right) => match cells.get(*cell as usize) {
            Some(Some(value)) if !settles(*op, value) => channel_at(cells, right),
            _ => None,
        },
        _ => None,
    }
}

/// Whether the channel of a clause is one, or nil.
fn has_channel(cells: &[Option<Value>], arm: &Arm) -> bool
    ensures { result ≡ arm_given cells.now (arm_of arm.now) }
{
    match arm {
        Arm::Default { .. } => true,
        Arm::Send { channel, .. } => is_channel(cells, channel),
        Arm::Receive { channel, .. } => is_channel(cells, channel),
    }
}

/// Whether the channel of each clause is one, or nil.
pub(crate) fn have_channels(cells: &[Option<Value>], arms: &[Arm]) -> bool
    ensures { result ≡ list_all (arm_given cells.now) (arms_of arms.now) }
{
    let mut left = arms;
    while let [arm, rest @ ..] = left {
        if !has_channel(cells, arm) {
            return false;
        }
        left = rest;
    }
    true
}

/// The clause with a number, counted from 0.
pub(crate) fn arm_with(arms: &[Arm], number: usize) -> Option<&Arm>
    ensures { option_copied result ≡ slice_get arms.now number }
{
    arms.get(number)
}

/// Whether there is a default clause.
pub(crate) fn has_default(arms: &[Arm]) -> bool
    ensures { result ≡ list_any is_default (arms_of arms.now) }
{
    let mut left = arms;
    while let [arm, rest @ ..] = left {
        if let Arm::Default { .. } = arm {
            return true;
        }
        left = rest;
    }
    false
}

impl Objects {
    /// Whether the communication of a clause can proceed; on nil it never can.
    pub(crate) fn arm_can_proceed(&self, cells: &[Option<Value>], arm: &Arm) -> bool
        ensures { result ≡ arm_goes (contents_in self.now) cells.now (arm_of arm.now) }
    {
        match arm {
            Arm::Default { .. } => false,
            Arm::Send { channel, .. } => match channel_at(cells, channel) {
                Some(name) => self.channels.get(name).is_some_and(can_send),
                None => false,
            },
            Arm::Receive { channel, .. } => match channel_at(cells, channel) {
                Some(name) => self.channels.get(name).is_some_and(can_receive),
                None => false,
            },
        }
    }

    /// Whether a clause can proceed.
    fn any_arm_can_proceed(&self, cells: &[Option<Value>], arms: &[Arm]) -> bool
        ensures { result ≡ list_any (arm_goes (contents_in self.now) cells.now) (arms_of arms.now) }
    {
        let mut left = arms;
        while let [arm, rest @ ..] = left {
            if self.arm_can_proceed(cells, arm) {
                return true;
            }
            left = rest;
        }
        false
    }

    /// Whether the clause with a number, counted from 1, is there and can proceed.
    fn number_can_proceed(&self, cells: &[Option<Value>], arms: &[Arm], number: u32) -> bool
        ensures { result ≡ option_map_or (arm_goes (contents_in self.now) cells.now) (arm_at (arms_of arms.now) number) false }
    {
        let Some(place) = (number as usize).checked_sub(1) else {
            return false;
        };
        match arm_with(arms, place) {
            Some(arm) => self.arm_can_proceed(cells, arm),
            None => false,
        }
    }

    /// Whether a choice of a select is possible.
    fn choice_is_possible(&self, cells: &[Option<Value>], arms: &[Arm], choice: Choice) -> bool
        ensures { result ≡ arms_go (contents_in self.now) cells.now (arms_of arms.now) choice }
    {
        match choice {
            Choice::Plain => false,
            Choice::Pick(number) => self.number_can_proceed(cells, arms, number),
            Choice::Default => has_default(arms) && !self.any_arm_can_proceed(cells, arms),
            Choice::Park => !has_default(arms) && !self.any_arm_can_proceed(cells, arms),
        }
    }

    /// Whether the choice of an event is possible, whose goroutine is ready. It takes no memory.
    pub(crate) fn allows(&self, turn: &Turn<'_>) -> bool
        requires may { MayAct turn.now self.now }
        ensures { result ≡ is_none (refusal (program_for turn.now)
            (state_in (program_for turn.now) (contents_in self.now)) (event_for turn.now)) }
    {
        let goroutine = self.goroutines.at(turn.number);
        let Some(arms) = goroutine.arms(&turn.listing.code) else {
            return is_plain(turn.event.choice);
        };
        let Some(frame) = goroutine.frame(0) else {
            unreachable!()
        };
        let cells = frame.cells();
        if !have_channels(cells, arms) {
            return is_plain(turn.event.choice);
        }
        self.choice_is_possible(cells, arms, turn.event.choice)
    }
}
