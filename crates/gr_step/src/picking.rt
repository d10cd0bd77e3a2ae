//! Picks of a clause that receives, without a list of the clauses (Go: Select statements).

ghost use Rattle.std.specs.Prelude.{◌≡◌, Some, option_copied, option_map, IfOk, IfSome, OnErr};
ghost use Rattle.std.specs.List.{list_any};
ghost use Rattle.gr_base.specs.declared.events.Choice.TheVariants as choices;
ghost use Rattle.gr_code.specs.CodeViews.{arm_of, arms_of};
ghost use Rattle.gr_record.specs.Listings.{program_in, IsCoded};
ghost use Rattle.gr_step.specs.Objects.{contents_in};
ghost use Rattle.gr_step.specs.Picks.{is_send, PicksArm, PicksReceive};
ghost use Rattle.gr_step.specs.Possible.{arm_at};
ghost use Rattle.gr_step.specs.Premises.{Acting};
ghost use Rattle.gr_step.specs.Room.{HasRoom};
ghost use Rattle.gr_step.specs.Stepping.{MayAct, IsPossible, TakesStep, LeavesRoom, program_for, event_for};

use crate::allowing::{arm_with, channel_at};
use crate::objects::Objects;
use crate::turn::{Meeting, Turn};
use gr_base::{ChName, Choice, Event, NoMemory, Value};
use gr_code::code::Arm;
use gr_goros::value_of_literal;
use gr_program::Literal;
use gr_record::Listing;
use gr_record::record::Change;
use std::alloc::Global;

/// A clause that receives and is picked: its number, counted from 1, its channel, and the zero value of what it receives.
#[derive(Drop)]
pub(crate) struct Picked {
    pub(crate) case: u32,
    pub(crate) channel: ChName,
    pub(crate) zero: Literal,
}

/// Whether a clause sends.
fn some_sends(arms: &[Arm]) -> bool
    ensures { result ≡ list_any is_send (arms_of arms.now) }
{
    let mut left = arms;
    while let [arm, rest @ ..] = left {
        if let Arm::Send { .. } = arm {
            return true;
        }
        left = rest;
    }
    false
}

/// The clause with a number, counted from 1.
fn arm_numbered(arms: &[Arm], number: u32) -> Option<&Arm>
    ensures { option_map arm_of (option_copied result) ≡ arm_at (arms_of arms.now) number }
{
    let Some(place) = (number as usize).checked_sub(1) else {
        return None;
    };
    arm_with(arms, place)
}

/// The clause with a number, if it receives from a channel, and no clause sends.
fn picked_of(
    alloc: Global,
    cells: &[Option<Value>],
    arms: &[Arm],
    case: u32,
) -> Result<Option<Picked>, NoMemory>
    ensures { IfOk result (λ picked. IfSome picked (λ x. PicksArm cells.now (arms_of arms.now) case x)) }
{
    let Some(Arm::Receive { channel, zero, .. }) = arm_numbered(arms, case) else {
        return Ok(None);
    };
    if some_sends(arms) {
        return Ok(None);
    }
    let Some(name) = channel_at(cells, channel) else {
        return Ok(None);
    };
    let channel = name.copy(alloc)?;
    Ok(Some(Picked {
        case,
        channel,
        zero: *zero,
    }))
}

impl Objects {
    /// The clause that an event picks, which is possible, if it receives and no clause of the select sends. No value can then
    /// be at fault.
    pub(crate) fn picked(&self, turn: &Turn<'_>) -> Result<Option<Picked>, NoMemory>
        requires may { MayAct turn.now self.now }
        requires possible { IsPossible turn.now self.now }
        ensures { IfOk result (λ picked. IfSome picked
            (λ x. PicksReceive (program_for turn.now) (event_for turn.now) (contents_in self.now) x)) }
    {
        let Choice::Pick(case) = turn.event.choice else {
            return Ok(None);
        };
        let goroutine = self.goroutines.at(turn.number);
        let Some(arms) = goroutine.arms(&turn.listing.code) else {
            return Ok(None);
        };
        let Some(frame) = goroutine.frame(0) else {
            unreachable!()
        };
        picked_of(self.alloc, frame.cells(), arms, case)
    }

    /// Receives in the clause that an event picks, which is possible. Refused, nothing has changed.
    pub(crate) fn receive_picked(
        &mut self,
        turn: &Turn<'_>,
        picked: Picked,
    ) -> Result<Change, NoMemory>
        requires may { MayAct turn.now self.old }
        requires possible { IsPossible turn.now self.old }
        requires picked { PicksReceive (program_for turn.now) (event_for turn.now) (contents_in self.old) picked }
        ensures ok { IfOk result (TakesStep turn.now self.old self.new) }
        ensures room { IfOk result (LeavesRoom turn.now self.new) }
        ensures err { OnErr result (contents_in self.new ≡ contents_in self.old) }
    {
        let Picked {
            case,
            channel,
            zero,
        } = picked;
        let zero = value_of_literal(zero);
        let meeting = Meeting {
            turn: &*turn,
            clause: Some(case),
            channel: &channel,
        };
        match self.receive(&meeting, zero)? {
            Some(change) => Ok(change),
            None => unreachable!(),
        }
    }
}
