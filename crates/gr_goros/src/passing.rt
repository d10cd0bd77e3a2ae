//! How a frame goes on past its communication.

ghost use Rattle.std.specs.Prelude.{◌≡◌, IfOk, OnErr, Some};
ghost use Rattle.gr_rules.specs.Outcomes.{gives, wrong};
ghost use Rattle.gr_code.specs.CodeFrames.{past_in, past_part_in, past_action_in, past_arm_in};
ghost use Rattle.gr_code.specs.CodeViews.{action_of, arm_of, ask_of, instruction_of};
ghost use Rattle.gr_goros.specs.Undoing.{frame_before};

use crate::frame::Frame;
use crate::lookups::arm_at;
use crate::undo::FrameUndo;
use gr_base::{NoMemory, Value};
use gr_code::code::{Action, Arm, Ask, Instruction};
use std::alloc::Global;

impl Frame {
    /// Goes on past its communication, with what that got. Refused, nothing has changed.
    #[inline(always)]
    #[tactic(auto, using(crate::proofs::CodeLemmas::found_arm, crate::proofs::CodeLemmas::no_arm))]
    pub(crate) fn pass(
        &mut self,
        alloc: Global,
        instruction: &Instruction,
        clause: Option<u32>,
        got: Option<(Value, bool)>,
    ) -> Result<FrameUndo, NoMemory>
        requires { ¬ (past_in self.old (instruction_of instruction.now) clause got ≡ wrong) }
        ensures after { IfOk result (λ _. past_in self.old (instruction_of instruction.now) clause got ≡ gives self.new) }
        ensures back { IfOk result (λ u. frame_before u self.new ≡ self.old) }
        ensures err { OnErr result (self.new ≡ self.old) }
    {
        match (instruction, clause) {
            (Instruction::Part { ask, slot, on }, None) => self.pass_part(
                alloc, ask, *slot, *on, got,
            ),
            (Instruction::Perform { action, .. }, None) => self.pass_action(alloc, action, got),
            (Instruction::Choose { arms }, Some(number)) => {
                match arm_at(arms, number) {
                    Some(arm) => self.pass_arm(alloc, arm, got),
                    None => unreachable!(),
                }
            }
            _ => unreachable!(),
        }
    }

    /// Goes on past a receive that is a part. Refused, nothing has changed.
    #[inline(always)]
    fn pass_part(
        &mut self,
        alloc: Global,
        ask: &Ask,
        slot: Option<u32>,
        on: u32,
        got: Option<(Value, bool)>,
    ) -> Result<FrameUndo, NoMemory>
        requires { ¬ (past_part_in self.old (ask_of ask.now) slot on got ≡ wrong) }
        ensures after { IfOk result (λ _. past_part_in self.old (ask_of ask.now) slot on got ≡ gives self.new) }
        ensures back { IfOk result (λ u. frame_before u self.new ≡ self.old) }
        ensures err { OnErr result (self.new ≡ self.old) }
    {
        match (ask, got) {
            (Ask::Receive { .. }, Some((value, _))) => self.keep_part(alloc, slot, value, on),
            _ => unreachable!(),
        }
    }

    /// Goes on past a statement that sends or receives. Refused, nothing has changed.
    #[inline(always)]
    fn pass_action(
        &mut self,
        alloc: Global,
        action: &Action,
        got: Option<(Value, bool)>,
    ) -> Result<FrameUndo, NoMemory>
        requires { ¬ (past_action_in self.old (action_of action.now) got ≡ wrong) }
        ensures after { IfOk result (λ _. past_action_in self.old (action_of action.now) got ≡ gives self.new) }
        ensures back { IfOk result (λ u. frame_before u self.new ≡ self.old) }
        ensures err { OnErr result (self.new ≡ self.old) }
    {
        match (action, got) {
            (Action::Send { on }, None) => Ok(self.go_on(*on)),
            (Action::AssignReceived { value, ok, on, .. }, Some(got)) => {
                self.keep_received(alloc, Some((*value, *ok)), got, *on)
            }
            (Action::Turn { slot, body, .. }, Some((value, true))) => {
                self.keep(alloc, *slot, value, *body)
            }
            (Action::Turn { after, .. }, Some((_, false))) => Ok(self.go_on(*after)),
            _ => unreachable!(),
        }
    }

    /// Goes on past a clause of a select. Refused, nothing has changed.
    #[inline(never)]
    fn pass_arm(
        &mut self,
        alloc: Global,
        arm: &Arm,
        got: Option<(Value, bool)>,
    ) -> Result<FrameUndo, NoMemory>
        requires { ¬ (past_arm_in self.old (Some (arm_of arm.now)) got ≡ wrong) }
        ensures after { IfOk result (λ _. past_arm_in self.old (Some (arm_of arm.now)) got ≡ gives self.new) }
        ensures back { IfOk result (λ u. frame_before u self.new ≡ self.old) }
        ensures err { OnErr result (self.new ≡ self.old) }
    {
        match (arm, got) {
            (Arm::Default { on } | Arm::Send { on, .. }, None) => Ok(self.go_on(*on)),
            (Arm::Receive { into, on, .. }, Some(got)) => {
                self.keep_received(alloc, *into, got, *on)
            }
            _ => unreachable!(),
        }
    }
}
