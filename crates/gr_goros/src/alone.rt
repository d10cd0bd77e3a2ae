//! Whether the next step of a goroutine is local and no fault, without taking it.

ghost use Rattle.std.specs.Prelude.{◌≡◌, ◌-◌, not, nat_eq, nat_le, slice_get};
ghost use Rattle.gr_rules.specs.Outcomes.{wrong};
ghost use Rattle.gr_rules.specs.Evaluation as rules;
ghost use Rattle.gr_rules.specs.Limits.{most_frames};
ghost use Rattle.gr_code.specs.CodeFrames as frames;
ghost use Rattle.gr_code.specs.CodeViews.{action_of, instruction_of, operands_of, program_code_of};
ghost use Rattle.gr_code.specs.Goroutines.{task_of};
ghost use Rattle.gr_goros.specs.Alone.{has_caller_at, is_deepest_at, stays, stays_alone};
ghost use Rattle.gr_goros.specs.Tasks.{performed, updated};

use crate::calling::MOST_FRAMES;
use crate::frame::Frame;
use crate::goroutine::Goroutine;
use gr_code::code::{Action, Ask, Code, Instruction, Operand};
use gr_eval::{any_faults, faults, update_faults};
use gr_tree::BinaryOp;

/// How deep the innermost frame of a goroutine lies.
#[derive(Clone, Copy)]
pub(crate) enum Depth {
    /// It has no caller.
    Outermost,
    /// It has a caller, and can call.
    Inner,
    /// It has a caller, and as many frames lie below it as may.
    Deepest,
}

impl Depth {
    /// Whether the frame has a caller.
    fn has_caller(self) -> bool
        ensures { result ≡ has_caller_at self }
    {
        !matches!(self, Depth::Outermost)
    }

    /// Whether the goroutine can have no more frames.
    fn is_deepest(self) -> bool
        ensures { result ≡ is_deepest_at self }
    {
        matches!(self, Depth::Deepest)
    }
}

/// How deep a frame lies, below which this many lie.
fn depth_above(below: usize) -> Depth
    ensures caller { has_caller_at result ≡ not (nat_eq below 0) }
    ensures deepest { is_deepest_at result ≡ nat_le (most_frames - 1) below }
{
    match below {
        0 => Depth::Outermost,
        _ if below >= MOST_FRAMES - 1 => Depth::Deepest,
        _ => Depth::Inner,
    }
}

impl Frame {
    /// Whether an assignment with an operator goes on.
    fn updates(
        &self,
        variable: u32,
        op: BinaryOp,
        operands: &[Operand],
        on: u32,
        depth: Depth,
    ) -> bool
        requires { ¬ (updated self.now variable op on (operands_of operands.now) ≡ wrong) }
        ensures { result ≡ stays (has_caller_at depth) (is_deepest_at depth)
            (updated self.now variable op on (operands_of operands.now)) }
    {
        match operands {
            [operand] => !update_faults(self.cells(), variable, op, operand),
            _ => false,
        }
    }

    /// Whether a statement is a step that reaches no further than the goroutine, and no fault.
    #[tactic(auto, using(crate::proofs::TaskLemmas::updated_is, crate::proofs::AloneLemmas::operands_right, crate::proofs::AloneLemmas::assign_stays, crate::proofs::AloneLemmas::print_stays, crate::proofs::AloneLemmas::move_stays, crate::proofs::AloneLemmas::test_stays, crate::proofs::AloneLemmas::range_stays, crate::proofs::AloneLemmas::return_stays, crate::proofs::AloneLemmas::outermost_return, crate::proofs::AloneLemmas::fail_is_none, crate::proofs::AloneLemmas::receive_is_none, crate::proofs::AloneLemmas::close_is_none, crate::proofs::AloneLemmas::send_is_none, crate::proofs::AloneLemmas::start_is_none, crate::proofs::AloneLemmas::turn_is_none))]
    fn performs_alone(&self, action: &Action, operands: &[Operand], depth: Depth) -> bool
        requires { ¬ (performed self.now (action_of action.now) (operands_of operands.now) ≡ wrong) }
        ensures { result ≡ stays (has_caller_at depth) (is_deepest_at depth)
            (performed self.now (action_of action.now) (operands_of operands.now)) }
    {
        match action {
            Action::AssignReceived { .. }
            | Action::Close { .. }
            | Action::Send { .. }
            | Action::Start { .. }
            | Action::Turn { .. }
            | Action::Fail => false,
            Action::Return => depth.has_caller() && !any_faults(self.cells(), operands),
            Action::Update { variable, op, on } => {
                self.updates(*variable, *op, operands, *on, depth)
            }
            Action::Assign { .. } => !any_faults(self.cells(), operands),
            Action::Print { .. } => !any_faults(self.cells(), operands),
            Action::GoOn { .. } => !any_faults(self.cells(), operands),
            Action::Test { .. } => !any_faults(self.cells(), operands),
            Action::Range { .. } => !any_faults(self.cells(), operands),
        }
    }

    /// Whether its instruction is a step that reaches no further than the goroutine, and no fault.
    #[tactic(auto, using(crate::proofs::AloneLemmas::call_right, crate::proofs::AloneLemmas::call_stays, crate::proofs::AloneLemmas::deep_call, crate::proofs::AloneLemmas::received, crate::proofs::AloneLemmas::made, crate::proofs::AloneLemmas::items_counted, crate::proofs::AloneLemmas::places_counted, crate::proofs::AloneLemmas::decide_right, crate::proofs::AloneLemmas::decide_stays, crate::proofs::AloneLemmas::choose_is_none))]
    fn goes_alone(&self, instruction: &Instruction, depth: Depth) -> bool
        requires { ¬ (frames.task self.now (instruction_of instruction.now) ≡ wrong) }
        ensures { result ≡ stays (has_caller_at depth) (is_deepest_at depth)
            (frames.task self.now (instruction_of instruction.now)) }
    {
        match instruction {
            Instruction::Part { ask, .. } => match ask {
                Ask::Call { arguments, .. } => !depth.is_deepest()
                    && !any_faults(self.cells(), arguments),
                Ask::Receive { .. } | Ask::Make { .. } | Ask::Len { .. } | Ask::Cap { .. } => false,
            },
            Instruction::Decide { left, .. } => !faults(self.cells(), left),
            Instruction::Perform { action, operands } => {
                self.performs_alone(action, operands, depth)
            }
            Instruction::Choose { .. } => false,
        }
    }
}

impl Goroutine {
    /// Whether its next step is local, and is no fault. It takes no memory.
    pub fn goes_alone(&self, code: &Code) -> bool
        requires { ¬ (task_of (program_code_of code.now) self.now.content ≡ wrong) }
        ensures { result ≡ stays_alone (program_code_of code.now) self.now.content }
    {
        let instruction = self.top.instruction(code);
        let depth = depth_above(self.below.len());
        self.top.goes_alone(instruction, depth)
    }
}
