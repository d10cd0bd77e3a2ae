//! Steps of a frame that ask for nothing beyond its goroutine.

ghost use Rattle.std.specs.Prelude.{◌≡◌, true, false, IfOk, IfErr, OnErr, slice_get};
ghost use Rattle.gr_rules.specs.Outcomes.{gives, wrong};
ghost use Rattle.gr_rules.specs.Evaluation as rules;
ghost use Rattle.gr_rules.specs.Deeds as deeds;
ghost use Rattle.gr_code.specs.Instructions.{Assigns, GoesOn, Returns};
ghost use Rattle.gr_code.specs.CodeFrames as frames;
ghost use Rattle.gr_code.specs.CodeViews.{action_of, instruction_of, operand_of, operands_of, pieces_of};
ghost use Rattle.gr_eval.specs.Stops.{Stops};
ghost use Rattle.gr_code.specs.Goroutines.{is_local_action, is_local_instruction};
ghost use Rattle.gr_goros.specs.Calls.{is_calling};
ghost use Rattle.gr_goros.specs.Tasks.{Does, only_of, performed, printed, ranged, stored, tested, updated};
ghost use Rattle.gr_goros.specs.Undoing.{frame_before};

use crate::frame::Frame;
use crate::undo::FrameUndo;
use gr_base::{NoMemory, Value};
use gr_code::code::{Action, Instruction, Operand, Piece};
use gr_eval::{
    Scalar, Stop, as_truth, evaluate, evaluate_all, number_in, number_of, of_numbers, on_ints,
    operate, printed_line, settles,
};
use gr_tree::BinaryOp;
use std::alloc::Global;

/// What a step of a frame comes to.
#[derive(Drop)]
pub(crate) enum Task {
    /// The frame went on.
    Steps(FrameUndo),
    /// It prints a line.
    Prints(Vec<u8>),
    /// It returns a value.
    Leaves(Value),
}

/// The one value.
#[tactic(auto, using(crate::proofs::TaskLemmas::last_only))]
fn only_value(mut values: Vec<Value>) -> Value
    requires { ¬ (deeds.only values.items ≡ wrong) }
    ensures { deeds.only values.items ≡ gives result }
{
    match values.pop() {
        Some(value) => value,
        None => unreachable!(),
    }
}

/// The value of the one operand. Errors: its fault, and out of memory.
#[inline]
pub(crate) fn only(
    alloc: Global,
    cells: &[Option<Value>],
    operands: &[Operand],
) -> Result<Value, Stop>
    requires { ¬ (only_of cells.now (operands_of operands.now) ≡ wrong) }
    ensures ok { IfOk result (λ v. only_of cells.now (operands_of operands.now) ≡ gives v) }
    ensures stop { IfErr result (λ e. Stops e (only_of cells.now (operands_of operands.now))) }
{
    match operands {
        [operand] => evaluate(alloc, cells, operand),
        _ => Ok(only_value(evaluate_all(alloc, cells, operands)?)),
    }
}

impl Frame {
    /// What its instruction comes to. The instruction is no call, and asks for nothing beyond the goroutine. Where that is a
    /// step of the frame, the frame went on. Else it is as it was. Errors: the fault of an operand, and out of memory.
    pub(crate) fn task(
        &mut self,
        alloc: Global,
        instruction: &Instruction,
        has_caller: bool,
    ) -> Result<Task, Stop>
        requires right { ¬ (frames.task self.old (instruction_of instruction.now) ≡ wrong) }
        requires local { is_local_instruction has_caller (instruction_of instruction.now) ≡ true }
        requires no_call { is_calling (instruction_of instruction.now) ≡ false }
        ensures { Does result (frames.task self.old (instruction_of instruction.now)) self.old self.new }
    {
        match instruction {
            Instruction::Decide {
                op,
                left,
                slot,
                settled,
                right,
            } => {
                let value = evaluate(alloc, self.cells(), left)?;
                let undo = self.decide(alloc, *op, value, *slot, *settled, *right)?;
                Ok(Task::Steps(undo))
            }
            Instruction::Perform { action, operands } => {
                self.perform(alloc, action, operands, has_caller)
            }
            _ => unreachable!(),
        }
    }

    /// Goes on with the value of the left operand of `&&` or `||`, where that leads. Refused, nothing has changed.
    fn decide(
        &mut self,
        alloc: Global,
        op: BinaryOp,
        value: Value,
        slot: u32,
        settled: u32,
        right: u32,
    ) -> Result<FrameUndo, NoMemory>
        ensures after { IfOk result (λ _. self.new ≡ frames.past_decision self.old op slot settled right value) }
        ensures back { IfOk result (λ u. frame_before u self.new ≡ self.old) }
        ensures err { OnErr result (self.new ≡ self.old) }
    {
        let on = if settles(op, &value) { settled } else { right };
        self.keep(alloc, slot, value, on)
    }

    /// What a statement comes to, as `task` does.
    fn perform(
        &mut self,
        alloc: Global,
        action: &Action,
        operands: &[Operand],
        has_caller: bool,
    ) -> Result<Task, Stop>
        requires right { ¬ (performed self.old (action_of action.now) (operands_of operands.now) ≡ wrong) }
        requires local { is_local_action has_caller (action_of action.now) ≡ true }
        ensures { Does result (performed self.old (action_of action.now) (operands_of operands.now)) self.old self.new }
    {
        match action {
            Action::Assign { targets, on } => self.assign_all(alloc, targets, operands, *on),
            Action::Update { variable, op, on } => {
                self.update(alloc, *variable, *op, operands, *on)
            }
            Action::Print { pieces, .. } => self.print(alloc, pieces, operands),
            Action::Return => self.give_back(alloc, operands),
            Action::GoOn { on } => self.move_on(alloc, operands, *on),
            Action::Test { holds, fails } => self.test(alloc, operands, *holds, *fails),
            Action::Range { slot, on } => self.range(alloc, operands, *slot, *on),
            Action::Fail => match evaluate_all(alloc, self.cells(), operands) {
                Ok(_) => unreachable!(),
                Err(stop) => Err(stop),
            },
            _ => unreachable!(),
        }
    }

    /// Goes on.
    fn move_on(&mut self, alloc: Global, operands: &[Operand], on: u32) -> Result<Task, Stop>
        requires { ¬ (performed self.old (GoesOn on) (operands_of operands.now) ≡ wrong) }
        ensures { Does result (performed self.old (GoesOn on) (operands_of operands.now)) self.old self.new }
    {
        match operands {
            [] => Ok(Task::Steps(self.go_on(on))),
            _ => {
                let _values = evaluate_all(alloc, self.cells(), operands)?;
                Ok(Task::Steps(self.go_on(on)))
            }
        }
    }

    /// Goes on where the condition holds, or where it does not.
    fn test(
        &mut self,
        alloc: Global,
        operands: &[Operand],
        holds: u32,
        fails: u32,
    ) -> Result<Task, Stop>
        requires { ¬ (tested self.old holds fails (operands_of operands.now) ≡ wrong) }
        ensures { Does result (tested self.old holds fails (operands_of operands.now)) self.old self.new }
    {
        if let [operand] = operands {
            if let Some(Ok(Scalar::Bool(truth))) = of_numbers(self.cells(), operand) {
                let on = if truth { holds } else { fails };
                return Ok(Task::Steps(self.go_on(on)));
            }
        }
        let value = only(alloc, self.cells(), operands)?;
        let on = if as_truth(value) { holds } else { fails };
        Ok(Task::Steps(self.go_on(on)))
    }

    /// Keeps the channel of a loop.
    fn range(
        &mut self,
        alloc: Global,
        operands: &[Operand],
        slot: u32,
        on: u32,
    ) -> Result<Task, Stop>
        requires { ¬ (ranged self.old slot on (operands_of operands.now) ≡ wrong) }
        ensures { Does result (ranged self.old slot on (operands_of operands.now)) self.old self.new }
    {
        let channel = only(alloc, self.cells(), operands)?;
        Ok(Task::Steps(self.keep(alloc, slot, channel, on)?))
    }

    /// Assigns a value to a variable.
    #[inline]
    fn store(&mut self, alloc: Global, variable: u32, value: Value, on: u32) -> Result<Task, Stop>
        requires { ¬ (stored self.old variable on value ≡ wrong) }
        ensures { Does result (stored self.old variable on value) self.old self.new }
    {
        Ok(Task::Steps(self.keep(alloc, variable, value, on)?))
    }

    /// Assigns with an operator.
    fn update(
        &mut self,
        alloc: Global,
        variable: u32,
        op: BinaryOp,
        operands: &[Operand],
        on: u32,
    ) -> Result<Task, Stop>
        requires { ¬ (updated self.old variable op on (operands_of operands.now) ≡ wrong) }
        ensures { Does result (updated self.old variable op on (operands_of operands.now)) self.old self.new }
    {
        if let [operand] = operands {
            if let Some(y) = number_of(self.cells(), operand) {
                if let Some(x) = number_in(self.cells(), variable) {
                    let value = on_ints(op, x, y)?.to_value();
                    return self.store(alloc, variable, value, on);
                }
            }
        }
        let right = only(alloc, self.cells(), operands)?;
        let left = self.held(alloc, variable)?;
        let value = operate(op, left, right)?;
        self.store(alloc, variable, value, on)
    }

    /// The value of a variable.
    fn held(&self, alloc: Global, variable: u32) -> Result<Value, NoMemory>
        requires { ¬ (rules.held (slice_get self.now.cells variable) ≡ wrong) }
        ensures { IfOk result (λ v. rules.held (slice_get self.now.cells variable) ≡ gives v) }
    {
        match self.cells().get(variable as usize) {
            Some(Some(value)) => value.copy(alloc),
            _ => unreachable!(),
        }
    }

    /// Assigns the values of the operands.
    fn assign_all(
        &mut self,
        alloc: Global,
        targets: &[Option<u32>],
        operands: &[Operand],
        on: u32,
    ) -> Result<Task, Stop>
        requires { ¬ (performed self.old (Assigns targets.now on) (operands_of operands.now) ≡ wrong) }
        ensures { Does result (performed self.old (Assigns targets.now on) (operands_of operands.now)) self.old self.new }
    {
        match (targets, operands) {
            ([Some(variable)], [operand]) => {
                let value = evaluate(alloc, self.cells(), operand)?;
                self.store(alloc, *variable, value, on)
            }
            _ => {
                let values = evaluate_all(alloc, self.cells(), operands)?;
                Ok(Task::Steps(self.assign(alloc, targets, values, on)?))
            }
        }
    }

    /// Prints a line.
    #[tactic(auto, using(crate::proofs::TaskLemmas::line_is))]
    fn print(&mut self, alloc: Global, pieces: &[Piece], operands: &[Operand]) -> Result<Task, Stop>
        requires { ¬ (printed self.old (pieces_of pieces.now) (operands_of operands.now) ≡ wrong) }
        ensures { Does result (printed self.old (pieces_of pieces.now) (operands_of operands.now)) self.old self.new }
    {
        let values = evaluate_all(alloc, self.cells(), operands)?;
        Ok(Task::Prints(printed_line(alloc, pieces, &values)?))
    }

    /// Returns the value of its operand, or that of no operand.
    #[tactic(auto, using(crate::proofs::TaskLemmas::last_returned))]
    fn give_back(&mut self, alloc: Global, operands: &[Operand]) -> Result<Task, Stop>
        requires { ¬ (performed self.old Returns (operands_of operands.now) ≡ wrong) }
        ensures { Does result (performed self.old Returns (operands_of operands.now)) self.old self.new }
    {
        if let [operand] = operands {
            return Ok(Task::Leaves(evaluate(alloc, self.cells(), operand)?));
        }
        let mut values = evaluate_all(alloc, self.cells(), operands)?;
        match values.pop() {
            Some(value) => Ok(Task::Leaves(value)),
            None => Ok(Task::Leaves(Value::Unit)),
        }
    }
}
