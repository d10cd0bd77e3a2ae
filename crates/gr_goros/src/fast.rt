//! Steps of a frame that read and replace whole numbers alone, or test a truth value, as most steps do.

ghost use Rattle.std.specs.Prelude.{◌≡◌, ◌+◌, ◌<◌, ◌^◌, Bool, true, slice_get, IfSome, IfNone};
ghost use Rattle.gr_base.specs.declared.values.Value.TheVariants.{Int, Bool as Truth};
ghost use Rattle.gr_rules.specs.Outcomes.{gives, wrong};
ghost use Rattle.gr_rules.specs.Evaluation as rules;
ghost use Rattle.gr_rules.specs.Evaluation.{evaluate, held};
ghost use Rattle.gr_rules.specs.Operands.{also, nothing};
ghost use Rattle.gr_rules.specs.Goroutines.{ready};
ghost use Rattle.gr_code.specs.Instructions.{Assigns};
ghost use Rattle.gr_code.specs.CodeFrames as frames;
ghost use Rattle.gr_code.specs.CodeFrames.{at_number, with_cell};
ghost use Rattle.gr_code.specs.CodeViews.{action_of, instruction_of, operand_of, operands_of, program_code_of};
ghost use Rattle.gr_code.specs.Goroutines.{CodeGoroutine, is_local, is_local_action, is_local_instruction, local, task_of};
ghost use Rattle.gr_goros.specs.declared.kinds.LocalKind.TheVariants as locals;
ghost use Rattle.gr_goros.specs.declared.undo.GoUndo.TheVariants as undos;
ghost use Rattle.gr_goros.specs.Tasks.{ChangesInts, IsStep, kept_of, performed, tested, updated};
ghost use Rattle.gr_goros.specs.Undoing.{frame_before, undone};

use crate::cells::put_number;
use crate::frame::Frame;
use crate::goroutine::Goroutine;
use crate::kept::{How, KeptUndo, Packed};
use crate::undo::Spot;
use crate::wait::Status;
use gr_base::Value;
use gr_code::code::{Action, Code, Instruction, Operand};
use gr_eval::{Scalar, number_in, number_of, of_numbers, on_ints};
use gr_program::Literal;
use gr_tree::BinaryOp;
use std::mem;

/// What a step over whole numbers replaced: where its frame stood, and the old content of the cell that it wrote, if it wrote
/// one.
#[derive(Clone, Copy)]
pub(crate) struct IntChange {
    pub(crate) pc: u32,
    pub(crate) writes: bool,
    pub(crate) slot: u32,
    pub(crate) former: i64,
}

/// The truth value in a cell that has one.
fn truth_in(cells: &[Option<Value>], cell: u32) -> Option<bool>
    ensures { IfSome result (λ b. held (slice_get cells.now cell) ≡ gives (Truth b)) }
{
    match cells.get(cell as usize) {
        Some(Some(Value::Bool(b))) => Some(*b),
        _ => None,
    }
}

/// The truth value that the operand is, where that stands in a cell or in the code.
fn truth_of(cells: &[Option<Value>], operand: &Operand) -> Option<bool>
    ensures { IfSome result (λ b. evaluate cells.now (operand_of operand.now) ≡ gives (Truth b)) }
{
    match operand {
        Operand::Variable(cell) => truth_in(cells, *cell),
        Operand::Literal(Literal::Truth(b)) => Some(*b),
        _ => None,
    }
}

/// The truth value of a condition, where it is one on numbers, or the value stands in a cell or in the code. A `for` without a
/// condition has it in its code.
#[inline(always)]
fn condition(cells: &[Option<Value>], operand: &Operand) -> Option<bool>
    requires { ¬ (evaluate cells.now (operand_of operand.now) ≡ wrong) }
    ensures { IfSome result (λ b. evaluate cells.now (operand_of operand.now) ≡ gives (Truth b)) }
{
    match of_numbers(cells, operand) {
        Some(Ok(Scalar::Bool(truth))) => Some(truth),
        Some(_) => None,
        None => truth_of(cells, operand),
    }
}

impl IntChange {
    /// What it replaced in a frame of a function, as records keep it.
    pub(crate) fn kept(self, function: u32) -> KeptUndo
        ensures { result ≡ undos.Went function (kept_of self) }
    {
        let spot = Spot {
            function,
            number: self.pc,
        };
        let packed = if self.writes {
            Packed::Int(How::Went, spot, self.slot, self.former)
        } else {
            Packed::Same(How::Went, spot)
        };
        KeptUndo { packed }
    }
}

impl Goroutine {
    /// Takes the next step, if it is ready and the step is over whole numbers alone, and answers its ordinal and what it
    /// replaced. `None` where it is another step; nothing has changed.
    pub fn step_ints(&mut self, code: &Code) -> Option<(u64, KeptUndo)>
        requires right { self.old.content.status ≡ ready → ¬ (task_of (program_code_of code.now) self.old.content ≡ wrong) }
        requires counted { self.old.content.steps + 1 < 2 ^ 64 }
        ensures step { IfSome result (λ r. IsStep (locals.Pure, r.1)
            (local (program_code_of code.now) self.old.content) self.old self.new) }
        ensures ordinal { IfSome result (λ r. r.0 ≡ self.old.content.steps + 1) }
        ensures ready { IfSome result (λ _. self.old.content.status ≡ ready) }
        ensures alone { IfSome result (λ _. is_local (program_code_of code.now) self.old.content ≡ true) }
        ensures stays { IfSome result (λ r. (g : CodeGoroutine) → (undone r.1 g).status ≡ g.status) }
        ensures none { IfNone result (self.new ≡ self.old) }
    {
        let Status::Ready = self.status else {
            return None;
        };
        let counted = self.top.step_ints(self.top.instruction(code))?;
        self.steps += 1;
        Some((self.steps, counted.kept(self.top.kept_function())))
    }
}

impl Frame {
    /// Goes on at another instruction.
    fn jump_to(&mut self, on: u32) -> IntChange
        ensures after { self.new ≡ at_number self.old on }
        ensures back { frame_before (kept_of result) self.new ≡ self.old }
    {
        let pc = mem::replace(&mut self.pc, on);
        IntChange {
            pc,
            writes: false,
            slot: 0,
            former: 0,
        }
    }

    /// Goes on with a number in a cell that holds another.
    #[inline(always)]
    fn put_int(&mut self, slot: u32, former: i64, n: i64, on: u32) -> IntChange
        requires { held (slice_get self.old.cells slot) ≡ gives (Int former) }
        ensures after { self.new ≡ with_cell self.old slot (Int n) on }
        ensures back { frame_before (kept_of result) self.new ≡ self.old }
    {
        let pc = mem::replace(&mut self.pc, on);
        put_number(&mut self.cells, slot, former, n);
        IntChange {
            pc,
            writes: true,
            slot,
            former,
        }
    }

    /// Takes the step of an instruction that reads whole numbers alone, and writes one to a cell that holds one, if any.
    /// `None` where it is another step; the frame is then as it was.
    #[inline(always)]
    pub(crate) fn step_ints(&mut self, instruction: &Instruction) -> Option<IntChange>
        requires { ¬ (frames.task self.old (instruction_of instruction.now) ≡ wrong) }
        ensures counts { ChangesInts result (frames.task self.old (instruction_of instruction.now)) self.old self.new }
        ensures alone { IfSome result (λ _. (caller : Bool)
            → is_local_instruction caller (instruction_of instruction.now) ≡ true) }
    {
        let Instruction::Perform { action, operands } = instruction else {
            return None;
        };
        match operands.as_slice() {
            [operand] => self.step_with_one(action, operand),
            [] => self.step_without_operands(action),
            [first, second] => self.step_with_two(action, first, second),
            _ => None,
        }
    }

    /// Takes the step of a statement without operands, if it is one over whole numbers.
    fn step_without_operands(&mut self, action: &Action) -> Option<IntChange>
        ensures counts { ChangesInts result (performed self.old (action_of action.now) nothing) self.old self.new }
        ensures alone { IfSome result (λ _. (caller : Bool) → is_local_action caller (action_of action.now) ≡ true) }
    {
        match action {
            Action::GoOn { on } => Some(self.jump_to(*on)),
            _ => None,
        }
    }

    /// Takes the step of a statement with one operand, if it is one over whole numbers.
    #[inline(always)]
    fn step_with_one(&mut self, action: &Action, operand: &Operand) -> Option<IntChange>
        requires { ¬ (performed self.old (action_of action.now) (also (operand_of operand.now) nothing) ≡ wrong) }
        ensures counts { ChangesInts result
            (performed self.old (action_of action.now) (also (operand_of operand.now) nothing)) self.old self.new }
        ensures alone { IfSome result (λ _. (caller : Bool) → is_local_action caller (action_of action.now) ≡ true) }
    {
        match action {
            Action::Update { variable, op, on } => self.update_int(*variable, *op, operand, *on),
            Action::Test { holds, fails } => self.compare(operand, *holds, *fails),
            Action::Assign { targets, on } => self.set_one(targets, operand, *on),
            _ => None,
        }
    }

    /// Takes the step of a statement with two operands, if it is one over whole numbers.
    #[inline]
    fn step_with_two(
        &mut self,
        action: &Action,
        first: &Operand,
        second: &Operand,
    ) -> Option<IntChange>
        requires { ¬ (performed self.old (action_of action.now)
            (also (operand_of first.now) (also (operand_of second.now) nothing)) ≡ wrong) }
        ensures counts { ChangesInts result
            (performed self.old (action_of action.now)
            (also (operand_of first.now) (also (operand_of second.now) nothing))) self.old self.new }
        ensures alone { IfSome result (λ _. (caller : Bool) → is_local_action caller (action_of action.now) ≡ true) }
    {
        match action {
            Action::Assign { targets, on } => self.set_first(targets, first, second, *on),
            _ => None,
        }
    }

    /// Goes on where a condition holds, or where it does not, if it is found so soon.
    #[inline(always)]
    fn compare(&mut self, operand: &Operand, holds: u32, fails: u32) -> Option<IntChange>
        requires { ¬ (tested self.old holds fails (also (operand_of operand.now) nothing) ≡ wrong) }
        ensures { ChangesInts result (tested self.old holds fails (also (operand_of operand.now) nothing)) self.old self.new }
    {
        let on = if condition(self.cells(), operand)? {
            holds
        } else {
            fails
        };
        Some(self.jump_to(on))
    }

    /// Assigns with an operator on numbers.
    #[inline(always)]
    fn update_int(
        &mut self,
        variable: u32,
        op: BinaryOp,
        operand: &Operand,
        on: u32,
    ) -> Option<IntChange>
        requires { ¬ (updated self.old variable op on (also (operand_of operand.now) nothing) ≡ wrong) }
        ensures { ChangesInts result (updated self.old variable op on (also (operand_of operand.now) nothing)) self.old self.new }
    {
        let y = number_of(self.cells(), operand)?;
        let x = number_in(self.cells(), variable)?;
        match on_ints(op, x, y) {
            Ok(Scalar::Int(n)) => Some(self.put_int(variable, x, n, on)),
            _ => None,
        }
    }

    /// Assigns a number to one variable.
    #[inline(always)]
    fn set_one(&mut self, targets: &[Option<u32>], operand: &Operand, on: u32) -> Option<IntChange>
        requires { ¬ (performed self.old (Assigns targets.now on) (also (operand_of operand.now) nothing) ≡ wrong) }
        ensures { ChangesInts result (performed self.old (Assigns targets.now on)
            (also (operand_of operand.now) nothing)) self.old self.new }
    {
        let [Some(variable)] = targets else {
            return None;
        };
        let x = number_in(self.cells(), *variable)?;
        match of_numbers(self.cells(), operand) {
            Some(Ok(Scalar::Int(n))) => Some(self.put_int(*variable, x, n, on)),
            _ => None,
        }
    }

    /// Assigns the first of a number and a truth value to one variable, as a clause of a select does that receives a number.
    fn set_first(
        &mut self,
        targets: &[Option<u32>],
        first: &Operand,
        second: &Operand,
        on: u32,
    ) -> Option<IntChange>
        requires { ¬ (performed self.old (Assigns targets.now on)
            (also (operand_of first.now) (also (operand_of second.now) nothing)) ≡ wrong) }
        ensures { ChangesInts result (performed self.old (Assigns targets.now on)
            (also (operand_of first.now) (also (operand_of second.now) nothing))) self.old self.new }
    {
        let [Some(variable)] = targets else {
            return None;
        };
        let _ = truth_of(self.cells(), second)?;
        let x = number_in(self.cells(), *variable)?;
        let n = number_of(self.cells(), first)?;
        Some(self.put_int(*variable, x, n, on))
    }
}
