//! Frames of code, and how they go on.

ghost use Rattle.std.specs.Prelude.{◌≡◌, IfOk, OnErr};
ghost use Rattle.gr_rules.specs.Outcomes.{gives, wrong};
ghost use Rattle.gr_rules.specs.Frames.{assigned};
ghost use Rattle.gr_code.specs.CodeFrames.{Steps, acted, at_number, with_cell, with_part, with_received, entered, after_in};
ghost use Rattle.gr_code.specs.CodeFrames.{resumed_in};
ghost use Rattle.gr_code.specs.Instructions.{Assigns};
ghost use Rattle.gr_code.specs.CodeViews.{instruction_of, program_code_of};
ghost use Rattle.gr_code.specs.Goroutines.{instruction_in, line_of};
ghost use Rattle.gr_goros.specs.Undoing.{at_spot, frame_before, frame_in, spot_of};

use crate::cells;
use crate::copying::copy_all;
use crate::lookups::{code_of, function_at, instruction_at, line_at};
use crate::undo::{Former, FrameUndo, Spot};
use gr_base::{NoMemory, Value};
use gr_code::code::{Action, Code, Instruction};
use gr_eval::settles;
use std::alloc::Global;
use std::marker::Model;
use std::mem;

/// A function that was called and has not returned.
#[derive(Drop)]
pub struct Frame {
    function: u32,
    /// The number of the next instruction.
    pub(crate) pc: u32,
    pub(crate) cells: Vec<Option<Value>>,
}

impl Model for Frame {
    ghost use Rattle.gr_code.specs.CodeFrames.{CodeFrame};

    ghost Value = { CodeFrame };

    ghost view = { λ f. record { function = f.function; number = f.pc; cells = f.cells.items } };
}

impl Frame {
    /// A frame that no view shows.
    pub(crate) fn unseen(alloc: Global) -> Frame {
        Frame {
            function: 0,
            pc: 0,
            cells: Vec::new(alloc),
        }
    }

    /// The function with a number before its first instruction, with these cells.
    pub(crate) fn begin(function: u32, cells: Vec<Option<Value>>) -> Frame
        ensures { result ≡ record { function = function; number = 0; cells = cells.items } }
    {
        Frame {
            function,
            pc: 0,
            cells,
        }
    }

    /// The function before its first instruction, its parameters having these values.
    pub(crate) fn enter(
        alloc: Global,
        code: &Code,
        function: u32,
        values: Vec<Value>,
    ) -> Result<Frame, NoMemory>
        requires { ¬ (entered (program_code_of code.now) function values.items ≡ wrong) }
        ensures { IfOk result (λ f. entered (program_code_of code.now) function values.items ≡ gives f) }
    {
        let function_code = code_of(code, function);
        let mut cells = cells::empty(alloc, function_code.cells)?;
        cells::fill(&mut cells, &function_code.parameters, values);
        Ok(Frame::begin(function, cells))
    }

    /// A copy of the frame.
    pub fn copy(&self, alloc: Global) -> Result<Frame, NoMemory>
        ensures { IfOk result (λ copy. copy ≡ self.now) }
    {
        let cells = copy_all(alloc, &self.cells)?;
        Ok(Frame {
            function: self.function,
            pc: self.pc,
            cells,
        })
    }

    /// The number of the function.
    pub fn function(&self) -> usize
        ensures { result ≡ self.now.function }
    {
        self.function as usize
    }

    /// The number of the function, as it is kept.
    pub(crate) fn kept_function(&self) -> u32
        ensures { result ≡ self.now.function }
    {
        self.function
    }

    /// The number of the next instruction.
    pub(crate) fn pc(&self) -> usize
        ensures { result ≡ self.now.number }
    {
        self.pc as usize
    }

    /// The number of the next instruction, as it is kept.
    pub(crate) fn kept_pc(&self) -> u32
        ensures { result ≡ self.now.number }
    {
        self.pc
    }

    /// Where it stands.
    pub fn spot(&self) -> Spot
        ensures { result ≡ spot_of self.now }
    {
        Spot {
            function: self.function,
            number: self.pc,
        }
    }

    /// The variables by their numbers, and then the temporaries; `None` has no value yet.
    pub fn cells(&self) -> &[Option<Value>]
        ensures { result.now ≡ self.now.cells }
    {
        self.cells.as_slice()
    }

    /// The next instruction.
    #[tactic(auto, using(crate::proofs::CodeLemmas::found_instruction, crate::proofs::CodeLemmas::no_instruction, crate::proofs::CodeLemmas::no_function_in))]
    pub(crate) fn instruction<'a>(&self, code: &'a Code) -> &'a Instruction
        requires { ¬ (instruction_in (program_code_of code.now) self.now ≡ wrong) }
        ensures { instruction_in (program_code_of code.now) self.now ≡ gives (instruction_of result.now) }
    {
        match function_at(code, self.function) {
            Some(function_code) => match instruction_at(function_code, self.pc) {
                Some(instruction) => instruction,
                None => unreachable!(),
            },
            None => unreachable!(),
        }
    }

    /// The line on which the statement of the next instruction begins.
    #[tactic(auto, using(crate::proofs::CodeLemmas::found_line, crate::proofs::CodeLemmas::no_function_line))]
    pub fn line(&self, code: &Code) -> usize
        requires { ¬ (line_of (program_code_of code.now) self.now ≡ None) }
        ensures { line_of (program_code_of code.now) self.now ≡ Some result }
    {
        match function_at(code, self.function) {
            Some(function_code) => match line_at(function_code, self.pc) {
                Some(line) => *line as usize,
                None => unreachable!(),
            },
            None => unreachable!(),
        }
    }

    /// Goes on at another instruction.
    pub(crate) fn go_on(&mut self, on: u32) -> FrameUndo
        ensures after { self.new ≡ at_number self.old on }
        ensures back { frame_before result self.new ≡ self.old }
    {
        let number = mem::replace(&mut self.pc, on);
        FrameUndo {
            number,
            cells: Former::Same,
        }
    }

    /// Goes on with a value in a cell. Refused, nothing has changed.
    #[inline(always)]
    pub(crate) fn keep(
        &mut self,
        alloc: Global,
        slot: u32,
        value: Value,
        on: u32,
    ) -> Result<FrameUndo, NoMemory>
        ensures after { IfOk result (λ _. self.new ≡ with_cell self.old slot value on) }
        ensures back { IfOk result (λ u. frame_before u self.new ≡ self.old) }
        ensures err { OnErr result (self.new ≡ self.old) }
    {
        let cells = cells::write(alloc, &mut self.cells, slot, value)?;
        let number = mem::replace(&mut self.pc, on);
        Ok(FrameUndo { number, cells })
    }

    /// Goes on with the value of its part, which is kept nowhere where the part is the whole statement. Refused, nothing has
    /// changed.
    #[inline(always)]
    pub(crate) fn keep_part(
        &mut self,
        alloc: Global,
        slot: Option<u32>,
        value: Value,
        on: u32,
    ) -> Result<FrameUndo, NoMemory>
        ensures after { IfOk result (λ _. self.new ≡ with_part self.old slot value on) }
        ensures back { IfOk result (λ u. frame_before u self.new ≡ self.old) }
        ensures err { OnErr result (self.new ≡ self.old) }
    {
        match slot {
            Some(slot) => self.keep(alloc, slot, value, on),
            None => Ok(self.go_on(on)),
        }
    }

    /// Goes on with values assigned to cells. Refused, nothing has changed.
    pub(crate) fn assign(
        &mut self,
        alloc: Global,
        targets: &[Option<u32>],
        values: Vec<Value>,
        on: u32,
    ) -> Result<FrameUndo, NoMemory>
        requires { ¬ (assigned targets.now values.items self.old.cells ≡ wrong) }
        ensures after { IfOk result (λ _. acted self.old (Assigns targets.now on) values.items ≡ gives (Steps self.new)) }
        ensures back { IfOk result (λ u. frame_before u self.new ≡ self.old) }
        ensures err { OnErr result (self.new ≡ self.old) }
    {
        let mut kept = Box::new(alloc, Vec::new(alloc))?;
        *kept = cells::assign(alloc, &mut self.cells, targets, values)?;
        let number = mem::replace(&mut self.pc, on);
        Ok(FrameUndo {
            number,
            cells: Former::Each(kept),
        })
    }

    /// Goes on with a value that was received, and with whether it was sent. Refused, nothing has changed.
    #[inline(never)]
    pub(crate) fn keep_received(
        &mut self,
        alloc: Global,
        into: Option<(u32, u32)>,
        got: (Value, bool),
        on: u32,
    ) -> Result<FrameUndo, NoMemory>
        ensures after { IfOk result (λ _. self.new ≡ with_received self.old into got on) }
        ensures back { IfOk result (λ u. frame_before u self.new ≡ self.old) }
        ensures err { OnErr result (self.new ≡ self.old) }
    {
        let Some((value_slot, sent_slot)) = into else {
            return Ok(self.go_on(on));
        };
        let (value, sent) = got;
        let cells = cells::write_two(
            alloc,
            &mut self.cells,
            (value_slot, value),
            (sent_slot, Value::Bool(sent)),
        )?;
        let number = mem::replace(&mut self.pc, on);
        Ok(FrameUndo { number, cells })
    }

    /// Goes on after it printed, closed or started something.
    pub(crate) fn complete(&mut self, instruction: &Instruction) -> Spot
        requires { ¬ (after_in self.old (instruction_of instruction.now) ≡ wrong) }
        ensures after { after_in self.old (instruction_of instruction.now) ≡ gives self.new }
        ensures back { at_spot result self.new ≡ self.old }
    {
        let spot = self.spot();
        match instruction {
            Instruction::Perform {
                action: Action::Print { on, .. } | Action::Close { on } | Action::Start { on, .. },
                ..
            } => self.pc = *on,
            _ => unreachable!(),
        }
        spot
    }

    /// Goes on with the value of its part. Refused, nothing has changed.
    #[inline(always)]
    pub(crate) fn resume(
        &mut self,
        alloc: Global,
        instruction: &Instruction,
        value: Value,
    ) -> Result<FrameUndo, NoMemory>
        requires { ¬ (resumed_in self.old (instruction_of instruction.now) value ≡ wrong) }
        ensures after { IfOk result (λ _. resumed_in self.old (instruction_of instruction.now) value ≡ gives self.new) }
        ensures back { IfOk result (λ u. frame_before u self.new ≡ self.old) }
        ensures err { OnErr result (self.new ≡ self.old) }
    {
        match instruction {
            Instruction::Part { slot, on, .. } => self.keep_part(alloc, *slot, value, *on),
            Instruction::Decide {
                op,
                slot,
                settled,
                right,
                ..
            } => {
                let on = if settles(*op, &value) {
                    *settled
                } else {
                    *right
                };
                self.keep(alloc, *slot, value, on)
            }
            _ => unreachable!(),
        }
    }

    /// Takes the change back.
    pub(crate) fn undo(&mut self, undo: FrameUndo)
        ensures { self.new ≡ frame_before undo self.old }
    {
        let FrameUndo { number, cells } = undo;
        self.pc = number;
        cells::put_back(&mut self.cells, cells);
    }

    /// Takes the change back, in the function with a number.
    pub(crate) fn undo_in(&mut self, function: u32, undo: FrameUndo)
        ensures { self.new ≡ frame_in function undo self.old }
    {
        self.function = function;
        self.undo(undo);
    }

    /// Stands there.
    pub(crate) fn stand_at(&mut self, spot: Spot)
        ensures { self.new ≡ at_spot spot self.old }
    {
        self.function = spot.function;
        self.pc = spot.number;
    }
}
