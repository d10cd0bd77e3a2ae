//! Calls: the arguments are evaluated into the cells of the new frame, one by one.

ghost use Rattle.std.specs.Prelude.{◌≡◌, ◌+◌, ◌<◌, ◌≤◌, ◌^◌, false, slice_get, IfOk, IfErr, OnErr, MatchOption, true};
ghost use Rattle.gr_rules.specs.Outcomes.{gives, wrong};
ghost use Rattle.gr_rules.specs.Evaluation as rules;
ghost use Rattle.gr_code.specs.CodeViews.{instruction_of, operands_of, program_code_of};
ghost use Rattle.gr_code.specs.Goroutines.{is_deepest as is_deepest_of};
ghost use Rattle.gr_eval.specs.Stops.{Stops};
ghost use Rattle.gr_goros.specs.Calls.{called, calls, given, is_calling, passed, with_call, CallsWith};
ghost use Rattle.gr_goros.specs.Tasks.{IsStep};
ghost use Rattle.gr_goros.specs.Undoing.{IsLive};

use crate::cells::{empty, put};
use crate::frame::Frame;
use crate::goroutine::Goroutine;
use crate::kinds::LocalKind;
use crate::lookups::function_at;
use crate::undo::GoUndo;
use gr_base::{Fault, NoMemory, Value};
use gr_code::code::{Ask, Code, Instruction, Operand};
use gr_eval::{Stop, evaluate, evaluate_all};
use std::alloc::Global;
use std::mem;

/// How many frames a goroutine may have.
pub(crate) const MOST_FRAMES: usize = 1000;

/// The number of the function that an instruction calls, and the arguments, if it is a call.
pub(crate) fn call_in(instruction: &Instruction) -> Option<(u32, &[Operand])>
    ensures { MatchOption result (is_calling (instruction_of instruction.now) ≡ false)
        (λ c. CallsWith (instruction_of instruction.now) c.0 (operands_of c.1.now)) }
{
    match instruction {
        Instruction::Part {
            ask: Ask::Call {
                function,
                arguments,
            },
            ..
        } => Some((*function, arguments.as_slice())),
        _ => None,
    }
}

/// Gives a value to the parameter with a number, if there is one that keeps it.
fn give(cells: &mut Vec<Option<Value>>, parameters: &[Option<u32>], number: usize, value: Value)
    ensures { cells.new.items ≡ given (slice_get parameters.now number) value cells.old.items }
{
    if let Some(Some(slot)) = parameters.get(number) {
        put(cells, *slot as usize, Some(value));
    }
}

/// Gives the values of operands, in a frame with its own cells, to parameters from left to right. Errors: the fault of the first
/// that has one, and out of memory.
#[tactic(auto, using(crate::proofs::CallLemmas::begins, crate::proofs::CallLemmas::right_here, crate::proofs::CallLemmas::stops_here))]
fn pass(
    alloc: Global,
    own: &[Option<Value>],
    operands: &[Operand],
    parameters: &[Option<u32>],
    cells: &mut Vec<Option<Value>>,
) -> Result<(), Stop>
    requires { ¬ (passed own.now (operands_of operands.now) parameters.now cells.old.items ≡ wrong) }
    ensures ok { IfOk result (λ _. passed own.now (operands_of operands.now) parameters.now cells.old.items
        ≡ gives cells.new.items) }
    ensures stop { IfErr result (λ e. Stops e (rules.evaluate_all own.now (operands_of operands.now))) }
{
    for (number, operand) in operands.iter().enumerate() {
        let value = evaluate(alloc, own, operand)?;
        give(cells, parameters, number, value);
    }
    Ok(())
}

impl Frame {
    /// The frame of the function with a number, whose parameters have the values of operands in this one. Errors: the fault of
    /// the first that has one, and out of memory.
    #[tactic(auto, using(crate::proofs::CodeLemmas::found_function, crate::proofs::CodeLemmas::no_function, crate::proofs::CallLemmas::operands_right, crate::proofs::CallLemmas::none_called))]
    fn call(
        &self,
        alloc: Global,
        code: &Code,
        function: u32,
        operands: &[Operand],
    ) -> Result<Frame, Stop>
        requires { ¬ (called (program_code_of code.now) function self.now.cells (operands_of operands.now) ≡ wrong) }
        ensures ok { IfOk result (λ f. called (program_code_of code.now) function self.now.cells (operands_of operands.now)
            ≡ gives f) }
        ensures stop { IfErr result (λ e. Stops e (rules.evaluate_all self.now.cells (operands_of operands.now))) }
    {
        let Some(function_code) = function_at(code, function) else {
            return match evaluate_all(alloc, self.cells(), operands) {
                Ok(_) => unreachable!(),
                Err(stop) => Err(stop),
            };
        };
        let mut cells = empty(alloc, function_code.cells)?;
        pass(
            alloc,
            self.cells(),
            operands,
            &function_code.parameters,
            &mut cells,
        )?;
        Ok(Frame::begin(function, cells))
    }
}

impl Goroutine {
    /// Whether it can have no more frames.
    fn is_deepest(&self) -> bool
        requires { IsLive self.now.content }
        ensures { result ≡ is_deepest_of self.now.content.frames }
    {
        self.below.len() >= MOST_FRAMES - 1
    }

    /// Calls a function with the values of operands. Refused, nothing has changed.
    #[tactic(auto, using(crate::proofs::CallLemmas::call_right, crate::proofs::CallLemmas::call_gives, crate::proofs::CallLemmas::call_faults))]
    pub(crate) fn call(
        &mut self,
        alloc: Global,
        code: &Code,
        function: u32,
        operands: &[Operand],
    ) -> Result<(LocalKind, GoUndo), NoMemory>
        requires right { ¬ (calls (program_code_of code.now) self.old.content function
            (operands_of operands.now) self.old.content.frames ≡ wrong) }
        requires live { IsLive self.old.content }
        requires counted { self.old.content.steps + 1 < 2 ^ 64 }
        ensures step { IfOk result (λ r.
            IsStep r (calls (program_code_of code.now) self.old.content function
            (operands_of operands.now) self.old.content.frames) self.old self.new) }
        ensures err { OnErr result (self.new.content ≡ self.old.content) }
        ensures err_room { OnErr result (self.old.room ≤ self.new.room) }
    {
        if self.is_deepest() {
            return self.call_too_deep(alloc, code, function, operands);
        }
        match self.top.call(alloc, code, function, operands) {
            Ok(frame) => self.enter(frame),
            Err(Stop::Fault(fault)) => Ok(self.stop(fault)),
            Err(Stop::NoMemory) => Err(NoMemory),
        }
    }

    /// Calls a function where the goroutine can have no more frames.
    #[tactic(auto, using(crate::proofs::CallLemmas::call_evaluates, crate::proofs::CallLemmas::call_deep, crate::proofs::CallLemmas::call_faults))]
    fn call_too_deep(
        &mut self,
        alloc: Global,
        code: &Code,
        function: u32,
        operands: &[Operand],
    ) -> Result<(LocalKind, GoUndo), NoMemory>
        requires right { ¬ (calls (program_code_of code.now) self.old.content function
            (operands_of operands.now) self.old.content.frames ≡ wrong) }
        requires live { IsLive self.old.content }
        requires deepest { is_deepest_of self.old.content.frames ≡ true }
        requires counted { self.old.content.steps + 1 < 2 ^ 64 }
        ensures step { IfOk result (λ r.
            IsStep r (calls (program_code_of code.now) self.old.content function
            (operands_of operands.now) self.old.content.frames) self.old self.new) }
        ensures err { OnErr result (self.new ≡ self.old) }
    {
        match evaluate_all(alloc, self.top.cells(), operands) {
            Ok(_) => Ok(self.stop(Fault::CallDepth)),
            Err(Stop::Fault(fault)) => Ok(self.stop(fault)),
            Err(Stop::NoMemory) => Err(NoMemory),
        }
    }

    /// Begins the frame of a call. Refused, nothing has changed.
    fn enter(&mut self, frame: Frame) -> Result<(LocalKind, GoUndo), NoMemory>
        requires live { IsLive self.old.content }
        requires counted { self.old.content.steps + 1 < 2 ^ 64 }
        ensures step { IfOk result (λ r. IsStep r (with_call self.old.content frame) self.old self.new) }
        ensures err { OnErr result (self.new.content ≡ self.old.content) }
        ensures err_room { OnErr result (self.old.room ≤ self.new.room) }
    {
        self.below.reserve(1)?;
        let caller = mem::replace(&mut self.top, frame);
        let spot = caller.spot();
        self.below.push_reserved(caller);
        self.steps += 1;
        Ok((LocalKind::Call, GoUndo::Entered(spot)))
    }
}
