//! Local steps of a goroutine.

ghost use Rattle.std.specs.Prelude.{◌≡◌, ◌+◌, ◌<◌, ◌≤◌, ◌^◌, true, drop, IfOk, OnErr};
ghost use Rattle.gr_rules.specs.Outcomes.{wrong};
ghost use Rattle.gr_code.specs.CodeViews.{program_code_of};
ghost use Rattle.gr_code.specs.Goroutines.{faulted, leaves, local, printing, task_of, is_local as is_local_now};
ghost use Rattle.gr_goros.specs.Undoing.{Undoes};
ghost use Rattle.gr_goros.specs.Tasks.{IsStep};
ghost use Rattle.gr_goros.specs.declared.kinds.LocalKind.TheVariants as locals;

use crate::calling::call_in;
use crate::frame::Frame;
use crate::goroutine::Goroutine;
use crate::kept::KeptUndo;
use crate::kinds::LocalKind;
use crate::needs::asks_nothing;
use crate::tasks::Task;
use crate::undo::{Former, FrameUndo, GoUndo, Left};
use gr_base::{Fault, NoMemory, Value};
use gr_code::code::Code;
use gr_eval::Stop;
use std::alloc::Global;
use std::mem;

impl Goroutine {
    /// Whether the next instruction asks for nothing beyond the goroutine. Its step is then local. A call that is too deep,
    /// and a fault, are local too.
    pub fn is_local(&self, code: &Code) -> bool
        requires { ¬ (task_of (program_code_of code.now) self.now.content ≡ wrong) }
        ensures { result ≡ is_local_now (program_code_of code.now) self.now.content }
    {
        asks_nothing(self.top.instruction(code), !self.below.is_empty())
    }

    /// Takes the next step, which reaches no further than the goroutine. Refused, nothing has changed.
    #[inline(always)]
    pub fn local_step(
        &mut self,
        alloc: Global,
        code: &Code,
    ) -> Result<(LocalKind, KeptUndo), NoMemory>
        requires right { ¬ (local (program_code_of code.now) self.old.content ≡ wrong) }
        requires here { is_local_now (program_code_of code.now) self.old.content ≡ true }
        requires counted { self.old.content.steps + 1 < 2 ^ 64 }
        ensures step { IfOk result (λ r. IsStep r (local (program_code_of code.now) self.old.content) self.old self.new) }
        ensures err { OnErr result (self.new.content ≡ self.old.content) }
        ensures err_room { OnErr result (self.old.room ≤ self.new.room) }
    {
        if let Some(counted) = self.top.step_ints(self.top.instruction(code)) {
            self.steps += 1;
            return Ok((LocalKind::Pure, counted.kept(self.top.kept_function())));
        }
        let (kind, own) = self.take_task(alloc, code)?;
        Ok((kind, KeptUndo::new(own)))
    }
}

impl Goroutine {
    /// Takes the next step, of whatever kind. Refused, nothing has changed.
    #[inline(never)]
    fn take_task(&mut self, alloc: Global, code: &Code) -> Result<(LocalKind, GoUndo), NoMemory>
        requires right { ¬ (local (program_code_of code.now) self.old.content ≡ wrong) }
        requires here { is_local_now (program_code_of code.now) self.old.content ≡ true }
        requires counted { self.old.content.steps + 1 < 2 ^ 64 }
        ensures step { IfOk result (λ r. IsStep r (local (program_code_of code.now) self.old.content) self.old self.new) }
        ensures err { OnErr result (self.new.content ≡ self.old.content) }
        ensures err_room { OnErr result (self.old.room ≤ self.new.room) }
    {
        let instruction = self.top.instruction(code);
        if let Some((function, operands)) = call_in(instruction) {
            return self.call(alloc, code, function, operands);
        }
        let has_caller = !self.below.is_empty();
        match self.top.task(alloc, instruction, has_caller) {
            Ok(Task::Steps(undo)) => {
                self.steps += 1;
                Ok((
                    LocalKind::Pure,
                    GoUndo::Went(self.top.kept_function(), undo),
                ))
            }
            Ok(Task::Prints(line)) => self.print(code, line),
            Ok(Task::Leaves(value)) => self.leave(alloc, code, value),
            Err(Stop::Fault(fault)) => Ok(self.stop(fault)),
            Err(Stop::NoMemory) => Err(NoMemory),
        }
    }

    /// A fault.
    pub(crate) fn stop(&mut self, fault: Fault) -> (LocalKind, GoUndo)
        requires { self.old.content.steps + 1 < 2 ^ 64 }
        ensures kind { result.0 ≡ locals.Fault fault }
        ensures after { self.new.content ≡ faulted self.old.content }
        ensures undone { Undoes result.1 self.old self.new }
    {
        self.steps += 1;
        (LocalKind::Fault(fault), GoUndo::Faulted(self.top.spot()))
    }

    /// Prints a line. Refused, nothing has changed.
    #[tactic(auto, using(crate::proofs::TextLemmas::lines_last, crate::proofs::TextLemmas::front_last, crate::proofs::TextLemmas::last_counts))]
    fn print(&mut self, code: &Code, line: Vec<u8>) -> Result<(LocalKind, GoUndo), NoMemory>
        requires right { ¬ (printing (program_code_of code.now) self.old.content line.items self.old.content.frames ≡ wrong) }
        requires counted { self.old.content.steps + 1 < 2 ^ 64 }
        ensures step { IfOk result (λ r.
            IsStep r (printing (program_code_of code.now) self.old.content line.items
            self.old.content.frames) self.old self.new) }
        ensures err { OnErr result (self.new ≡ self.old) }
    {
        self.text.push(line)?;
        let spot = self.top.complete(self.top.instruction(code));
        self.steps += 1;
        Ok((LocalKind::Pure, GoUndo::Printed(spot)))
    }

    /// Returns a value to the caller. Refused, nothing has changed.
    fn leave(
        &mut self,
        alloc: Global,
        code: &Code,
        value: Value,
    ) -> Result<(LocalKind, GoUndo), NoMemory>
        requires right { ¬ (leaves (program_code_of code.now) self.old.content value (drop 1 self.old.content.frames) ≡ wrong) }
        requires counted { self.old.content.steps + 1 < 2 ^ 64 }
        ensures step { IfOk result (λ r.
            IsStep r (leaves (program_code_of code.now) self.old.content value
            (drop 1 self.old.content.frames)) self.old self.new) }
        ensures err { OnErr result (self.new ≡ self.old) }
    {
        let mut left = Box::new(
            alloc,
            Left {
                frame: Frame::unseen(alloc),
                caller: FrameUndo {
                    number: self.top.kept_pc(),
                    cells: Former::Same,
                },
            },
        )?;
        let Some(mut caller) = self.below.pop() else {
            unreachable!();
        };
        match caller.resume(alloc, caller.instruction(code), value) {
            Ok(undo) => left.caller = undo,
            Err(error) => {
                self.below.push_reserved(caller);
                return Err(error);
            }
        }
        left.frame = mem::replace(&mut self.top, caller);
        self.steps += 1;
        Ok((LocalKind::Return, GoUndo::Left(left)))
    }
}
