//! What arrives at a goroutine, and how it comes to an end.

ghost use Rattle.std.specs.Prelude.{◌≡◌, ◌+◌, ◌<◌, ◌^◌, ◌∷◌, [], IfOk, OnErr};
ghost use Rattle.gr_rules.specs.Outcomes.{gives, wrong};
ghost use Rattle.gr_rules.specs.Goroutines.{ready, ToSend, ToReceive};
ghost use Rattle.gr_code.specs.CodeViews.{program_code_of};
ghost use Rattle.gr_code.specs.Goroutines.{arrived, parked, retried, CanCount, IsMet};
ghost use Rattle.gr_goros.specs.Growing.{MayGrow};
ghost use Rattle.gr_goros.specs.Undoing.{IsLive, Undoes};
ghost use Rattle.gr_goros.specs.Views.{arrival_of, waits_of, CanHalt, halted};

use crate::frame::Frame;
use crate::goroutine::Goroutine;
use crate::undo::{Former, FrameUndo, GoUndo, Met, Spot};
use crate::wait::{Status, Wait};
use gr_base::{ChName, NoMemory, Value};
use gr_code::code::Code;
use std::alloc::Global;
use std::mem;

/// What arrives at a goroutine for its instruction.
#[derive(Drop)]
pub enum Arrival {
    /// The value of `len` or `cap`.
    Value(Value),
    /// The channel that it made.
    Channel(Value),
    /// The end of its `close`.
    Completion,
    /// The goroutine that it started.
    Child,
    /// The end of its own communication: of the clause of its select with this number, counted from 1, with what a receive
    /// got and whether that was sent.
    Passes {
        clause: Option<u32>,
        got: Option<(Value, bool)>,
    },
    /// The end of its communication by a step of its partner.
    IsMet {
        clause: Option<u32>,
        got: Option<(Value, bool)>,
    },
}

/// How a goroutine comes to an end.
#[derive(Clone, Copy, PartialEq, Eq)]
pub enum Halt {
    /// It returns from its outermost frame, or ends the program.
    Finished,
    /// It stops the program.
    Faulted,
}

impl Goroutine {
    /// Goes on past its instruction with what arrives. It takes no memory for the end of a `close`, nor for a goroutine that it
    /// started. Refused, nothing has changed.
    #[inline(always)]
    pub fn deliver(
        &mut self,
        alloc: Global,
        code: &Code,
        arrival: Arrival,
    ) -> Result<GoUndo, NoMemory>
        requires right { ¬ (arrived (program_code_of code.now) (arrival_of arrival) self.old.content ≡ wrong) }
        requires counted { CanCount (arrival_of arrival) self.old.content }
        ensures after { IfOk result (λ _. arrived (program_code_of code.now) (arrival_of arrival) self.old.content
            ≡ gives self.new.content) }
        ensures undone { IfOk result (λ undo. Undoes undo self.old self.new) }
        ensures memory { OnErr result (MayGrow (arrival_of arrival)) }
        ensures err { OnErr result (self.new ≡ self.old) }
    {
        let instruction = self.top.instruction(code);
        match arrival {
            Arrival::Value(value) => {
                let undo = self.top.resume(alloc, instruction, value)?;
                self.steps += 1;
                Ok(GoUndo::Went(self.top.kept_function(), undo))
            }
            Arrival::Channel(value) => {
                let undo = self.top.resume(alloc, instruction, value)?;
                self.steps += 1;
                self.channels += 1;
                Ok(GoUndo::Made(self.top.kept_function(), undo))
            }
            Arrival::Completion => {
                let spot = self.top.complete(instruction);
                self.steps += 1;
                let undo = FrameUndo {
                    number: spot.number,
                    cells: Former::Same,
                };
                Ok(GoUndo::Went(spot.function, undo))
            }
            Arrival::Child => {
                let spot = self.top.complete(instruction);
                self.steps += 1;
                self.children += 1;
                Ok(GoUndo::Began(spot))
            }
            Arrival::Passes { clause, got } => {
                let undo = self.top.pass(alloc, instruction, clause, got)?;
                self.steps += 1;
                Ok(GoUndo::Went(self.top.kept_function(), undo))
            }
            Arrival::IsMet { clause, got } => self.be_met(alloc, code, clause, got),
        }
    }

    /// Goes on past its communication by a step of its partner. Refused, nothing has changed.
    #[inline(always)]
    fn be_met(
        &mut self,
        alloc: Global,
        code: &Code,
        clause: Option<u32>,
        got: Option<(Value, bool)>,
    ) -> Result<GoUndo, NoMemory>
        requires right { ¬ (arrived (program_code_of code.now) (IsMet clause got) self.old.content ≡ wrong) }
        requires counted { CanCount (IsMet clause got) self.old.content }
        ensures after { IfOk result (λ _. arrived (program_code_of code.now) (IsMet clause got) self.old.content
            ≡ gives self.new.content) }
        ensures undone { IfOk result (λ undo. Undoes undo self.old self.new) }
        ensures err { OnErr result (self.new ≡ self.old) }
    {
        let instruction = self.top.instruction(code);
        let mut met = Box::new(
            alloc,
            Met {
                status: Status::Ready,
                function: self.top.kept_function(),
                frame: FrameUndo {
                    number: self.top.kept_pc(),
                    cells: Former::Same,
                },
            },
        )?;
        met.frame = self.top.pass(alloc, instruction, clause, got)?;
        met.status = mem::replace(&mut self.status, Status::Ready);
        Ok(GoUndo::Met(met))
    }

    /// Begins to wait, for one of these.
    pub fn park(&mut self, waits: Box<Vec<Wait>>) -> GoUndo
        requires waiting { self.old.content.status ≡ ready }
        requires counted { self.old.content.steps + 1 < 2 ^ 64 }
        ensures after { self.new.content ≡ parked (waits_of waits.value.items) self.old.content }
        ensures undone { Undoes result self.old self.new }
    {
        self.status = Status::Waiting(waits);
        self.steps += 1;
        GoUndo::Parked(self.top.spot())
    }

    /// Begins to wait to send on a channel, and for nothing else. It answers where its innermost frame stands.
    pub fn park_to_send(&mut self, channel: ChName) -> Spot
        requires waiting { self.old.content.status ≡ ready }
        requires counted { self.old.content.steps + 1 < 2 ^ 64 }
        ensures after { self.new.content ≡ parked (ToSend channel None ∷ []) self.old.content }
        ensures undone { Undoes (GoUndo.Parked result) self.old self.new }
    {
        self.status = Status::Sending(channel);
        self.steps += 1;
        self.top.spot()
    }

    /// Begins to wait to receive from a channel, and for nothing else. It answers where its innermost frame stands.
    pub fn park_to_receive(&mut self, channel: ChName) -> Spot
        requires waiting { self.old.content.status ≡ ready }
        requires counted { self.old.content.steps + 1 < 2 ^ 64 }
        ensures after { self.new.content ≡ parked (ToReceive channel None ∷ []) self.old.content }
        ensures undone { Undoes (GoUndo.Parked result) self.old self.new }
    {
        self.status = Status::Receiving(channel);
        self.steps += 1;
        self.top.spot()
    }

    /// Comes to an end: from its outermost frame, or by a fault, which takes no memory. Refused, nothing has changed.
    pub fn halt(&mut self, alloc: Global, how: Halt) -> Result<GoUndo, NoMemory>
        requires at_the_end { CanHalt how self.old.content }
        requires counted { self.old.content.steps + 1 < 2 ^ 64 }
        ensures after { IfOk result (λ _. self.new.content ≡ halted how self.old.content) }
        ensures undone { IfOk result (λ undo. Undoes undo self.old self.new) }
        ensures memory { OnErr result (how ≡ Halt.Finished) }
        ensures err { OnErr result (self.new ≡ self.old) }
    {
        match how {
            Halt::Finished => {
                let mut kept = Box::new(alloc, Frame::unseen(alloc))?;
                *kept = mem::replace(&mut self.top, Frame::unseen(alloc));
                self.status = Status::Finished;
                self.steps += 1;
                Ok(GoUndo::Finished(kept))
            }
            Halt::Faulted => {
                self.steps += 1;
                Ok(GoUndo::Faulted(self.top.spot()))
            }
        }
    }

    /// Is ready at its instruction again.
    pub fn retry(&mut self) -> GoUndo
        requires { IsLive self.old.content }
        ensures after { self.new.content ≡ retried self.old.content }
        ensures undone { Undoes result self.old self.new }
    {
        GoUndo::Retried(mem::replace(&mut self.status, Status::Ready))
    }
}
