//! The texts of what replies show: values, waiters, steps, frames and goroutines.

ghost use Rattle.std.specs.Prelude.{◌≡◌};
ghost use Rattle.gr_command.specs.Texts.{status_text};
ghost use Rattle.gr_command.specs.Replies.{status_in};

use crate::pieces::{EachSpaced, Written, put, put_three, put_two};
use crate::reply::{FrameShown, GoroutineShown, Status};
use gr_base::{
    GoName, Kind, NoMemory, StepId, Value, print_go, print_kind, print_step, print_value,
};
use gr_channels::Waiter;

impl Written for Value {
    ghost use Rattle.gr_base.specs.Values.{value_text};

    ghost text_of = { value_text };

    fn put_into(&self, text: &mut Vec<u8>) -> Result<(), NoMemory> {
        print_value(text, self)
    }
}

impl Written for GoName {
    ghost use Rattle.gr_base.specs.Names.{go_text};

    ghost text_of = { go_text };

    fn put_into(&self, text: &mut Vec<u8>) -> Result<(), NoMemory> {
        print_go(text, self)
    }
}

impl Written for StepId {
    ghost use Rattle.gr_base.specs.Names.{step_text};

    ghost text_of = { step_text };

    fn put_into(&self, text: &mut Vec<u8>) -> Result<(), NoMemory> {
        print_step(text, self)
    }
}

impl Written for Kind {
    ghost use Rattle.gr_base.specs.Kinds.{kind_text};

    ghost text_of = { kind_text };

    fn put_into(&self, text: &mut Vec<u8>) -> Result<(), NoMemory> {
        print_kind(text, *self)
    }
}

impl Written for (StepId, Kind) {
    ghost use Rattle.gr_command.specs.Texts.{taken_text};

    ghost text_of = { taken_text };

    fn put_into(&self, text: &mut Vec<u8>) -> Result<(), NoMemory> {
        put_three(text, &self.0, b" ", &self.1)
    }
}

impl Written for (&StepId, &Kind) {
    ghost use Rattle.gr_command.specs.Texts.{taken_text};

    ghost text_of = { λ step. taken_text (step.0.now, step.1.now) };

    fn put_into(&self, text: &mut Vec<u8>) -> Result<(), NoMemory> {
        put_three(text, self.0, b" ", self.1)
    }
}

impl Written for (&StepId, &StepId) {
    ghost use Rattle.gr_command.specs.Texts.{pair_text};

    ghost text_of = { λ steps. pair_text steps.0.now steps.1.now };

    fn put_into(&self, text: &mut Vec<u8>) -> Result<(), NoMemory> {
        put_three(text, self.0, b" ", self.1)
    }
}

/// The clause that waits, if there is one.
#[derive(Drop)]
struct Clause(Option<u32>);

impl Written for Clause {
    ghost use Rattle.gr_command.specs.Texts.{clause_text};

    ghost text_of = { λ clause. clause_text clause.0 };

    fn put_into(&self, text: &mut Vec<u8>) -> Result<(), NoMemory> {
        match self.0 {
            Some(case) => put_two(text, b"@", &case),
            None => Ok(()),
        }
    }
}

impl Written for Waiter<()> {
    ghost use Rattle.gr_command.specs.Texts.{waiter_text};

    ghost text_of = { waiter_text };

    fn put_into(&self, text: &mut Vec<u8>) -> Result<(), NoMemory> {
        put_two(text, &self.go, &Clause(self.case))
    }
}

impl Written for Waiter<Value> {
    ghost use Rattle.gr_command.specs.Texts.{sender_text};

    ghost text_of = { sender_text };

    fn put_into(&self, text: &mut Vec<u8>) -> Result<(), NoMemory> {
        put_two(text, &self.go, &Clause(self.case))?;
        put_two(text, b"=", &self.value)
    }
}

impl Written for (Vec<u8>, Value) {
    ghost use Rattle.gr_command.specs.Texts.{variable_text};
    ghost use Rattle.gr_command.specs.Replies.{variable_in};

    ghost text_of = { λ variable. variable_text (variable_in variable) };

    fn put_into(&self, text: &mut Vec<u8>) -> Result<(), NoMemory> {
        put_three(text, &self.0, b"=", &self.1)
    }
}

impl Written for FrameShown {
    ghost use Rattle.gr_command.specs.Texts.{frame_text};
    ghost use Rattle.gr_command.specs.Replies.{frame_in};

    ghost text_of = { λ frame. frame_text (frame_in frame) };

    fn put_into(&self, text: &mut Vec<u8>) -> Result<(), NoMemory> {
        put_two(text, &self.function, &EachSpaced(self.variables.as_slice()))
    }
}

/// A status as it stands between a name and a count of steps.
fn status_word(status: Status) -> &'static [u8]
    ensures { result.now ≡ status_text (status_in status) }
{
    match status {
        Status::Ready => b" ready ",
        Status::Waiting => b" waiting ",
        Status::Done => b" done ",
    }
}

impl Written for Status {
    ghost use Rattle.gr_command.specs.Texts.{status_text};
    ghost use Rattle.gr_command.specs.Replies.{status_in};

    ghost text_of = { λ status. status_text (status_in status) };

    fn put_into(&self, text: &mut Vec<u8>) -> Result<(), NoMemory> {
        put(text, status_word(*self))
    }
}

/// The line of the next step, if there is one.
#[derive(Drop)]
struct NextLine(Option<usize>);

impl Written for NextLine {
    ghost use Rattle.gr_command.specs.Texts.{line_text};

    ghost text_of = { λ line. line_text line.0 };

    fn put_into(&self, text: &mut Vec<u8>) -> Result<(), NoMemory> {
        match self.0 {
            Some(line) => put_two(text, b" line ", &(line as u64)),
            None => Ok(()),
        }
    }
}

impl Written for GoroutineShown {
    ghost use Rattle.gr_command.specs.Texts.{goroutine_text};
    ghost use Rattle.gr_command.specs.Replies.{goroutine_in};

    ghost text_of = { λ g. goroutine_text g.go (goroutine_in g) };

    fn put_into(&self, text: &mut Vec<u8>) -> Result<(), NoMemory> {
        self.go.put_into(text)?;
        put_three(text, &self.status, &self.steps, &NextLine(self.line))
    }
}
