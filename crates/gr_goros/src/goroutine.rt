//! Goroutines of code.

ghost use Rattle.std.specs.Prelude.{◌≡◌, length, slice_get, option_copied, IfOk};
ghost use Rattle.gr_rules.specs.Outcomes.{wrong};
ghost use Rattle.gr_code.specs.CodeFrames.{entered};
ghost use Rattle.gr_code.specs.CodeViews.{program_code_of};
ghost use Rattle.gr_code.specs.Goroutines.{line_in};
ghost use Rattle.gr_goros.specs.Views.{lines_of, status_of, IsStarted};

use crate::frame::Frame;
use crate::wait::Status;
use gr_base::{NoMemory, Value};
use gr_code::code::Code;
use std::alloc::Global;
use std::marker::Model;

/// The content of a goroutine. Each change of it can be undone.
pub struct Goroutine {
    pub(crate) status: Status,
    /// The innermost frame. Where the goroutine is finished, a frame that no view shows.
    pub(crate) top: Frame,
    /// The frames below it, the outermost first.
    pub(crate) below: Vec<Frame>,
    pub(crate) steps: u64,
    pub(crate) children: u32,
    pub(crate) channels: u32,
    pub(crate) text: Vec<Vec<u8>>,
}

// Written out, so that crates above call it and need not prove it again.
impl Drop for Goroutine {
    fn drop(self) {
        let Goroutine {
            status: _,
            top: _,
            below: _,
            steps: _,
            children: _,
            channels: _,
            text: _,
        } = self;
    }
}

impl Model for Goroutine {
    ghost use Rattle.std.specs.Prelude.{◌-◌, vec_len, vec_capacity};
    ghost use Rattle.gr_goros.specs.Views.{Seen, status_of, lines_of, frames_of, HasNoneBelow};

    ghost Value = { Seen };

    ghost view = { λ g. record {
      content = record {
        status = status_of g.status;
        frames = frames_of (status_of g.status) g.top g.below.items;
        steps = g.steps;
        children = g.children;
        channels = g.channels;
        text = lines_of g.text.items;
      };
      room = vec_capacity g.below - vec_len g.below;
    } };

    ghost invariant = { λ g. HasNoneBelow (status_of g.status) g.below.items };
}

impl Goroutine {
    /// A goroutine before its first step, in the function with a number, whose parameters have these values.
    pub fn start(
        alloc: Global,
        code: &Code,
        function: u32,
        arguments: Vec<Value>,
    ) -> Result<Goroutine, NoMemory>
        requires { ¬ (entered (program_code_of code.now) function arguments.items ≡ wrong) }
        ensures { IfOk result (λ g. IsStarted (entered (program_code_of code.now) function arguments.items) g.content) }
    {
        let top = Frame::enter(alloc, code, function, arguments)?;
        Ok(Goroutine {
            status: Status::Ready,
            top,
            below: Vec::new(alloc),
            steps: 0,
            children: 0,
            channels: 0,
            text: Vec::new(alloc),
        })
    }

    /// What it does next.
    pub fn status(&self) -> &Status
        ensures { status_of result.now ≡ self.now.content.status }
    {
        &self.status
    }

    /// How many steps it took.
    pub fn steps(&self) -> u64
        ensures { result ≡ self.now.content.steps }
    {
        self.steps
    }

    /// How many goroutines it started.
    pub fn children(&self) -> u32
        ensures { result ≡ self.now.content.children }
    {
        self.children
    }

    /// How many channels it made.
    pub fn channels(&self) -> u32
        ensures { result ≡ self.now.content.channels }
    {
        self.channels
    }

    /// The lines that it printed.
    pub fn text(&self) -> &[Vec<u8>]
        ensures { lines_of result.now ≡ self.now.content.text }
    {
        self.text.as_slice()
    }

    /// The frame with a number, counted from 0 and from the innermost one.
    pub fn frame(&self, number: usize) -> Option<&Frame>
        ensures { option_copied result ≡ slice_get self.now.content.frames number }
    {
        if let Status::Finished = self.status {
            return None;
        }
        match number.checked_sub(1) {
            None => Some(&self.top),
            Some(behind) => self.below.iter().rev().nth(behind),
        }
    }

    /// The line on which the statement of its next instruction begins.
    pub fn line(&self, code: &Code) -> usize
        requires { ¬ (line_in (program_code_of code.now) self.now.content.frames ≡ None) }
        ensures { line_in (program_code_of code.now) self.now.content.frames ≡ Some result }
    {
        self.top.line(code)
    }
}
