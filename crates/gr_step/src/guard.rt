//! Goroutines that are there in a program that runs, and those that can take a step.

ghost use Rattle.std.specs.Prelude.{◌≡◌, Some, IfOk, IfErr, OnErr};
ghost use Rattle.gr_step.specs.Guard.{IsNumberOf, IsReady, IsThere, IsUp, IsRefusedFor};
ghost use Rattle.gr_step.specs.Objects.{contents_in};

use crate::objects::{Objects, Run};
use crate::refusal::StepRefused;
use gr_base::GoName;
use gr_goros::{Goroutine, Status};

/// A goroutine that is ready, and its number.
#[derive(Clone, Copy)]
pub(crate) struct Ready<'a> {
    pub(crate) number: usize,
    pub(crate) goroutine: &'a Goroutine,
}

impl Objects {
    /// The number of a goroutine, if the program runs and the goroutine is there.
    #[inline(always)]
    pub(crate) fn number_of(&self, go: &GoName) -> Result<usize, StepRefused>
        ensures ok { IfOk result (IsNumberOf go.now self.now) }
        ensures why { IfErr result (IsRefusedFor go.now self.now) }
        ensures none { OnErr result (¬ IsThere (contents_in self.now) go.now) }
    {
        let Run::Live = self.run else {
            return Err(StepRefused::Over);
        };
        match self.goroutines.number(go) {
            Some(number) => Ok(number),
            None => Err(StepRefused::NotThere),
        }
    }

    /// The goroutine of a name, if the program runs and the goroutine is there and is ready.
    #[inline]
    pub(crate) fn ready_goroutine(&self, go: &GoName) -> Result<Ready<'_>, StepRefused>
        ensures ok { IfOk result (λ r. IsReady go.now self.now r.number r.goroutine.now.content) }
        ensures why { IfErr result (IsRefusedFor go.now self.now) }
        ensures none { OnErr result (¬ IsUp (contents_in self.now) go.now) }
    {
        let number = self.number_of(go)?;
        let goroutine = self.goroutines.at(number);
        match goroutine.status() {
            Status::Ready => Ok(Ready { number, goroutine }),
            Status::Sending(_) | Status::Receiving(_) | Status::Waiting(_) => {
                Err(StepRefused::Waits)
            }
            Status::Finished => Err(StepRefused::Done),
        }
    }
}
