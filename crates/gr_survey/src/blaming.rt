//! Which step of the run of a script is to blame that no schedule ends well any more.

ghost use Rattle.std.specs.Prelude.{◌≡◌, ◌<◌, IfOk, IfErr, length, ℕ};
ghost use Rattle.gr_rollback.specs.Machines.{steps_of};
ghost use Rattle.gr_survey.specs.Blames.{IsNamed, IsBlaming};
ghost use Rattle.gr_survey.specs.Surveys.{SaysWhyNot};

use crate::opening::{SurveyFault, open_after};
use gr_base::{NoMemory, StepId};
use gr_explore::{Blame, Limits, Span, find_blame};
use gr_rollback::Machine;
use std::alloc::Global;

/// Which step is to blame.
#[derive(Drop)]
pub enum Blamed {
    /// No step: some schedule ends well from where the script leaves the program.
    Nobody,
    /// No step of the script: no schedule of the program ends well.
    Beginning,
    /// This step: before it some schedule ends well, and after it none does.
    Step(StepId),
    /// A limit was met.
    Between(Span),
}

/// The step that is to blame, by its name.
fn named(alloc: Global, machine: &Machine, blame: Blame) -> Result<Blamed, NoMemory>
    requires { (n : ℕ) → blame ≡ Blame.Step n → n < length (steps_of machine.now) }
    ensures { IfOk result (IsNamed (steps_of machine.now) blame) }
{
    match blame {
        Blame::Nobody => Ok(Blamed::Nobody),
        Blame::Beginning => Ok(Blamed::Beginning),
        Blame::Between(span) => Ok(Blamed::Between(span)),
        Blame::Step(place) => {
            let Some(step) = machine.log().as_slice().get(place) else {
                unreachable!()
            };
            let id = step.id.copy(alloc)?;
            Ok(Blamed::Step(id))
        }
    }
}

/// Finds the first step of the run of a script after which no schedule of the program ends well any more. A run ends well where the
/// program has ended, without a fault. The steps are those that the script leaves in the log.
///
/// It searches after some of the steps, halving their number, and each of these searches has the limits for itself. With `Between` a
/// limit was met.
pub fn blame(
    alloc: Global,
    source: &[u8],
    script: &[u8],
    limits: &Limits,
) -> Result<Blamed, SurveyFault>
    ensures blamed { IfOk result (IsBlaming source.now script.now) }
    ensures why { IfErr result (SaysWhyNot source.now script.now) }
{
    let mut machine = open_after(alloc, source, script)?;
    match find_blame(alloc, &mut machine, limits) {
        Ok(blame) => match named(alloc, &machine, blame) {
            Ok(blamed) => Ok(blamed),
            Err(NoMemory) => Err(SurveyFault::Memory),
        },
        Err(limit) => Ok(Blamed::Between(Span {
            limit,
            well: None,
            lost: None,
        })),
    }
}
