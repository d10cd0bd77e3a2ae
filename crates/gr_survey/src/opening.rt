//! From a source and a script to a machine that stands where the script leaves it.

ghost use Rattle.std.specs.Prelude.{◌≡◌, IfOk, IfErr};
ghost use Rattle.gr_survey.specs.Surveys.{IsAfter, SaysWhyNot};

use crate::script::{ScriptFault, follow};
use gr_rollback::Machine;
use gr_session::{OpenError, Session};
use std::alloc::Global;

/// Why nothing was surveyed.
#[derive(Clone, Copy)]
pub enum SurveyFault {
    /// The source was not opened.
    Open(OpenError),
    /// The line of the script with this number, from 1, is no command, or its command is refused.
    Line(usize),
    /// A growth was refused.
    Memory,
}

/// The machine of the program of a source, after the commands of a script.
pub(crate) fn open_after(
    alloc: Global,
    source: &[u8],
    script: &[u8],
) -> Result<Machine, SurveyFault>
    ensures after { IfOk result (IsAfter source.now script.now) }
    ensures why { IfErr result (SaysWhyNot source.now script.now) }
{
    let mut session = match Session::open(alloc, source) {
        Ok(session) => session,
        Err(error) => return Err(SurveyFault::Open(error)),
    };
    let Ok(desk) = session.enrol() else {
        return Err(SurveyFault::Memory);
    };
    match follow(alloc, &mut session, desk, script) {
        Ok(()) => Ok(session.into_machine()),
        Err(ScriptFault::Refused(line)) => Err(SurveyFault::Line(line)),
        Err(ScriptFault::Memory) => Err(SurveyFault::Memory),
    }
}
