//! Why steps are not taken, as replies tell it.

ghost use Rattle.std.specs.Prelude.{◌≡◌};
ghost use Rattle.gr_session.specs.Refusing.{SaysNoStep, Refuses, memory_of};

use crate::debuggee::Debuggee;
use crate::journal::Memory;
use gr_command::{Refusal, Reply};
use gr_rollback::{LOG_LIMIT, StepRefused};

/// Why a step that the rules allow is not kept: the log has no room for it, or else it is out of memory.
pub(crate) fn unkept(debuggee: &Debuggee) -> Refusal
    ensures { SaysNoStep debuggee.now result }
{
    if debuggee.machine.log().len() >= LOG_LIMIT {
        return Refusal::LogFull;
    }
    Refusal::NoMemory
}

/// Why a step that the machine refuses is not kept.
pub(crate) fn told(debuggee: &Debuggee, why: StepRefused) -> Refusal
    ensures { Refuses debuggee.now why result }
{
    match why {
        StepRefused::Over => Refusal::Ended,
        StepRefused::NotThere => Refusal::NotThere,
        StepRefused::Done => Refusal::Done,
        StepRefused::Waits => Refusal::Waits,
        StepRefused::NoChoice => Refusal::NoChoice,
        StepRefused::NoMemory => unkept(debuggee),
    }
}

/// The answer for a command that was not carried out.
pub(crate) fn refused(why: Refusal) -> (Memory, Reply)
    ensures { result ≡ (memory_of why, Reply.Refused why) }
{
    match why {
        Refusal::NoMemory => (Memory::EnoughFor(0), Reply::Refused(why)),
        _ => (Memory::Enough, Reply::Refused(why)),
    }
}
