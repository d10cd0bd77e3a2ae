//! The step that a command asks for.

ghost use Rattle.std.specs.Prelude.{◌≡◌, IfOk, option_copied};
ghost use Rattle.gr_program.specs.Programs.{Program};
ghost use Rattle.gr_session.specs.Journal.{World};
ghost use Rattle.gr_session.specs.Targets.{step_asked};
ghost use Rattle.gr_session.specs.Debuggees.{Stands, IsDebuggee};

use crate::debuggee::Debuggee;
use gr_base::{NoMemory, StepId};
use gr_command::Target;
use gr_rollback::{law_of_assignments, law_of_history};
use std::alloc::Global;

/// The step that is asked for, as the log has it or as it is named.
fn step_asked_for<'a>(debuggee: &'a Debuggee, target: &'a Target) -> Option<&'a StepId>
    requires { IsDebuggee debuggee.now }
    ensures { (p : Program) → (w : World p) → Stands p w debuggee.now → option_copied result ≡ step_asked p w.log target.now }
{
    // brings the laws to the prover
    law_of_history();
    law_of_assignments();
    let log = debuggee.machine.log();
    match target {
        Target::Step(id) => Some(id),
        Target::Start(go) => log.started(go),
        Target::Send { channel, number } => log.sent(channel, u64::from(*number)),
        Target::Receive { channel, number } => log.received(channel, u64::from(*number)),
        Target::Variable { go, name } => {
            let store = debuggee.machine.store();
            log.assigned(store.program(), store.code(), go, name.as_slice())
        }
    }
}

/// The name of the step that is asked for, if there is one.
pub(crate) fn find(
    alloc: Global,
    debuggee: &Debuggee,
    target: &Target,
) -> Result<Option<StepId>, NoMemory>
    requires { IsDebuggee debuggee.now }
    ensures { IfOk result (λ id. (p : Program) → (w : World p) → Stands p w debuggee.now → id ≡ step_asked p w.log target.now) }
{
    match step_asked_for(debuggee, target) {
        Some(id) => Ok(Some(id.copy(alloc)?)),
        None => Ok(None),
    }
}
