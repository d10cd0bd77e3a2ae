//! How a run ends badly.

ghost use Rattle.std.specs.Prelude.{◌≡◌};
ghost use Rattle.gr_survey.specs.Schedules.{EndsAs, sought};
ghost use Rattle.gr_schedules.specs.declared.Aim.TheVariants.{EndsBadlyOrLeaks};
ghost use Rattle.gr_schedules.specs.Aims.{IsAim};
ghost use Rattle.gr_explore.specs.Exploring.{state_seen};

use gr_base::Fault;
use gr_explore::Aim;
use gr_rollback::{Machine, Run};

/// Which ends of a run are bad.
#[derive(Clone, Copy)]
pub enum BadEnds {
    /// A deadlock and a fault.
    WithoutLeaks,
    /// These, and an end that leaves goroutines of which some wait and none is ready.
    WithLeaks,
}

/// What is looked for.
pub(crate) fn aim_of(bad: BadEnds) -> Aim
    ensures { result ≡ sought bad }
{
    match bad {
        BadEnds::WithoutLeaks => Aim::EndsBadly,
        BadEnds::WithLeaks => Aim::EndsBadlyOrLeaks,
    }
}

/// How a run ends badly.
#[derive(Clone, Copy)]
pub enum BadEnd {
    /// The program runs, and no goroutine is ready.
    Stuck,
    /// A fault stopped the program.
    Fault(Fault),
    /// The program has ended. Of the goroutines that are left some wait, and none is ready.
    Leak,
}

/// How the run ended badly that led to where the machine stands.
pub(crate) fn bad_end(machine: &Machine) -> BadEnd
    requires { IsAim EndsBadlyOrLeaks (state_seen machine.now) }
    ensures { EndsAs (state_seen machine.now) result }
{
    match machine.store().run() {
        Run::Faulted(fault) => BadEnd::Fault(fault),
        Run::Live => BadEnd::Stuck,
        Run::Ended => BadEnd::Leak,
    }
}
