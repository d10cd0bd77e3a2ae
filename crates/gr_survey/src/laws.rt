//! What the commands of a schedule ask for.

ghost use Rattle.std.specs.Prelude.{◌≡◌, Some};
ghost use Rattle.gr_base.specs.declared.events.Event.{Event};
ghost use Rattle.gr_program.specs.Programs.{Program};
ghost use Rattle.gr_rules.specs.States.{State};
ghost use Rattle.gr_laws.specs.Reached.{Reached};
ghost use Rattle.gr_record.specs.Running.{IsChecked};
ghost use Rattle.gr_schedules.specs.Schedules.{next_state};
ghost use Rattle.gr_session.specs.Journal.{event_asked};
ghost use Rattle.gr_survey.specs.StepTexts.{clause_in};

use gr_schedules::law_of_events;

/// The command that is written for a step of a run asks for just that step, where the step is taken: of its goroutine, with the
/// clause that it picks, if it picks one.
pub fn law_of_written_steps()
    ensures { (p : Program) (s t : State) (e : Event) → IsChecked p → Reached p s → next_state p s e ≡ Some t
        → event_asked p s e.go (clause_in e.choice) ≡ e }
{
    // brings the law to the prover
    law_of_events();
}
