//! The schedules of a program in which no goroutine waits before the step comes that ends the wait. Laws, each on a function that
//! does nothing.
#![tactic(auto)]

ghost use Rattle.std.specs.Prelude.{◌≡◌, List, [], ◌∷◌, Some};
ghost use Rattle.std.specs.List.{flat_map};
ghost use Rattle.gr_base.specs.declared.events.Event.{Event};
ghost use Rattle.gr_program.specs.Programs.{Program};
ghost use Rattle.gr_rules.specs.States.{State};
ghost use Rattle.gr_laws.specs.Reached.{Reached};
ghost use Rattle.gr_record.specs.Running.{IsChecked};
ghost use Rattle.gr_search.specs.System as system;
ghost use Rattle.gr_search.specs.System.{Laws, Runs, IsSafe};
ghost use Rattle.gr_search.specs.Late.{IsWait, WaitLaws, late_next, PutsOff, CanPutOff};
ghost use Rattle.gr_schedules.specs.Schedules.{Origin, NoneEndsBadly, schedules, state_after};
ghost use Rattle.gr_late.specs.Sides.{OneSided};
ghost use Rattle.gr_late.specs.Waiting.{is_waiting, late_schedules};

/// In a checked program waits are as they should be. So the schedules in which none waits too early meet the laws of systems that
/// are searched. Their runs are runs of the program, and what is bad in them is bad in the program. Where each wait can be put off,
/// none of them ends badly only where no run of the program does.
pub fn law_of_waiting()
    ensures waits { (o : Origin) → IsChecked o.program → WaitLaws (schedules o) is_waiting }
    ensures laws { (o : Origin) → IsChecked o.program → Laws (late_schedules o) }
    ensures runs { (o : Origin) (s t : State) (es : List (List Event)) → Runs (late_schedules o) s es t
        → Runs (schedules o) s (flat_map (λ e. e) es) t }
    ensures found { (o : Origin) → IsSafe (schedules o) → IsSafe (late_schedules o) }
    ensures safe { (o : Origin) → IsChecked o.program → CanPutOff (schedules o) is_waiting → IsSafe (late_schedules o)
        → NoneEndsBadly o.program (state_after o.program o.before) }
{}

/// In every state that a run reaches, a goroutine that waits to send on a channel and one that waits to receive from it are one: it
/// waits in a select for both. So no two goroutines wait that could meet.
pub fn law_of_sides()
    ensures { (p : Program) (t : State) → Reached p t → OneSided t }
{}

/// A goroutine that waits need not have come before the next step of another, if that step is no wait. Either the step ends the
/// wait, and the two are taken as one. Or the step goes as well before the wait, and the goroutine waits after it.
pub fn law_of_one_step()
    ensures { (o : Origin) (s m t : State) (w e : Event) → IsChecked o.program → system.Reached (schedules o) s
        → IsWait (schedules o) is_waiting s w m → late_next (schedules o) is_waiting m (e ∷ []) ≡ Some t
        → PutsOff (schedules o) is_waiting s w t }
{}
