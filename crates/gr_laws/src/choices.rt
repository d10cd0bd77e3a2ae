//! Which choice a step has.

ghost use Rattle.std.specs.Prelude.{◌≡◌, ◌⊎◌, ℕ, Some};
ghost use Rattle.gr_base.specs.declared.events.Choice.TheVariants.{Pick};
ghost use Rattle.gr_base.specs.declared.events.Event.{Event};
ghost use Rattle.gr_program.specs.Programs.{Program};
ghost use Rattle.gr_rules.specs.States.{State};
ghost use Rattle.gr_rules.specs.Steps.{machine};
ghost use Rattle.gr_rules.specs.Tells.{usual_choice};

/// A step has the usual choice of its goroutine, or picks a clause of a select. So a goroutine and perhaps the number of a clause
/// tell each step that is possible.
pub fn law_of_choices()
    ensures { (p : Program) (s t : State) (e : Event) (n : (machine p).Note)
        → (machine p).step s e ≡ Some (t, n)
        → (e.choice ≡ usual_choice p s e.go) ⊎ ((i : ℕ) × (e.choice ≡ Pick i)) }
{}
