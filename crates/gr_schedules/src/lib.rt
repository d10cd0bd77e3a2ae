//! All schedules of a program: what is looked for in a state, which events are tried there, and which bytes are its key. Laws,
//! each on a function that does nothing.
#![tactic(auto)]

ghost use Rattle.std.specs.Prelude.{◌≡◌, ◌∷◌, ◌++◌, [], List, ℕ, Some, true, map};
ghost use Rattle.gr_base.specs.declared.events.Event.{Event};
ghost use Rattle.gr_causal.specs.Sequences.{In};
ghost use Rattle.gr_causal.specs.Machine.{IsLog};
ghost use Rattle.gr_program.specs.Programs.{Program};
ghost use Rattle.gr_rules.specs.States.{State, start};
ghost use Rattle.gr_rules.specs.Steps.{machine};
ghost use Rattle.gr_laws.specs.Reached.{Logged, IsRun, Reached};
ghost use Rattle.gr_refine.specs.Contents.{Contents};
ghost use Rattle.gr_record.specs.declared.record.Record.{Record};
ghost use Rattle.gr_record.specs.Kept.{Kept};
ghost use Rattle.gr_record.specs.Listings.{state_in};
ghost use Rattle.gr_record.specs.Running.{IsChecked};
ghost use Rattle.gr_search.specs.System.{Laws, IsSafe, Leads};
ghost use Rattle.gr_search.specs.Bounds.{HasBad, IsSafeWithin};
ghost use Rattle.gr_schedules.specs.Schedules.{Origin, NoneEndsBadly, next_state, schedules, state_after};
ghost use Rattle.gr_schedules.specs.Aims.{NoneComes, NoneComesWithin, SomeComesBy, schedules_to};
ghost use Rattle.gr_schedules.specs.declared.Aim.{Aim as AimSought};
ghost use Rattle.gr_schedules.specs.Names.{AreAll, goroutines_begun, channels_made};
ghost use Rattle.gr_schedules.specs.Choices.{choices_of, can_act};
ghost use Rattle.gr_schedules.specs.Keys.{IsKey};
ghost use Rattle.gr_schedules.specs.Matters.{Matter};

/// What is looked for in a state.
#[derive(Clone, Copy)]
pub enum Aim {
    /// A run ends badly there: by a fault, or stuck.
    EndsBadly,
    /// A run ends well there: the program has ended, without a fault.
    EndsWell,
    /// A run ends badly there, or the program has ended and leaves goroutines of which some wait and none is ready.
    EndsBadlyOrLeaks,
}

/// The schedules of a checked program meet the laws of systems that are searched: a local step may be taken alone, since no other
/// step hinders it or depends on when it comes. Where the search finds no bad state, no run of the program from there ends badly.
pub fn law_of_schedules()
    ensures laws { (o : Origin) → IsChecked o.program → Laws (schedules o) }
    ensures safe { (o : Origin) → IsSafe (schedules o) → NoneEndsBadly o.program (state_after o.program o.before) }
{}

/// The same for each aim: where the search finds nothing, no run of the program from there comes to the aim. Where it finds
/// nothing within a number of steps, none of at most so many does. Where no run comes to the aim, none does after a step more.
pub fn law_of_aims()
    ensures laws { (aim : AimSought) (o : Origin) → IsChecked o.program → Laws (schedules_to aim o) }
    ensures safe { (aim : AimSought) (o : Origin) → IsSafe (schedules_to aim o)
        → NoneComes aim o.program (state_after o.program o.before) }
    ensures within { (aim : AimSought) (o : Origin) (n : ℕ) → IsSafeWithin (schedules_to aim o) n
        → NoneComesWithin aim o.program n (state_after o.program o.before) }
    ensures found { (aim : AimSought) (o : Origin) (n : ℕ) → HasBad (schedules_to aim o) n
        → SomeComesBy aim o.program n (state_after o.program o.before) }
    ensures lost { (aim : AimSought) (p : Program) (s t : State) (steps : List (Logged p)) → IsLog (machine p) s steps t
        → NoneComes aim p s → NoneComes aim p t }
{}

/// A key tells what matters of a state.
pub fn law_of_keys()
    ensures { (p : Program) (key : List ℕ) (m n : Matter) → IsKey p key m → IsKey p key n → m ≡ n }
{}

/// In a state that a run of a checked program reaches, each event that is possible is a choice of a goroutine that can act: the
/// usual one, or to pick a clause that is ready.
pub fn law_of_events()
    ensures { (p : Program) (s t : State) (e : Event) → IsChecked p → Reached p s → next_state p s e ≡ Some t
        → (can_act s e.go ≡ true) × In e (choices_of p s e.go) }
{}

/// Each goroutine that is there but that of `main` was started by a step of the log, and each channel was made by one.
pub fn law_of_names()
    ensures { (p : Program) (begins s : Contents) (records : List Record) (log : List (Logged p))
        → state_in p begins ≡ start p → Kept p begins records log s
        → AreAll s ([] ∷ goroutines_begun records) (channels_made records) }
{}
