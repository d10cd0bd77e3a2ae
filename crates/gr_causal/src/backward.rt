//! Trips that only go back: which step can go back, and that a rollback takes back no more than it must.

ghost use Rattle.std.specs.Prelude.{◌≡◌, ℕ, ◌≤◌, List, length, reverse, ◌↔◌, ◌⊎◌};
ghost use Rattle.gr_causal.specs.Sequences.{In, Distinct, IsAt};
ghost use Rattle.gr_causal.specs.Dependence.{dependents, kept, Depends, IsClosedPart};
ghost use Rattle.gr_causal.specs.Machine.{ForEveryMachine, StepOf, conflict};
ghost use Rattle.gr_causal.specs.Trips.{taking_back, IsLogFrom, LeadsFrom, TripFrom};
ghost use Rattle.gr_causal.specs.Trips.Move.{back};

/// A step of a log can go back exactly where no step of the log depends on it. After a trip back, a step that is left can go
/// back exactly where all that depended on it is gone. 'Only if' is causal safety, and 'if' is causal liveness. It is the same
/// whether one asks for what depended on it directly, or for all its dependents.
pub fn free_steps_go_back<O, C, S, E, N>()
    ensures free { ForEveryMachine O C S E N (λ M. (s : M.State) (log : List (StepOf M)) (r : StepOf M)
        → Distinct log → In r log
        → ((next : List (StepOf M)) × LeadsFrom M s log (back r) next)
        ↔ ((b : StepOf M) → ¬ Depends (conflict M) log b r)) }
    ensures gone { ForEveryMachine O C S E N (λ M. (s : M.State) (log gone left : List (StepOf M)) (r : StepOf M)
        → Distinct log → TripFrom M s log (taking_back gone) left → In r left
        → ((next : List (StepOf M)) × LeadsFrom M s left (back r) next)
        ↔ ((b : StepOf M) → Depends (conflict M) log b r → In b gone)) }
    ensures all_gone { ForEveryMachine O C S E N (λ M. (s : M.State) (log gone left : List (StepOf M)) (i : ℕ) (r : StepOf M)
        → Distinct log → IsAt log i r → TripFrom M s log (taking_back gone) left → In r left
        → ((next : List (StepOf M)) × LeadsFrom M s left (back r) next)
        ↔ ((b : StepOf M) → In b (dependents (conflict M) log i) → (b ≡ r) ⊎ In b gone)) }
{}

/// Taking back the dependents of a step, from the last to the first, is a trip. It ends at the log of the kept steps. Each trip
/// back after which the step is gone takes back each of its dependents, and so at least as many steps.
pub fn rollback_is_minimal<O, C, S, E, N>()
    ensures trip { ForEveryMachine O C S E N (λ M. (s : M.State) (log : List (StepOf M)) (i : ℕ)
        → let gone = dependents (conflict M) log i in
        IsLogFrom M s log → TripFrom M s log (taking_back (reverse gone)) (kept (conflict M) log i)) }
    ensures each { ForEveryMachine O C S E N (λ M. (s : M.State) (log gone left : List (StepOf M)) (i : ℕ) (x : StepOf M)
        → Distinct log → IsAt log i x → TripFrom M s log (taking_back gone) left → ¬ In x left
        → (r : StepOf M) → In r (dependents (conflict M) log i) → In r gone) }
    ensures fewest { ForEveryMachine O C S E N (λ M. (s : M.State) (log gone left : List (StepOf M)) (i : ℕ) (x : StepOf M)
        → Distinct log → IsAt log i x → TripFrom M s log (taking_back gone) left → ¬ In x left
        → length (dependents (conflict M) log i) ≤ length gone) }
{}

/// What a rollback keeps has with each step also what it depends on, and is without the step. It has every other such part of
/// the log, so it is the largest.
pub fn kept_is_largest<O, C, S, E, N>()
    ensures part { ForEveryMachine O C S E N (λ M. (log : List (StepOf M)) (i : ℕ) (x : StepOf M)
        → let stay = kept (conflict M) log i in
        Distinct log → IsAt log i x
        → IsClosedPart (λ a b. Depends (conflict M) log a b) log stay × (¬ In x stay)) }
    ensures largest { ForEveryMachine O C S E N (λ M. (log part : List (StepOf M)) (i : ℕ) (x : StepOf M)
        → Distinct log → IsAt log i x
        → IsClosedPart (λ a b. Depends (conflict M) log a b) log part → ¬ In x part
        → (r : StepOf M) → In r part → In r (kept (conflict M) log i)) }
{}
