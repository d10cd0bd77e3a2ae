//! Taking steps back with all that depends on them, and taking them again.

ghost use Rattle.std.specs.Prelude.{◌≡◌, ℕ, List, [], ◌∷◌, ◌++◌, false};
ghost use Rattle.gr_causal.specs.Sequences.{In, Distinct};
ghost use Rattle.gr_causal.specs.Dependence.{dependents, kept, Depends, IsClosedPart, AreTheOthers};
ghost use Rattle.gr_causal.specs.Orders.{IsOrder};
ghost use Rattle.gr_causal.specs.Machine.{ForEveryMachine, StepOf, IsLog, conflict, undo};

/// Taking back the last step leaves the replay of the log before it. From there the step can be taken again.
pub fn last_step_goes_back<O, C, S, E, N>()
    ensures others { ForEveryMachine O C S E N (λ M. (s t : M.State) (log : List (StepOf M)) (r : StepOf M)
        → IsLog M s (log ++ r ∷ []) t
        → IsLog M s log (undo M.put t (r ∷ []))) }
    ensures again { ForEveryMachine O C S E N (λ M. (s t : M.State) (log : List (StepOf M)) (r : StepOf M)
        → IsLog M s (log ++ r ∷ []) t
        → IsLog M (undo M.put t (r ∷ [])) (r ∷ []) t) }
{}

/// Taking back the dependents of a step, from the last to the first, leaves the replay of the kept steps.
pub fn rollback_leaves_the_kept<O, C, S, E, N>()
    ensures { ForEveryMachine O C S E N (λ M. (s t : M.State) (log : List (StepOf M)) (i : ℕ)
        → IsLog M s log t
        → IsLog M s (kept (conflict M) log i) (undo M.put t (dependents (conflict M) log i))) }
{}

/// Each dependent is taken back in a state in which it ended. When those behind it, `gone`, are back, its record is that of a
/// step from the state without it to the state with it.
pub fn rollback_meets_each_step<O, C, S, E, N>()
    ensures { ForEveryMachine O C S E N (λ M.
        (s t : M.State) (log left gone : List (StepOf M)) (r : StepOf M) (i : ℕ)
        → IsLog M s log t
        → dependents (conflict M) log i ≡ left ++ r ∷ gone
        → IsLog M (undo M.put t (r ∷ gone)) (r ∷ []) (undo M.put t gone)) }
{}

/// The kept steps followed by the dependents are an order of the log that respects dependence.
pub fn kept_then_dependents_is_an_order<O, C, S, E, N>()
    ensures { ForEveryMachine O C S E N (λ M. (log : List (StepOf M)) (i : ℕ)
        → let gone = dependents (conflict M) log i in
        Distinct log → IsOrder (conflict M) log (kept (conflict M) log i ++ gone)) }
{}

/// After a rollback the dependents can be taken again in their old order. They have their old notes and saved contents, and
/// lead to the state from before the rollback.
pub fn redo_restores_the_state<O, C, S, E, N>()
    ensures again { ForEveryMachine O C S E N (λ M. (s t : M.State) (log : List (StepOf M)) (i : ℕ)
        → let gone = dependents (conflict M) log i in
        IsLog M s log t → IsLog M (undo M.put t gone) gone t) }
    ensures whole { ForEveryMachine O C S E N (λ M. (s t : M.State) (log : List (StepOf M)) (i : ℕ)
        → let gone = dependents (conflict M) log i in
        IsLog M s log t → IsLog M s (kept (conflict M) log i ++ gone) t) }
{}

/// A step can be taken back from the middle of a log if no later step conflicts with it. What it touched stands as it left
/// it, and taking it back leaves the replay of the others. From there the step goes again to the state in which it was taken
/// back, with its old note and saved contents.
pub fn middle_step_goes_back<O, C, S, E, N>()
    ensures stands { ForEveryMachine O C S E N (λ M.
        (s t u : M.State) (front back : List (StepOf M)) (r : StepOf M)
        → IsLog M s (front ++ r ∷ []) t
        → IsLog M s (front ++ r ∷ back) u
        → ((b : StepOf M) → In b back → conflict M r b ≡ false)
        → (o : M.Object) → In o (M.touches r.note) → M.look u o ≡ M.look t o) }
    ensures others { ForEveryMachine O C S E N (λ M.
        (s u : M.State) (front back : List (StepOf M)) (r : StepOf M)
        → IsLog M s (front ++ r ∷ back) u
        → ((b : StepOf M) → In b back → conflict M r b ≡ false)
        → IsLog M s (front ++ back) (undo M.put u (r ∷ []))) }
    ensures again { ForEveryMachine O C S E N (λ M.
        (s u : M.State) (front back : List (StepOf M)) (r : StepOf M)
        → IsLog M s (front ++ r ∷ back) u
        → ((b : StepOf M) → In b back → conflict M r b ≡ false)
        → IsLog M (undo M.put u (r ∷ [])) (r ∷ []) u) }
{}

/// Any closed set of steps can go back, and not only the dependents of one step. A set is closed if each later step that
/// conflicts with one of its steps is in it. The others followed by the set are an order of the log that respects dependence.
/// Taking the set back, from its last step to its first, leaves the replay of the others. From there the set can be taken
/// again.
pub fn closed_parts_go_back<O, C, S, E, N>()
    ensures order { ForEveryMachine O C S E N (λ M. (log gone stay : List (StepOf M))
        → Distinct log
        → IsClosedPart (λ a b. Depends (conflict M) log b a) log gone
        → AreTheOthers log gone stay
        → IsOrder (conflict M) log (stay ++ gone)) }
    ensures others { ForEveryMachine O C S E N (λ M. (s t : M.State) (log gone stay : List (StepOf M))
        → IsLog M s log t → Distinct log
        → IsClosedPart (λ a b. Depends (conflict M) log b a) log gone
        → AreTheOthers log gone stay
        → IsLog M s stay (undo M.put t gone)) }
    ensures again { ForEveryMachine O C S E N (λ M. (s t : M.State) (log gone stay : List (StepOf M))
        → IsLog M s log t → Distinct log
        → IsClosedPart (λ a b. Depends (conflict M) log b a) log gone
        → AreTheOthers log gone stay
        → IsLog M (undo M.put t gone) gone t) }
{}

/// A rollback may stop on its way. The dependents taken back so far, the last ones, are closed, so what is left is the replay
/// of all other steps.
pub fn rollback_may_stop<O, C, S, E, N>()
    ensures closed { ForEveryMachine O C S E N (λ M. (log left gone : List (StepOf M)) (i : ℕ)
        → Distinct log → dependents (conflict M) log i ≡ left ++ gone
        → IsClosedPart (λ a b. Depends (conflict M) log b a) log gone) }
    ensures others { ForEveryMachine O C S E N (λ M. (s t : M.State) (log left gone stay : List (StepOf M)) (i : ℕ)
        → IsLog M s log t → Distinct log → dependents (conflict M) log i ≡ left ++ gone
        → AreTheOthers log gone stay
        → IsLog M s stay (undo M.put t gone)) }
{}
