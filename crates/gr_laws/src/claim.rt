//! What is claimed of a step that is taken back from a run.

ghost use Rattle.std.specs.Prelude.{◌≡◌, ℕ, List, [], ◌∷◌, ◌++◌};
ghost use Rattle.gr_causal.specs.Sequences.{IsAt};
ghost use Rattle.gr_causal.specs.Dependence.{AreTheOthers, dependents, kept};
ghost use Rattle.gr_causal.specs.Machine.{undo};
ghost use Rattle.gr_program.specs.Programs.{Program};
ghost use Rattle.gr_rules.specs.States.{State, put};
ghost use Rattle.gr_laws.specs.Claim.{GoesWithAll, GoesInPart};
ghost use Rattle.gr_laws.specs.Dependence.{clash};
ghost use Rattle.gr_laws.specs.Reached.{Logged, IsRun};

/// A step that is taken back goes with exactly the steps that depend on it, directly or over other steps. No way back takes the
/// step and leaves one of them. The last step goes alone. Where a rollback stops on its way, the last of these steps are gone,
/// and the step itself stays. In each case all other steps are left, in their order. Their run leads to the state in which what
/// the gone steps wrote is put back. So does every order of them that respects dependence.
pub fn law_of_undone_steps()
    ensures last { (p : Program) (t : State) (log : List (Logged p)) (x : Logged p)
        → IsRun p (log ++ x ∷ []) t
        → GoesWithAll p (log ++ x ∷ []) x (x ∷ []) log (undo put t (x ∷ [])) }
    ensures all { (p : Program) (t : State) (log : List (Logged p)) (i : ℕ) (x : Logged p)
        → let gone = dependents (clash p) log i in
        IsRun p log t → IsAt log i x
        → GoesWithAll p log x gone (kept (clash p) log i) (undo put t gone) }
    ensures some { (p : Program) (t : State) (log front gone left : List (Logged p)) (i : ℕ) (x : Logged p)
        → IsRun p log t → IsAt log i x
        → dependents (clash p) log i ≡ front ++ gone → ¬ (front ≡ [])
        → AreTheOthers log gone left
        → GoesInPart p log x gone left (undo put t gone) }
{}
