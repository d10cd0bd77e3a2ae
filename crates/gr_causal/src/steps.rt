//! Steps of machines and their logs: rules make machines, conflicts, one step taken back, and names of steps.

ghost use Rattle.std.specs.Prelude.{◌≡◌, ℕ, ◌<◌, Some, List, [], ◌∷◌, ◌++◌, true, map, ◌↔◌, ◌⊎◌};
ghost use Rattle.gr_causal.specs.Sequences.{In, Distinct, Before};
ghost use Rattle.gr_causal.specs.Machine.{ForEveryMachine, Laws, StepOf, IsLog, conflict, undo, saved_of};
ghost use Rattle.gr_causal.specs.Rules.{ForEveryRulebook, machine_of};
ghost use Rattle.gr_causal.specs.StepNames.{CountsSteps, name_of};

/// A machine that steps by rules meets the laws, whatever the rules. Only what is written changes. A step that is possible in
/// one state is possible in every state that agrees on what it touches, with the same note and the same contents written. It
/// requires that a state is its contents, and that putting a cell changes the content of its object alone.
pub fn rules_make_a_machine<O, C, S, E, K>()
    ensures { ForEveryRulebook O C S E K (λ B. Laws (machine_of B)) }
{}

/// Two steps conflict exactly where some object is written by one and touched by the other.
pub fn conflict_is_a_common_object<O, C, S, E, N>()
    ensures { ForEveryMachine O C S E N (λ M. (a b : StepOf M)
        → (conflict M a b ≡ true)
        ↔ ((o : M.Object)
        × ((In o (M.writes a.note) × In o (M.touches b.note))
        ⊎ (In o (M.writes b.note) × In o (M.touches a.note))))) }
{}

/// A log of two parts is a log of the first part, and from its end a log of the second. The converse holds too. A log from a
/// state has just one end. A step that is possible is a log.
pub fn logs_split_and_join<O, C, S, E, N>()
    ensures split { ForEveryMachine O C S E N (λ M. (s t : M.State) (front back : List (StepOf M))
        → IsLog M s (front ++ back) t
        → (m : M.State) × IsLog M s front m × IsLog M m back t) }
    ensures join { ForEveryMachine O C S E N (λ M. (s m t : M.State) (front back : List (StepOf M))
        → IsLog M s front m → IsLog M m back t → IsLog M s (front ++ back) t) }
    ensures one_end { ForEveryMachine O C S E N (λ M. (s t u : M.State) (log : List (StepOf M))
        → IsLog M s log t → IsLog M s log u → t ≡ u) }
    ensures one_step { ForEveryMachine O C S E N (λ M. (s t : M.State) (e : M.Event) (n : M.Note)
        → M.step s e ≡ Some (t, n)
        → let saved = saved_of M s (M.writes n) in
        IsLog M s (record { event = e; note = n; saved = saved } ∷ []) t) }
{}

/// A record of a step from `s` to `t` can be taken back in any state `u`. That gives `u` with the contents of `s` at what the
/// step wrote. If what the step touched stands in `u` as the step left it, its event leads from there to `u` again, with the
/// same note and saved contents.
pub fn one_step_is_taken_back<O, C, S, E, N>()
    ensures saved { ForEveryMachine O C S E N (λ M. (s t u : M.State) (r : StepOf M)
        → IsLog M s (r ∷ []) t
        → (o : M.Object) → In o (M.writes r.note)
        → M.look (undo M.put u (r ∷ [])) o ≡ M.look s o) }
    ensures others { ForEveryMachine O C S E N (λ M. (s t u : M.State) (r : StepOf M)
        → IsLog M s (r ∷ []) t
        → (o : M.Object) → ¬ In o (M.writes r.note)
        → M.look (undo M.put u (r ∷ [])) o ≡ M.look u o) }
    ensures again { ForEveryMachine O C S E N (λ M. (s t u : M.State) (r : StepOf M)
        → IsLog M s (r ∷ []) t
        → ((o : M.Object) → In o (M.touches r.note) → M.look u o ≡ M.look t o)
        → IsLog M (undo M.put u (r ∷ [])) (r ∷ []) u) }
{}

/// If each step notes its owner's count of steps, no two steps of a log have the same owner and ordinal. The ordinals of an
/// owner then rise along the log.
pub fn names_are_distinct<O, C, S, E, N, Owner>()
    ensures distinct { ForEveryMachine O C S E N (λ M.
        (owner : M.Event → Owner) (ordinal : M.Note → ℕ) (count : M.State → Owner → ℕ)
        → CountsSteps M owner ordinal count
        → (s t : M.State) (log : List (StepOf M)) → IsLog M s log t
        → Distinct (map (name_of M owner ordinal) log)) }
    ensures rising { ForEveryMachine O C S E N (λ M.
        (owner : M.Event → Owner) (ordinal : M.Note → ℕ) (count : M.State → Owner → ℕ)
        → CountsSteps M owner ordinal count
        → (s t : M.State) (log : List (StepOf M)) → IsLog M s log t
        → (a b : StepOf M) → Before log a b → owner a.event ≡ owner b.event
        → ordinal a.note < ordinal b.note) }
{}
