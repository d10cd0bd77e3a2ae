//! Moves forth and back between logs, and trips of many moves: causal consistency.
//!
//! A configuration is a log up to swaps of neighbours that do not conflict. The theorems have the names of the axioms and
//! properties of Lanese, Phillips and Ulidowski, "An axiomatic approach to reversible computation" (2020).

ghost use Rattle.std.specs.Prelude.{◌≡◌, ℕ, suc, ◌+◌, ◌≤◌, List, [], ◌∷◌, ◌++◌, false, length, ◌↔◌, ◌⊎◌};
ghost use Rattle.gr_causal.specs.Sequences.{In};
ghost use Rattle.gr_causal.specs.Orders.{Swaps};
ghost use Rattle.gr_causal.specs.Machine.{ForEveryMachine, StepOf, IsLog, conflict};
ghost use Rattle.gr_causal.specs.Trips.{Move, reversed, taking, taking_back, Independent};
ghost use Rattle.gr_causal.specs.Trips.{IsLogFrom, LeadsFrom, TripFrom, EquivalentFrom, Changes};
ghost use Rattle.gr_causal.specs.Trips.Move.{forth, back};

/// Each move from a log leads to a log, and its reverse leads back (loop lemma). A move leads to one configuration, and does
/// not depend on the order in which the log has steps that do not conflict. A step can be taken back exactly where no later
/// step of the log conflicts with it, and that leaves the other steps.
pub fn moves_go_both_ways<O, C, S, E, N>()
    ensures there { ForEveryMachine O C S E N (λ M. (s : M.State) (log next : List (StepOf M)) (m : Move (StepOf M))
        → IsLogFrom M s log → LeadsFrom M s log m next → IsLogFrom M s next) }
    ensures back { ForEveryMachine O C S E N (λ M. (s : M.State) (log next : List (StepOf M)) (m : Move (StepOf M))
        → IsLogFrom M s log → LeadsFrom M s log m next → LeadsFrom M s next (reversed m) log) }
    ensures one_end { ForEveryMachine O C S E N (λ M. (s : M.State) (log next other : List (StepOf M)) (m : Move (StepOf M))
        → LeadsFrom M s log m next
        → (LeadsFrom M s log m other ↔ Swaps (conflict M) next other)) }
    ensures swapped { ForEveryMachine O C S E N (λ M. (s : M.State) (log other next : List (StepOf M)) (m : Move (StepOf M))
        → Swaps (conflict M) log other → LeadsFrom M s log m next → LeadsFrom M s other m next) }
    ensures free { ForEveryMachine O C S E N (λ M. (s : M.State) (log next : List (StepOf M)) (r : StepOf M)
        → LeadsFrom M s log (back r) next
        ↔ ((before after : List (StepOf M)) × (log ≡ before ++ r ∷ after)
        × ((b : StepOf M) → In b after → conflict M r b ≡ false)
        × Swaps (conflict M) (before ++ after) next)) }
{}

/// Two independent moves from one log, forth or back, are one move or close to a square. In a square each can be made after
/// the other, and both ways lead to the same configuration (square property). Neighbouring moves of a trip that are independent
/// close to a square too, unless the second takes back what the first did. The sides of a square are independent, unless they
/// are one move or each other's reverse (independence of diamonds). Independence is mutual, and goes by the steps alone. So it
/// is the same at opposite sides of a square, and for the reverse of a move.
pub fn independent_moves_close_squares<O, C, S, E, N>()
    ensures square { ForEveryMachine O C S E N (λ M. (s : M.State) (log one two : List (StepOf M)) (m n : Move (StepOf M))
        → LeadsFrom M s log m one → LeadsFrom M s log n two → Independent (conflict M) m n
        → ((m ≡ n) × Swaps (conflict M) one two)
        ⊎ ((corner : List (StepOf M)) × LeadsFrom M s one n corner × LeadsFrom M s two m corner)) }
    ensures neighbours { ForEveryMachine O C S E N (λ M. (s : M.State) (log one corner : List (StepOf M)) (m n : Move (StepOf M))
        → IsLogFrom M s log
        → LeadsFrom M s log m one → LeadsFrom M s one n corner → Independent (conflict M) m n
        → ((n ≡ reversed m) × Swaps (conflict M) log corner)
        ⊎ ((two : List (StepOf M)) × LeadsFrom M s log n two × LeadsFrom M s two m corner)) }
    ensures diamond { ForEveryMachine O C S E N (λ M. (s : M.State) (log one two corner : List (StepOf M)) (m n : Move (StepOf M))
        → LeadsFrom M s log m one → LeadsFrom M s log n two → LeadsFrom M s one n corner → LeadsFrom M s two m corner
        → (m ≡ n) ⊎ ((n ≡ reversed m) ⊎ Independent (conflict M) m n)) }
    ensures symmetric { ForEveryMachine O C S E N (λ M. (m n : Move (StepOf M))
        → Independent (conflict M) m n
        → Independent (conflict M) n m × Independent (conflict M) (reversed m) n) }
{}

/// Two moves back from one log are the same, or independent (backward transitions are independent). A move back makes a log
/// shorter by one step, so no trip goes back for ever (well-foundedness).
pub fn moves_back_are_independent<O, C, S, E, N>()
    ensures apart { ForEveryMachine O C S E N (λ M. (s : M.State) (log one two : List (StepOf M)) (a b : StepOf M)
        → LeadsFrom M s log (back a) one → LeadsFrom M s log (back b) two
        → ((a ≡ b) × Swaps (conflict M) one two) ⊎ Independent (conflict M) (back a) (back b)) }
    ensures shorter { ForEveryMachine O C S E N (λ M. (s : M.State) (log next : List (StepOf M)) (r : StepOf M)
        → LeadsFrom M s log (back r) next → length log ≡ suc (length next)) }
{}

/// A trip changes states as it changes logs. It leads to a log of the machine, and the state after the trip is the end of
/// that log. Moves back put back what their steps saved, and nothing is replayed.
pub fn trips_change_states<O, C, S, E, N>()
    ensures log { ForEveryMachine O C S E N (λ M. (s : M.State) (log next : List (StepOf M)) (ms : List (Move (StepOf M)))
        → IsLogFrom M s log → TripFrom M s log ms next → IsLogFrom M s next) }
    ensures state { ForEveryMachine O C S E N (λ M.
        (s t u : M.State) (log next : List (StepOf M)) (ms : List (Move (StepOf M)))
        → IsLog M s log t → TripFrom M s log ms next
        → (IsLog M s next u ↔ Changes M t ms u)) }
{}

/// Each trip is causally equivalent to one that first goes back, and then forth. That trip is no longer than the first
/// (parabolic lemma).
pub fn trips_can_go_back_first<O, C, S, E, N>()
    ensures { ForEveryMachine O C S E N (λ M. (s : M.State) (log next : List (StepOf M)) (ms : List (Move (StepOf M)))
        → IsLogFrom M s log → TripFrom M s log ms next
        → (gone taken : List (StepOf M))
        × (length gone + length taken ≤ length ms)
        × EquivalentFrom M s log ms (taking_back gone ++ taking taken)) }
{}

/// Two trips from one log are causally equivalent exactly where they end in the same configuration (causal consistency).
pub fn equivalent_trips_end_alike<O, C, S, E, N>()
    ensures { ForEveryMachine O C S E N (λ M.
        (s : M.State) (log one two : List (StepOf M)) (ms ns : List (Move (StepOf M)))
        → IsLogFrom M s log → TripFrom M s log ms one → TripFrom M s log ns two
        → (EquivalentFrom M s log ms ns ↔ Swaps (conflict M) one two)) }
{}
