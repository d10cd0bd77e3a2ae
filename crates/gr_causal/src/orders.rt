//! Orders of a log that respect dependence.

ghost use Rattle.std.specs.Prelude.{◌≡◌, List, ◌∷◌, ◌++◌, Bool, true, false, map, ◌↔◌};
ghost use Rattle.gr_causal.specs.Sequences.{Distinct, Rearranges};
ghost use Rattle.gr_causal.specs.Orders.{IsOrder, Swaps};
ghost use Rattle.gr_causal.specs.Machine.{ForEveryMachine, StepOf, IsLog, conflict};
ghost use Rattle.gr_causal.specs.OrderByNames.{ordered, NamesEach, FirstToChange};
ghost use Rattle.gr_causal.specs.OrderByNames.Ordered.{accepted, other_steps, broken};

/// Neighbours in a log that do not conflict can be swapped. The log then leads to the same state, with the same notes and
/// saved contents.
pub fn neighbours_swap<O, C, S, E, N>()
    ensures { ForEveryMachine O C S E N (λ M.
        (s t : M.State) (front back : List (StepOf M)) (a b : StepOf M)
        → conflict M a b ≡ false
        → IsLog M s (front ++ a ∷ b ∷ back) t
        → IsLog M s (front ++ b ∷ a ∷ back) t) }
{}

/// An order respects dependence exactly when swaps of neighbours that do not conflict reach it.
pub fn orders_are_swaps<T>()
    ensures { (clash : T → T → Bool) (old new : List T)
        → Distinct old → (IsOrder clash old new ↔ Swaps clash old new) }
{}

/// Every order of a log that respects dependence replays to the same state, each step with its old note and saved
/// contents.
pub fn orders_replay_alike<O, C, S, E, N>()
    ensures { ForEveryMachine O C S E N (λ M. (s t : M.State) (old new : List (StepOf M))
        → IsLog M s old t → Distinct old → IsOrder (conflict M) old new
        → IsLog M s new t) }
{}

/// The test of an order that is given by names of steps. It accepts exactly the orders that respect dependence. It answers
/// 'other steps' exactly where the names are not those of the log, each once. Otherwise it names two steps. The second is the
/// first step of the given order that comes before a conflicting step which is earlier in the log. The first is the earliest
/// such step of the log. The steps of the log need names of their own.
pub fn order_by_names<T, N>()
    ensures accepts { (clash : T → T → Bool) (name : T → N) (same : N → N → Bool)
        → ((m n : N) → (same m n ≡ true) ↔ (m ≡ n))
        → (old : List T) (names : List N) → Distinct (map name old)
        → (new : List T)
        → (ordered clash name same names old ≡ accepted new)
        ↔ (IsOrder clash old new × (map name new ≡ names)) }
    ensures refuses { (clash : T → T → Bool) (name : T → N) (same : N → N → Bool)
        → ((m n : N) → (same m n ≡ true) ↔ (m ≡ n))
        → (old : List T) (names : List N) → Distinct (map name old)
        → (ordered clash name same names old ≡ other_steps) ↔ (¬ NamesEach name old names) }
    ensures breaks { (clash : T → T → Bool) (name : T → N) (same : N → N → Bool)
        → ((m n : N) → (same m n ≡ true) ↔ (m ≡ n))
        → (old : List T) (names : List N) → Distinct (map name old)
        → (x y : T)
        → (ordered clash name same names old ≡ broken x y)
        ↔ ((new : List T) × (map name new ≡ names)
        × Rearranges old new × FirstToChange clash old new x y) }
{}
