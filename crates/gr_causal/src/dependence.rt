//! What depends on a step, and what it depends on.

ghost use Rattle.std.specs.Prelude.{◌≡◌, ℕ, List, Bool, true, map, ◌↔◌};
ghost use Rattle.gr_causal.specs.Sequences.{Distinct, IsAt};
ghost use Rattle.gr_causal.specs.Dependence.{dependents, kept, causes, Depends, IsLeastClosed, AreTheOthers};

/// One pass over the log collects the least closed set of steps that depend on a step, itself included. It leaves the other
/// steps. Both lists are in log order.
pub fn dependents_are_least<T>()
    ensures least { (clash : T → T → Bool) (log : List T) (i : ℕ) (x : T)
        → Distinct log → IsAt log i x
        → IsLeastClosed (λ a b. Depends clash log b a) log x (dependents clash log i) }
    ensures others { (clash : T → T → Bool) (log : List T) (i : ℕ)
        → Distinct log → AreTheOthers log (dependents clash log i) (kept clash log i) }
{}

/// One pass from the end of the log collects the least closed set of steps that a step depends on, itself included. The list
/// is in log order. It needs that conflicts are mutual.
pub fn causes_are_least<T>()
    ensures { (clash : T → T → Bool)
        → ((a b : T) → clash a b ≡ true → clash b a ≡ true)
        → (log : List T) (i : ℕ) (x : T) → Distinct log → IsAt log i x
        → IsLeastClosed (λ a b. Depends clash log a b) log x (causes clash log i) }
{}

/// In a log whose steps have names of their own, just one list meets the definition of a step's dependents. The same holds of
/// its causes, and of the other steps. So a program may find them in any way.
pub fn dependence_is_unique<T, N>()
    ensures dependents { (clash : T → T → Bool) (name : T → N) (same : N → N → Bool)
        → ((m n : N) → (same m n ≡ true) ↔ (m ≡ n))
        → (log : List T) (x : T) (some more : List T) → Distinct (map name log)
        → IsLeastClosed (λ a b. Depends clash log b a) log x some
        → IsLeastClosed (λ a b. Depends clash log b a) log x more
        → some ≡ more }
    ensures causes { (clash : T → T → Bool) (name : T → N) (same : N → N → Bool)
        → ((m n : N) → (same m n ≡ true) ↔ (m ≡ n))
        → (log : List T) (x : T) (some more : List T) → Distinct (map name log)
        → IsLeastClosed (λ a b. Depends clash log a b) log x some
        → IsLeastClosed (λ a b. Depends clash log a b) log x more
        → some ≡ more }
    ensures others { (log gone some more : List T) → Distinct log
        → AreTheOthers log gone some → AreTheOthers log gone more
        → some ≡ more }
{}
