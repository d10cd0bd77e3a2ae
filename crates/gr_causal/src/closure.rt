//! Dependents and causes of a step as reflexive transitive closures.

ghost use Rattle.std.specs.Prelude.{◌≡◌, ℕ, List, Bool, true, ◌↔◌};
ghost use Rattle.gr_causal.specs.Sequences.{In, Distinct, IsAt};
ghost use Rattle.gr_causal.specs.Dependence.{dependents, causes, Depends};
ghost use Rattle.gr_causal.specs.Closure.{Reaches};

/// The steps that one pass over the log collects are exactly those that direct dependence reaches from a step. These are the
/// step itself, what depends on it, what depends on that, and so on.
pub fn dependents_are_reached<T>()
    ensures { (clash : T → T → Bool) (log : List T) (i : ℕ) (x : T)
        → Distinct log → IsAt log i x
        → (r : T) → In r (dependents clash log i) ↔ Reaches (λ a b. Depends clash log b a) x r }
{}

/// The steps that one pass from the end of the log collects are exactly those that dependence reaches backwards. These are the
/// step itself, what it depends on, what that depends on, and so on. It needs that conflicts are mutual.
pub fn causes_are_reached<T>()
    ensures { (clash : T → T → Bool)
        → ((a b : T) → clash a b ≡ true → clash b a ≡ true)
        → (log : List T) (i : ℕ) (x : T) → Distinct log → IsAt log i x
        → (r : T) → In r (causes clash log i) ↔ Reaches (λ a b. Depends clash log a b) x r }
{}
