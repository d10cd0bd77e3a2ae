//! What a goroutine may still do with a channel, and which goroutines wait for ever. Laws, each on a function that does nothing.
#![tactic(auto)]

ghost use Rattle.std.specs.Prelude.{◌≡◌, ℕ, true, List, []};
ghost use Rattle.gr_base.specs.declared.names.ChName.{ChName};
ghost use Rattle.gr_causal.specs.Sequences.{In};
ghost use Rattle.gr_causal.specs.Machine.{IsLog};
ghost use Rattle.gr_program.specs.Programs.{Program};
ghost use Rattle.gr_rules.specs.Goroutines.{Wait, channel_of};
ghost use Rattle.gr_rules.specs.States.{State};
ghost use Rattle.gr_rules.specs.Steps.{machine};
ghost use Rattle.gr_rules.specs.Touches.{waits_at};
ghost use Rattle.gr_laws.specs.Reached.{Logged, Reached};
ghost use Rattle.gr_may.specs.Uses.{Use, Usage};
ghost use Rattle.gr_may.specs.Covers.{Covers, wish};
ghost use Rattle.gr_may.specs.MayStill.{MayStill, Starts, UsesSo};
ghost use Rattle.gr_may.specs.Dead.{IsDead};
ghost use Rattle.gr_may.specs.Example.{leaks, leaked, made, reader};

/// What a goroutine may still do only shrinks along a run: bounds that cover a state cover each that a run leads to. A use of a
/// channel that it leaves out is made in no run from the state, by no step of the goroutine or of what it starts. Nor does one of
/// them wait for it.
pub fn law_of_uses()
    ensures covers { (p : Program) (s t : State) (usage : Usage) (steps : List (Logged p))
        → Reached p s → IsLog (machine p) s steps t → Covers p usage s → Covers p usage t }
    ensures steps { (p : Program) (s t : State) (steps : List (Logged p)) (r : Logged p) (n : List ℕ) (c : ChName) (u : Use)
        → Reached p s → IsLog (machine p) s steps t → In r steps → Starts s n r.event.go → UsesSo p r c u → MayStill p s n c u }
    ensures waits { (p : Program) (s t : State) (steps : List (Logged p)) (n m : List ℕ) (w : Wait)
        → Reached p s → IsLog (machine p) s steps t → Starts s n m → In w (waits_at (t.goroutines m))
        → MayStill p s n (channel_of w) (wish w) }
{}

/// A goroutine of a set of those that wait and that only members may serve steps again in no run from the state. It stays as it is,
/// and in such a set. Any two such goroutines are in one such set, so all of them are.
pub fn law_of_the_dead()
    ensures steps { (p : Program) (s t : State) (steps : List (Logged p)) (r : Logged p) (n : List ℕ)
        → Reached p s → IsDead p s n → IsLog (machine p) s steps t → In r steps → ¬ (r.event.go ≡ n) }
    ensures stays { (p : Program) (s t : State) (steps : List (Logged p)) (n : List ℕ)
        → Reached p s → IsDead p s n → IsLog (machine p) s steps t → t.goroutines n ≡ s.goroutines n }
    ensures remains { (p : Program) (s t : State) (steps : List (Logged p)) (n : List ℕ)
        → Reached p s → IsDead p s n → IsLog (machine p) s steps t → IsDead p t n }
    ensures together { (p : Program) (s : State) (m n : List ℕ) → IsDead p s m → IsDead p s n
        → (d : IsDead p s m) × (d.dead n ≡ true) }
{}

/// A worked example. `main` has started a reader, and goes on without the channel. It may still do nothing with the channel, and
/// the reader waits for ever.
pub fn example_of_the_dead()
    ensures left_out { (u : Use) → ¬ MayStill leaks leaked [] made u }
    ensures dead { IsDead leaks leaked reader }
{}
