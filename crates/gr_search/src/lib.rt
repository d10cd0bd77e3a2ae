//! A search of all runs of a machine for bad states. The machine steps forward and back in place, so no state is copied and no run
//! is replayed. What is kept of a state is a key of what matters of it.
#![tactic(auto)]

ghost use Rattle.std.specs.Prelude.{◌≡◌, ◌↔◌, ℕ, Bool, true, List, Option};
ghost use Rattle.std.specs.List.{flat_map};
ghost use Rattle.gr_search.specs.System.{Laws, Closed, Reached, Runs, IsSafe, tested};
ghost use Rattle.gr_search.specs.Late.{late, WaitLaws, CanPutOff, CanGo, EndLaws, Listed, WaitsForBad, WaitsToEnd};
ghost use Rattle.gr_search.specs.Meetings.{Act, meetings, is_waiting};

pub mod bounded;
pub mod key;
pub mod search;
pub mod searched;
pub mod shortest;

/// Where a set of keys is closed up to events that are taken alone, no run reaches a bad state. Here a test tells which are bad.
pub fn law_of_closed_sets<S, E, K>()
    ensures { (start : S) (next : S → E → Option S) (bad : S → Bool) (alone : S → E → Bool) (key : S → K) (V : K → Bool)
        → Laws (tested start next bad alone key) → Closed (tested start next bad alone key) (λ k. V k ≡ true)
        → IsSafe (tested start next bad alone key) }
{}

/// A system in which events wait for others, and its reduction, in which nobody waits before the event comes that ends the wait.
/// Where waits are as they should be, the reduction meets the laws of systems that are searched. Its runs are runs. Where each
/// wait can be put off, the reduction reaches a bad state exactly where the system does. Here a test tells which are bad.
pub fn law_of_late_waits<S, E, K>()
    ensures laws { (start : S) (next : S → E → Option S) (bad : S → Bool) (alone : S → E → Bool) (key : S → K) (waits : S → E → Bool)
        → Laws (tested start next bad alone key) → WaitLaws (tested start next bad alone key) waits
        → Laws (late (tested start next bad alone key) waits) }
    ensures runs { (start : S) (next : S → E → Option S) (bad : S → Bool) (alone : S → E → Bool) (key : S → K) (waits : S → E → Bool)
        (s t : S) (es : List (List E)) → Runs (late (tested start next bad alone key) waits) s es t
        → Runs (tested start next bad alone key) s (flat_map (λ e. e) es) t }
    ensures safe { (start : S) (next : S → E → Option S) (bad : S → Bool) (alone : S → E → Bool) (key : S → K) (waits : S → E → Bool)
        → Laws (tested start next bad alone key) → WaitLaws (tested start next bad alone key) waits
        → CanPutOff (tested start next bad alone key) waits
        → IsSafe (late (tested start next bad alone key) waits) ↔ IsSafe (tested start next bad alone key) }
{}

/// Where waits lead to a bad state, no event of the reduction is possible. Where none is possible, waits lead to where nothing is, if
/// the possible events are listed and each wait leaves fewer who can wait.
pub fn law_of_late_ends<S, E, K>()
    ensures stops { (start : S) (next : S → E → Option S) (bad : S → Bool) (alone : S → E → Bool) (key : S → K) (waits : S → E → Bool) (s : S)
        → EndLaws (tested start next bad alone key) waits → Reached (tested start next bad alone key) s
        → WaitsForBad (tested start next bad alone key) waits s → ¬ CanGo (tested start next bad alone key) waits s }
    ensures ends { (start : S) (next : S → E → Option S) (bad : S → Bool) (alone : S → E → Bool) (key : S → K) (waits : S → E → Bool) (s : S)
        → CanPutOff (tested start next bad alone key) waits → Listed (tested start next bad alone key) waits
        → Reached (tested start next bad alone key) s → (¬ CanGo (tested start next bad alone key) waits s)
        → WaitsToEnd (tested start next bad alone key) waits s }
{}

/// Guests who meet in rooms, two by two, where the first in a room waits for the second: a small system that meets all of this. So
/// a search in which nobody waits before another comes finds each way to be stuck.
pub fn law_of_meetings()
    ensures laws { (acts : ℕ → List Act) → Laws (meetings acts) × WaitLaws (meetings acts) is_waiting }
    ensures waits { (acts : ℕ → List Act) → CanPutOff (meetings acts) is_waiting }
    ensures ends { (acts : ℕ → List Act) → EndLaws (meetings acts) is_waiting }
    ensures stuck { (acts : ℕ → List Act) → IsSafe (late (meetings acts) is_waiting) → IsSafe (meetings acts) }
{}
