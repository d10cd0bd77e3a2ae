//! The whole claim over journals, and journals as trips forth and back: laws, on functions that do nothing.

ghost use Rattle.std.specs.Prelude.{◌↔◌, ℕ, List, [], ◌∷◌, ◌++◌, length};
ghost use Rattle.gr_causal.specs.Orders.{IsOrder};
ghost use Rattle.gr_causal.specs.Trips.{Move, TripFrom, EquivalentFrom};
ghost use Rattle.gr_program.specs.Programs.{Program};
ghost use Rattle.gr_rules.specs.States.{start};
ghost use Rattle.gr_rules.specs.Steps.{machine};
ghost use Rattle.gr_laws.specs.Dependence.{clash};
ghost use Rattle.gr_laws.specs.Reached.{Logged, IsRun};
ghost use Rattle.gr_command.specs.Replies.{Said};
ghost use Rattle.gr_session.specs.declared.journal.Asked.{Asked};
ghost use Rattle.gr_session.specs.declared.journal.Memory.{Memory};
ghost use Rattle.gr_session.specs.declared.journal.Entry.{Entry};
ghost use Rattle.gr_session.specs.Journal.{World, first_world};
ghost use Rattle.gr_session.specs.Entries.{Means, Lead, IsLegal};
ghost use Rattle.gr_session.specs.Claim.{MeetsTheClaim};
ghost use Rattle.gr_session.specs.Moves.{Travels, Makes, Journey, LogHasRoom, CommandsLead};

/// The whole claim. Take any program and any legal journal of it. Each `back` in the journal takes back the step that is asked for
/// and exactly the steps that depend on it, directly or over others. No way back takes the step and leaves one of them. All other
/// steps are kept, in their order. Their run leads to the state after the `back`, and so does every order of them that respects
/// dependence. Each `undo` does so with the last step, on which none depends: the state is the one from which that step was taken.
/// Where memory ran out, the last of the dependents are back, and the step itself is kept. The reply names the steps that are
/// back. Where none is back, nothing has changed.
pub fn the_whole_claim()
    ensures { (p : Program) (askers : ℕ) (before after : List Entry) (e : Entry)
        → IsLegal p askers (before ++ e ∷ after)
        → MeetsTheClaim p before e }
{}

/// Each entry of a journal is a trip, of the moves that its reply tells. A `step`, a turn, a `run`, a batch and a `redo` go forth,
/// by the steps that they take. An `undo` and a `back` go back, from the last of their steps to the first. An `order` and all others
/// make no move. So a journal is a trip from the empty log, of the moves of its entries. The trips of two journals are causally
/// equivalent exactly where the log of the one is an order of that of the other that respects dependence.
pub fn law_of_commands()
    ensures entry { (p : Program) (w u : World p) (asked : Asked) (memory : Memory) (reply : Said)
        → IsRun p w.log w.state → Means p w asked memory u reply
        → (moves : List (Move (Logged p))) × Makes p asked reply moves × Travels p w moves u }
    ensures journal { (p : Program) (journal : List Entry) (u : World p)
        → Lead p (first_world p) journal u
        → (moves : List (Move (Logged p))) × Journey p (first_world p) journal moves u × Travels p (first_world p) moves u }
    ensures alike { (p : Program) (first second : List Entry) (moves others : List (Move (Logged p))) (u v : World p)
        → Journey p (first_world p) first moves u → Journey p (first_world p) second others v
        → (EquivalentFrom (machine p) (start p) [] moves others ↔ IsOrder (clash p) u.log v.log) }
{}

/// Each trip from a world of a run can be had by commands, as long as the log has room. These take one step, take the last one
/// back, or put the steps in another order. They lead to the very log to which the trip leads.
pub fn law_of_trips()
    ensures { (p : Program) (w : World p) (moves : List (Move (Logged p))) (log : List (Logged p))
        → IsRun p w.log w.state → TripFrom (machine p) (start p) w.log moves log
        → LogHasRoom (length w.log) moves
        → CommandsLead p w log }
{}
