//! What holds of steps that are taken back and done again: laws, each on a function that does nothing.

ghost use Rattle.std.specs.Prelude.{◌≡◌, ℕ, List, [], ◌++◌};
ghost use Rattle.gr_base.specs.declared.names.StepId.{StepId};
ghost use Rattle.gr_causal.specs.Dependence.{dependents, kept};
ghost use Rattle.gr_causal.specs.Orders.{IsOrder};
ghost use Rattle.gr_program.specs.Programs.{Program};
ghost use Rattle.gr_laws.specs.Dependence.{clash};
ghost use Rattle.gr_laws.specs.Reached.{IsRun};
ghost use Rattle.gr_rollback.specs.Pasts.{Past, ids_of, events_in};
ghost use Rattle.gr_rollback.specs.Backs.{LosesAll, Redoes};

/// A step is taken back with its consequences, and these are done again, with no other step between: the state is the old one.
/// The steps are the old ones, with their old names, kinds and prior contents. They now stand behind the steps that stayed, which
/// is an order of the old log that respects dependence.
pub fn law_of_redo()
    ensures state { (p : Program) (w u v : Past p) (place : ℕ) (ids : List StepId)
        → IsRun p w.log w.state → LosesAll p w place u
        → Redoes p (record { past = u; again = events_in p (dependents (clash p) w.log place) }) ids (record {
          past = v;
          again = [];
        })
        → v.state ≡ w.state }
    ensures log { (p : Program) (w u v : Past p) (place : ℕ) (ids : List StepId)
        → IsRun p w.log w.state → LosesAll p w place u
        → Redoes p (record { past = u; again = events_in p (dependents (clash p) w.log place) }) ids (record {
          past = v;
          again = [];
        })
        → v.log ≡ kept (clash p) w.log place ++ dependents (clash p) w.log place }
    ensures names { (p : Program) (w u v : Past p) (place : ℕ) (ids : List StepId)
        → IsRun p w.log w.state → LosesAll p w place u
        → Redoes p (record { past = u; again = events_in p (dependents (clash p) w.log place) }) ids (record {
          past = v;
          again = [];
        })
        → ids ≡ ids_of p (dependents (clash p) w.log place) }
    ensures order { (p : Program) (w u v : Past p) (place : ℕ) (ids : List StepId)
        → IsRun p w.log w.state → LosesAll p w place u
        → Redoes p (record { past = u; again = events_in p (dependents (clash p) w.log place) }) ids (record {
          past = v;
          again = [];
        })
        → IsOrder (clash p) w.log v.log }
{}
