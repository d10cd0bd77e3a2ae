//! What Go's memory model orders is within dependence.

ghost use Rattle.std.specs.Prelude.{◌≡◌, ℕ, ◌+◌, List, true, Some};
ghost use Rattle.gr_base.specs.declared.names.ChName.{ChName};
ghost use Rattle.gr_causal.specs.Sequences.{In, IsAt};
ghost use Rattle.gr_causal.specs.Dependence.{dependents};
ghost use Rattle.gr_program.specs.Programs.{Program};
ghost use Rattle.gr_rules.specs.States.{State};
ghost use Rattle.gr_rules.specs.Steps.{machine};
ghost use Rattle.gr_laws.specs.Reached.{Logged, IsRun};
ghost use Rattle.gr_laws.specs.Dependence.{clash};
ghost use Rattle.gr_laws.specs.Completed.{CompletesReceive, CompletesSend};
ghost use Rattle.gr_laws.specs.MemoryModel.{Edge, HappensBefore};

/// What happens before by Go's memory model is within dependence. Two steps conflict where the model has the first directly
/// before the second: they are of one goroutine, or the first starts the goroutine of the second. Or one serves a send or a
/// receive with which the goroutine of the other waits. Or the first closes the channel, and the second receives because of it.
/// Or the second receives the value that the first put or let into the buffer, or puts a value into the place from which the
/// first received. In a run, each step that a step happens before, over any number of such pairs, is one of its dependents.
pub fn law_of_the_memory_model()
    ensures edges { (p : Program) (s u t v : State) (a b : Logged p)
        → (machine p).step s a.event ≡ Some (u, a.note)
        → (machine p).step t b.event ≡ Some (v, b.note)
        → Edge p s t a b
        → clash p a b ≡ true }
    ensures runs { (p : Program) (t : State) (log : List (Logged p)) (a b : Logged p) (i : ℕ)
        → IsRun p log t → IsAt log i a
        → HappensBefore p log a b
        → In b (dependents (clash p) log i) }
{}

/// The k-th receive from a channel of capacity C comes before the k+C-th send on it is complete. So that send goes back with the
/// receive, or is complete in the same step. Sends and receives are counted as Go counts them: those whose values pass through
/// the buffer, and those whose values go from hand to hand. Without a buffer, C is 0.
pub fn law_of_the_kth_receive()
    ensures { (p : Program) (t : State) (log : List (Logged p)) (c : ChName) (places k i : ℕ) (a b : Logged p)
        → IsRun p log t → IsAt log i a
        → CompletesReceive p c places k log a → CompletesSend p c places (k + places) log b
        → In b (dependents (clash p) log i) }
{}
