//! What holds of the rules of steps: laws, each on a function that does nothing.
#![tactic(auto)]

pub mod choices;
pub mod claim;
pub mod memory_model;

ghost use Rattle.std.specs.Prelude.{◌≡◌, ◌↔◌, ℕ, ℤ, ◌<◌, ◌≤◌, List, [], ◌∷◌, ◌++◌, map, length, Bool, true, false, ◌||◌, ◌⊎◌};
ghost use Rattle.std.specs.Prelude.{Some, None};
ghost use Rattle.gr_tree.specs.declared.expr.UnaryOp.{UnaryOp};
ghost use Rattle.gr_tree.specs.declared.expr.BinaryOp.{BinaryOp};
ghost use Rattle.gr_base.specs.declared.events.Choice.TheVariants.{Plain};
ghost use Rattle.gr_base.specs.declared.events.Event.{Event};
ghost use Rattle.gr_base.specs.declared.names.ChName.{ChName};
ghost use Rattle.gr_base.specs.declared.objects.Object.{Object};
ghost use Rattle.gr_base.specs.declared.objects.Object.TheVariants.{Run, Go};
ghost use Rattle.gr_causal.specs.Sequences.{In, Distinct, IsAt, Rearranges};
ghost use Rattle.gr_causal.specs.Dependence.{AreTheOthers, dependents, kept, causes};
ghost use Rattle.gr_causal.specs.Orders.{IsOrder};
ghost use Rattle.gr_causal.specs.OrderByNames.{NamesEach, FirstToChange, accepted, other_steps, broken};
ghost use Rattle.gr_causal.specs.Machine.{Laws, IsLog, meets, undo};
ghost use Rattle.gr_causal.specs.StepNames.{CountsSteps};
ghost use Rattle.gr_const.specs.declared.constant.Constant.{Constant};
ghost use Rattle.gr_const.specs.Constants.{unary, binary};
ghost use Rattle.gr_const.specs.Parts.{is_int};
ghost use Rattle.gr_program.specs.Programs.{Program};
ghost use Rattle.gr_rules.specs.Outcomes.{gives};
ghost use Rattle.gr_rules.specs.Operators.{wrapped, operate, apply};
ghost use Rattle.gr_rules.specs.Attempts.{Refusal, program_is_over, no_such_goroutine, goroutine_is_done, goroutine_waits};
ghost use Rattle.gr_rules.specs.Attempts.{no_such_choice, unsound};
ghost use Rattle.gr_rules.specs.Frames.{Frame};
ghost use Rattle.gr_rules.specs.Deeds.{Communication, Chooses, deed};
ghost use Rattle.gr_rules.specs.Goroutines.{Wait, ready, waiting, finished};
ghost use Rattle.gr_rules.specs.States.{State, live, same, start, look, put};
ghost use Rattle.gr_rules.specs.Touches.{table, AsTheTable};
ghost use Rattle.gr_rules.specs.Steps.{machine, refusal, owner, ordinal, count};
ghost use Rattle.gr_rules.specs.Tells.{console};
ghost use Rattle.gr_rules.specs.LocalSteps.{is_local};
ghost use Rattle.gr_laws.specs.Reached.{Logged, IsRun, Reached};
ghost use Rattle.gr_laws.specs.Soundness.{Sound, SoundWaits, SoundQueues};
ghost use Rattle.gr_laws.specs.Consoles.{text_of, steps_by};
ghost use Rattle.gr_laws.specs.Dependence.{clash, AreTheDependents, AreTheCauses, StepName, step_name, ordered_by};
ghost use Rattle.gr_laws.specs.TakingBack.{MayGoBack};
ghost use Rattle.gr_laws.specs.Folding.{as_value, wrapped_value};
ghost use Rattle.gr_laws.specs.OneBuffer.{IsReceive, IsSend, FaultsAtSend, Shares};
ghost use Rattle.gr_laws.specs.Refusals.{HasStatus, StandsReady, is_select, HasNoSuch};
ghost use Rattle.gr_laws.specs.Touched.{AreTouched, TellTouches, read_only};

/// The steps of a program are those of a machine that meets the laws. Only what is written changes, and a step goes alike,
/// with the same note, in every state that agrees on what it touches. Each step raises its goroutine's count of steps by one,
/// notes the new count and lowers no other, so that steps have names. A step writes exactly what the table of touches says,
/// and touches exactly the table's objects. An event is refused exactly where it is no step.
pub fn law_of_the_machine()
    ensures laws { (p : Program) → Laws (machine p) }
    ensures counts { (p : Program) → CountsSteps (machine p) owner ordinal count }
    ensures touches { (p : Program) (s t : State) (e : Event) (n : (machine p).Note)
        → (machine p).step s e ≡ Some (t, n) → AsTheTable s e n }
    ensures refusals { (p : Program) (s : State) (e : Event)
        → ((machine p).step s e ≡ None) ↔ ((r : Refusal) × (refusal p s e ≡ Some r)) }
{}

/// Why an event is refused. The reasons, in their order: the program does not run; there is no such goroutine; it is done; it
/// waits; it is ready and does not have that choice. A statement that is no select has the plain choice alone, and a select
/// does not have those of `HasNoSuch`. Except for `unsound`, which no checked program meets, each reason holds exactly where it
/// is given.
pub fn law_of_refusals()
    ensures over { (p : Program) (s : State) (e : Event)
        → (refusal p s e ≡ Some program_is_over) ↔ (¬ (s.run ≡ live)) }
    ensures unknown { (p : Program) (s : State) (e : Event)
        → (refusal p s e ≡ Some no_such_goroutine) ↔ ((s.run ≡ live) × (s.goroutines e.go ≡ None)) }
    ensures done { (p : Program) (s : State) (e : Event)
        → (refusal p s e ≡ Some goroutine_is_done) ↔ HasStatus s e.go finished }
    ensures waits { (p : Program) (s : State) (e : Event)
        → (refusal p s e ≡ Some goroutine_waits) ↔ ((ws : List Wait) × HasStatus s e.go (waiting ws)) }
    ensures others { (p : Program) (s : State) (e : Event)
        → (refusal p s e ≡ Some no_such_choice) ⊎ (refusal p s e ≡ Some unsound)
        → HasStatus s e.go ready }
    ensures plain { (p : Program) (s : State) (e : Event) (f : Frame)
        → StandsReady s e.go f → is_select (deed f) ≡ false
        → (refusal p s e ≡ Some no_such_choice) ↔ (¬ (e.choice ≡ Plain)) }
    ensures select { (p : Program) (s : State) (e : Event) (f : Frame) (cs : List Communication)
        → StandsReady s e.go f → deed f ≡ gives (Chooses cs)
        → refusal p s e ≡ Some no_such_choice
        → HasNoSuch s cs e.choice }
    ensures select_refuses { (p : Program) (s : State) (e : Event) (f : Frame) (cs : List Communication)
        → StandsReady s e.go f → deed f ≡ gives (Chooses cs)
        → HasNoSuch s cs e.choice
        → (refusal p s e ≡ Some no_such_choice) ⊎ (refusal p s e ≡ Some unsound) }
{}

/// What a step touches, as two lists of objects, each object once: what it wrote, and what it read and did not write. They have
/// just the objects of the table's row. Any two such lists tell what the note of the step tells, and so whether the step
/// conflicts with another.
pub fn law_of_touches()
    ensures once { (p : Program) (s t : State) (e : Event) (n : (machine p).Note)
        → (machine p).step s e ≡ Some (t, n)
        → AreTouched (table s e n.kind) (read_only n) n.writes }
    ensures alike { (p : Program) (s t : State) (e : Event) (n : (machine p).Note) (reads writes : List Object)
        → (machine p).step s e ≡ Some (t, n) → AreTouched (table s e n.kind) reads writes
        → TellTouches reads writes n }
    ensures conflicts { (p : Program) (a b : Logged p) (ra wa rb wb : List Object)
        → TellTouches ra wa a.note → TellTouches rb wb b.note
        → clash p a b ≡ (meets same wa (rb ++ wb) || meets same wb (ra ++ wa)) }
{}

/// The two ends of a buffer are separate objects. So a receive and a send on one channel conflict exactly in four cases: they
/// share a goroutine or a slot of the buffer, a waiting sender moves up, one of them waits, or a value goes from hand to hand.
/// A send that faults writes whether the program runs, which every step touches, and so conflicts with every step.
pub fn law_of_one_buffer()
    ensures exactly { (p : Program) (s u t v : State) (receive send : Logged p) (c : ChName)
        → (machine p).step s receive.event ≡ Some (u, receive.note)
        → (machine p).step t send.event ≡ Some (v, send.note)
        → IsReceive c receive.note.kind → IsSend c send.note.kind
        → (clash p receive send ≡ true)
        ↔ Shares c s t receive.note.kind.deed send.note.kind.deed receive.note.writes send.note.writes }
    ensures faults { (p : Program) (s u t v : State) (other send : Logged p) (c : ChName)
        → (machine p).step s other.event ≡ Some (u, other.note)
        → (machine p).step t send.event ≡ Some (v, send.note)
        → FaultsAtSend c send.note.kind
        → In Run send.note.writes × In Run ((machine p).touches other.note) × (clash p other send ≡ true) }
{}

/// A local step writes its own goroutine alone, and reads `Run` and its own goroutine alone.
pub fn law_of_local_steps()
    ensures writes { (p : Program) (s t : State) (g : List ℕ) (n : (machine p).Note)
        → is_local s g ≡ true → (machine p).step s (record { go = g; choice = Plain }) ≡ Some (t, n)
        → n.writes ≡ Go g ∷ [] }
    ensures touches { (p : Program) (s t : State) (g : List ℕ) (n : (machine p).Note)
        → is_local s g ≡ true → (machine p).step s (record { go = g; choice = Plain }) ≡ Some (t, n)
        → (o : Object) → In o ((machine p).touches n) → (o ≡ Run) ⊎ (o ≡ Go g) }
{}

/// Causal consistency of every run of every program: no two steps have the same name. Taking back the last step leaves the run
/// before it. Taking back a step with all that depends on it, from the last to the first, leaves the run of the other steps.
/// Each is taken back by putting back what it wrote over. Any order of a run that respects dependence is a run with the same
/// end, each step with its old kind and touches.
pub fn law_of_runs()
    ensures names { (p : Program) (t : State) (log : List (Logged p))
        → IsRun p log t
        → Distinct (map (step_name p) log) }
    ensures last { (p : Program) (t : State) (log : List (Logged p)) (r : Logged p)
        → IsRun p (log ++ r ∷ []) t
        → IsRun p log (undo put t (r ∷ [])) }
    ensures back { (p : Program) (t : State) (log : List (Logged p)) (i : ℕ)
        → IsRun p log t
        → IsRun p (kept (clash p) log i) (undo put t (dependents (clash p) log i)) }
    ensures orders { (p : Program) (t : State) (old new : List (Logged p))
        → IsRun p old t
        → IsOrder (clash p) old new
        → IsRun p new t }
{}

/// Rollback of every run of every program, whole. Undoing the last step restores the state before it, from which the step
/// goes again. `dependents` are the step with all that depends on it, and nothing else. `causes` are the step with all that
/// it depends on, and nothing else. `kept` are the steps that are no dependents, in the order of the log. Rolling a step back
/// removes its dependents and no other steps, and leaves the run of the kept steps. On the way each dependent is taken back
/// in a state in which it ended. Where it stops part-way, what is left is the run of all steps that are still there. A step
/// on which no later step depends goes back from the middle, and what it touched stands as it left it. Taking the dependents
/// again, in their old order, gives back the state and the log's steps.
pub fn law_of_rollback()
    ensures last { (p : Program) (s t : State) (log : List (Logged p)) (r : Logged p)
        → IsRun p log s
        → IsLog (machine p) s (r ∷ []) t
        → undo put t (r ∷ []) ≡ s }
    ensures dependents { (p : Program) (t : State) (log some : List (Logged p)) (i : ℕ) (x : Logged p)
        → IsRun p log t → IsAt log i x
        → AreTheDependents p log x some ↔ (some ≡ dependents (clash p) log i) }
    ensures causes { (p : Program) (t : State) (log some : List (Logged p)) (i : ℕ) (x : Logged p)
        → IsRun p log t → IsAt log i x
        → AreTheCauses p log x some ↔ (some ≡ causes (clash p) log i) }
    ensures others { (p : Program) (t : State) (log some : List (Logged p)) (i : ℕ)
        → IsRun p log t
        → AreTheOthers log (dependents (clash p) log i) some ↔ (some ≡ kept (clash p) log i) }
    ensures back { (p : Program) (t : State) (log : List (Logged p)) (i : ℕ)
        → IsRun p log t
        → IsRun p (kept (clash p) log i) (undo put t (dependents (clash p) log i)) }
    ensures each { (p : Program) (t : State) (log left gone : List (Logged p)) (r : Logged p) (i : ℕ)
        → IsRun p log t → dependents (clash p) log i ≡ left ++ r ∷ gone
        → IsLog (machine p) (undo put t (r ∷ gone)) (r ∷ []) (undo put t gone) }
    ensures stopped { (p : Program) (t : State) (log left gone stay : List (Logged p)) (i : ℕ)
        → IsRun p log t → dependents (clash p) log i ≡ left ++ gone
        → AreTheOthers log gone stay
        → IsRun p stay (undo put t gone) }
    ensures middle { (p : Program) (t : State) (front back : List (Logged p)) (r : Logged p)
        → IsRun p (front ++ r ∷ back) t → ((b : Logged p) → In b back → clash p r b ≡ false)
        → IsRun p (front ++ back) (undo put t (r ∷ [])) }
    ensures again { (p : Program) (t : State) (front back : List (Logged p)) (r : Logged p)
        → IsRun p (front ++ r ∷ back) t → ((b : Logged p) → In b back → clash p r b ≡ false)
        → IsLog (machine p) (undo put t (r ∷ [])) (r ∷ []) t }
    ensures stands { (p : Program) (s t : State) (front back : List (Logged p)) (r : Logged p)
        → IsRun p (front ++ r ∷ []) s → IsRun p (front ++ r ∷ back) t
        → ((b : Logged p) → In b back → clash p r b ≡ false)
        → (o : Object) → In o ((machine p).touches r.note) → look t o ≡ look s o }
    ensures redone { (p : Program) (t : State) (log : List (Logged p)) (i : ℕ)
        → let gone = dependents (clash p) log i in
        IsRun p log t → IsLog (machine p) (undo put t gone) gone t }
    ensures whole { (p : Program) (t : State) (log : List (Logged p)) (i : ℕ)
        → IsRun p log t → IsRun p (kept (clash p) log i ++ dependents (clash p) log i) t }
{}

/// An order of a run that is given by the names of its steps. It is accepted exactly where it respects dependence, and then
/// it is a run with the same end. It is refused for its names exactly where they are not those of the steps, each once.
/// Otherwise it is refused with two steps. The second is the first step of the given order that comes before a conflicting
/// step which is earlier in the log. The first is the earliest such step of the log.
pub fn law_of_orders()
    ensures accepted { (p : Program) (t : State) (log new : List (Logged p)) (names : List StepName)
        → IsRun p log t
        → (ordered_by p names log ≡ accepted new) ↔ (IsOrder (clash p) log new × (map (step_name p) new ≡ names)) }
    ensures same_end { (p : Program) (t : State) (log new : List (Logged p)) (names : List StepName)
        → IsRun p log t → ordered_by p names log ≡ accepted new
        → IsRun p new t }
    ensures other_names { (p : Program) (t : State) (log : List (Logged p)) (names : List StepName)
        → IsRun p log t
        → (ordered_by p names log ≡ other_steps) ↔ (¬ NamesEach (step_name p) log names) }
    ensures broken { (p : Program) (t : State) (log : List (Logged p)) (names : List StepName) (x y : Logged p)
        → IsRun p log t
        → (ordered_by p names log ≡ broken x y)
        ↔ ((new : List (Logged p)) × (map (step_name p) new ≡ names)
        × Rearranges log new × FirstToChange (clash p) log new x y) }
{}

/// The record of the last step of a run may be taken back. So may that of each earlier step with which no later step
/// conflicts.
pub fn law_of_taking_back()
    ensures { (p : Program) (t : State) (front back : List (Logged p)) (r : Logged p)
        → IsRun p (front ++ r ∷ back) t → ((b : Logged p) → In b back → clash p r b ≡ false)
        → MayGoBack p t r }
{}

/// In every run, what a goroutine printed are the printed lines of its own steps, in the order of the log. Its count of steps
/// is the number of its steps in the log, and these have the names from 1 up to it. So there is no step of a name exactly
/// where its ordinal is 0 or greater than the count.
pub fn law_of_consoles()
    ensures texts { (p : Program) (t : State) (log : List (Logged p)) (g : List ℕ)
        → IsRun p log t
        → text_of (t.goroutines g) ≡ console p (steps_by p g log) }
    ensures counts { (p : Program) (t : State) (log : List (Logged p)) (g : List ℕ)
        → IsRun p log t
        → count t g ≡ length (steps_by p g log) }
    ensures names { (p : Program) (t : State) (log : List (Logged p)) (g : List ℕ) (k : ℕ)
        → IsRun p log t
        → In (g, k) (map (step_name p) log) ↔ ((0 < k) × (k ≤ count t g)) }
{}

/// Of every run: no count is greater than the number of its steps. So it is with the steps of a goroutine, and with the values
/// that entered the buffer of a channel, and those that left it.
pub fn law_of_counts()
    ensures steps { (p : Program) (t : State) (log : List (Logged p)) (g : List ℕ)
        → IsRun p log t
        → count t g ≤ length log }
    ensures entered { (p : Program) (t : State) (log : List (Logged p)) (c : ChName)
        → IsRun p log t
        → t.tails c ≤ length log }
    ensures left { (p : Program) (t : State) (log : List (Logged p)) (c : ChName)
        → IsRun p log t
        → t.heads c ≤ length log }
{}

/// In every state that a run reaches, the buffer of each channel holds exactly the values that entered and have not left, each
/// in the slot of its number. It is full where a goroutine waits to send, and empty where one waits to receive. No goroutine
/// waits on a closed channel. A channel that was not made is empty. A goroutine stands in the queues of what it waits for, and
/// in no others, and in none of them twice for one clause. A step from there writes exactly the objects whose content it
/// changes.
pub fn law_of_reached_states()
    ensures channels { (p : Program) (t : State)
        → Reached p t
        → Sound t }
    ensures queues { (p : Program) (t : State)
        → Reached p t
        → SoundWaits t }
    ensures once { (p : Program) (t : State)
        → Reached p t
        → SoundQueues t }
    ensures changes { (p : Program) (t u : State) (e : Event) (n : (machine p).Note)
        → Reached p t
        → (machine p).step t e ≡ Some (u, n)
        → (o : Object) → In o n.writes ↔ ¬ (look u o ≡ look t o) }
{}

/// Folding a constant expression is evaluating it. Where the exact operator has a value, the operator on a running program's
/// values gives that value, wrapped to 64 bits. What fits an `int` is left as it is.
pub fn law_of_folding()
    ensures binary { (op : BinaryOp) (x y z : Constant)
        → binary op x y ≡ Some z
        → operate op (as_value x) (as_value y) ≡ gives (wrapped_value z) }
    ensures unary { (op : UnaryOp) (x z : Constant)
        → unary op x ≡ Some z
        → apply op (as_value x) ≡ gives (wrapped_value z) }
    ensures fits { (x : ℤ) → is_int x ≡ true → wrapped x ≡ x }
{}
