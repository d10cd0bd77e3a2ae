//! Type safety, as progress and preservation: what holds of every state that a run of a checked program reaches. And checked
//! programs have code.
#![tactic(auto)]

ghost use Rattle.std.specs.Prelude.{◌≡◌, ℕ, List, [], ◌∷◌, Some, None};
ghost use Rattle.gr_base.specs.declared.events.Event.{Event};
ghost use Rattle.gr_tree.specs.Files.{FileTree};
ghost use Rattle.gr_program.specs.Programs.{Program};
ghost use Rattle.gr_typing.specs.FileChecks.{ProgramOf};
ghost use Rattle.gr_rules.specs.Outcomes.{gives};
ghost use Rattle.gr_rules.specs.Frames.{Frame};
ghost use Rattle.gr_rules.specs.Goroutines.{ready, Goroutine, started};
ghost use Rattle.gr_rules.specs.Attempts.{unsound};
ghost use Rattle.gr_rules.specs.States.{live, State, call_of, main_of, start};
ghost use Rattle.gr_rules.specs.Steps.{refusal};
ghost use Rattle.gr_rules.specs.Tells.{usual_choice};
ghost use Rattle.gr_laws.specs.Reached.{Reached};
ghost use Rattle.gr_code.specs.Programs.{ProgramFits};
ghost use Rattle.gr_lower.specs.CanLower.{CanLower};
ghost use Rattle.gr_lower.specs.Lowered.{lowered, meaning};
ghost use Rattle.type_safety.specs.Standing.{StandsAs, FrameSends, AreFresh};

/// Progress. In every state that a run of a checked program reaches, each ready goroutine has a step while the program runs:
/// the one with the usual choice. No event is refused as unsound, since no value of a wrong kind is met.
pub fn law_of_checked_programs()
    ensures progress { (file : FileTree) (p : Program) (t : State) (name : List ℕ) (g : Goroutine)
        → ProgramOf file p
        → Reached p t
        → t.run ≡ live
        → t.goroutines name ≡ Some g
        → g.status ≡ ready
        → refusal p t (record { go = name; choice = usual_choice p t name }) ≡ None }
    ensures sound { (file : FileTree) (p : Program) (t : State) (e : Event)
        → ProgramOf file p
        → Reached p t
        → ¬ (refusal p t e ≡ Some unsound) }
{}

/// Preservation, as far as the rules speak of it. In every state that a run of a checked program reaches, a goroutine has
/// frames until it is finished. The innermost frame comes to a step or a fault. Where the goroutine waits, this frame stands
/// at just the operations that it waits for. Each frame below stands at the call of the one above it, and goes on with its
/// result. The values that a select sends come to values or to faults. The names of children that are not yet started are
/// free. The run starts with a ready goroutine, in `main`.
pub fn law_of_checked_states()
    ensures standing { (file : FileTree) (p : Program) (t : State) (name : List ℕ) (g : Goroutine)
        → ProgramOf file p
        → Reached p t
        → t.goroutines name ≡ Some g
        → StandsAs g.status g.frames }
    ensures sends { (file : FileTree) (p : Program) (t : State) (name : List ℕ) (g : Goroutine) (f : Frame) (below : List Frame)
        → ProgramOf file p
        → Reached p t
        → t.goroutines name ≡ Some g
        → g.frames ≡ f ∷ below
        → FrameSends f }
    ensures names { (file : FileTree) (p : Program) (t : State)
        → ProgramOf file p
        → Reached p t
        → AreFresh t }
    ensures begins { (file : FileTree) (p : Program)
        → ProgramOf file p
        → (f : Frame) × (call_of p (main_of p) [] ≡ gives f) × ((start p).goroutines [] ≡ Some (started f)) }
{}

/// Checked programs have code. The variables that a checked program names are those of its functions. Its expression
/// statements are calls and receives, also where control never comes. So its layout is its code.
pub fn law_of_checked_code()
    ensures can_lower { (file : FileTree) (p : Program) → ProgramOf file p → CanLower p }
    ensures fits { (file : FileTree) (p : Program) → ProgramOf file p → ProgramFits (meaning p) p (lowered p) }
{}
