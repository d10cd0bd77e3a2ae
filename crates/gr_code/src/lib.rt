//! Code and the rules. An instruction means a point at which a frame may stand, with temporaries in place of finished parts,
//! and does there what the rules do. Types, definitions and laws; nothing here runs.
#![tactic(auto)]

pub mod code;

ghost use Rattle.std.specs.Prelude.{◌≡◌, ◌<◌, ◌≤◌, ℕ, suc, List, length, take, slice_get, slice_set, Bool, Option, Some};
ghost use Rattle.gr_base.specs.declared.values.Value.{Value};
ghost use Rattle.gr_program.specs.Programs.{Function, Program};
ghost use Rattle.gr_rules.specs.Outcomes.{gives};
ghost use Rattle.gr_rules.specs.Operands.{Operands};
ghost use Rattle.gr_rules.specs.Evaluation.{Variables};
ghost use Rattle.gr_rules.specs.Parts.{next_of};
ghost use Rattle.gr_rules.specs.Points.{Rest, point_after};
ghost use Rattle.gr_rules.specs.Frames.{goes_on};
ghost use Rattle.gr_rules.specs.Deeds.{Communication, Chooses, deed, resumed, past};
ghost use Rattle.gr_rules.specs.States.{call_of};
ghost use Rattle.gr_code.specs.Filling.{Temporaries, with_value, fill_all, fill_rest, fill_point, ClearAll};
ghost use Rattle.gr_code.specs.Instructions.{Instruction, Spot, spot};
ghost use Rattle.gr_code.specs.Code.{Meanings, IsCode, IsClear, Holds, IfGiven, HasClause, Simulates, StaysClear, frame_at};
ghost use Rattle.gr_code.specs.Bounds.{AllBelow, RestBelow, NoneBelow};
ghost use Rattle.gr_code.specs.Plugging.{plug_all, IsPlugged, IsCleared, IsBounded};
ghost use Rattle.gr_code.specs.Passing.{parts_in, IsOneLess, passed_by_in, AllPassing, BeginsToPass, KeepsPassing};
ghost use Rattle.gr_code.specs.Vectors.{spot_in, temporaries_in, TargetsBelow, assigned_in, assigned_at};
ghost use Rattle.gr_code.specs.CodeFrames.{FunctionCode, ProgramCode, CodeFrame, instruction_at, task, after_in, resumed_in};
ghost use Rattle.gr_code.specs.CodeFrames.{past_in, entered};
ghost use Rattle.gr_code.specs.Programs.{InBounds, FunctionFits, ProgramFits, IsClause, Stands, KeepsStanding, functions_in};
ghost use Rattle.gr_code.specs.Programs.{variables_in, instructions_in, line_at, frame_of, frame_meant, deed_meant};
ghost use Rattle.gr_code.specs.Examples.{joining, joining_code, looping, looping_code, choosing, choosing_code};
ghost use Rattle.gr_code.specs.ProgramExamples.{copying, main_code, program_of_two, code_of_two, meaning_of_two};

/// An instruction of code does what the rules do in the frame at its spot. It has the same deed, and past the deed it goes on
/// as that frame. Wherever it goes on, right operands that are not wanted have no parts. What remains leads to the same point
/// before and after temporaries are filled in. Four examples of code are statements one after the other, a statement where
/// two ways join, a loop and a select.
pub fn law_of_code()
    ensures simulates { (n : ℕ) (means : Meanings) (code : ℕ → Option Instruction) (function : ℕ) (s : Spot)
        → (all : Variables) (i : Instruction)
        → IsCode n means code → code s.number ≡ Some i → NoneBelow n s.temporaries → IsClear means s → Holds s all
        → Simulates means function s all i (frame_at means function s) }
    ensures stays { (n : ℕ) (means : Meanings) (code : ℕ → Option Instruction) (s : Spot) (all : Variables)
        → (i : Instruction)
        → IsCode n means code → code s.number ≡ Some i → NoneBelow n s.temporaries → IsClear means s
        → StaysClear means s all i }
    ensures continues { (n : ℕ) (ts : Temporaries) (rest : Rest)
        → NoneBelow n ts → RestBelow n rest
        → point_after (fill_rest ts rest) ≡ fill_point ts (point_after rest) }
    ensures copies { IsCode 2 copying (slice_get main_code.instructions) }
    ensures joins { IsCode 2 joining joining_code }
    ensures loops { IsCode 2 looping looping_code }
    ensures chooses { IsCode 2 choosing choosing_code }
{}

/// Operands with a temporary in place of their next part are those of the rules past the part, once the temporary has the
/// part's value. They are clear again, their variables are below the next number, and they have one part less. A decision
/// that settles skips the parts of its right operand. Plugged one after another, these parts leave the filled operands as
/// they are, and past the last of them all is clear again.
pub fn law_of_plugging()
    ensures plugged { (d : ℕ) (es : Operands)
        → AllBelow d es
        → IsPlugged fill_all d (next_of es) (plug_all d es) }
    ensures cleared { (d : ℕ) (es : Operands)
        → AllBelow d es
        → IsCleared ClearAll d (next_of es) (plug_all d es) es }
    ensures bounded { (d : ℕ) (es : Operands)
        → AllBelow d es
        → IsBounded AllBelow d (plug_all d es) }
    ensures counted { (d : ℕ) (es : Operands) → IsOneLess parts_in (parts_in es) (plug_all d es) }
    ensures begins { (d : ℕ) (es : Operands)
        → AllBelow d es
        → BeginsToPass ClearAll AllPassing d (next_of es) (plug_all d es) (passed_by_in es) es }
    ensures passes { (d n : ℕ) (ts : Temporaries) (es : Operands)
        → AllPassing (suc n) ts es
        → KeepsPassing (fill_all ts) (λ n es. AllPassing n ts es) n (plug_all d es) es }
    ensures ends { (ts : Temporaries) (es : Operands)
        → AllPassing 0 ts es
        → ClearAll ts es }
{}

/// A vector holds the variables and temporaries of a spot. A write from the number of variables on changes one temporary, and
/// no variable. An assignment below that number changes variables, and no temporary.
pub fn law_of_vectors()
    ensures holds { (n : ℕ) (all : Variables) (on : ℕ) → Holds (spot_in n all on) all }
    ensures keeps { (n : ℕ) (all : Variables) (d : ℕ) (v : Value) (on : ℕ)
        → n ≤ d → d < length all
        → spot_in n (slice_set all d (Some v)) on ≡ spot (take n all) (with_value (temporaries_in n all) d v) on }
    ensures assigns { (n : ℕ) (targets : List (Option ℕ)) (values : List Value) (all : Variables) (on : ℕ)
        → TargetsBelow n targets
        → assigned_in n targets values all on ≡ assigned_at targets values (spot_in n all on) }
{}

/// Frames of a program's code do what the rules do in the frames that they mean. An instruction comes to the deed of the
/// rules. After the deed, with the value of a part, and past a communication, the frame of code means the frame of the rules.
/// Where code goes past a clause, so do the rules. A deed that chooses among clauses is that of a select. Each frame that is
/// reached stands at an instruction again. A call begins as by the rules, in a frame that stands. There is a program with
/// code.
pub fn law_of_frames()
    ensures does { (means : ℕ → Meanings) (p : Program) (code : ProgramCode) (f : CodeFrame) (i : Instruction)
        → ProgramFits means p code → Stands means code f → instruction_at code f ≡ Some i
        → deed (frame_of means code f) ≡ deed_meant means code (task f i) }
    ensures after { (means : ℕ → Meanings) (p : Program) (code : ProgramCode) (f : CodeFrame) (i : Instruction)
        → ProgramFits means p code → Stands means code f → instruction_at code f ≡ Some i
        → IfGiven (λ g. goes_on (frame_of means code f) ≡ frame_of means code g) (after_in f i) }
    ensures resumes { (means : ℕ → Meanings) (p : Program) (code : ProgramCode) (f : CodeFrame) (i : Instruction) (v : Value)
        → ProgramFits means p code → Stands means code f → instruction_at code f ≡ Some i
        → resumed (frame_of means code f) v ≡ frame_meant means code (resumed_in f i v) }
    ensures passes { (means : ℕ → Meanings) (p : Program) (code : ProgramCode) (f : CodeFrame) (i : Instruction)
        → (clause : Option ℕ) (got : Option (Value × Bool))
        → ProgramFits means p code → Stands means code f → instruction_at code f ≡ Some i
        → HasClause i clause
        → past (frame_of means code f) clause got ≡ frame_meant means code (past_in f i clause got) }
    ensures goes_past { (means : ℕ → Meanings) (p : Program) (code : ProgramCode) (f : CodeFrame) (i : Instruction)
        → (clause : Option ℕ) (got : Option (Value × Bool))
        → ProgramFits means p code → Stands means code f → instruction_at code f ≡ Some i
        → IsClause clause
        → IfGiven (λ g. past (frame_of means code f) clause got ≡ gives (frame_of means code g)) (past_in f i clause got) }
    ensures chooses { (means : ℕ → Meanings) (p : Program) (code : ProgramCode) (f : CodeFrame) (i : Instruction)
        → (clauses : List Communication) (number : ℕ)
        → ProgramFits means p code → Stands means code f → instruction_at code f ≡ Some i
        → deed (frame_of means code f) ≡ gives (Chooses clauses) → 0 < number
        → HasClause i (Some number) }
    ensures stays { (means : ℕ → Meanings) (p : Program) (code : ProgramCode) (f : CodeFrame) (i : Instruction)
        → ProgramFits means p code → Stands means code f → instruction_at code f ≡ Some i
        → KeepsStanding means code f i }
    ensures enters { (means : ℕ → Meanings) (p : Program) (code : ProgramCode) (number : ℕ) (vs : List Value)
        → ProgramFits means p code
        → call_of p number vs ≡ frame_meant means code (entered code number vs) }
    ensures begins { (means : ℕ → Meanings) (p : Program) (code : ProgramCode) (number : ℕ) (vs : List Value)
        → ProgramFits means p code
        → IfGiven (Stands means code) (entered code number vs) }
    ensures fits { ProgramFits meaning_of_two program_of_two code_of_two }
{}

/// What is read off a frame of code that stands. There is an instruction, and the variables, temporaries and instructions
/// that it names exist. The line is that of the statement by the rules. The first cells are the variables by the rules. Each
/// function of the code is one of the program.
pub fn law_of_shown_frames()
    ensures has { (means : ℕ → Meanings) (p : Program) (code : ProgramCode) (f : CodeFrame)
        → ProgramFits means p code → Stands means code f
        → (i : Instruction) × (instruction_at code f ≡ Some i) }
    ensures bounded { (means : ℕ → Meanings) (p : Program) (code : ProgramCode) (f : CodeFrame) (i : Instruction)
        → ProgramFits means p code → Stands means code f → instruction_at code f ≡ Some i
        → InBounds (variables_in code f.function) (length f.cells) (instructions_in code f.function) i }
    ensures line { (means : ℕ → Meanings) (p : Program) (code : ProgramCode) (f : CodeFrame)
        → ProgramFits means p code → Stands means code f
        → line_at code f ≡ Some ((frame_of means code f).point.place.line) }
    ensures variables { (means : ℕ → Meanings) (code : ProgramCode) (f : CodeFrame)
        → (frame_of means code f).variables ≡ take (variables_in code f.function) f.cells }
    ensures variable { (means : ℕ → Meanings) (code : ProgramCode) (f : CodeFrame) (x : ℕ)
        → x < variables_in code f.function
        → slice_get ((frame_of means code f).variables) x ≡ slice_get f.cells x }
    ensures function { (means : ℕ → Meanings) (code : ProgramCode) (f : CodeFrame)
        → (frame_of means code f).function ≡ f.function }
    ensures functions { (means : ℕ → Meanings) (p : Program) (code : ProgramCode) (number : ℕ) (c : FunctionCode)
        → ProgramFits means p code → slice_get code.functions number ≡ Some c
        → (function : Function) × (slice_get (functions_in p) number ≡ Some function)
        × FunctionFits (means number) function c }
{}
