//! What the layout of code is: examples, and the law that it is the code of its program. Its functions do nothing.
#![tactic(auto)]

ghost use Rattle.std.specs.Prelude.{◌≡◌, ℕ, List, [], ◌∷◌, length};
ghost use Rattle.gr_program.specs.Programs.{Stmts, Program};
ghost use Rattle.gr_rules.specs.Operands.{Operands};
ghost use Rattle.gr_code.specs.Examples as code;
ghost use Rattle.gr_code.specs.Examples.{begins_at};
ghost use Rattle.gr_code.specs.Passing.{parts_in};
ghost use Rattle.gr_code.specs.Programs.{ProgramFits};
ghost use Rattle.gr_lower.specs.PartCode.{left_in, code_in};
ghost use Rattle.gr_lower.specs.Sizes.{size_in};
ghost use Rattle.gr_lower.specs.StatementCode.{Way, stmts_code};
ghost use Rattle.gr_lower.specs.StatementPoints.{plugged_again};
ghost use Rattle.gr_lower.specs.Lowered.{body_code, body_lines, cells_of, lowered, meaning};
ghost use Rattle.gr_lower.specs.CanLower.{CanDoAll, CanLower};
ghost use Rattle.gr_lower.specs.Examples.{joining, looping, choosing, calling, calling_code, turning, turning_code, nesting};
ghost use Rattle.gr_lower.specs.Examples.{nesting_code, MeansAs};

/// Worked layouts: statements where two ways join, loops, a select, a call and nested statements. For each the code, what it
/// means, the cells that it needs, and its lines. All of them meet the conditions of the law of layout.
pub fn examples_of_layout()
    ensures joins { MeansAs joining 4 code.joining_code code.joining }
    ensures loops { MeansAs looping 5 code.looping_code code.looping }
    ensures chooses { MeansAs choosing 3 code.choosing_code code.choosing }
    ensures calls { body_code 2 calling ≡ calling_code }
    ensures turns { body_code 2 turning ≡ turning_code }
    ensures nests { body_code 2 nesting ≡ nesting_code }
    ensures cells { (cells_of 2 (body_code 2 joining) ≡ 4) × (cells_of 2 (body_code 2 looping) ≡ 4)
        × (cells_of 2 calling_code ≡ 4) }
    ensures lines { body_lines choosing (begins_at 9) ≡ 1 ∷ 1 ∷ 1 ∷ [] }
    ensures fine { CanDoAll 2 joining × CanDoAll 2 looping × CanDoAll 2 choosing × CanDoAll 2 calling × CanDoAll 2 turning
        × CanDoAll 2 nesting }
{}

/// An expression whose parts are replaced by temporaries, one after another, is the operand that is left of it. Its code has
/// an instruction for each part. The code of statements has as many instructions as their sizes say.
#[tactic(auto, using(crate::proofs::PartsLeft::again_left, crate::proofs::PartsLeft::length_code_in, crate::proofs::CodeSizes::size_of_stmts))]
pub fn law_of_sizes()
    ensures left { (d : ℕ) (es : Operands) → plugged_again (parts_in es) d es ≡ left_in es d }
    ensures parts { (d o : ℕ) (es : Operands) → length (code_in es d o) ≡ parts_in es }
    ensures statements { (d o on : ℕ) (ways : List Way) (ss : Stmts) → length (stmts_code ss d o on ways) ≡ size_in ss }
{}

/// The code of a program fits the program. Each instruction means a point at which a frame may stand, does there what the
/// rules do, and leads on to the instruction that means the next point. The variables, cells and instructions that it names
/// exist, and its line is that of its statement.
#[tactic(auto, using(crate::proofs::FunctionsFit::program_fits))]
pub fn law_of_layout()
    ensures { (p : Program) → CanLower p → ProgramFits (meaning p) p (lowered p) }
{}
