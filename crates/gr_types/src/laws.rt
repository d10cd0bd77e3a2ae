//! Laws of the judgement, each the contract of a function that does nothing.
ghost use Rattle.std.specs.Prelude.{◌≡◌, ◌↔◌, ℕ, true, false, List, All, Some};
ghost use Rattle.gr_tree.specs.Files.{FileTree};
ghost use Rattle.gr_program.specs.Programs.{Program};
ghost use Rattle.gr_typing.specs.FileChecks.{ProgramOf};
ghost use Rattle.gr_typing.specs.Statements.{declares};
ghost use Rattle.gr_types.specs.FindingFiles.{program_in};
ghost use Rattle.gr_types.specs.Texts.{IsFileOf, functions_in, body_of, updates_in, posts_in, GivesNumber, BeginsInOrder};

/// A file has at most one program.
pub fn one_program()
    ensures { (f : FileTree) (p q : Program) → ProgramOf f p → ProgramOf f q → p ≡ q }
{}

/// The function by recursion on the tree finds the program of a file exactly where the judgement has one.
#[tactic(auto, using(crate::proofs::FindsFiles::file_sound, crate::proofs::FindsFiles::file_complete))]
pub fn found_programs()
    ensures { (f : FileTree) (p : Program) → (program_in f ≡ Some p) ↔ ProgramOf f p }
{}

/// The judgement asks three things of a tree beyond the rules of the language. The tree of every text has them, so they refuse
/// no text. The operator of each `x op= e` gives a number. The post statement of a `for` declares nothing. The statements of
/// each function begin one after another, behind its start and before its closing brace.
pub fn trees_of_texts()
    ensures updates { (text : List ℕ) (file : FileTree)
        → IsFileOf text file
        → All (λ f. All GivesNumber (updates_in (body_of f))) (functions_in file) }
    ensures posts { (text : List ℕ) (file : FileTree)
        → IsFileOf text file
        → All (λ f. All (λ post. declares post ≡ false) (posts_in (body_of f))) (functions_in file) }
    ensures order { (text : List ℕ) (file : FileTree)
        → IsFileOf text file
        → All BeginsInOrder (functions_in file) }
{}
