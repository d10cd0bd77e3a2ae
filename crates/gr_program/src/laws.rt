//! What `==` says of two programs, the contract of a function that does nothing.
ghost use Rattle.std.specs.Prelude.{◌≡◌, ◌↔◌, true};
ghost use Rattle.gr_program.specs.Programs.{Program};
ghost use Rattle.gr_program.specs.Sameness.{same_program};

/// Two programs are the same exactly where they differ in nothing but where they lie in memory.
#[tactic(auto, using(crate::specs::SameProgramLaws::program))]
pub fn same_programs()
    ensures { (p q : Program) → (same_program p q ≡ true) ↔ (p ≡ q) }
{}
