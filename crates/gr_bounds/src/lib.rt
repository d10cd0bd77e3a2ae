//! Bounds on the uses of channels, by what a store contains. Laws, each on a function that does nothing.
#![tactic(auto)]

ghost use Rattle.std.specs.Prelude.{◌≡◌, ℕ, Bool, List};
ghost use Rattle.gr_program.specs.Programs.{Program};
ghost use Rattle.gr_refine.specs.Contents.{Contents};
ghost use Rattle.gr_record.specs.Listings.{state_in};
ghost use Rattle.gr_record.specs.Running.{Running};
ghost use Rattle.gr_may.specs.Uses.{Usage};
ghost use Rattle.gr_may.specs.Covers.{Covers};
ghost use Rattle.gr_may.specs.Dead.{AreDead};
ghost use Rattle.gr_bounds.specs.CoveredContents.{CoversContents};
ghost use Rattle.gr_bounds.specs.DeadContents.{AreDeadIn};

/// Of a running program, bounds cover the state where they cover what the store contains: each instruction from the first of a
/// statement on, in which a frame stands, and all that its cells hold.
pub fn law_of_covered_contents()
    ensures { (p : Program) (usage : Usage) (s : Contents) → Running p s → CoversContents p usage s → Covers p usage (state_in p s) }
{}

/// Of a running program, goroutines of the store that wait, and that only they may serve, are dead. So none of them steps again in
/// any run (`law_of_the_dead` of gr_may).
pub fn law_of_dead_contents()
    ensures { (p : Program) (usage : Usage) (s : Contents) (dead : List ℕ → Bool)
        → Running p s → AreDeadIn p usage s dead → AreDead p usage (state_in p s) dead }
{}
