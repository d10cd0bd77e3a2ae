//! Laws of names, each the contract of a function that does nothing.

ghost use Rattle.std.specs.Cmp.{IsTotalOrder};
ghost use Rattle.gr_base.specs.Counts.{IsGoName};
ghost use Rattle.gr_base.specs.Names.{go_cmp, ch_cmp, step_cmp, TiesAreEqual};
ghost use Rattle.gr_base.specs.Names.{Reads, go_named, go_text, ch_named, ch_text, IsChName, step_named, step_text, IsStepId};

/// What was printed of a goroutine's name is read back, and no other text is read.
pub fn law_of_go_texts()
    ensures { Reads go_named go_text IsGoName }
{}

/// What was printed of a channel's name is read back, and no other text is read.
pub fn law_of_ch_texts()
    ensures { Reads ch_named ch_text IsChName }
{}

/// What was printed of a step's name is read back, and no other text is read.
pub fn law_of_step_texts()
    ensures { Reads step_named step_text IsStepId }
{}

/// The order of goroutines is total, and goroutines that tie in it are one.
#[tactic(auto, using(crate::proofs::Orders::go_total, crate::proofs::Orders::go_exact))]
pub fn law_of_go_order()
    ensures total { IsTotalOrder go_cmp }
    ensures exact { TiesAreEqual go_cmp }
{}

/// The order of channels is total, and channels that tie in it are one.
#[tactic(auto, using(crate::proofs::Orders::ch_total, crate::proofs::Orders::ch_exact))]
pub fn law_of_ch_order()
    ensures total { IsTotalOrder ch_cmp }
    ensures exact { TiesAreEqual ch_cmp }
{}

/// The order of steps is total, and steps that tie in it are one.
#[tactic(auto, using(crate::proofs::Orders::step_total, crate::proofs::Orders::step_exact))]
pub fn law_of_step_order()
    ensures total { IsTotalOrder step_cmp }
    ensures exact { TiesAreEqual step_cmp }
{}
