//! The choice that is taken where none is asked for, found without memory (Go: Select statements).

ghost use Rattle.std.specs.Prelude.{◌≡◌, ◌≤◌, ◌^◌, ℕ, List, length, None, IfOk, OnErr};
ghost use Rattle.gr_code.specs.CodeViews.{arms_of};
ghost use Rattle.gr_rules.specs.Tells.{usual_choice as usual_by_rules};
ghost use Rattle.gr_record.specs.Listings.{program_in, state_in, IsCoded};
ghost use Rattle.gr_step.specs.Objects.{contents_in};
ghost use Rattle.gr_step.specs.Choices.{HasManyClauses, event_meant};
ghost use Rattle.gr_step.specs.Guard.{HasReady, IsSomeReady};
ghost use Rattle.gr_step.specs.Possible.{usual_of as usual_by_arms};
ghost use Rattle.gr_record.specs.Running.{Running};

use crate::allowing::{has_default, have_channels};
use crate::objects::Objects;
use gr_base::{Choice, GoName, NoMemory, Value};
use gr_code::code::Arm;
use gr_goros::Goroutine;
use gr_record::Listing;

impl Objects {
    /// The lowest clause that can proceed, else the default clause, else to wait.
    fn usual_of(&self, cells: &[Option<Value>], arms: &[Arm]) -> Result<Choice, NoMemory>
        ensures choice { IfOk result (λ choice. choice ≡ usual_by_arms (contents_in self.now) cells.now (arms_of arms.now)) }
        ensures refused { OnErr result (2 ^ 32 ≤ length arms.now) }
    {
        let mut left = arms;
        let mut number: u32 = 0;
        while let [arm, rest @ ..] = left {
            let Some(next) = number.checked_add(1) else {
                return Err(NoMemory);
            };
            if self.arm_can_proceed(cells, arm) {
                return Ok(Choice::Pick(next));
            }
            number = next;
            left = rest;
        }
        if has_default(arms) {
            return Ok(Choice::Default);
        }
        Ok(Choice::Park)
    }

    /// The choice of a ready goroutine where none is asked for. At a select that is the lowest clause that can proceed, else
    /// the default clause, else to wait. It takes no memory. Out of memory stands for clauses whose number 32 bits do not hold.
    pub(crate) fn usual_choice_at(
        &self,
        listing: &Listing,
        goroutine: &Goroutine,
    ) -> Result<Choice, NoMemory>
        requires coded { IsCoded listing.now }
        requires running { Running (program_in listing.now) (contents_in self.now) }
        requires ready { IsSomeReady (contents_in self.now) goroutine.now.content }
        ensures choice { IfOk result (λ choice. (n : List ℕ) → HasReady (contents_in self.now) n goroutine.now.content
            → choice ≡ usual_by_rules (program_in listing.now) (state_in (program_in listing.now) (contents_in self.now)) n) }
        ensures refused { OnErr result ((n : List ℕ) → HasReady (contents_in self.now) n goroutine.now.content
            → HasManyClauses (program_in listing.now) (contents_in self.now) n) }
    {
        if !goroutine.is_select(&listing.code) {
            return Ok(Choice::Plain);
        }
        let Some(arms) = goroutine.arms(&listing.code) else {
            unreachable!()
        };
        let Some(frame) = goroutine.frame(0) else {
            unreachable!()
        };
        let cells = frame.cells();
        if !have_channels(cells, arms) {
            return Ok(Choice::Plain);
        }
        self.usual_of(cells, arms)
    }

    /// The choice of a ready goroutine: the one that is asked for, or its usual one where none is. It takes no memory. Out of
    /// memory stands for clauses whose number 32 bits do not hold.
    pub(crate) fn choice_meant(
        &self,
        listing: &Listing,
        goroutine: &Goroutine,
        choice: Option<Choice>,
    ) -> Result<Choice, NoMemory>
        requires coded { IsCoded listing.now }
        requires running { Running (program_in listing.now) (contents_in self.now) }
        requires ready { IsSomeReady (contents_in self.now) goroutine.now.content }
        ensures choice { IfOk result (λ meant. (n : List ℕ) → HasReady (contents_in self.now) n goroutine.now.content
            → event_meant (program_in listing.now) (state_in (program_in listing.now) (contents_in self.now)) n choice
            ≡ record { go = n; choice = meant }) }
        ensures refused { OnErr result (choice ≡ None) }
    {
        match choice {
            Some(choice) => Ok(choice),
            None => self.usual_choice_at(listing, goroutine),
        }
    }

    /// The choice of a goroutine where none is asked for: that which it has where it is ready, and else the plain one.
    pub fn usual_choice(&self, listing: &Listing, go: &GoName) -> Result<Choice, NoMemory>
        requires coded { IsCoded listing.now }
        requires running { Running (program_in listing.now) (contents_in self.now) }
        ensures choice { IfOk result (λ choice. choice
            ≡ usual_by_rules (program_in listing.now) (state_in (program_in listing.now) (contents_in self.now)) go.now) }
        ensures refused { OnErr result (HasManyClauses (program_in listing.now) (contents_in self.now) go.now) }
    {
        let Ok(ready) = self.ready_goroutine(go) else {
            return Ok(Choice::Plain);
        };
        self.usual_choice_at(listing, ready.goroutine)
    }
}
