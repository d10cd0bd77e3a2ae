//! Local steps of a goroutine, and faults.

ghost use Rattle.std.specs.Prelude.{◌≡◌, true, false, None, IfOk, OnErr};
ghost use Rattle.gr_base.specs.declared.events.Choice.TheVariants as choices;
ghost use Rattle.gr_rules.specs.Outcomes.{faults};
ghost use Rattle.gr_rules.specs.Steps.{attempt};
ghost use Rattle.gr_code.specs.Goroutines.{task_of, is_local};
ghost use Rattle.gr_lower.specs.Lowered.{lowered};
ghost use Rattle.gr_record.specs.Listings.{program_in, IsCoded};
ghost use Rattle.gr_step.specs.Objects.{contents_in};
ghost use Rattle.gr_step.specs.Room.{HasRoom};
ghost use Rattle.gr_step.specs.Premises.{Acting, OfGoroutine};
ghost use Rattle.gr_record.specs.Taking.{Takes};
ghost use Rattle.gr_step.specs.Stepping.{MayAct, IsPlain, OfItsGoroutine, TakesStep, LeavesRoom, program_for};

use crate::objects::Objects;
use crate::turn::Turn;
use gr_base::{Event, Fault, NoMemory};
use gr_goros::LocalKind;
use gr_record::Listing;
use gr_record::record::Change;

impl Objects {
    /// A step that reaches no further than its goroutine; it may be a fault, which stops the program. Refused, nothing has
    /// changed.
    pub(crate) fn local(&mut self, turn: &Turn<'_>) -> Result<Change, NoMemory>
        requires may { MayAct turn.now self.old }
        requires plain { IsPlain turn.now }
        requires task { OfItsGoroutine turn.now self.old (λ g. is_local (lowered (program_for turn.now)) g ≡ true) }
        ensures ok { IfOk result (TakesStep turn.now self.old self.new) }
        ensures room { IfOk result (LeavesRoom turn.now self.new) }
        ensures err { OnErr result (contents_in self.new ≡ contents_in self.old) }
    {
        let (kind, own) = self.goroutines.local_step(turn.number, &turn.listing.code)?;
        if let LocalKind::Fault(fault) = kind {
            return self.stop(turn.number, fault, own.get());
        }
        Ok(Change::alone(kind, own))
    }

    /// A step whose operands are at fault, which stops the program. Refused, nothing has changed.
    pub(crate) fn fail(&mut self, turn: &Turn<'_>, fault: Fault) -> Result<Change, NoMemory>
        requires may { MayAct turn.now self.old }
        requires plain { IsPlain turn.now }
        requires task { OfItsGoroutine turn.now self.old (λ g. (is_local (lowered (program_for turn.now)) g ≡ false)
            × (task_of (lowered (program_for turn.now)) g ≡ faults fault)) }
        ensures ok { IfOk result (TakesStep turn.now self.old self.new) }
        ensures room { IfOk result (LeavesRoom turn.now self.new) }
        ensures err { OnErr result (contents_in self.new ≡ contents_in self.old) }
    {
        self.plain_fault(turn.number, fault)
    }
}
