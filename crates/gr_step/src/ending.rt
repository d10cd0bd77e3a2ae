//! The step of a goroutine that returns from its outermost frame.

ghost use Rattle.std.specs.Prelude.{◌≡◌, Some, None, IfOk, OnErr};
ghost use Rattle.gr_base.specs.declared.events.Choice.TheVariants as choices;
ghost use Rattle.gr_rules.specs.Outcomes.{faults};
ghost use Rattle.gr_rules.specs.Steps.{attempt};
ghost use Rattle.gr_goros.specs.Needs.{NeedIs};
ghost use Rattle.gr_tables.specs.NamedGoroutines.{At, CanEnd, seen_at};
ghost use Rattle.gr_step.specs.Beyonds.{HasEnded};
ghost use Rattle.gr_lower.specs.Lowered.{lowered};
ghost use Rattle.gr_record.specs.Listings.{program_in, IsCoded};
ghost use Rattle.gr_step.specs.Objects.{contents_in};
ghost use Rattle.gr_step.specs.Room.{HasRoom};
ghost use Rattle.gr_step.specs.Premises.{Acting, OfGoroutine};
ghost use Rattle.gr_record.specs.Taking.{Takes};
ghost use Rattle.gr_step.specs.Stepping.{MayAct, IsPlain, OfItsGoroutine, TakesStep, LeavesRoom, program_for};

use crate::faults::stopping;
use crate::objects::{Objects, Run};
use crate::turn::Turn;
use gr_base::{Event, Kind, NoMemory};
use gr_goros::{Halt, KeptUndo, LocalKind, Need};
use gr_record::Listing;
use gr_record::record::Change;

impl Objects {
    /// The goroutine is done, and with that of `main` the program ends (Go: Program execution). Refused, nothing has changed.
    pub(crate) fn exit(&mut self, turn: &Turn<'_>) -> Result<Change, NoMemory>
        requires may { MayAct turn.now self.old }
        requires plain { IsPlain turn.now }
        requires task { OfItsGoroutine turn.now self.old
            (λ g. NeedIs Need.Exit (lowered (program_for turn.now)) g) }
        ensures ok { IfOk result (TakesStep turn.now self.old self.new) }
        ensures room { IfOk result (LeavesRoom turn.now self.new) }
        ensures err { OnErr result (contents_in self.new ≡ contents_in self.old) }
    {
        if turn.event.go.is_main() {
            return self.end(turn.number);
        }
        let own = self.goroutines.halt(turn.number, Halt::Finished)?;
        Ok(Change::alone(LocalKind::Return, KeptUndo::new(own)))
    }

    /// The goroutine with a number is done, and the program ends. Refused, nothing has changed.
    fn end(&mut self, number: usize) -> Result<Change, NoMemory>
        requires { At (CanEnd Halt.Finished) (seen_at self.old.goroutines number) }
        ensures ok { IfOk result (λ change. HasEnded number change self.old self.new) }
        ensures err { OnErr result (contents_in self.new ≡ contents_in self.old) }
    {
        let nothing = Vec::new(self.alloc);
        let further = stopping(self.alloc, None, nothing)?;
        let own = self.goroutines.halt(number, Halt::Finished)?;
        self.run = Run::Ended;
        Ok(Change::further(Kind::Exit, own, further))
    }
}
