//! Steps of a select (Go: Select statements).

ghost use Rattle.std.specs.Prelude.{◌≡◌, [], ◌∷◌, true, false, Some, None, IfOk, OnErr, IfSome};
ghost use Rattle.std.specs.List.{list_all, flat_map};
ghost use Rattle.gr_base.specs.declared.events.Choice.TheVariants as choices;
ghost use Rattle.gr_base.specs.declared.kinds.Kind.TheVariants as kinds;
ghost use Rattle.gr_rules.specs.Outcomes.{gives};
ghost use Rattle.gr_rules.specs.Frames.{Frame};
ghost use Rattle.gr_rules.specs.Deeds as deeds;
ghost use Rattle.gr_rules.specs.Attempts.{no_such_choice, refuse};
ghost use Rattle.gr_rules.specs.Communications as rules;
ghost use Rattle.gr_rules.specs.Steps.{attempt};
ghost use Rattle.gr_rules.specs.Touches as touches;
ghost use Rattle.gr_laws.specs.Touched as laws;
ghost use Rattle.gr_code.specs.CodeFrames.{CodeFrame, Wants};
ghost use Rattle.gr_code.specs.CodeViews.{program_code_of};
ghost use Rattle.gr_code.specs.Goroutines.{task_of, Passes};
ghost use Rattle.gr_code.specs.Programs.{IsClause};
ghost use Rattle.gr_refine.specs.Arriving.{HasClauseHere};
ghost use Rattle.gr_refine.specs.Contents.{state_of};
ghost use Rattle.gr_refine.specs.Looks.{Ends};
ghost use Rattle.gr_refine.specs.Partners.{is_made_for};
ghost use Rattle.gr_goros.specs.Views.{communication_of, communications_of};
ghost use Rattle.gr_lower.specs.Lowered.{lowered};
ghost use Rattle.gr_tables.specs.NamedGoroutines.{At, Arrives, CanArrive, ChangesBy, seen_at};
ghost use Rattle.gr_step.specs.Beyonds.{ChangesObjects, Reaches, ReachesBeyond};
ghost use Rattle.gr_step.specs.Choices.{IsFaultOf, LooksAt};
ghost use Rattle.gr_record.specs.Listings.{program_in, frame_in, IsCoded};
ghost use Rattle.gr_step.specs.Objects.{contents_in};
ghost use Rattle.gr_step.specs.Room.{HasRoom};
ghost use Rattle.gr_step.specs.Premises.{Acting, OfGoroutine, OfActor};
ghost use Rattle.gr_record.specs.Taking.{Takes};
ghost use Rattle.gr_step.specs.Communicating.{Chosen};
ghost use Rattle.gr_step.specs.Stepping.{MayAct, OfItsGoroutine, AsksFor, TakesStep, HasChosen, LeavesRoom, program_for};
ghost use Rattle.gr_step.specs.Stepping.{event_for};

use crate::beyond::reached;
use crate::clauses::{default_clause, first_fault, take_clause};
use crate::objects::Objects;
use crate::sides::{each_once, sides};
use crate::turn::{Meeting, Turn};
use gr_base::{Choice, Event, Fault, Kind, NoMemory, Object};
use gr_goros::{Arrival, Clause};
use gr_record::Listing;
use gr_record::record::{Change, Further};
use std::alloc::Global;

/// What a step reaches beyond its goroutine that read these and wrote nothing.
fn reading(alloc: Global, reads: Vec<Object>) -> Result<Box<Further>, NoMemory>
    ensures { IfOk result (λ further. Reaches None reads.items [] false further.value.beyond) }
{
    reached(alloc, None, reads, Vec::new(alloc), false)
}

impl Objects {
    /// Takes the choice of the event, if it is possible here. It is a clause that can proceed, or the default clause, or a
    /// wait where none can proceed and there is no default clause. Refused, nothing has changed.
    pub(crate) fn select(
        &mut self,
        turn: &Turn<'_>,
        clauses: Vec<Clause>,
    ) -> Result<Option<Change>, NoMemory>
        requires may { MayAct turn.now self.old }
        requires task { AsksFor turn.now self.old (deeds.Chooses (communications_of clauses.items)) }
        ensures taken { IfOk result (HasChosen turn.now self.old self.new) }
        ensures room { IfOk result (λ change. IfSome change (LeavesRoom turn.now self.new)) }
        ensures err { OnErr result (contents_in self.new ≡ contents_in self.old) }
    {
        match turn.event.choice {
            Choice::Plain => Ok(None),
            Choice::Pick(case) => self.pick(turn, case, clauses),
            Choice::Default => self.take_default(turn, &clauses),
            Choice::Park => self.wait_for_any(turn, clauses),
        }
    }

    /// Picks a clause, if it can proceed. A value to send that is a fault is the fault of the step. Refused, nothing has
    /// changed.
    fn pick(
        &mut self,
        turn: &Turn<'_>,
        case: u32,
        clauses: Vec<Clause>,
    ) -> Result<Option<Change>, NoMemory>
        requires may { MayAct turn.now self.old }
        requires task { AsksFor turn.now self.old (deeds.Chooses (communications_of clauses.items)) }
        requires choice { (event_for turn.now).choice ≡ choices.Pick case }
        ensures taken { IfOk result (HasChosen turn.now self.old self.new) }
        ensures room { IfOk result (λ change. IfSome change (LeavesRoom turn.now self.new)) }
        ensures err { OnErr result (contents_in self.new ≡ contents_in self.old) }
    {
        let fault = first_fault(&clauses);
        let Some(clause) = take_clause(clauses, case) else {
            return Ok(None);
        };
        let Some(fault) = fault else {
            return self.communicate(turn, case, clause);
        };
        if !self.can_proceed(&clause) {
            return Ok(None);
        }
        let change = self.fail_at_select(turn, &[clause], fault)?;
        Ok(Some(change))
    }

    /// Does the communication of a clause, if it can proceed. The value that it sends, if it sends, is no fault. Refused,
    /// nothing has changed.
    fn communicate(
        &mut self,
        turn: &Turn<'_>,
        case: u32,
        clause: Clause,
    ) -> Result<Option<Change>, NoMemory>
        requires may { MayAct turn.now self.old }
        requires clause { OfItsGoroutine turn.now self.old (λ g. IsClause (Some case)
            × HasClauseHere (lowered (program_for turn.now)) g.frames (Some case)) }
        requires step { OfActor (program_for turn.now) (event_for turn.now) (contents_in self.old)
            (λ a. Ends (frame_in (program_for turn.now)) (contents_in self.old)
            (attempt (program_for turn.now) (event_for turn.now))
            (rules.communicate a (Some case) (communication_of clause) (refuse no_such_choice))) }
        ensures taken { IfOk result (HasChosen turn.now self.old self.new) }
        ensures room { IfOk result (λ change. IfSome change (LeavesRoom turn.now self.new)) }
        ensures err { OnErr result (contents_in self.new ≡ contents_in self.old) }
    {
        match clause {
            Clause::Default => Ok(None),
            Clause::Send { channel, value } => {
                let Some(channel) = channel else {
                    return Ok(None);
                };
                let Ok(value) = value else {
                    return Ok(None);
                };
                let meeting = Meeting {
                    turn: &*turn,
                    clause: Some(case),
                    channel: &channel,
                };
                self.send(&meeting, value)
            }
            Clause::Receive { channel, zero } => {
                let Some(channel) = channel else {
                    return Ok(None);
                };
                let meeting = Meeting {
                    turn: &*turn,
                    clause: Some(case),
                    channel: &channel,
                };
                self.receive(&meeting, zero)
            }
        }
    }

    /// Takes the default clause, if there is one and no clause can proceed. A value to send that is at fault is a fault of
    /// the step. Refused, nothing has changed.
    fn take_default(
        &mut self,
        turn: &Turn<'_>,
        clauses: &[Clause],
    ) -> Result<Option<Change>, NoMemory>
        requires may { MayAct turn.now self.old }
        requires task { AsksFor turn.now self.old (deeds.Chooses (communications_of clauses.now)) }
        requires choice { (event_for turn.now).choice ≡ choices.Default }
        ensures taken { IfOk result (HasChosen turn.now self.old self.new) }
        ensures room { IfOk result (λ change. IfSome change (LeavesRoom turn.now self.new)) }
        ensures err { OnErr result (contents_in self.new ≡ contents_in self.old) }
    {
        let Some(place) = default_clause(clauses) else {
            return Ok(None);
        };
        if self.any_can_proceed(clauses) {
            return Ok(None);
        }
        if let Some(fault) = first_fault(clauses) {
            let change = self.fail_at_select(turn, clauses, fault)?;
            return Ok(Some(change));
        }
        let Ok(case) = u32::try_from(place) else {
            return Err(NoMemory);
        };
        let reads = self.looked_at(clauses)?;
        let change = self.pass_default(turn.listing, turn.number, case, reads)?;
        Ok(Some(change))
    }

    /// Waits for any clause, if none can proceed and there is no default clause. A value to send that is at fault is a fault
    /// of the step. Refused, nothing has changed.
    fn wait_for_any(
        &mut self,
        turn: &Turn<'_>,
        clauses: Vec<Clause>,
    ) -> Result<Option<Change>, NoMemory>
        requires may { MayAct turn.now self.old }
        requires task { AsksFor turn.now self.old (deeds.Chooses (communications_of clauses.items)) }
        requires choice { (event_for turn.now).choice ≡ choices.Park }
        ensures taken { IfOk result (HasChosen turn.now self.old self.new) }
        ensures room { IfOk result (λ change. IfSome change (LeavesRoom turn.now self.new)) }
        ensures err { OnErr result (contents_in self.new ≡ contents_in self.old) }
    {
        if let Some(_) = default_clause(&clauses) {
            return Ok(None);
        }
        if self.any_can_proceed(&clauses) {
            return Ok(None);
        }
        if let Some(fault) = first_fault(&clauses) {
            let change = self.fail_at_select(turn, &clauses, fault)?;
            return Ok(Some(change));
        }
        let change = self.wait_in_select(turn, clauses)?;
        Ok(Some(change))
    }

    /// What it looks at to find whether these can proceed, each object once. Their channels are there.
    fn looked_at(&self, clauses: &[Clause]) -> Result<Vec<Object>, NoMemory>
        requires { list_all (is_made_for (contents_in self.now)) (communications_of clauses.now) ≡ true }
        ensures { IfOk result (λ objects. (frame : CodeFrame → Frame)
            → objects.items ≡ laws.each_once []
            (flat_map (touches.side (state_of frame (contents_in self.now))) (communications_of clauses.now))) }
    {
        let touched = sides(self.alloc, &self.channels, clauses)?;
        each_once(self.alloc, &[], &touched)
    }

    /// The fault of a value to send stops the program, where the choice looks at these clauses, whose channels are there.
    /// Refused, nothing has changed.
    fn fail_at_select(
        &mut self,
        turn: &Turn<'_>,
        clauses: &[Clause],
        fault: Fault,
    ) -> Result<Change, NoMemory>
        requires acting { Acting (program_for turn.now) (event_for turn.now) turn.now.number self.old }
        requires made { list_all (is_made_for (contents_in self.old)) (communications_of clauses.now) ≡ true }
        requires looks { OfItsGoroutine turn.now self.old
            (LooksAt (program_for turn.now) (event_for turn.now) (communications_of clauses.now)) }
        requires step { OfItsGoroutine turn.now self.old
            (λ g. IsFaultOf (program_for turn.now) (event_for turn.now) (contents_in self.old) g fault) }
        ensures ok { IfOk result (TakesStep turn.now self.old self.new) }
        ensures room { IfOk result (LeavesRoom turn.now self.new) }
        ensures err { OnErr result (contents_in self.new ≡ contents_in self.old) }
    {
        let reads = self.looked_at(clauses)?;
        self.fault(turn.number, fault, None, reads)
    }

    /// The goroutine with a number goes on in its default clause, having read these. Refused, nothing has changed.
    fn pass_default(
        &mut self,
        listing: &Listing,
        number: usize,
        case: u32,
        reads: Vec<Object>,
    ) -> Result<Change, NoMemory>
        requires { At (CanArrive (program_code_of listing.now.code.value) (Passes (Some case) None))
            (seen_at self.old.goroutines number) }
        ensures ok { IfOk result (λ change. (change.kind ≡ kinds.Default) × ReachesBeyond None reads.items [] false change
            × ChangesObjects (ChangesBy number
            (Arrives (program_code_of listing.now.code.value)
            (Passes (Some case) None) change.own)) self.old.run self.old self.new) }
        ensures err { OnErr result (contents_in self.new ≡ contents_in self.old) }
    {
        let further = reading(self.alloc, reads)?;
        let arrival = Arrival::Passes {
            clause: Some(case),
            got: None,
        };
        let own = self.goroutines.deliver(number, &listing.code, arrival)?;
        Ok(Change::further(Kind::Default, own, further))
    }
}
