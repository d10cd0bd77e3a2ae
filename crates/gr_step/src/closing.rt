//! The step that closes a channel (Go: Close).

ghost use Rattle.std.specs.Prelude.{◌≡◌, ◌∷◌, [], ◌++◌, ℕ, List, map, true, false, Some, None, IfOk, OnOk, OnErr};
ghost use Rattle.std.specs.List.{list_all};
ghost use Rattle.gr_base.specs.declared.events.Choice.TheVariants as choices;
ghost use Rattle.gr_rules.specs.Outcomes.{gives};
ghost use Rattle.gr_rules.specs.Deeds as deeds;
ghost use Rattle.gr_rules.specs.Steps.{attempt};
ghost use Rattle.gr_code.specs.CodeFrames.{Wants};
ghost use Rattle.gr_code.specs.Goroutines.{task_of};
ghost use Rattle.gr_lower.specs.Lowered.{lowered};
ghost use Rattle.gr_record.specs.Listings.{program_in, IsCoded};
ghost use Rattle.gr_step.specs.Objects.{contents_in};
ghost use Rattle.gr_base.specs.declared.kinds.Fault.TheVariants as faulted;
ghost use Rattle.gr_base.specs.declared.objects.Object as objects_touched;
ghost use Rattle.gr_base.specs.declared.objects.Object.TheVariants as objects;
ghost use Rattle.gr_base.specs.declared.kinds.Kind.TheVariants as kinds;
ghost use Rattle.gr_rules.specs.Attempts.{closes};
ghost use Rattle.gr_step.specs.Passing.{Tells};
ghost use Rattle.gr_base.specs.declared.names.ChName.{ChName};
ghost use Rattle.gr_channels.specs.Channels.{Content};
ghost use Rattle.gr_code.specs.CodeViews.{program_code_of};
ghost use Rattle.gr_code.specs.Goroutines.{CodeGoroutine, Completion};
ghost use Rattle.gr_refine.specs.Closing.{waiting_on};
ghost use Rattle.gr_tables.specs.NamedChannels.{contents_of, At, IsOpen};
ghost use Rattle.gr_tables.specs.NamedGoroutines.{goroutines_of, name_at, seen_at, CanArrive, IsCounted};
ghost use Rattle.gr_record.specs.declared.record.Operation.TheVariants as Operation;
ghost use Rattle.gr_step.specs.Beyonds.{Reaches, Stops};
ghost use Rattle.gr_step.specs.Wakes.{is_live_there, written_by_close, Closing};
ghost use Rattle.gr_step.specs.Room.{HasRoom};
ghost use Rattle.gr_step.specs.Premises.{Acting, OfGoroutine};
ghost use Rattle.gr_record.specs.Taking.{Takes};
ghost use Rattle.gr_step.specs.Stepping.{MayAct, IsPlain, AsksFor, TakesStep, LeavesRoom, event_for, code_for};

use crate::awaiting::waiting_on;
use crate::beyond::{reached, with_changes};
use crate::objects::Objects;
use crate::touching::{gate_side, push_gates};
use crate::turn::Turn;
use crate::waking::{all_channels, shut, wake_each};
use gr_base::{ChName, Event, Fault, GoName, Kind, NoMemory, Object};
use gr_channels::ChanUndo;
use gr_goros::{Arrival, GoUndo, KeptUndo};
use gr_record::record::{Change, Further, Operation};
use gr_record::{Few, Listing};
use gr_tables::goroutines::Goroutines;
use std::alloc::Global;

/// Adds goroutines with these names.
fn push_goroutines(
    alloc: Global,
    touched: &mut Vec<Object>,
    names: &[GoName],
) -> Result<(), NoMemory>
    ensures { OnOk result (touched.new.items ≡ touched.old.items ++ map objects.Go names.now) }
{
    for name in names {
        touched.push(Object::Go(name.copy(alloc)?))?;
    }
    Ok(())
}

/// What a close of the first of these channels writes, where these goroutines wait on it, and on the others.
fn written(alloc: Global, names: &[GoName], channels: &[ChName]) -> Result<Vec<Object>, NoMemory>
    ensures { IfOk result (λ written. (c : ChName) (others : List ChName) → channels.now ≡ c ∷ others
        → written.items ≡ objects.Gate c ∷ map objects.Go names.now ++ map objects.Gate others) }
{
    let mut written = Vec::new(alloc);
    let Some((channel, others)) = channels.split_first() else {
        return Ok(written);
    };
    written.push(Object::Gate(channel.copy(alloc)?))?;
    push_goroutines(alloc, &mut written, names)?;
    push_gates(alloc, &mut written, others)?;
    Ok(written)
}

/// What a close of a channel reaches, on which these goroutines wait, but for its changes.
fn beyond_close(
    alloc: Global,
    goroutines: &Goroutines,
    channel: &ChName,
    names: &[GoName],
) -> Result<Box<Further>, NoMemory>
    ensures { IfOk result (λ further. Reaches (Some (Operation.Closes channel.now)) []
        (written_by_close channel.now (goroutines_of goroutines.now) names.now) false further.value.beyond) }
{
    let channels = all_channels(alloc, goroutines, channel, names)?;
    let writes = written(alloc, names, &channels)?;
    let operation = Operation::Closes(channel.copy(alloc)?);
    reached(alloc, Some(operation), Vec::new(alloc), writes, false)
}

/// The change of a close, from what it reaches, with its changes of goroutines and of channels.
fn closed(
    own: GoUndo,
    further: Box<Further>,
    met: Vec<(GoName, KeptUndo)>,
    channels: Vec<(ChName, ChanUndo)>,
) -> Change
    ensures own { result.own ≡ own }
    ensures told { (c : ChName) (writes : List objects_touched.Object)
        → Reaches (Some (Operation.Closes c)) [] writes false further.value.beyond
        → Tells result kinds.Close (Some (closes c)) [] writes own met.items channels.items }
{
    let further = with_changes(further, Few::of_many(met), Few::of_many(channels));
    Change::further(Kind::Close, own, further)
}

impl Objects {
    /// Closes a channel that is open, on which all that wait are ready again. Refused, nothing has changed.
    fn close_open(&mut self, turn: &Turn<'_>, channel: &ChName) -> Result<Change, NoMemory>
        requires open { At IsOpen (contents_of self.old.channels channel.now) }
        requires arrives { At (CanArrive (code_for turn.now) Completion)
            (seen_at self.old.goroutines turn.now.number) }
        requires named { name_at self.old.goroutines turn.now.number ≡ Some (event_for turn.now).go }
        requires live { (x : Content) → contents_of self.old.channels channel.now ≡ Some x
            → list_all (λ n. is_live_there (goroutines_of self.old.goroutines n)) (waiting_on x) ≡ true }
        ensures ok { IfOk result (λ change. (x : Content) → contents_of self.old.channels channel.now ≡ Some x
            → Closing (code_for turn.now) (event_for turn.now) channel.now x change self.old self.new) }
        ensures err { OnErr result (contents_in self.new ≡ contents_in self.old) }
    {
        let alloc = self.alloc;
        let names = waiting_on(alloc, self.channels.get(channel).unwrap())?;
        let further = beyond_close(alloc, &self.goroutines, channel, &names)?;
        let met = Vec::with_capacity(alloc, names.len())?;
        let undos = shut(&mut self.channels, alloc, &self.goroutines, channel, &names)?;
        let arrives = self
            .goroutines
            .deliver(turn.number, &turn.listing.code, Arrival::Completion);
        let own = match arrives {
            Ok(own) => own,
            Err(error) => {
                self.channels.put_all_back(undos);
                return Err(error);
            }
        };
        let met = wake_each(&mut self.goroutines, names, met);
        Ok(closed(own, further, met, undos))
    }

    /// The fault of closing a channel that is closed. Refused, nothing has changed.
    fn close_twice(&mut self, number: usize, channel: &ChName) -> Result<Change, NoMemory>
        requires { At IsCounted (seen_at self.old.goroutines number) }
        ensures ok { IfOk result (λ change. (n : List ℕ) (g : CodeGoroutine) → name_at self.old.goroutines number ≡ Some n
            → (contents_in self.old).goroutines n ≡ Some g
            → Stops n faulted.CloseOfClosed (Some (Operation.Closes channel.now)) (objects.Gate channel.now ∷ [])
            (contents_in self.old) g change (contents_in self.new)) }
        ensures room { IfOk result (λ change. (n : List ℕ) → HasRoom n change self.new) }
        ensures err { OnErr result (contents_in self.new ≡ contents_in self.old) }
    {
        let alloc = self.alloc;
        let operation = Operation::Closes(channel.copy(alloc)?);
        let reads = gate_side(alloc, channel)?;
        self.fault(number, Fault::CloseOfClosed, Some(operation), reads)
    }

    /// Closes a channel, on which all that wait are ready again; it may be a fault. Refused, nothing has changed.
    pub(crate) fn close(
        &mut self,
        turn: &Turn<'_>,
        channel: Option<ChName>,
    ) -> Result<Change, NoMemory>
        requires may { MayAct turn.now self.old }
        requires plain { IsPlain turn.now }
        requires task { AsksFor turn.now self.old (deeds.Closes channel) }
        ensures ok { IfOk result (TakesStep turn.now self.old self.new) }
        ensures room { IfOk result (LeavesRoom turn.now self.new) }
        ensures err { OnErr result (contents_in self.new ≡ contents_in self.old) }
    {
        let Some(channel) = channel else {
            return self.plain_fault(turn.number, Fault::CloseOfNil);
        };
        if self.channels.get(&channel).unwrap().is_closed() {
            return self.close_twice(turn.number, &channel);
        }
        self.close_open(turn, &channel)
    }
}
