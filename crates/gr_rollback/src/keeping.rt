//! Steps that join the log, and the last record of the log, whose step is taken back.

ghost use Rattle.std.specs.Prelude.{◌≡◌, ◌≤◌, ◌++◌, ◌∷◌, [], length, IfOk, OnOk, IfErr, OnErr};
ghost use Rattle.std.specs.Option.{option_to_list};
ghost use Rattle.gr_causal.specs.Sequences.{Distinct};
ghost use Rattle.gr_program.specs.Programs.{Program};
ghost use Rattle.gr_step.specs.Conflicts.{touched_by};
ghost use Rattle.gr_step.specs.Records.{begun_by, event_of, taken_back, CanGoBack};
ghost use Rattle.gr_step.specs.Stores.{contents_at, taken_at, SameListing, HasRoomFor};
ghost use Rattle.gr_depend.specs.Logs.{records_of};
ghost use Rattle.gr_rollback.specs.Readiness.{HasReady, KnowsMore, AllKnown};
ghost use Rattle.gr_rollback.specs.Stepping.{event_meant, one_more, MayCount};

use crate::LOG_LIMIT;
use crate::bringing::bring_step_back;
use crate::course::Course;
use crate::readiness::{know_child, settle_again, settle_taken};
use crate::stepped::Stepped;
use gr_base::{Choice, Event, GoName, NoMemory};
use gr_depend::Log;
use gr_pool::Pool;
use gr_step::{Record, StepRefused, Store};

/// Takes a step back directly after it, which takes no memory.
fn withdraw(store: &mut Store, step: Record)
    requires fits { CanGoBack step.id.go step.change (contents_at store.old) }
    requires room { HasRoomFor step store.old }
    ensures back { contents_at store.new ≡ taken_back step.id.go step.change (contents_at store.old) }
    ensures taken { taken_at store.new ≡ taken_at store.old }
    ensures listing { SameListing store.old store.new }
{
    let _ = store.unstep(step);
}

/// Lets the record of a step join the log, and makes the goroutine known that the step started. Refused, the record is handed
/// back, and no record has changed.
fn enter(log: &mut Log, pool: &mut Pool, step: Record) -> Result<(), Record>
    requires { Distinct (touched_by step) }
    ensures ok { OnOk result (records_of log.new ≡ records_of log.old ++ step ∷ []) }
    ensures short { OnOk result (length (records_of log.new) ≤ LOG_LIMIT) }
    ensures child { OnOk result (AllKnown (option_to_list (begun_by step.change)) pool.new) }
    ensures err { OnErr result (records_of log.new ≡ records_of log.old) }
    ensures handed_back { IfErr result (λ handed. handed ≡ step) }
    ensures more { KnowsMore pool.old pool.new }
    ensures ready { pool.new.ready ≡ pool.old.ready }
{
    if log.len() >= LOG_LIMIT {
        return Err(step);
    }
    if let Err(NoMemory) = know_child(pool, &step.change) {
        return Err(step);
    }
    match log.push(step) {
        Ok(()) => Ok(()),
        Err((step, NoMemory)) => Err(step),
    }
}

/// Takes a step back whose record has left the log. Refused, the record is handed back, and nothing has changed.
fn undo_record(store: &mut Store, pool: &mut Pool, step: Record) -> Result<Event, Record>
    requires fits { CanGoBack step.id.go step.change (contents_at store.old) }
    requires ready { HasReady pool.old (contents_at store.old) }
    ensures back { OnOk result (contents_at store.new ≡ taken_back step.id.go step.change (contents_at store.old)) }
    ensures event { IfOk result (λ event. event ≡ event_of step) }
    ensures err { OnErr result (contents_at store.new ≡ contents_at store.old) }
    ensures returned { IfErr result (λ handed. handed ≡ step) }
    ensures listing { SameListing store.old store.new }
    ensures taken { taken_at store.new ≡ taken_at store.old }
    ensures ready { HasReady pool.new (contents_at store.new) }
{
    bring_step_back(pool, &step);
    match store.unstep(step) {
        Ok(event) => Ok(event),
        Err((step, NoMemory)) => {
            settle_again(pool, store, &step);
            Err(step)
        }
    }
}

impl Course {
    ghost use Rattle.gr_rollback.specs.Pasts.{Past};
    ghost use Rattle.gr_rollback.specs.Courses.{IsCourse, Holds};
    ghost use Rattle.gr_rollback.specs.Joined.{Joined};
    ghost use Rattle.gr_rollback.specs.Steps.{Kept};
    ghost use Rattle.gr_rollback.specs.Retracting.{LastGoesBack, Retracts, SameCourse, KeepsLogRoom};

    /// Takes the step of a goroutine with a choice, or with its usual one where none is given. Its record joins the log.
    /// Refused, nothing has changed. A step over whole numbers alone is looked for first, since most steps are such. It leaves
    /// no choice, its goroutine is ready after it, and it reaches no other. This is the one caller of each of the two ways, so
    /// that both are compiled into it.
    pub(crate) fn keep(
        &mut self,
        go: GoName,
        choice: Option<Choice>,
    ) -> Result<Stepped, StepRefused>
        requires { IsCourse self.old }
        ensures kept { (p : Program) (w : Past p) → Holds p w self.old
            → Kept p w (event_meant p w.state go choice) result self.new }
        ensures taken { OnOk result (taken_at self.new.store ≡ one_more (taken_at self.old.store)) }
        ensures not_taken { IfErr result (λ why. MayCount why (taken_at self.old.store) (taken_at self.new.store)) }
        ensures err { OnErr result (contents_at self.new.store ≡ contents_at self.old.store) }
        ensures listing { SameListing self.old.store self.new.store }
    {
        let event = Event {
            go,
            choice: choice.unwrap_or(Choice::Plain),
        };
        match self.store.step_ints(event) {
            Ok(step) => self.join(step),
            Err(event) => self.keep_further(event.go, choice),
        }
    }

    /// Lets the record of a step that reached no further than its goroutine join the log. Refused, the step is taken back.
    fn join(&mut self, step: Record) -> Result<Stepped, StepRefused>
        requires fits { CanGoBack step.id.go step.change (contents_at self.old.store) }
        requires room { HasRoomFor step self.old.store }
        requires once { Distinct (touched_by step) }
        ensures joined { Joined self.old step result self.new }
        ensures taken { taken_at self.new.store ≡ taken_at self.old.store }
    {
        if self.log.len() >= LOG_LIMIT {
            withdraw(&mut self.store, step);
            return Err(StepRefused::NoMemory);
        }
        let told = Stepped::of(&step);
        match self.log.push(step) {
            Ok(()) => Ok(told),
            Err((step, _)) => {
                withdraw(&mut self.store, step);
                Err(StepRefused::NoMemory)
            }
        }
    }

    /// Takes the step that is asked for, of whatever kind it is, whose record joins the log. Refused, nothing has changed.
    fn keep_further(&mut self, go: GoName, choice: Option<Choice>) -> Result<Stepped, StepRefused>
        requires { IsCourse self.old }
        ensures kept { (p : Program) (w : Past p) → Holds p w self.old
            → Kept p w (event_meant p w.state go choice) result self.new }
        ensures taken { OnOk result (taken_at self.new.store ≡ one_more (taken_at self.old.store)) }
        ensures not_taken { IfErr result (λ why. MayCount why (taken_at self.old.store) (taken_at self.new.store)) }
        ensures err { OnErr result (contents_at self.new.store ≡ contents_at self.old.store) }
        ensures listing { SameListing self.old.store self.new.store }
    {
        let step = self.store.step_meant(go, choice)?;
        let told = Stepped::of(&step);
        let entered = enter(&mut self.log, &mut self.pool, step);
        if let Err(step) = entered {
            withdraw(&mut self.store, step);
            return Err(StepRefused::NoMemory);
        }
        if let Some(last) = self.log.last() {
            settle_taken(&mut self.pool, &self.store, last);
        }
        Ok(told)
    }

    /// Takes the last record out of the log, and its step back. Refused, nothing has changed.
    pub(crate) fn retract(&mut self) -> Result<Event, NoMemory>
        requires { LastGoesBack self.old }
        ensures ok { IfOk result (λ event. Retracts self.old event self.new) }
        ensures err { OnErr result (SameCourse self.old self.new) }
        ensures room { OnErr result (KeepsLogRoom self.old self.new) }
        ensures taken { taken_at self.new.store ≡ taken_at self.old.store }
        ensures listing { SameListing self.old.store self.new.store }
    {
        let Some(step) = self.log.pop() else {
            return Err(NoMemory);
        };
        match undo_record(&mut self.store, &mut self.pool, step) {
            Ok(event) => Ok(event),
            Err(step) => {
                self.log.push(step).unwrap();
                Err(NoMemory)
            }
        }
    }
}
