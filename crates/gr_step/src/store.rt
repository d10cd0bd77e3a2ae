//! The store of a running program.

ghost use Rattle.std.specs.Prelude.{◌≡◌, ◌+◌, ◌-◌, ◌<◌, ◌^◌, min, option_copied, option_map, Some, None, IfOk, IfErr, IfSome};
ghost use Rattle.std.specs.Prelude.{OnOk, OnErr, IsOk, MatchOption};
ghost use Rattle.gr_program.specs.Views.{program_of};
ghost use Rattle.gr_code.specs.CodeViews.{program_code_of};
ghost use Rattle.gr_code.specs.Goroutines.{CodeGoroutine};
ghost use Rattle.gr_goros.specs.Undoing.{undone};
ghost use Rattle.gr_refine.specs.Contents.{Contents};
ghost use Rattle.gr_rules.specs.Tells.{ready_clauses, usual_choice as usual_by_rules};
ghost use Rattle.gr_step.specs.Choices.{HasManyClauses, usual_event, event_meant};
ghost use Rattle.gr_step.specs.Guard.{IsUp, Needs};
ghost use Rattle.gr_record.specs.Running.{IsChecked};
ghost use Rattle.gr_step.specs.Premises.{Acting, CanCount, OfGoroutine};
ghost use Rattle.gr_record.specs.Taking.{IsRecord};
ghost use Rattle.gr_step.specs.Refusals.{SaysWhy};
ghost use Rattle.gr_record.specs.Records.{event_of, taken_back, CanGoBack};

use crate::objects::{Objects, Run};
use crate::refusal::StepRefused;
use crate::turn::Turn;
use gr_base::{ChName, Choice, Event, GoName, NoMemory, StepId};
use gr_channels::Channel;
use gr_code::code::Code;
use gr_goros::{Goroutine, LocalKind, Need};
use gr_program::program::Program;
use gr_record::Listing;
use gr_record::record::{Change, Record};
use gr_tables::channels::Channels;
use gr_tables::goroutines::Goroutines;
use std::alloc::Global;
use std::sync::Arc;

/// The state of a running program, changed in place.
pub struct Store {
    pub(crate) listing: Listing,
    pub(crate) objects: Objects,
    pub(crate) taken: u64,
}

// Written out, so that crates above call it and need not prove it again.
impl Drop for Store {
    fn drop(self) {
        let Store {
            listing: _,
            objects: _,
            taken: _,
        } = self;
    }
}

impl Store {
    ghost use Rattle.gr_step.specs.Objects.{run_of};
    ghost use Rattle.gr_step.specs.Stores.{program_at, contents_at, state_at, taken_at, IsRun, IsStart, HasRoomFor, SameListing};

    /// A checked program before its first step. The one error is out of memory.
    pub fn start(alloc: Global, program: Arc<Program>) -> Result<Store, NoMemory>
        requires { IsChecked (program_of program.value) }
        ensures { IfOk result (λ store. IsStart (program_of program.value) store) }
    {
        let listing = Listing::new(alloc, program)?;
        let name = GoName::main(alloc)?;
        let arguments = Vec::new(alloc);
        let main = Goroutine::start(alloc, &listing.code, listing.code.main, arguments)?;
        let mut goroutines = Goroutines::new(alloc);
        let number = goroutines.know(&name)?;
        goroutines.put(number, main);
        let objects = Objects {
            run: Run::Live,
            goroutines,
            channels: Channels::new(alloc),
            alloc,
        };
        Ok(Store {
            listing,
            objects,
            taken: 0,
        })
    }

    /// Takes the step of an event, if it is one. Errors: the program is over; there is no such goroutine; it is done; it waits;
    /// the choice is not possible here: the first of these that holds. Out of memory only where it is a step. Refused, nothing
    /// has changed. The crates above call `step_meant`: this is for users of the library.
    pub fn step(&mut self, event: Event) -> Result<Record, StepRefused>
        requires run { IsRun self.old }
        requires counted { CanCount (contents_at self.old) }
        ensures step { IfOk result (λ r. IsRecord (program_at self.old) (contents_at self.old) r (contents_at self.new)) }
        ensures event { IfOk result (λ r. event_of r ≡ event) }
        ensures run { IsRun self.new }
        ensures room { IfOk result (λ r. HasRoomFor r self.new) }
        ensures why { IfErr result (SaysWhy (program_at self.old) (contents_at self.old) event) }
        ensures err { OnErr result (contents_at self.new ≡ contents_at self.old) }
        ensures taken { OnOk result (taken_at self.new ≡ min (taken_at self.old + 1) (2 ^ 64 - 1)) }
        ensures not_taken { OnErr result (taken_at self.new ≡ taken_at self.old) }
        ensures listing { SameListing self.old self.new }
    {
        self.step_meant(event.go, Some(event.choice))
    }

    /// Takes the step of a goroutine with its usual choice. At a select that is the lowest clause that can proceed, else the
    /// default clause, else to wait. Errors: the program is over; there is no such goroutine; it is done; it waits: the first
    /// of these that holds. Out of memory only where it is a step, and at a select of 2^32 clauses or more. Refused, nothing
    /// has changed. The crates above call `step_meant`: this is for users of the library.
    pub fn step_usual(&mut self, go: GoName) -> Result<Record, StepRefused>
        requires run { IsRun self.old }
        requires counted { CanCount (contents_at self.old) }
        ensures step { IfOk result (λ r. IsRecord (program_at self.old) (contents_at self.old) r (contents_at self.new)) }
        ensures event { IfOk result (λ r. event_of r ≡ usual_event (program_at self.old) (state_at self.old) go) }
        ensures run { IsRun self.new }
        ensures room { IfOk result (λ r. HasRoomFor r self.new) }
        ensures why { IfErr result (SaysWhy (program_at self.old) (contents_at self.old)
            (usual_event (program_at self.old) (state_at self.old) go)) }
        ensures err { OnErr result (contents_at self.new ≡ contents_at self.old) }
        ensures taken { OnOk result (taken_at self.new ≡ min (taken_at self.old + 1) (2 ^ 64 - 1)) }
        ensures not_taken { OnErr result (taken_at self.new ≡ taken_at self.old) }
        ensures listing { SameListing self.old self.new }
    {
        self.step_meant(go, None)
    }

    /// Takes the step of a goroutine with a choice, or with its usual one where none is given. The errors are those of `step`
    /// and of `step_usual`. Refused, nothing has changed. It is the one caller of the code that takes a step, which is then
    /// compiled into it.
    pub fn step_meant(&mut self, go: GoName, choice: Option<Choice>) -> Result<Record, StepRefused>
        requires run { IsRun self.old }
        requires counted { CanCount (contents_at self.old) }
        ensures step { IfOk result (λ r. IsRecord (program_at self.old) (contents_at self.old) r (contents_at self.new)) }
        ensures event { IfOk result (λ r. event_of r ≡ event_meant (program_at self.old) (state_at self.old) go choice) }
        ensures run { IsRun self.new }
        ensures room { IfOk result (λ r. HasRoomFor r self.new) }
        ensures why { IfErr result (SaysWhy (program_at self.old) (contents_at self.old)
            (event_meant (program_at self.old) (state_at self.old) go choice)) }
        ensures err { OnErr result (contents_at self.new ≡ contents_at self.old) }
        ensures taken { OnOk result (taken_at self.new ≡ min (taken_at self.old + 1) (2 ^ 64 - 1)) }
        ensures not_taken { OnErr result (taken_at self.new ≡ taken_at self.old) }
        ensures listing { SameListing self.old self.new }
    {
        let ready = self.objects.ready_goroutine(&go)?;
        let (number, ordinal) = (ready.number, ready.goroutine.steps() + 1);
        let choice = self
            .objects
            .choice_meant(&self.listing, ready.goroutine, choice)?;
        self.take(Event { go, choice }, number, ordinal)
    }

    /// Takes the step of an event, whose goroutine is ready: its number, and the ordinal of its next step. Refused, nothing has
    /// changed.
    fn take(&mut self, event: Event, number: usize, ordinal: u64) -> Result<Record, StepRefused>
        requires run { IsRun self.old }
        requires acting { Acting (program_at self.old) event number self.old.objects }
        requires ordinal { OfGoroutine event (contents_at self.old) (λ g. ordinal ≡ g.steps + 1) }
        ensures step { IfOk result (λ r. IsRecord (program_at self.old) (contents_at self.old) r (contents_at self.new)) }
        ensures event { IfOk result (λ r. event_of r ≡ event) }
        ensures run { IsRun self.new }
        ensures room { IfOk result (λ r. HasRoomFor r self.new) }
        ensures why { IfErr result (SaysWhy (program_at self.old) (contents_at self.old) event) }
        ensures err { OnErr result (contents_at self.new ≡ contents_at self.old) }
        ensures taken { OnOk result (taken_at self.new ≡ min (taken_at self.old + 1) (2 ^ 64 - 1)) }
        ensures not_taken { OnErr result (taken_at self.new ≡ taken_at self.old) }
        ensures listing { SameListing self.old self.new }
    {
        let turn = Turn {
            listing: &self.listing,
            event: &event,
            number,
        };
        let change = self.objects.take(&turn)?;
        self.taken = self.taken.saturating_add(1);
        Ok(Record {
            id: StepId {
                go: event.go,
                n: ordinal,
            },
            choice: event.choice,
            change,
        })
    }

    /// Takes the step of an event, if it is one over whole numbers alone; else nothing has changed, and the event is handed back.
    pub fn step_ints(&mut self, event: Event) -> Result<Record, Event>
        requires run { IsRun self.old }
        requires counted { CanCount (contents_at self.old) }
        ensures step { IfOk result (λ r. IsRecord (program_at self.old) (contents_at self.old) r (contents_at self.new)) }
        ensures event { IfOk result (λ r. event_of r ≡ event) }
        ensures alone { IfOk result (λ r. r.change.beyond ≡ None) }
        ensures stays { IfOk result (λ r. (g : CodeGoroutine) → (undone r.change.own g).status ≡ g.status) }
        ensures run { IsRun self.new }
        ensures room { IfOk result (λ r. HasRoomFor r self.new) }
        ensures returned { IfErr result (λ e. e ≡ event) }
        ensures err { OnErr result (contents_at self.new ≡ contents_at self.old) }
        ensures taken { OnOk result (taken_at self.new ≡ min (taken_at self.old + 1) (2 ^ 64 - 1)) }
        ensures not_taken { OnErr result (taken_at self.new ≡ taken_at self.old) }
        ensures listing { SameListing self.old self.new }
    {
        let Choice::Plain = event.choice else {
            return Err(event);
        };
        let Ok(number) = self.objects.number_of(&event.go) else {
            return Err(event);
        };
        let counted = self
            .objects
            .goroutines
            .step_ints(number, &self.listing.code);
        let Some((ordinal, own)) = counted else {
            return Err(event);
        };
        self.taken = self.taken.saturating_add(1);
        Ok(Record {
            id: StepId {
                go: event.go,
                n: ordinal,
            },
            choice: Choice::Plain,
            change: Change::alone(LocalKind::Pure, own),
        })
    }

    /// Takes the step of a record back, where what it wrote stands. It takes memory only where there is no room, as there is
    /// directly after the step. Then the contents are those before the step. Refused, nothing has changed, and the record is
    /// handed back.
    pub fn unstep(&mut self, step: Record) -> Result<Event, (Record, NoMemory)>
        requires { CanGoBack step.id.go step.change (contents_at self.old) }
        ensures back { OnOk result (contents_at self.new ≡ taken_back step.id.go step.change (contents_at self.old)) }
        ensures before { (s : Contents) → IsRecord (program_at self.old) s step (contents_at self.old)
            → OnOk result (contents_at self.new ≡ s) }
        ensures event { IfOk result (λ event. event ≡ event_of step) }
        ensures err { OnErr result (contents_at self.new ≡ contents_at self.old) }
        ensures returned { IfErr result (λ e. e.0 ≡ step) }
        ensures succeeds { HasRoomFor step self.old → IsOk result }
        ensures taken { taken_at self.new ≡ taken_at self.old }
        ensures listing { SameListing self.old self.new }
    {
        let Record { id, choice, change } = step;
        match self.objects.undo_change(&id.go, change) {
            Ok(()) => Ok(Event { go: id.go, choice }),
            Err((change, error)) => Err((Record { id, choice, change }, error)),
        }
    }

    /// What the next step of a goroutine asks for. There is none where the program does not run, or the goroutine is not there or
    /// not ready. The crates above do not call it: it is for users of the library.
    pub fn need(&self, go: &GoName) -> Result<Option<Need>, NoMemory>
        requires { IsRun self.now }
        ensures { IfOk result (λ o. MatchOption o (¬ IsUp (contents_at self.now) go.now)
            (λ need. Needs (program_at self.now) (contents_at self.now) go.now need)) }
    {
        self.objects.need(&self.listing, go)
    }

    /// The clauses that a goroutine may pick, by their numbers from 1: none, where it does not stand ready at a select. The
    /// crates above do not call it: it is for users of the library.
    pub fn ready_cases(&self, go: &GoName) -> Result<Vec<u32>, NoMemory>
        requires { IsRun self.now }
        ensures { IfOk result (λ cases. cases.items ≡ ready_clauses (program_at self.now) (state_at self.now) go.now) }
    {
        self.objects.ready_cases(&self.listing, go)
    }

    /// The choice of a goroutine where none is asked for. At a select that is the lowest clause that can proceed, else the
    /// default clause, else to wait. It takes no memory, and is refused only at a select of 2^32 clauses or more. The crates
    /// above do not call it: it is for users of the library.
    pub fn usual_choice(&self, go: &GoName) -> Result<Choice, NoMemory>
        requires { IsRun self.now }
        ensures choice { IfOk result (λ choice. choice ≡ usual_by_rules (program_at self.now) (state_at self.now) go.now) }
        ensures refused { OnErr result (HasManyClauses (program_at self.now) (contents_at self.now) go.now) }
    {
        self.objects.usual_choice(&self.listing, go)
    }

    /// Whether the program runs.
    pub fn run(&self) -> Run
        ensures { run_of result ≡ (contents_at self.now).run }
    {
        self.objects.run
    }

    /// The goroutine of a name, if there is one.
    #[inline(always)]
    pub fn goroutine(&self, go: &GoName) -> Option<&Goroutine>
        ensures { option_map (λ g. g.content) (option_copied result) ≡ (contents_at self.now).goroutines go.now }
    {
        let number = self.objects.goroutines.number(go)?;
        self.objects.goroutines.get(number)
    }

    /// The store's own name of a goroutine, which is equal to the one given, if there is such a goroutine.
    pub fn name_of(&self, go: &GoName) -> Option<&GoName>
        ensures { option_copied result ≡ option_map (λ _. go.now) ((contents_at self.now).goroutines go.now) }
    {
        let number = self.objects.goroutines.number(go)?;
        self.objects.goroutines.name(number)
    }

    /// The channel of a name, if there is one.
    pub fn channel(&self, channel: &ChName) -> Option<&Channel>
        ensures { option_map (λ c. c.content) (option_copied result) ≡ (contents_at self.now).channels channel.now }
    {
        self.objects.channels.get(channel)
    }

    /// The program that runs.
    pub fn program(&self) -> &Program
        ensures { program_of result.now ≡ program_at self.now }
    {
        &self.listing.program
    }

    /// The code that runs.
    pub fn code(&self) -> &Code
        ensures { program_code_of result.now ≡ program_code_of self.now.listing.code.value }
    {
        &self.listing.code
    }

    /// How many steps were taken; it stays at the greatest number of 64 bits. What takes steps back leaves it as it is, so it
    /// shows that nothing is replayed. The crates above do not call it: it is for users of the library.
    pub fn taken(&self) -> u64
        ensures { result ≡ taken_at self.now }
    {
        self.taken
    }
}
