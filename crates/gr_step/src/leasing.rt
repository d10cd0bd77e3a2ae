//! Steps that a goroutine takes on a copy of it, away from its store.

ghost use Rattle.std.specs.Prelude.{◌≡◌, ◌↔◌, [], length, Some, IfOk, OnErr, IfSome, IfNone, IsTrue, IsFalse};
ghost use Rattle.std.specs.Prelude.{ℕ, List};
ghost use Rattle.gr_program.specs.Programs.{Program};
ghost use Rattle.gr_rules.specs.Goroutines.{ready};
ghost use Rattle.gr_rules.specs.States.{live};
ghost use Rattle.gr_code.specs.Goroutines.{CodeGoroutine};
ghost use Rattle.gr_refine.specs.Contents.{Contents};
ghost use Rattle.gr_refine.specs.Partners.{AreChannels};
ghost use Rattle.gr_lower.specs.Lowered.{lowered};
ghost use Rattle.gr_record.specs.declared.record.Record.{Record as RecordSeen};
ghost use Rattle.gr_record.specs.Running.{Running};
ghost use Rattle.gr_refine.specs.Contents.{with_goroutine};
ghost use Rattle.gr_step.specs.Leasing.{IsLease, SameLoan, LeadsOn, Stays, CanLeadOn, IsLoanOf, IsAsLent};
ghost use Rattle.gr_step.specs.Guard.{IsUp};
ghost use Rattle.gr_step.specs.Leasing.{Walk, AreRecords, loan_of, loan_kept, name_lent, records_led, program_lent};
ghost use Rattle.gr_step.specs.Leasing.{goroutine_led_to, goes_alone};

use crate::store::Store;
use gr_base::{Choice, GoName, NoMemory, StepId};
use gr_goros::{Goroutine, LocalKind};
use gr_record::Listing;
use gr_record::record::{Change, Record};
use std::alloc::Global;
use std::mem;

/// What is kept of the steps that a goroutine took on its copy: the program, the goroutine's name, the goroutine as it was
/// lent, and the number of steps.
pub struct LocalRun {
    pub(crate) lent: Box<Lent>,
    pub(crate) len: usize,
}

// Written out, so that crates above call it and need not prove it again.
impl Drop for LocalRun {
    fn drop(self) {
        let LocalRun { lent: _, len: _ } = self;
    }
}

/// What was lent. It lies in a box, so that a list of entries takes no room for it where an entry is no batch.
#[derive(Drop)]
pub(crate) struct Lent {
    pub(crate) listing: Listing,
    pub(crate) go: GoName,
    pub(crate) goroutine: Goroutine,
}

impl LocalRun {
    /// The name of the goroutine.
    pub fn go(&self) -> &GoName
        ensures { result.now ≡ (loan_kept self.now).name }
    {
        &self.lent.go
    }

    /// How many steps it took.
    pub fn len(&self) -> usize
        ensures { result ≡ (loan_kept self.now).steps }
    {
        self.len
    }
}

/// A copy of a goroutine, with the steps that it took by itself since it was lent.
pub struct LentCopy {
    pub(crate) batch: LocalRun,
    /// The goroutine after its steps.
    pub(crate) reached: Goroutine,
    pub(crate) records: Vec<Record>,
}

// Written out, so that crates above call it and need not prove it again.
impl Drop for LentCopy {
    fn drop(self) {
        let LentCopy {
            batch: _,
            reached: _,
            records: _,
        } = self;
    }
}

impl LentCopy {
    /// The name of its goroutine.
    pub fn go(&self) -> &GoName
        ensures { result.now ≡ (loan_of self.now).name }
    {
        self.batch.go()
    }

    /// How many steps it took.
    pub fn len(&self) -> usize
        ensures { result ≡ (loan_of self.now).steps }
    {
        self.batch.len()
    }

    /// What is kept of it.
    pub fn into_run(self) -> LocalRun
        ensures { loan_kept result ≡ loan_of self }
    {
        let LentCopy {
            batch,
            reached: _,
            records: _,
        } = self;
        batch
    }

    /// Takes the records of its steps out.
    pub fn take_records(&mut self, alloc: Global) -> Vec<Record>
        ensures records { result.items ≡ records_led self.old }
        ensures none { records_led self.new ≡ [] }
        ensures loan { loan_of self.new ≡ loan_of self.old }
        ensures reached { goroutine_led_to self.new ≡ goroutine_led_to self.old }
    {
        mem::replace(&mut self.records, Vec::new(alloc))
    }

    /// Takes the next step of the goroutine, if it has one that is local and no fault, and tells whether it has. Refused, or
    /// where it has none, nothing has changed.
    pub fn step(&mut self, alloc: Global) -> Result<bool, NoMemory>
        requires { IsLease self.old }
        ensures lease { IsLease self.new }
        ensures loan { SameLoan self.old self.new }
        ensures goes { IfOk result (λ goes. IsTrue goes → LeadsOn self.old self.new) }
        ensures none { IfOk result (λ goes. IsFalse goes → ¬ CanLeadOn self.old) }
        ensures stays { IfOk result (λ goes. IsFalse goes → Stays self.old self.new) }
        ensures err { OnErr result (Stays self.old self.new) }
    {
        if self.reached.steps() == u64::MAX
            || !self.reached.is_local(&self.batch.lent.listing.code)
        {
            return Ok(false);
        }
        self.records.reserve(1)?;
        let id = StepId {
            go: self.batch.lent.go.copy(alloc)?,
            n: self.reached.steps() + 1,
        };
        let (kind, own) = self
            .reached
            .local_step(alloc, &self.batch.lent.listing.code)?;
        if let LocalKind::Fault(_) = kind {
            let _ = self.reached.undo(own.get());
            return Ok(false);
        }
        self.records.push_reserved(Record {
            id,
            choice: Choice::Plain,
            change: Change::alone(kind, own),
        });
        self.batch.len = self.records.len();
        Ok(true)
    }
}

/// A name equal to this one, whose counts no other name shares. Each record of a step on the copy shares them. So their
/// reference count lies in memory that no other thread writes.
fn own_name(alloc: Global, go: &GoName) -> Result<GoName, NoMemory>
    ensures { IfOk result (λ name. name ≡ go.now) }
{
    let mut name = GoName::main(alloc)?;
    let mut left = go.counts();
    while let [count, rest @ ..] = left {
        name = name.child(alloc, *count)?;
        left = rest;
    }
    Ok(name)
}

impl Store {
    ghost use Rattle.gr_step.specs.Stores.{IsRun, SameListing, contents_at, program_at, state_at, taken_at};

    /// Whether the program runs and the next step of a goroutine is local. It takes no memory.
    pub fn has_own_step(&self, go: &GoName) -> bool
        requires { IsRun self.now }
        ensures { result ≡ goes_alone (state_at self.now) go.now }
    {
        match self.objects.ready_goroutine(go) {
            Ok(ready) => ready.goroutine.goes_alone(&self.listing.code),
            Err(_) => false,
        }
    }

    /// A copy of a goroutine, to take steps of its own; `None` where it is not ready, or the program does not run.
    pub fn lend(&self, alloc: Global, go: &GoName) -> Result<Option<LentCopy>, NoMemory>
        requires { IsRun self.now }
        ensures lease { IfOk result (λ o. IfSome o (λ l. IsLease l × IsLoanOf self.now go.now l)) }
        ensures none { IfOk result (λ o. IfNone o (¬ IsUp (contents_at self.now) go.now)) }
    {
        let Ok(ready) = self.objects.ready_goroutine(go) else {
            return Ok(None);
        };
        let listing = Listing {
            program: self.listing.program.clone()?,
            code: self.listing.code.clone()?,
        };
        let lent = Lent {
            listing,
            go: own_name(alloc, go)?,
            goroutine: ready.goroutine.copy(alloc)?,
        };
        let lent = Box::new(alloc, lent)?;
        Ok(Some(LentCopy {
            batch: LocalRun { lent, len: 0 },
            reached: ready.goroutine.copy(alloc)?,
            records: Vec::new(alloc),
        }))
    }

    /// Whether a lease is of the same program. It compares all of it.
    pub fn has_program_of(&self, lease: &LentCopy) -> bool
        ensures { IsTrue result ↔ (program_lent lease.now ≡ program_at self.now) }
    {
        *self.listing.program == *lease.batch.lent.listing.program
    }

    /// Whether the goroutine of a lease of the same program is as it was lent, in a run that goes on.
    pub fn has_as_lent(&self, lease: &LentCopy) -> bool
        requires { program_lent lease.now ≡ program_at self.now }
        ensures { IsTrue result ↔ IsAsLent lease.now self.now }
    {
        let Ok(number) = self.objects.number_of(&lease.batch.lent.go) else {
            return false;
        };
        let goroutine = self.objects.goroutines.at(number);
        goroutine.is_like(&lease.batch.lent.goroutine)
    }

    /// Gives a goroutine that is as it was lent the content after the steps of its lease, which gets the old one. It takes no
    /// memory.
    pub fn take_over(&mut self, lease: &mut LentCopy)
        requires { IsAsLent lease.old self.old }
        ensures after { contents_at self.new
            ≡ with_goroutine (contents_at self.old) (name_lent lease.old) (Some (goroutine_led_to lease.old)) }
        ensures loan { loan_of lease.new ≡ loan_of lease.old }
        ensures records { records_led lease.new ≡ records_led lease.old }
        ensures taken { taken_at self.new ≡ taken_at self.old }
        ensures listing { SameListing self.old self.new }
    {
        let Some(number) = self.objects.goroutines.number(&lease.batch.lent.go) else {
            unreachable!();
        };
        let Some(goroutine) = self.objects.goroutines.remove(number) else {
            unreachable!();
        };
        let reached = mem::replace(&mut lease.reached, goroutine);
        self.objects.goroutines.put(number, reached);
    }
}

/// Where the goroutine is as it was lent, the steps of its lease are steps of the store, one after the other, with their
/// records. They leave the goroutine as the lease has it, and ready.
pub fn law_of_leases()
    ensures { (p : Program) (s : Contents) (n : List ℕ) (from to : CodeGoroutine) (records : List RecordSeen)
        → Running p s → AreChannels s → s.run ≡ live → s.goroutines n ≡ Some from → from.status ≡ ready
        → Walk (lowered p) n from records to
        → AreRecords p s records (with_goroutine s n (Some to)) × Running p (with_goroutine s n (Some to)) × (to.status ≡ ready) }
{}
