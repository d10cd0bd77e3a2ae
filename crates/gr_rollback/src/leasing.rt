//! Steps that a goroutine takes by itself on a copy, and that join the log together.

ghost use Rattle.std.specs.Prelude.{◌≡◌, ◌+◌, ◌<◌, ◌≤◌, ◌↔◌, length, filter, slice_get, get_or, [], IfOk, IfSome, IsTrue, OnOk};
ghost use Rattle.std.specs.Prelude.{IsOk, List, OnErr, Some, option_copied, option_map, ℕ};
ghost use Rattle.gr_pool.specs.Goroutines.{IsInOrder};
ghost use Rattle.gr_program.specs.Programs.{Program as ProgramSeen};
ghost use Rattle.gr_step.specs.Leasing.{CanLeadOn, IsLease, IsAsLent, goes_alone, loan_of, program_lent, records_led};
ghost use Rattle.gr_step.specs.Stores.{IsRun, SameListing, contents_at, program_at, state_at, taken_at};
ghost use Rattle.gr_depend.specs.Logs.{records_of};
ghost use Rattle.gr_depend.specs.Room.{CanTake};

use crate::LOG_LIMIT;
use crate::course::Course;
use crate::machine::Machine;
use gr_base::{GoName, NoMemory};
use gr_pool::Pool;
use gr_step::{LentCopy, Store};
use std::alloc::Global;

/// Whether the next step of the ready goroutine at a place is local.
fn is_alone(store: &Store, pool: &Pool, place: usize) -> bool
    requires run { IsRun store.now }
    requires within { place < length pool.now.ready }
    ensures { result ≡ goes_alone (state_at store.now) (get_or pool.now.ready place []) }
{
    match pool.get(place) {
        Some(go) => store.has_own_step(go),
        None => unreachable!(),
    }
}

/// The number of ready goroutines whose next step is local.
fn count_alone(store: &Store, pool: &Pool) -> usize
    requires { IsRun store.now }
    ensures count { result ≡ length (filter (goes_alone (state_at store.now)) pool.now.ready) }
    ensures ordered { IsInOrder pool.now.ready }
{
    let mut count = 0;
    for place in 0..pool.len() {
        if !is_alone(store, pool, place) {
            continue;
        }
        count += 1;
    }
    count
}

/// The goroutine with a number, counted from 0, among the ready ones whose next step is local.
fn nth_alone<'a>(store: &Store, pool: &'a Pool, number: usize) -> Option<&'a GoName>
    requires { IsRun store.now }
    ensures which { option_copied result ≡ slice_get (filter (goes_alone (state_at store.now)) pool.now.ready) number }
    ensures ordered { IsInOrder pool.now.ready }
{
    let mut left = number;
    for place in 0..pool.len() {
        if !is_alone(store, pool, place) {
            continue;
        }
        if left == 0 {
            return pool.get(place);
        }
        left -= 1;
    }
    None
}

impl Course {
    ghost use Rattle.gr_rollback.specs.Pasts.{Past};
    ghost use Rattle.gr_rollback.specs.Courses.{IsCourse, Holds};
    ghost use Rattle.gr_rollback.specs.Leasing.{KeepsAll, led_on};

    /// Lets the steps of a lease join the log, whose goroutine is as it was lent. Refused, none has.
    fn keep_all(&mut self, alloc: Global, lease: &mut LentCopy) -> Result<(), NoMemory>
        requires course { IsCourse self.old }
        requires lease { IsLease lease.old }
        requires lent { IsAsLent lease.old self.old.store }
        requires room { length (records_of self.old.log) + (loan_of lease.old).steps ≤ LOG_LIMIT }
        ensures kept { (p : ProgramSeen) (w : Past p) → Holds p w self.old
            → OnOk result (KeepsAll p w (loan_of lease.old).name (loan_of lease.old).steps self.new) }
        ensures err { (p : ProgramSeen) (w : Past p) → Holds p w self.old → OnErr result (Holds p w self.new) }
        ensures contents { OnOk result (contents_at self.new.store ≡ led_on lease.old (contents_at self.old.store)) }
        ensures store { OnErr result (self.new.store ≡ self.old.store) }
        ensures succeeds { CanTake self.old.log (records_led lease.old) → IsOk result }
        ensures loan { loan_of lease.new ≡ loan_of lease.old }
        ensures listing { SameListing self.old.store self.new.store }
        ensures taken { taken_at self.new.store ≡ taken_at self.old.store }
    {
        let records = lease.take_records(alloc);
        self.log.append(lease.go(), records)?;
        self.store.take_over(lease);
        Ok(())
    }
}

impl Machine {
    ghost use Rattle.gr_rollback.specs.Pasts.{Timeline};
    ghost use Rattle.gr_rollback.specs.Machines.{store_of, log_of, steps_of, Stands, IsMachine};
    ghost use Rattle.gr_rollback.specs.Leasing.{AllTaken, IsLentAt, SomeGoesAlone, led_on};

    /// Of the goroutines whose next step is local, in the order of names, the one at a place, modulo their number. It looks no
    /// further than at that place, unless there are no more of them.
    fn alone_at(&self, place: u32) -> Option<&GoName>
        requires { IsMachine self.now }
        ensures { (p : ProgramSeen) (w : Timeline p) → Stands p w self.now → IsLentAt w.past.state place (option_copied result) }
    {
        if let Some(go) = nth_alone(&self.course.store, &self.course.pool, place as usize) {
            return Some(go);
        }
        let count = count_alone(&self.course.store, &self.course.pool);
        if count == 0 {
            return None;
        }
        nth_alone(
            &self.course.store,
            &self.course.pool,
            place as usize % count,
        )
    }

    /// A copy of a goroutine whose next step is local, to take steps of its own. Of those goroutines, in the order of names,
    /// it is the one at the place, modulo their number. `None` where there is none.
    pub fn lend_at(&self, alloc: Global, place: u32) -> Result<Option<LentCopy>, NoMemory>
        requires { IsMachine self.now }
        ensures lease { IfOk result (λ o. IfSome o (λ l. IsLease l × IsAsLent l (store_of self.now))) }
        ensures fresh { IfOk result (λ o. IfSome o (λ l. (loan_of l).steps ≡ 0)) }
        ensures leads { IfOk result (λ o. IfSome o CanLeadOn) }
        ensures which { (p : ProgramSeen) (w : Timeline p) → Stands p w self.now
            → IfOk result (λ o. IsLentAt w.past.state place (option_map (λ l. (loan_of l).name) o)) }
        ensures wants { (p : ProgramSeen) (w : Timeline p) → Stands p w self.now
            → OnErr result ((go : List ℕ) × IsLentAt w.past.state place (Some go)) }
    {
        let Some(go) = self.alone_at(place) else {
            return Ok(None);
        };
        self.course.store.lend(alloc, go)
    }

    /// The first goroutine, in the order of names, whose next step is local. `None` where there is none. It takes no memory.
    pub fn first_alone(&self) -> Option<&GoName>
        requires { IsMachine self.now }
        ensures { (p : ProgramSeen) (w : Timeline p) → Stands p w self.now → IsLentAt w.past.state 0 (option_copied result) }
    {
        nth_alone(&self.course.store, &self.course.pool, 0)
    }

    /// Whether the next step of some goroutine is local. It takes no memory.
    pub fn has_own_step(&self) -> bool
        requires { IsMachine self.now }
        ensures { (p : ProgramSeen) (w : Timeline p) → Stands p w self.now → IsTrue result ↔ SomeGoesAlone w.past.state }
    {
        match nth_alone(&self.course.store, &self.course.pool, 0) {
            Some(_) => true,
            None => false,
        }
    }

    /// Whether a lease is of the same program. It compares all of it, and takes no memory.
    pub fn has_program_of(&self, lease: &LentCopy) -> bool
        ensures { IsTrue result ↔ (program_lent lease.now ≡ program_at (store_of self.now)) }
    {
        self.course.store.has_program_of(lease)
    }

    /// Whether the goroutine of a lease of the same program is as it was lent, in a run that goes on. It takes no memory.
    pub fn has_as_lent(&self, lease: &LentCopy) -> bool
        requires { program_lent lease.now ≡ program_at (store_of self.now) }
        ensures { IsTrue result ↔ IsAsLent lease.now (store_of self.now) }
    {
        self.course.store.has_as_lent(lease)
    }

    /// Lets the steps of a lease whose goroutine is as it was lent, and which took some, join the log. Nothing can be taken
    /// again after them. Refused, nothing has changed, except that the lease has lost its steps. It is not refused where the log
    /// has room for them.
    pub fn keep_all(&mut self, alloc: Global, lease: &mut LentCopy) -> Result<(), NoMemory>
        requires machine { IsMachine self.old }
        requires lease { IsLease lease.old }
        requires lent { IsAsLent lease.old (store_of self.old) }
        requires some { 0 < (loan_of lease.old).steps }
        requires room { length (steps_of self.old) + (loan_of lease.old).steps ≤ LOG_LIMIT }
        ensures kept { (p : ProgramSeen) (w : Timeline p) → Stands p w self.old
            → AllTaken p w (loan_of lease.old).name (loan_of lease.old).steps result self.new }
        ensures contents { OnOk result (contents_at (store_of self.new) ≡ led_on lease.old (contents_at (store_of self.old))) }
        ensures store { OnErr result (store_of self.new ≡ store_of self.old) }
        ensures succeeds { CanTake (log_of self.old) (records_led lease.old) → IsOk result }
        ensures loan { loan_of lease.new ≡ loan_of lease.old }
        ensures listing { SameListing (store_of self.old) (store_of self.new) }
        ensures taken { taken_at (store_of self.new) ≡ taken_at (store_of self.old) }
    {
        self.course.keep_all(alloc, lease)?;
        self.again.clear();
        Ok(())
    }
}
