//! Batches that are committed: the steps of a goroutine on its copy become steps of the program.

ghost use Rattle.std.specs.Prelude.{◌≡◌, ◌<◌, ◌↔◌, true, false};
ghost use Rattle.gr_program.specs.Programs.{Program};
ghost use Rattle.gr_command.specs.Replies.{said_of, Stale};
ghost use Rattle.gr_rollback.specs.Stores.{SameListing, contents_at, program_at};
ghost use Rattle.gr_rollback.specs.StepLeasing.{IsLease, IsAsLent, loan_kept, loan_of, program_lent};
ghost use Rattle.gr_session.specs.Journal.{World};
ghost use Rattle.gr_session.specs.Debuggees.{Stands, IsDebuggee, store_in};
ghost use Rattle.gr_session.specs.Carried.{CommitsTo, JoinsWhereItMay, BatchComesTo};
ghost use Rattle.gr_session.specs.Committing.{contents_after};

use crate::debuggee::Debuggee;
use crate::granting::room;
use crate::journal::Memory;
use gr_base::NoMemory;
use gr_command::{Refusal, Reply};
use gr_rollback::{LentCopy, LocalRun};
use std::alloc::Global;

/// The reply to committing a lease whose goroutine is as it was lent, and how far memory allowed it. Its steps join the log if
/// the grant and the log have room for them. Where a growth is refused, none of them joins.
fn commit_lent(alloc: Global, debuggee: &mut Debuggee, lease: &mut LentCopy) -> (Memory, Reply)
    requires debuggee { IsDebuggee debuggee.old }
    requires lease { IsLease lease.old }
    requires some { 0 < (loan_of lease.old).steps }
    requires lent { IsAsLent lease.old (store_in debuggee.old) }
    ensures commits { (p : Program) → (w : World p) → Stands p w debuggee.old
        → CommitsTo p w (loan_of lease.old) true result.0 (said_of result.1) debuggee.new }
    ensures stale { (said_of result.1 ≡ Stale) ↔ (debuggee.old.grant < (loan_of lease.old).steps) }
    ensures joins { JoinsWhereItMay debuggee.old lease.old (said_of result.1) }
    ensures contents { contents_at (store_in debuggee.new)
        ≡ contents_after (said_of result.1) lease.old (contents_at (store_in debuggee.old)) }
    ensures loan { loan_of lease.new ≡ loan_of lease.old }
    ensures listing { SameListing (store_in debuggee.old) (store_in debuggee.new) }
{
    let steps = lease.len();
    if steps > debuggee.grant as usize {
        return (Memory::Enough, Reply::Stale);
    }
    if steps > room(debuggee) {
        return (Memory::Enough, Reply::Refused(Refusal::LogFull));
    }
    match debuggee.machine.keep_all(alloc, lease) {
        Ok(()) => {
            debuggee.grant -= steps as u32;
            (Memory::Enough, Reply::Committed(steps as u32))
        }
        Err(NoMemory) => (Memory::EnoughFor(0), Reply::Committed(0)),
    }
}

/// Where a batch comes from.
#[derive(Clone, Copy, PartialEq, Eq)]
pub(crate) enum Origin {
    /// A lease of any session: its program has to be compared with the one that runs.
    Unknown,
    /// A lease of this session.
    Own,
}

/// What a batch comes to.
#[derive(Drop)]
pub(crate) struct Outcome {
    /// What the journal keeps of it.
    pub(crate) batch: LocalRun,
    /// Whether its goroutine is as it was lent, in a run of the same program that goes on.
    pub(crate) stood: bool,
    /// How far memory went.
    pub(crate) memory: Memory,
    pub(crate) reply: Reply,
}

/// What a batch comes to that is of another program, or whose goroutine is not as it was lent.
fn changed(lease: LentCopy) -> Outcome
    requires lease { IsLease lease }
    ensures kept { loan_kept result.batch ≡ loan_of lease }
    ensures stood { result.stood ≡ false }
    ensures memory { result.memory ≡ Memory.Enough }
    ensures reply { said_of result.reply ≡ Stale }
{
    Outcome {
        batch: lease.into_run(),
        stood: false,
        memory: Memory::Enough,
        reply: Reply::Stale,
    }
}

/// Lets the steps of a batch join the log. Four things are needed: the batch is of this program, the run goes on, the goroutine
/// is as it was lent, and grant and log have room. The program of a batch of unknown origin is compared with the one that runs.
pub(crate) fn commit(
    alloc: Global,
    debuggee: &mut Debuggee,
    lease: LentCopy,
    origin: Origin,
) -> Outcome
    requires debuggee { IsDebuggee debuggee.old }
    requires lease { IsLease lease }
    requires some { 0 < (loan_of lease).steps }
    requires own { (origin ≡ Origin.Own) → (program_lent lease ≡ program_at (store_in debuggee.old)) }
    ensures { BatchComesTo debuggee.old lease result debuggee.new }
{
    if origin == Origin::Unknown && !debuggee.machine.has_program_of(&lease) {
        return changed(lease);
    }
    commit_own(alloc, debuggee, lease)
}

/// Lets the steps of a batch of this program join the log, under the conditions of `commit`.
fn commit_own(alloc: Global, debuggee: &mut Debuggee, lease: LentCopy) -> Outcome
    requires debuggee { IsDebuggee debuggee.old }
    requires lease { IsLease lease }
    requires some { 0 < (loan_of lease).steps }
    requires own { program_lent lease ≡ program_at (store_in debuggee.old) }
    ensures { BatchComesTo debuggee.old lease result debuggee.new }
{
    let mut lease = lease;
    if !debuggee.machine.has_as_lent(&lease) {
        return changed(lease);
    }
    let (memory, reply) = commit_lent(alloc, debuggee, &mut lease);
    Outcome {
        batch: lease.into_run(),
        stood: true,
        memory,
        reply,
    }
}
