//! The end of a shared session.
ghost use Rattle.std.specs.Prelude.{◌≡◌, ℕ, ◌<◌, ◌≤◌, ◌⊎◌, All, IfOk, IfErr, OnErr, IsTrue, IsFalse, length};
ghost use mathlib.Core.List.{IsPrefix};
ghost use Rattle.gr_program.specs.Views.{program_of};
ghost use Rattle.gr_share.specs.Calls.{IsTied};
ghost use Rattle.gr_share.specs.Seats.{IsDesk, IsWorker, AreAll, LacksSeat};
ghost use Rattle.gr_share.specs.Works.{IsAtWork};

use crate::desk::{Desk, Worker};
use crate::locked::Locked;
use crate::shared::Shared;
use crate::tie::Tie;
use crate::views::Room;
use gr_session::Session;
use std::sync::Mutex;

/// A session that is shared no more, with its seats.
#[derive(Drop)]
pub struct Finished<B: Room> {
    pub session: Session,
    pub desks: Vec<Desk<B>>,
    pub workers: Vec<Worker<B>>,
}

/// The end of the sharing is refused, since a seat is missing. All comes back.
#[derive(Drop)]
pub struct Unfinished<B: Room> {
    pub shared: Shared<B>,
    pub desks: Vec<Desk<B>>,
    pub workers: Vec<Worker<B>>,
}

/// The entries of each desk are its calls.
fn settle_desks<B: Room>(locked: &mut Locked<B>, tie: &Tie, desks: &mut [Desk<B>])
    requires { tie.now.table.shared.table_id ≡ B.table }
    ensures same { (locked.new ≡ locked.old) × (desks.new ≡ desks.old) }
    ensures tied { All (λ d. IsTied locked.old.session d) desks.old }
{
    for desk in desks.iter_mut() {
        locked.settle(tie, desk);
    }
}

fn settle_workers<B: Room>(locked: &mut Locked<B>, tie: &Tie, workers: &mut [Worker<B>])
    requires { tie.now.table.shared.table_id ≡ B.table }
    ensures same { (locked.new ≡ locked.old) × (workers.new ≡ workers.old) }
    ensures tied { All (λ w. IsTied locked.old.session w.seat) workers.old }
    ensures at_work { All (IsAtWork B.program) workers.old }
{
    for worker in workers.iter_mut() {
        locked.settle(tie, &mut worker.seat);
    }
}

fn is_desk<B: Room>(number: u32, desks: &[Desk<B>]) -> bool
    ensures here { IsTrue result → IsDesk number desks.now }
    ensures missing { IsFalse result → ¬ IsDesk number desks.now }
{
    for desk in desks {
        if desk.number == number {
            return true;
        }
    }
    false
}

fn is_worker<B: Room>(number: u32, workers: &[Worker<B>]) -> bool
    ensures here { IsTrue result → IsWorker number workers.now }
    ensures missing { IsFalse result → ¬ IsWorker number workers.now }
{
    for worker in workers {
        if worker.seat.number() == number {
            return true;
        }
    }
    false
}

fn is_seat<B: Room>(number: u32, desks: &[Desk<B>], workers: &[Worker<B>]) -> bool
    ensures here { IsTrue result → IsDesk number desks.now ⊎ IsWorker number workers.now }
    ensures missing { IsFalse result → ¬ IsDesk number desks.now × ¬ IsWorker number workers.now }
{
    if is_desk(number, desks) {
        return true;
    }
    is_worker(number, workers)
}

/// Whether the seats of all numbers after the first and up to the last are there.
fn are_all<B: Room>(first: u32, last: u32, desks: &[Desk<B>], workers: &[Worker<B>]) -> bool
    ensures all { IsTrue result → AreAll first last desks.now workers.now }
    ensures lacks { IsFalse result → LacksSeat first last desks.now workers.now }
{
    let mut number = first;
    while number < last {
        number += 1;
        if !is_seat(number, desks, workers) {
            return false;
        }
    }
    true
}

/// Has the entries of each asker be its calls.
fn settle<B: Room>(
    locked: &mut Locked<B>,
    tie: &Tie,
    desks: &mut [Desk<B>],
    workers: &mut [Worker<B>],
)
    requires { tie.now.table.shared.table_id ≡ B.table }
    ensures same { (locked.new ≡ locked.old) × (desks.new ≡ desks.old) × (workers.new ≡ workers.old) }
    ensures desks { All (λ d. IsTied locked.old.session d) desks.old }
    ensures workers { All (λ w. IsTied locked.old.session w.seat) workers.old }
    ensures at_work { All (IsAtWork B.program) workers.old }
{
    settle_desks(locked, tie, desks);
    settle_workers(locked, tie, workers);
}

/// Ends the sharing, where each seat that was given came back. It is refused only where a seat is missing: that of an asker whose
/// number is above those before the sharing, and at most that of the askers that there may be. Then all comes back.
///
/// Each asker's entries in the journal are its calls, and those of a worker are turns and steps that it was lent to take. The
/// journal is full where an asker was told so. The session is one of the program that was shared, and its journal begins with the
/// entries that it had then.
pub fn finish<B: Room>(
    shared: Shared<B>,
    mut desks: Vec<Desk<B>>,
    mut workers: Vec<Worker<B>>,
) -> Result<Finished<B>, Unfinished<B>>
    ensures desks { IfOk result (λ f. (f.desks.items ≡ desks.items) × All (λ d. IsTied f.session d) f.desks.items) }
    ensures workers { IfOk result (λ f. (f.workers.items ≡ workers.items) × All (λ w. IsTied f.session w.seat) f.workers.items) }
    ensures at_work { IfOk result (λ f. All (IsAtWork B.program) f.workers.items) }
    ensures all { IfOk result (λ f. AreAll shared.first f.session.askers desks.items workers.items) }
    ensures program { IfOk result (λ f. program_of f.session.program ≡ B.program) }
    ensures before { IfOk result (λ f. IsPrefix B.before f.session.journal) }
    ensures lacks { OnErr result (LacksSeat shared.first B.last desks.items workers.items) }
    ensures back { IfErr result (λ u. (u.desks.items ≡ desks.items) × (u.workers.items ≡ workers.items)
        × (u.shared.first ≡ shared.first)) }
{
    let Shared {
        tie,
        lock,
        changed,
        first,
    } = shared;
    let mut locked = lock.into_inner();
    if are_all(first, locked.askers(), desks.as_slice(), workers.as_slice()) {
        settle(
            &mut locked,
            &tie,
            desks.as_mut_slice(),
            workers.as_mut_slice(),
        );
        Ok(Finished {
            session: locked.into_session(),
            desks,
            workers,
        })
    } else {
        Err(Unfinished {
            shared: Shared {
                tie,
                lock: Mutex::new(locked),
                changed,
                first,
            },
            desks,
            workers,
        })
    }
}
