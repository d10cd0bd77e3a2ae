//! Desks and workers on one session, each on a thread of its own.
ghost use Rattle.std.specs.Prelude.{◌≡◌, ◌+◌};
ghost use Rattle.gr_program.specs.Views.{program_of};

use crate::chance::{draw, in_turn};
use gr_command::Command;
use gr_share::{Desk, Finished, Open, Opened, Room, Session, Shared, Worker, finish, worker};
use rand_pcg::Pcg32;
use std::alloc::Global;
use std::sync::Wait;
use std::sync::atomic::{AtomicU64, Ordering};
use std::thread;
use std::thread::Threads;

/// Who calls, and how many commands each desk asks. With an even seed they are drawn by the seed and the desk's number, and
/// with an odd one they come in turn.
#[derive(Clone, Copy)]
pub struct Load {
    pub desks: u32,
    pub workers: u32,
    pub commands: u32,
    pub seed: u64,
}

/// What came of a race.
#[derive(Drop)]
pub struct Raced {
    pub session: Session,
    /// How many commands got an entry in the journal.
    pub asked: usize,
    /// How many entries are batches and turns of workers.
    pub worked: usize,
}

/// One who calls on a thread of its own: a desk with what it asks, or a worker.
#[derive(Drop)]
enum Caller<B: Room> {
    Asks(Desk<B>, Load),
    Works(Worker<B>),
}

impl Load {
    /// What a desk asks next, after so many commands.
    fn command(&self, alloc: Global, chance: &mut Pcg32, asked: u32) -> Option<Command> {
        if self.seed % 2 == 0 {
            draw(alloc, chance)
        } else {
            in_turn(alloc, asked)
        }
    }
}

/// Asks that many commands, and ends early where one is refused or memory runs out.
fn ask_all<B: Room, T: Wait>(
    rt: &T,
    alloc: Global,
    shared: &Shared<B>,
    desk: &mut Desk<B>,
    load: Load,
) {
    let mut chance = Pcg32::new(load.seed, desk.number() as u64);
    for asked in 0..load.commands {
        let Some(command) = load.command(alloc, &mut chance, asked) else {
            return;
        };
        if desk.ask(rt, alloc, shared, command).is_err() {
            return;
        }
    }
}

/// A desk asks its commands, and the last one that is done has the workers end. A worker takes steps until then.
fn call<B: Room, T: Wait>(
    rt: &T,
    alloc: Global,
    shared: &Shared<B>,
    done: &AtomicU64,
    caller: &mut Caller<B>,
) {
    match caller {
        Caller::Asks(desk, load) => {
            ask_all(rt, alloc, shared, desk, *load);
            let before = done.fetch_add(1, Ordering::SeqCst);
            if before.saturating_add(1) >= load.desks as u64 {
                shared.close(rt);
            }
        }
        Caller::Works(me) => worker(rt, alloc, shared, me, &Open, u64::MAX),
    }
}

/// Has all call at once, and waits for all of them. Answers whether the threads could be started.
#[tactic(auto, using(crate::proofs::Lent::session_send))]
fn call_at_once<B: Room + Send + Sync, T: Threads + Wait + Sync>(
    rt: &T,
    alloc: Global,
    shared: &Shared<B>,
    done: &AtomicU64,
    callers: &mut [Caller<B>],
) -> bool {
    thread::scope(thread::scope_env(), rt, |scope| {
        let mut started = true;
        for caller in callers.iter_mut() {
            if scope
                .spawn(move || call(rt, alloc, shared, done, caller))
                .is_err()
            {
                started = false;
            }
        }
        if !started {
            shared.close(rt);
        }
        started
    })
}

fn desks<B: Room, T: Wait>(
    rt: &T,
    alloc: Global,
    shared: &Shared<B>,
    load: Load,
) -> Option<Vec<Caller<B>>> {
    let mut all = Vec::new(alloc);
    for _ in 0..load.desks {
        let desk = shared.desk(rt, alloc).ok()?;
        all.push(Caller::Asks(desk, load)).ok()?;
    }
    Some(all)
}

/// The desks, and the workers.
fn callers<B: Room, T: Wait>(
    rt: &T,
    alloc: Global,
    shared: &Shared<B>,
    load: Load,
) -> Option<Vec<Caller<B>>> {
    let mut all = desks(rt, alloc, shared, load)?;
    for _ in 0..load.workers {
        let me = shared.worker_seat(rt, alloc).ok()?;
        all.push(Caller::Works(me)).ok()?;
    }
    Some(all)
}

/// The seats of those who called.
fn seats<B: Room>(
    alloc: Global,
    mut callers: Vec<Caller<B>>,
) -> Option<(Vec<Desk<B>>, Vec<Worker<B>>)> {
    let mut desks = Vec::new(alloc);
    let mut workers = Vec::new(alloc);
    let count = callers.len();
    for _ in 0..count {
        match callers.pop()? {
            Caller::Asks(desk, _) => desks.push(desk).ok()?,
            Caller::Works(me) => workers.push(me).ok()?,
        }
    }
    Some((desks, workers))
}

fn counted<B: Room>(finished: Finished<B>) -> Raced {
    let mut asked = 0usize;
    for desk in &finished.desks {
        asked = asked.saturating_add(desk.calls().len());
    }
    let worked = finished.session.journal().len().saturating_sub(asked);
    Raced {
        session: finished.session,
        asked,
        worked,
    }
}

/// Ends the sharing.
fn ended<B: Room>(alloc: Global, shared: Shared<B>, all: Vec<Caller<B>>) -> Option<Raced> {
    let (desks, workers) = seats(alloc, all)?;
    match finish(shared, desks, workers) {
        Ok(finished) => Some(counted(finished)),
        Err(_) => None,
    }
}

/// Shares a session among desks and workers, has all desks ask what is drawn, and ends the sharing. `None` where a thread
/// could not be started, memory ran out, or the sharing does not end.
pub fn race_all<B: Room + Send + Sync, T: Threads + Wait + Sync>(
    rt: &T,
    alloc: Global,
    opened: Opened,
    load: Load,
) -> Option<Raced>
    requires table { opened.table ≡ B.table }
    requires session { (program_of opened.session.program ≡ B.program) × (opened.session.askers ≡ B.first) }
    requires before { opened.session.journal ≡ B.before }
    requires seats { B.last ≡ B.first + 1000 }
{
    let shared = Shared::<B>::new(opened, 1000);
    let done = AtomicU64::new(0);
    let mut all = callers(rt, alloc, &shared, load)?;
    if call_at_once(rt, alloc, &shared, &done, all.as_mut_slice()) {
        ended(alloc, shared, all)
    } else {
        None
    }
}
