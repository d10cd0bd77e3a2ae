//! Scenes: desks and workers call a session at once, until all of them end, and the sharing ends.
ghost use Rattle.std.specs.Prelude.{◌≡◌, ◌+◌};
ghost use Rattle.gr_program.specs.Views.{program_of};

use crate::callers::{Caller, Errand, call_at_once, reply};
use crate::meeting::{Hold, Meeting};
use gr_command::Reply;
use gr_share::{Desk, Finished, Opened, Room, Session, Shared, Unfinished, Worker, finish};
use std::alloc::Global;
use std::marker::Brand;
use std::process::Abort;
use std::sync::Wait;
use std::thread::Threads;
use std::time::Clock;

/// Who calls a session, and what is asked before.
#[derive(Clone, Copy)]
pub(crate) struct Scene<'a> {
    pub(crate) source: &'a [u8],
    pub(crate) first: &'a [&'a [u8]],
    /// There is a desk for each.
    pub(crate) errands: &'a [Errand],
    pub(crate) workers: u32,
    /// How often each worker works at most.
    pub(crate) budget: u64,
    pub(crate) hold: Hold,
}

/// What came of a scene, after the sharing ended.
#[derive(Clone, Copy)]
pub(crate) struct Outcome {
    /// How many entries the journal has, what is left of the grant, and how many steps more the log takes.
    pub(crate) entries: usize,
    pub(crate) grant: u32,
    pub(crate) room: usize,
    /// How many replies were those that the errands ask for.
    pub(crate) answers: u64,
    /// How many batches were stale.
    pub(crate) stale: u64,
    /// Whether both sides came to where they are held, and neither waited in vain.
    pub(crate) met: bool,
}

fn push<T: Drop>(rt: &impl Abort, list: &mut Vec<T>, value: T) {
    list.push(value).ok().expect(rt, "memory for a list");
}

/// All who call: a desk for each errand, and the workers.
fn callers<B: Room, T: Wait + Abort>(
    rt: &T,
    alloc: Global,
    shared: &Shared<B>,
    scene: Scene<'_>,
) -> Vec<Caller<B>> {
    let mut all = Vec::new(alloc);
    for errand in scene.errands {
        let desk = shared.desk(rt, alloc).expect(rt, "a desk");
        push(rt, &mut all, Caller::Asks(desk, *errand, 0));
    }
    for _ in 0..scene.workers {
        let me = shared.worker_seat(rt, alloc).expect(rt, "a worker's seat");
        push(rt, &mut all, Caller::Works(me, scene.budget));
    }
    all
}

fn stale_calls<B: Room>(me: &Worker<B>) -> u64 {
    let mut stale = 0u64;
    for call in me.calls() {
        if matches!(&call.receipt.reply, Reply::Stale) {
            stale = stale.saturating_add(1);
        }
    }
    stale
}

/// The seats of those who called, and how many answers and stale batches they had.
#[derive(Drop)]
struct Seats<B: Room> {
    desks: Vec<Desk<B>>,
    workers: Vec<Worker<B>>,
    answers: u64,
    stale: u64,
}

impl<B: Room> Seats<B> {
    fn add(&mut self, rt: &impl Abort, caller: Caller<B>) {
        match caller {
            Caller::Asks(desk, _, answers) => {
                self.answers = self.answers.saturating_add(answers);
                push(rt, &mut self.desks, desk);
            }
            Caller::Works(me, _) => {
                self.stale = self.stale.saturating_add(stale_calls(&me));
                push(rt, &mut self.workers, me);
            }
        }
    }
}

fn seats_of<B: Room>(rt: &impl Abort, alloc: Global, mut callers: Vec<Caller<B>>) -> Seats<B> {
    let mut seats = Seats {
        desks: Vec::new(alloc),
        workers: Vec::new(alloc),
        answers: 0,
        stale: 0,
    };
    let count = callers.len();
    for _ in 0..count {
        seats.add(rt, callers.pop().expect(rt, "a caller"));
    }
    seats
}

/// The end of the sharing is to be refused, which hands back all.
fn refused<B: Room>(rt: &impl Abort, all: Unfinished<B>) -> Unfinished<B> {
    let Unfinished {
        shared,
        desks,
        workers,
    } = all;
    match finish(shared, desks, workers) {
        Ok(_) => panic!(rt; "the sharing ends while a seat is missing"),
        Err(all) => all,
    }
}

/// Tries to end the sharing without one desk.
fn without_a_desk<B: Room>(rt: &impl Abort, mut all: Unfinished<B>) -> Unfinished<B> {
    let missing = all.desks.pop().expect(rt, "a desk");
    let mut back = refused(rt, all);
    push(rt, &mut back.desks, missing);
    back
}

/// Tries to end the sharing without one worker, where there are workers.
fn without_a_worker<B: Room>(rt: &impl Abort, mut all: Unfinished<B>) -> Unfinished<B> {
    let Some(missing) = all.workers.pop() else {
        return all;
    };
    let mut back = refused(rt, all);
    push(rt, &mut back.workers, missing);
    back
}

/// Ends the sharing, which is refused without a desk, and without a worker.
fn finish_at_last<B: Room>(rt: &impl Abort, all: Unfinished<B>) -> Finished<B> {
    let all = without_a_desk(rt, all);
    let all = without_a_worker(rt, all);
    let Unfinished {
        shared,
        desks,
        workers,
    } = all;
    match finish(shared, desks, workers) {
        Ok(finished) => finished,
        Err(_) => panic!(rt; "the sharing does not end"),
    }
}

/// Ends the sharing, and tells what came of it.
fn ended<B: Room>(rt: &impl Abort, shared: Shared<B>, seats: Seats<B>, met: bool) -> Outcome {
    let Seats {
        desks,
        workers,
        answers,
        stale,
    } = seats;
    let all = Unfinished {
        shared,
        desks,
        workers,
    };
    let finished = finish_at_last(rt, all);
    let session = &finished.session;
    Outcome {
        entries: session.journal().len(),
        grant: session.grant(),
        room: session.room(),
        answers,
        stale,
        met,
    }
}

fn play_in<B: Room + Send + Sync, T: Threads + Wait + Clock + Abort + Sync>(
    rt: &T,
    alloc: Global,
    opened: Opened,
    scene: Scene<'_>,
) -> Outcome
    requires table { opened.table ≡ B.table }
    requires session { (program_of opened.session.program ≡ B.program) × (opened.session.askers ≡ B.first) }
    requires before { opened.session.journal ≡ B.before }
    requires seats { B.last ≡ B.first + 1000 }
{
    let shared = Shared::<B>::new(opened, 1000);
    let mut opener = shared.desk(rt, alloc).expect(rt, "a desk");
    for line in scene.first {
        reply(rt, alloc, &shared, &mut opener, line);
    }
    let meeting = Meeting::new(scene.hold);
    let mut all = callers(rt, alloc, &shared, scene);
    assert!(rt; call_at_once(rt, alloc, &shared, &meeting, all.as_mut_slice()));
    let mut seats = seats_of(rt, alloc, all);
    push(rt, &mut seats.desks, opener);
    ended(rt, shared, seats, meeting.was_held())
}

/// Plays a scene to its end.
pub(crate) fn play<T: Threads + Wait + Clock + Abort + Sync>(
    rt: &T,
    alloc: Global,
    scene: Scene<'_>,
) -> Outcome {
    let session = Session::open(alloc, scene.source).expect(rt, "a session");
    let opened = Opened::new(alloc, session).expect(rt, "memory for a table");
    play_in::<Brand, T>(rt, alloc, opened, scene)
}
