//! Those who call a session, each on a thread of its own.

use crate::lines::{command, text_of};
use crate::meeting::{Door, Meeting};
use gr_share::{Desk, Room, Shared, Worker, worker};
use std::alloc::Global;
use std::process::Abort;
use std::sync::Wait;
use std::thread;
use std::thread::Threads;
use std::time::{Clock, Duration};

/// What a desk does on its thread.
#[derive(Clone, Copy)]
pub(crate) enum Errand {
    /// Asks the same a hundred times.
    Hundred,
    /// Waits until both goroutines have ended, and then has the workers end.
    Watch,
    /// Waits until a worker is held, takes back what started its goroutine, and lets the worker go.
    TakeBack,
    /// Has the workers end after a while.
    Close,
    /// Takes the first step, and asks what it printed.
    See,
}

/// One who calls. A desk has its errand, and counts the replies that the errand asks for. A worker works at most this often.
#[derive(Drop)]
pub(crate) enum Caller<B: Room> {
    Asks(Desk<B>, Errand, u64),
    Works(Worker<B>, u64),
}

/// The bytes of the reply to a line.
pub(crate) fn reply<B: Room, T: Wait + Abort>(
    rt: &T,
    alloc: Global,
    shared: &Shared<B>,
    desk: &mut Desk<B>,
    line: &[u8],
) -> Vec<u8> {
    let asked = command(rt, alloc, line);
    let receipt = desk.ask(rt, alloc, shared, asked).expect(rt, "an entry");
    text_of(rt, alloc, &receipt.reply)
}

/// 1 where the line got this reply.
fn said<B: Room, T: Wait + Abort>(
    rt: &T,
    alloc: Global,
    shared: &Shared<B>,
    desk: &mut Desk<B>,
    line: &[u8],
    wanted: &[u8],
) -> u64 {
    u64::from(reply(rt, alloc, shared, desk, line).as_slice() == wanted)
}

/// Asks a hundred questions, and counts the answers.
fn ask_a_hundred<B: Room, T: Wait + Abort>(
    rt: &T,
    alloc: Global,
    shared: &Shared<B>,
    desk: &mut Desk<B>,
) -> u64 {
    let mut answers = 0u64;
    for _ in 0..100u64 {
        reply(rt, alloc, shared, desk, b"causes g0#1");
        answers = answers.saturating_add(1);
    }
    answers
}

/// 1 where the reply to the line begins like this in the end. The line is asked up to 10,000 times.
fn wait_until<B: Room, T: Wait + Clock + Abort>(
    rt: &T,
    alloc: Global,
    shared: &Shared<B>,
    desk: &mut Desk<B>,
    line: &[u8],
    shown: &[u8],
) -> u64 {
    for _ in 0..10_000u64 {
        if reply(rt, alloc, shared, desk, line)
            .as_slice()
            .starts_with(shown)
        {
            return 1;
        }
        thread::sleep(rt, Duration::from_millis(1));
    }
    0
}

fn watch<B: Room, T: Wait + Clock + Abort>(
    rt: &T,
    alloc: Global,
    shared: &Shared<B>,
    desk: &mut Desk<B>,
) -> u64 {
    let one = wait_until(rt, alloc, shared, desk, b"show g0.1", b"| g0.1 done 21\n");
    let other = wait_until(rt, alloc, shared, desk, b"show g0.2", b"| g0.2 done 21\n");
    shared.close(rt);
    one.saturating_add(other)
}

fn take_back<B: Room, T: Wait + Clock + Abort>(
    rt: &T,
    alloc: Global,
    shared: &Shared<B>,
    meeting: &Meeting,
    desk: &mut Desk<B>,
) -> u64 {
    meeting.wait_for_worker(rt);
    let told = said(
        rt,
        alloc,
        shared,
        desk,
        b"back g0#1",
        b"ok 3 g0#1 g0#2 g0#3\n",
    );
    meeting.let_go();
    told
}

fn see<B: Room, T: Wait + Abort>(
    rt: &T,
    alloc: Global,
    shared: &Shared<B>,
    desk: &mut Desk<B>,
) -> u64 {
    let step = said(rt, alloc, shared, desk, b"step g0", b"ok g0#1 pure\n");
    let text = said(
        rt,
        alloc,
        shared,
        desk,
        b"text g0",
        b"| -9223372036854775808\nok\n",
    );
    step.saturating_add(text)
}

/// Does an errand, and counts the replies that it asks for.
fn run<B: Room, T: Wait + Clock + Abort>(
    rt: &T,
    alloc: Global,
    shared: &Shared<B>,
    meeting: &Meeting,
    desk: &mut Desk<B>,
    errand: Errand,
) -> u64 {
    match errand {
        Errand::Hundred => ask_a_hundred(rt, alloc, shared, desk),
        Errand::Watch => watch(rt, alloc, shared, desk),
        Errand::TakeBack => take_back(rt, alloc, shared, meeting, desk),
        Errand::Close => {
            thread::sleep(rt, Duration::from_millis(20));
            shared.close(rt);
            0
        }
        Errand::See => see(rt, alloc, shared, desk),
    }
}

/// Does the errand, or works.
fn call<B: Room, T: Wait + Clock + Abort>(
    rt: &T,
    alloc: Global,
    shared: &Shared<B>,
    meeting: &Meeting,
    caller: &mut Caller<B>,
) {
    match caller {
        Caller::Asks(desk, errand, answers) => {
            *answers = run(rt, alloc, shared, meeting, desk, *errand);
        }
        Caller::Works(me, budget) => {
            let gate = Door { clock: rt, meeting };
            worker(rt, alloc, shared, me, &gate, *budget);
        }
    }
}

/// Has all call at once, and waits for all of them. Whether the threads could be started.
#[tactic(auto, using(crate::proofs::Lent::session_send))]
pub(crate) fn call_at_once<B: Room + Send + Sync, T: Threads + Wait + Clock + Abort + Sync>(
    rt: &T,
    alloc: Global,
    shared: &Shared<B>,
    meeting: &Meeting,
    callers: &mut [Caller<B>],
) -> bool {
    thread::scope(thread::scope_env(), rt, |scope| {
        let mut started = true;
        for caller in callers.iter_mut() {
            if scope
                .spawn(move || call(rt, alloc, shared, meeting, caller))
                .is_err()
            {
                started = false;
            }
        }
        if !started {
            shared.close(rt);
        }
        started
    })
}
