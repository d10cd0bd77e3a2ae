//! Workers, each on a thread of its own, beside something else that is done.
ghost use Rattle.std.specs.Prelude.{◌≡◌, ◌≤◌, [], length, map, vec_capacity, IfOk, IfErr, IfSome};
ghost use mathlib.Core.List.{reverse};
ghost use Rattle.rewind.specs.Beside.{numbers_of};

use gr_share::{Open, Room, Shared, Worker, worker};
use std::alloc::Global;
use std::sync::Wait;
use std::thread;
use std::thread::{Promise, PromisedHandle, Scope, Threads};

/// What is done beside the workers. A contract says nothing of references that a closure captured. So the closure holds a task, and
/// returns what came of it.
pub(crate) trait Task {
    type Output;

    // What comes of it.
    ghost gives: { Self → Self.Output → Type 0 };

    fn run(self) -> Self::Output
        ensures { gives self result };

    type Left;

    // What is left where it is not done.
    ghost leaves: { Self → Self.Left → Type 0 };

    fn leave(self) -> Self::Left
        ensures { leaves self result };
}

/// That the worker which a thread gives back has this number among the askers.
#[derive(Clone, Copy)]
struct SeatOf {
    number: u32,
}

impl<B: Room> Promise<Worker<B>> for SeatOf {
    ghost use Rattle.std.specs.Prelude.{◌≡◌};

    ghost kept_by = { λ p w. w.seat.number ≡ p.number };
}

/// Workers at work, with room for their seats.
#[derive(Drop)]
struct Working<B: Room> {
    threads: Vec<PromisedHandle<Worker<B>, SeatOf>>,
    seats: Vec<Worker<B>>,
    ghost empty: { seats.items ≡ [] },
    ghost room: { length threads.items ≤ vec_capacity seats },
}

/// Works until it is told to end, and gives the seat back.
fn work<B: Room, T: Wait>(rt: &T, alloc: Global, shared: &Shared<B>, me: Worker<B>) -> Worker<B>
    ensures { result.seat.number ≡ me.seat.number }
{
    let mut me = me;
    worker(rt, alloc, shared, &mut me, &Open, u64::MAX);
    me
}

/// Has each worker begin, the last one first. `None` where a thread could not be started, or its memory was refused.
#[tactic(auto, using(crate::proofs::Lent::session_send))]
fn start<'s, E, B: Room + Send + Sync, T: Threads + Wait + Sync>(
    scope: &Scope<'s, E>,
    rt: &'s T,
    alloc: Global,
    shared: &'s Shared<B>,
    workers: Vec<Worker<B>>,
) -> Option<Working<B>>
    ensures { IfSome result (λ w. map (λ h. h.promise.number) w.threads.items ≡ reverse (numbers_of workers.items)) }
{
    let mut waiting = workers;
    let Ok(seats) = Vec::with_capacity(alloc, waiting.len()) else {
        return None;
    };
    let Ok(mut threads) = Vec::with_capacity(alloc, waiting.len()) else {
        return None;
    };
    while let Some(me) = waiting.pop() {
        let seat = SeatOf {
            number: me.number(),
        };
        let Ok(thread) = scope.spawn_with(seat, move || work(rt, alloc, shared, me)) else {
            return None;
        };
        threads.push_reserved(thread);
    }
    Some(Working { threads, seats })
}

/// Waits for the workers, and gives their seats back, that of the last one first.
fn join<B: Room, T: Threads>(rt: &T, working: Working<B>) -> Vec<Worker<B>>
    ensures { numbers_of result.items ≡ reverse (map (λ h. h.promise.number) working.threads.items) }
{
    let Working {
        mut threads,
        mut seats,
    } = working;
    while let Some(thread) = threads.pop() {
        seats.push_reserved(thread.join(rt));
    }
    seats
}

/// Does the task while the workers work. Then it tells them to end, and waits for them. The answer is what came of the task, with the
/// workers' seats. Where a thread could not be started, the task is not done.
pub(crate) fn beside<B: Room + Send + Sync, T: Threads + Wait + Sync, J: Task + Drop>(
    rt: &T,
    alloc: Global,
    shared: &Shared<B>,
    workers: Vec<Worker<B>>,
    task: J,
) -> Result<(J::Output, Vec<Worker<B>>), J::Left>
    ensures done { IfOk result (λ r. J.gives task r.0 × (numbers_of r.1.items ≡ numbers_of workers.items)) }
    ensures refused { IfErr result (J.leaves task) }
{
    thread::scope(
        thread::scope_env(),
        rt,
        move |scope| -> Result<(J::Output, Vec<Worker<B>>), J::Left>
            ensures done { IfOk result (λ r. J.gives task r.0 × (numbers_of r.1.items ≡ numbers_of workers.items)) }
            ensures refused { IfErr result (J.leaves task) }
        {
            let Some(working) = start(scope, rt, alloc, shared, workers) else {
                shared.close(rt);
                return Err(task.leave());
            };
            let done = task.run();
            shared.close(rt);
            Ok((done, join(rt, working)))
        },
    )
}
