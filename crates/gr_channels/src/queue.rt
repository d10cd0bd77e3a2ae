//! A waiting list, from which a goroutine can be withdrawn and put back at its place.
ghost use Rattle.std.specs.Prelude.{◌≡◌, ◌+◌, ◌<◌, ◌≤◌, insert, [], count_by, OnOk, OnErr, IfOk, vec_len};
ghost use Rattle.std.specs.VecDeque.{deque_len, deque_capacity};
ghost use Rattle.gr_channels.specs.declared.waiter.Waiter.{Waiter};
ghost use Rattle.gr_channels.specs.Queues.{is_of, others, restored, PlacesFit};

use crate::waiter::Waiter;
use gr_base::GoName;
use std::alloc::{AllocError, Global};
use std::collections::VecDeque;

/// Puts a waiter at a place, where there is room.
fn put_at<T>(queue: &mut VecDeque<Waiter<T>>, at: usize, waiter: Waiter<T>)
    requires within { at ≤ deque_len queue.old }
    requires room { deque_len queue.old < deque_capacity queue.old }
    ensures items { queue.new.items ≡ insert queue.old.items at waiter }
    ensures len { deque_len queue.new ≡ deque_len queue.old + 1 }
    ensures room { deque_capacity queue.old ≤ deque_capacity queue.new }
{
    queue.insert(at, waiter).unwrap();
}

/// How many of the waiters are the goroutine.
fn count_of<T>(queue: &VecDeque<Waiter<T>>, name: &GoName) -> usize
    ensures { result ≡ count_by (is_of name.now) queue.now.items }
{
    queue.iter().filter(|waiter| waiter.go == *name).count()
}

/// Takes out all waiters of the goroutine. Each comes with its place: how many waiters stood before it when it was taken out.
/// The time is linear in the waiters.
pub fn withdraw_from<T: Drop>(
    alloc: Global,
    queue: &mut VecDeque<Waiter<T>>,
    name: &GoName,
) -> Result<Vec<(usize, Waiter<T>)>, AllocError>
    ensures kept { OnOk result (queue.new.items ≡ others name.now queue.old.items) }
    ensures back { IfOk result (λ gone. restored gone.items queue.new.items ≡ queue.old.items) }
    ensures fit { IfOk result (λ gone. PlacesFit gone.items queue.new.items) }
    ensures len { IfOk result (λ gone. deque_len queue.new + vec_len gone ≡ deque_len queue.old) }
    ensures room { deque_capacity queue.new ≡ deque_capacity queue.old }
    ensures err { OnErr result (queue.new ≡ queue.old) }
    ensures needed { OnErr result (0 < count_by (is_of name.now) queue.old.items) }
{
    let mut gone = Vec::with_capacity(alloc, count_of(queue, name))?;
    for turn in 0..queue.len() {
        let waiter = queue.pop_front().unwrap();
        if waiter.go == *name {
            let place = turn - gone.len();
            gone.push((place, waiter)).unwrap();
        } else {
            queue.push_back_reserved(waiter);
        }
    }
    Ok(gone)
}

/// Puts the waiters back, each at its place.
pub fn put_back<T: Drop>(queue: &mut VecDeque<Waiter<T>>, gone: Vec<(usize, Waiter<T>)>)
    requires fit { PlacesFit gone.items queue.old.items }
    requires room { deque_len queue.old + vec_len gone ≤ deque_capacity queue.old }
    ensures items { queue.new.items ≡ restored gone.items queue.old.items }
    ensures len { deque_len queue.new ≡ deque_len queue.old + vec_len gone }
    ensures room { deque_capacity queue.old ≤ deque_capacity queue.new }
{
    let mut gone = gone;
    while let Some((place, waiter)) = gone.pop() {
        put_at(queue, place, waiter);
    }
}

/// Takes out all waiters.
pub fn empty_out<T: Drop>(
    alloc: Global,
    queue: &mut VecDeque<Waiter<T>>,
) -> Result<Vec<(usize, Waiter<T>)>, AllocError>
    ensures emptied { OnOk result (queue.new.items ≡ []) }
    ensures back { IfOk result (λ gone. restored gone.items queue.new.items ≡ queue.old.items) }
    ensures fit { IfOk result (λ gone. PlacesFit gone.items queue.new.items) }
    ensures len { IfOk result (λ gone. deque_len queue.new + vec_len gone ≡ deque_len queue.old) }
    ensures room { deque_capacity queue.new ≡ deque_capacity queue.old }
    ensures err { OnErr result (queue.new ≡ queue.old) }
    ensures needed { OnErr result (0 < deque_len queue.old) }
{
    let mut gone = Vec::with_capacity(alloc, queue.len())?;
    while let Some(waiter) = queue.pop_front() {
        gone.push((0, waiter)).unwrap();
    }
    Ok(gone)
}
