//! Ready goroutines, in the order of their names.

use crate::base::named;
use gr_pool::Pool;
use std::alloc::Global;
use std::process::Abort;

/// Makes the goroutine that these counts lead to known and ready.
fn wake(rt: &impl Abort, alloc: Global, pool: &mut Pool, counts: &[u32]) {
    let name = named(rt, alloc, counts);
    pool.know(&name).expect(rt, "memory for a goroutine");
    pool.insert(&name);
}

/// Makes the goroutine that these counts lead to unready.
fn rest(rt: &impl Abort, alloc: Global, pool: &mut Pool, counts: &[u32]) {
    let name = named(rt, alloc, counts);
    pool.remove(&name);
    assert!(rt; !pool.contains(&name));
}

/// Whether the first ready goroutine after this one is that to which these counts lead, or there is none.
fn show_next(rt: &impl Abort, alloc: Global, pool: &Pool, counts: &[u32], next: Option<&[u32]>) {
    let name = named(rt, alloc, counts);
    let found = pool.next_after(&name);
    match next {
        Some(next) => assert!(rt; found.expect(rt, "a ready goroutine").counts() == next),
        None => assert!(rt; found.is_none()),
    }
}

fn show_count(rt: &impl Abort, pool: &Pool, count: usize) {
    assert!(rt; pool.len() == count);
    assert!(rt; pool.is_empty() == (count == 0));
}

/// What is done, or looked at. The counts that lead to a goroutine name it.
#[derive(Clone, Copy)]
enum Act<'a> {
    Wake(&'a [u32]),
    Rest(&'a [u32]),
    /// So many are ready.
    Count(usize),
    /// After this goroutine, that one is the next.
    Next(&'a [u32], Option<&'a [u32]>),
}

fn carry_out(rt: &impl Abort, alloc: Global, acts: &[Act]) {
    let mut pool = Pool::new(alloc);
    for act in acts {
        match *act {
            Act::Wake(counts) => wake(rt, alloc, &mut pool, counts),
            Act::Rest(counts) => rest(rt, alloc, &mut pool, counts),
            Act::Count(count) => show_count(rt, &pool, count),
            Act::Next(counts, next) => show_next(rt, alloc, &pool, counts, next),
        }
    }
}

const WAKING: [Act<'static>; 13] = [
    Act::Count(0),
    Act::Wake(&[10]),
    Act::Wake(&[1, 7]),
    Act::Wake(&[]),
    Act::Wake(&[2]),
    Act::Wake(&[1]),
    Act::Count(5),
    Act::Next(&[], Some(&[1])),
    Act::Next(&[1], Some(&[1, 7])),
    Act::Next(&[1, 7], Some(&[2])),
    Act::Next(&[1, 7, 3], Some(&[2])),
    Act::Next(&[2], Some(&[10])),
    Act::Next(&[10], Some(&[])),
];

#[test]
fn the_next_after_the_last_is_the_first(rt: HostRuntime) {
    carry_out(&rt, rt.alloc(), &WAKING);
}

const LEAVING: [Act<'static>; 11] = [
    Act::Next(&[], None),
    Act::Wake(&[]),
    Act::Wake(&[1]),
    Act::Wake(&[1]),
    Act::Count(2),
    Act::Rest(&[1]),
    Act::Rest(&[1]),
    Act::Count(1),
    Act::Next(&[1], Some(&[])),
    Act::Wake(&[1]),
    Act::Next(&[], Some(&[1])),
];

#[test]
fn goroutines_leave_and_come_back(rt: HostRuntime) {
    carry_out(&rt, rt.alloc(), &LEAVING);
}
