//! A search of small stairs: which answer comes, and what it leaves.

use crate::stairs::Stairs;
use gr_search::search::{Answer, Limits, search};
use gr_search::searched::Limit;
use gr_search::shortest::{Shortest, search_shortest};
use std::alloc::Global;
use std::collections::VecDeque;

/// What a search of stairs came to, and how many moves were left in the way.
fn searched(alloc: Global, landing: u8, trap: u8, limits: Limits) -> (Answer, usize) {
    let mut stairs = Stairs {
        landing,
        trap,
        place: 0,
        way: VecDeque::new(alloc),
    };
    let answer = search(alloc, &mut stairs, &limits);
    (answer, stairs.way.len())
}

/// The same for a search for the fewest moves.
fn searched_shortest(alloc: Global, landing: u8, trap: u8, limits: Limits) -> (Shortest, usize) {
    let mut stairs = Stairs {
        landing,
        trap,
        place: 0,
        way: VecDeque::new(alloc),
    };
    let answer = search_shortest(alloc, &mut stairs, &limits);
    (answer, stairs.way.len())
}

const AMPLE: Limits = Limits {
    alone: 100,
    states: 100,
    turns: 1000,
};

#[test]
fn a_trap_below_the_landing_is_found(rt: HostRuntime) {
    let (answer, moves) = searched(rt.alloc(), 5, 3, AMPLE);
    assert!(rt; matches!(answer, Answer::Found) && moves == 3);
}

#[test]
fn no_trap_is_found_where_there_is_none(rt: HostRuntime) {
    for (alone, seen) in [(0, 6), (1, 3), (100, 1)] {
        let (answer, moves) = searched(rt.alloc(), 5, 9, Limits { alone, ..AMPLE });
        assert!(rt; matches!(answer, Answer::Nothing(states) if states == seen) && moves == 0);
    }
}

#[test]
fn limits_are_named_and_the_way_is_taken_back(rt: HostRuntime) {
    let (answer, moves) = searched(
        rt.alloc(),
        15,
        99,
        Limits {
            alone: 0,
            states: 4,
            ..AMPLE
        },
    );
    assert!(rt; matches!(answer, Answer::Limited(Limit::States)) && moves == 0);
    let (answer, moves) = searched(
        rt.alloc(),
        15,
        99,
        Limits {
            alone: 0,
            turns: 3,
            ..AMPLE
        },
    );
    assert!(rt; matches!(answer, Answer::Limited(Limit::Turns)) && moves == 0);
    let (answer, moves) = searched(rt.alloc(), 50, 99, AMPLE);
    assert!(rt; matches!(answer, Answer::Limited(Limit::Steps)) && moves == 0);
}

#[test]
fn the_fewest_moves_to_a_trap_are_found(rt: HostRuntime) {
    for trap in [0, 1, 3] {
        let (answer, moves) = searched_shortest(rt.alloc(), 5, trap, AMPLE);
        assert!(rt; matches!(answer, Shortest::Found) && moves == trap as usize);
    }
    let (answer, moves) = searched_shortest(rt.alloc(), 5, 9, AMPLE);
    assert!(rt; matches!(answer, Shortest::Nothing(1)) && moves == 0);
}

// Each place takes three tasks, but for the last one that a bound allows, which takes one. A search of at most two moves so ends
// with its eighth turn, and one of three does not.
#[test]
fn the_moves_that_are_safe_are_told(rt: HostRuntime) {
    let limits = Limits {
        alone: 0,
        turns: 8,
        ..AMPLE
    };
    let (answer, moves) = searched_shortest(rt.alloc(), 15, 99, limits);
    assert!(rt; moves == 0);
    assert!(rt;
        matches!(answer, Shortest::Limited(told) if told.safe == 2 && told.known.is_none())
    );
}
