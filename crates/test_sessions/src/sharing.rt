//! Desks and workers on threads. Calls succeed, all entries stay, and workers take steps and are in batches at the same time.
//! A batch whose goroutine changed is refused. Each scene shows that no sharing ends while a seat is missing.
ghost use Rattle.std.specs.Prelude.{◌≡◌, ◌+◌};
ghost use Rattle.gr_program.specs.Views.{program_of};

use crate::batching::{SPINNING, STARTED};
use crate::callers::Errand;
use crate::meeting::Hold;
use crate::scenes::{Outcome, Scene, play};
use gr_share::{EnrolRefused, Opened, Room, Session, Shared};
use std::alloc::Global;
use std::marker::Brand;
use std::process::Abort;
use std::sync::Wait;
use std::thread::Threads;

const PRINTING: &[u8] = b"package main\nfunc main() { println(-9223372036854775808) }\n";

/// What a scene is to come to; `None` is for what its schedule decides.
#[derive(Clone, Copy)]
struct Wanted {
    answers: u64,
    entries: Option<usize>,
    grant: Option<u32>,
    room: Option<usize>,
    stale: Option<u64>,
    met: Option<bool>,
}

/// Whether this is what is wanted, where something is.
fn is_wanted<T: PartialEq + Copy>(wanted: Option<T>, found: T) -> bool {
    match wanted {
        Some(wanted) => wanted == found,
        None => true,
    }
}

impl Wanted {
    fn is_met_by(&self, outcome: &Outcome) -> bool {
        self.answers == outcome.answers
            && is_wanted(self.entries, outcome.entries)
            && is_wanted(self.grant, outcome.grant)
            && is_wanted(self.room, outcome.room)
            && is_wanted(self.stale, outcome.stale)
            && is_wanted(self.met, outcome.met)
    }
}

#[derive(Clone, Copy)]
struct Act {
    name: &'static str,
    scene: Scene<'static>,
    wanted: Wanted,
}

/// A scene in which nobody calls, and its result.
const EMPTY: Scene<'static> = Scene {
    source: SPINNING,
    first: &[],
    errands: &[],
    workers: 0,
    budget: 0,
    hold: Hold::Nowhere,
};

const ANYTHING: Wanted = Wanted {
    answers: 0,
    entries: None,
    grant: None,
    room: None,
    stale: None,
    met: None,
};

/// Workers take all steps, whose grant is the same in each schedule.
const SPUN: Wanted = Wanted {
    answers: 2,
    grant: Some(958),
    ..ANYTHING
};

const ACTS: [Act; 8] = [
    Act {
        name: "two desks ask a hundred times each",
        scene: Scene {
            errands: &[Errand::Hundred, Errand::Hundred],
            workers: 1,
            ..EMPTY
        },
        wanted: Wanted {
            answers: 200,
            entries: Some(200),
            ..ANYTHING
        },
    },
    Act {
        name: "a desk sees what it did",
        scene: Scene {
            source: PRINTING,
            errands: &[Errand::See],
            ..EMPTY
        },
        wanted: Wanted {
            answers: 2,
            ..ANYTHING
        },
    },
    Act {
        name: "two workers take all steps",
        scene: Scene {
            first: &STARTED,
            errands: &[Errand::Watch],
            workers: 2,
            budget: u64::MAX,
            ..EMPTY
        },
        wanted: SPUN,
    },
    Act {
        name: "four workers take all steps",
        scene: Scene {
            first: &STARTED,
            errands: &[Errand::Watch],
            workers: 4,
            budget: u64::MAX,
            ..EMPTY
        },
        wanted: SPUN,
    },
    Act {
        name: "two workers are in their first batches at once",
        scene: Scene {
            first: &STARTED,
            workers: 2,
            budget: 1,
            hold: Hold::InBatch,
            ..EMPTY
        },
        wanted: Wanted {
            grant: Some(960),
            met: Some(true),
            ..ANYTHING
        },
    },
    Act {
        name: "a batch is stale after its start was taken back",
        scene: Scene {
            first: &STARTED,
            errands: &[Errand::TakeBack],
            workers: 1,
            budget: 1,
            hold: Hold::BeforeCommit,
            ..EMPTY
        },
        wanted: Wanted {
            answers: 1,
            grant: Some(1000),
            room: Some(1_000_000),
            stale: Some(1),
            met: Some(true),
            ..ANYTHING
        },
    },
    Act {
        name: "a worker ends at its budget, after a turn and a batch",
        scene: Scene {
            first: &[b"free 7"],
            workers: 1,
            budget: 2,
            ..EMPTY
        },
        wanted: Wanted {
            entries: Some(3),
            grant: Some(0),
            room: Some(999_993),
            stale: Some(0),
            ..ANYTHING
        },
    },
    Act {
        name: "idle workers end where they are told to",
        scene: Scene {
            errands: &[Errand::Close],
            workers: 2,
            budget: u64::MAX,
            ..EMPTY
        },
        wanted: Wanted {
            entries: Some(0),
            ..ANYTHING
        },
    },
];

#[test]
fn scenes_come_to_what_they_should(rt: HostRuntime) {
    for act in &ACTS {
        let outcome = play(&rt, rt.alloc(), act.scene);
        assert!(rt; act.wanted.is_met_by(&outcome), "{}", act.name);
    }
}

/// No seat is given, since there are as many askers as there may be.
fn show_full<T: Drop>(rt: &impl Abort, given: Result<T, EnrolRefused>) {
    assert_eq!(rt; given.err(), Some(EnrolRefused::Full));
}

/// As many askers as there may be get their seats, and no further one.
fn seats_given<B: Room, T: Wait + Abort>(rt: &T, alloc: Global, opened: Opened)
    requires table { opened.table ≡ B.table }
    requires session { (program_of opened.session.program ≡ B.program) × (opened.session.askers ≡ B.first) }
    requires before { opened.session.journal ≡ B.before }
    requires seats { B.last ≡ B.first + 1001 }
{
    let shared = Shared::<B>::new(opened, 1001);
    for _ in 0..500u64 {
        shared.desk(rt, alloc).expect(rt, "a desk");
        shared.worker_seat(rt, alloc).expect(rt, "a worker's seat");
    }
    show_full(rt, shared.desk(rt, alloc));
    show_full(rt, shared.worker_seat(rt, alloc));
}

#[test]
fn there_are_a_thousand_askers(rt: HostRuntime) {
    let session = Session::open(rt.alloc(), SPINNING).expect(&rt, "a session");
    let opened = Opened::new(rt.alloc(), session).expect(&rt, "memory for a table");
    seats_given::<Brand, _>(&rt, rt.alloc(), opened);
}
