//! Batches in one thread. Goroutines are lent, and batches run and committed with ample memory. A batch is refused if its
//! goroutine changed, or if the grant has no room for it.
ghost use Rattle.std.specs.Prelude.{◌≤◌};

use crate::lines::{command, text_of};
use gr_command::Reply;
use gr_share::{Batch, DeskId, Open, Session, run_batch};
use std::alloc::Global;
use std::process::Abort;

/// Two goroutines that take 21 steps each, 20 of them by themselves.
pub(crate) const SPINNING: &[u8] =
    b"package main\nfunc spin(n int) { for i := 0; i < n; i++ { } }\nfunc main() {\n\tgo spin(9)\n\tgo spin(9)\n\tselect {}\n}\n";

/// Starts both, and lets the workers take steps.
pub(crate) const STARTED: [&[u8]; 4] = [b"step g0", b"step g0", b"step g0", b"free 1000"];

/// A program that ends beside a goroutine which takes steps by itself.
const ENDING: &[u8] =
    b"package main\nfunc spin(n int) { for i := 0; i < n; i++ { } }\nfunc main() {\n\tgo spin(9)\n}\n";

/// A goroutine that takes 402 steps by itself, which are two batches.
const COUNTING: &[u8] =
    b"package main\nfunc spin(n int) { for i := 0; i < n; i++ { } }\nfunc main() {\n\tgo spin(200)\n\tselect {}\n}\n";

/// A goroutine that has the length of a buffer in a temporary when it is lent. When it is lent again, it needs that no more.
const MEASURING: &[u8] =
    b"package main\nfunc work(c chan int, x int) {\n\ty := len(c) + x\n\tfor y < 9 {\n\t\ty++\n\t}\n}\nfunc main() {\n\tc := make(chan int, 1)\n\tgo work(c, 1)\n\tselect {}\n}\n";

/// What is done, and what is to come of it.
#[derive(Clone, Copy)]
enum Act<'a> {
    // A line is asked, which gets this reply.
    Ask(&'a [u8], &'a [u8]),
    // The first goroutine that may be lent takes a batch of at most this many steps, which has this many.
    Run(usize, usize),
    // The last batch that was run is committed: this many steps joined the log, or it is stale.
    Commit(Option<u32>),
    // This much is left of the grant.
    Grant(u32),
    // The log takes this many steps more.
    Room(usize),
    // No goroutine may be lent, and no turn is due.
    Idle,
}

/// A session, with one who asks it and the batches that were run.
#[derive(Drop)]
pub(crate) struct Asking {
    pub(crate) session: Session,
    desk: DeskId,
    batches: Vec<Batch>,
    ghost enrolled: { (1 ≤ desk.number) × (desk.number ≤ session.askers) },
}

/// Whether it says that this many steps were committed, or that the batch was stale.
fn says(reply: &Reply, joined: Option<u32>) -> bool {
    match reply {
        Reply::Committed(steps) => joined == Some(*steps),
        Reply::Stale => joined.is_none(),
        _ => false,
    }
}

impl Asking {
    pub(crate) fn new(rt: &impl Abort, alloc: Global, source: &[u8]) -> Asking {
        let mut session = Session::open(alloc, source).expect(rt, "a session");
        let desk = session.enrol().expect(rt, "a desk");
        Asking {
            session,
            desk,
            batches: Vec::new(alloc),
        }
    }

    pub(crate) fn reply(&mut self, rt: &impl Abort, alloc: Global, line: &[u8]) -> Reply {
        let asked = self.session.ask(alloc, self.desk, command(rt, alloc, line));
        asked.expect(rt, "an entry").reply
    }

    /// Asks all lines, and lets their replies go.
    pub(crate) fn ask_all(&mut self, rt: &impl Abort, alloc: Global, lines: &[&[u8]]) {
        for line in lines {
            self.reply(rt, alloc, line);
        }
    }

    /// Answers how many steps the batch has.
    fn run(&mut self, rt: &impl Abort, alloc: Global, limit: usize) -> usize {
        self.batches.reserve(1).expect(rt, "memory for a batch");
        let lent = self.session.lease(alloc, 0).expect(rt, "memory for a loan");
        let lease = lent.expect(rt, "a goroutine that may be lent");
        let batch = run_batch(alloc, lease, limit, &Open).expect(rt, "memory for a batch");
        let steps = batch.len();
        self.batches.push_reserved(batch);
        steps
    }

    /// Whether this many steps of the last batch join the log, or it is stale.
    fn commit(&mut self, rt: &impl Abort, alloc: Global, joined: Option<u32>) -> bool {
        let batch = self.batches.pop().expect(rt, "a batch");
        let committed = self.session.commit(alloc, self.desk, batch);
        let receipt = committed.expect(rt, "an entry");
        says(&receipt.reply, joined)
    }

    fn is_idle(&self, rt: &impl Abort, alloc: Global) -> bool {
        let lent = self.session.lease(alloc, 0).expect(rt, "memory for a loan");
        lent.is_none() && !self.session.turn_due()
    }

    /// Whether the act comes out as it says.
    fn act(&mut self, rt: &impl Abort, alloc: Global, act: Act<'_>) -> bool {
        match act {
            Act::Ask(line, wanted) => {
                let reply = self.reply(rt, alloc, line);
                text_of(rt, alloc, &reply).as_slice() == wanted
            }
            Act::Run(limit, steps) => self.run(rt, alloc, limit) == steps,
            Act::Commit(joined) => self.commit(rt, alloc, joined),
            Act::Grant(left) => self.session.grant() == left,
            Act::Room(left) => self.session.room() == left,
            Act::Idle => self.is_idle(rt, alloc),
        }
    }
}

/// A program, what is asked before, and what is done with its batches.
#[derive(Clone, Copy)]
struct Story {
    name: &'static str,
    source: &'static [u8],
    lines: &'static [&'static [u8]],
    acts: &'static [Act<'static>],
}

const STORIES: [Story; 7] = [
    Story {
        name: "a batch joins the log",
        source: SPINNING,
        lines: &STARTED,
        acts: &[
            Act::Run(5, 5),
            Act::Commit(Some(5)),
            Act::Grant(995),
            Act::Ask(b"show g0.1", b"| g0.1 ready 5 line 2\n| spin n=9 i=2\nok\n"),
        ],
    },
    Story {
        name: "a batch joins once",
        source: SPINNING,
        lines: &STARTED,
        acts: &[
            Act::Run(256, 20),
            Act::Run(256, 20),
            Act::Commit(Some(20)),
            Act::Grant(980),
            Act::Commit(None),
            Act::Grant(980),
        ],
    },
    Story {
        name: "what came back is as it was lent",
        source: SPINNING,
        lines: &STARTED,
        acts: &[
            Act::Run(5, 5),
            Act::Run(5, 5),
            Act::Ask(b"back g0#1", b"ok 3 g0#1 g0#2 g0#3\n"),
            Act::Commit(None),
            Act::Room(1_000_000),
            Act::Ask(b"redo", b"ok 3 g0#1 g0#2 g0#3\n"),
            Act::Commit(Some(5)),
        ],
    },
    Story {
        name: "what came back with its temporaries is as it was lent",
        source: MEASURING,
        lines: &[
            b"step g0",
            b"step g0",
            b"step g0",
            b"step g0.1",
            b"free 1000",
        ],
        acts: &[
            Act::Run(2, 2),
            Act::Ask(b"undo", b"ok g0.1#1\n"),
            Act::Ask(b"step g0.1", b"ok g0.1#1 length\n"),
            Act::Commit(Some(2)),
            Act::Run(2, 2),
            Act::Ask(b"undo", b"ok g0.1#3\n"),
            Act::Ask(b"step g0.1", b"ok g0.1#3 pure\n"),
            Act::Commit(Some(2)),
        ],
    },
    Story {
        name: "a batch keeps to the grant",
        source: SPINNING,
        lines: &STARTED,
        acts: &[
            Act::Run(5, 5),
            Act::Ask(b"free 3", b"ok grant 3\n"),
            Act::Commit(None),
            Act::Run(0, 1),
            Act::Commit(Some(1)),
        ],
    },
    Story {
        name: "the longest batch joins the log",
        source: COUNTING,
        lines: &[b"step g0", b"step g0", b"free 1000"],
        acts: &[
            Act::Run(1000, 256),
            Act::Commit(Some(256)),
            Act::Grant(744),
            Act::Room(999_742),
            Act::Run(256, 146),
            Act::Commit(Some(146)),
            Act::Grant(598),
        ],
    },
    Story {
        name: "none is lent after the end",
        source: ENDING,
        lines: &[b"step g0", b"step g0", b"free 1000"],
        acts: &[Act::Idle],
    },
];

/// Plays a story, whose acts are to come out as they say, one after the other.
fn play(rt: &impl Abort, alloc: Global, story: &Story) {
    let mut asking = Asking::new(rt, alloc, story.source);
    asking.ask_all(rt, alloc, story.lines);
    for (number, act) in story.acts.iter().enumerate() {
        assert!(rt; asking.act(rt, alloc, *act), "{}: act {number}", story.name);
    }
}

#[test]
fn batches_come_out_as_told(rt: HostRuntime) {
    for story in &STORIES {
        play(&rt, rt.alloc(), story);
    }
}
