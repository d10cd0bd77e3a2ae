//! What a user of the library asks a session's machine: its store, and its log.

use crate::batching::Asking;
use gr_base::{ChName, GoName, Object, read_go};
use gr_share::Session;
use std::alloc::Global;
use std::process::Abort;

/// A buffer of one place is full when `main` comes to its select: the first clause can proceed, and the second cannot.
const CHOOSING: &[u8] =
    b"package main\nfunc main() {\n\tc := make(chan int, 1)\n\tc <- 5\n\tselect {\n\tcase v := <-c:\n\t\tprintln(v)\n\tcase c <- 2:\n\t}\n}\n";

/// Two goroutines that print. The first is taken back beside the other.
const SAYING: &[u8] =
    b"package main\nfunc say(n int) { println(n) }\nfunc main() {\n\tprintln(0)\n\tgo say(1)\n\tgo say(2)\n\tselect {}\n}\n";

/// The steps of both, with which `SAYING` stands.
const SAID: [&[u8]; 5] = [
    b"step g0",
    b"step g0",
    b"step g0",
    b"step g0.1",
    b"step g0.2",
];

/// Whether the steps at these places of the log touch the object, and no others, each writing it or not.
fn is_touched(session: &Session, object: &Object, places: &[u32], writes: bool) -> bool {
    let Some(touches) = session.machine().log().touched(object) else {
        return places.is_empty();
    };
    if touches.len() != places.len() {
        return false;
    }
    for (touch, place) in touches.iter().zip(places) {
        if touch.place() != *place || touch.writes() != writes {
            return false;
        }
    }
    true
}

/// The store and the log of the session are to say this.
#[tactic(auto, using(crate::proofs::Running::runs))]
fn show(rt: &impl Abort, alloc: Global, session: &Session) {
    let main = GoName::main(alloc).expect(rt, "memory for a name");
    let go = main.copy(alloc).expect(rt, "memory for a name");
    let machine = session.machine();
    let log = machine.log();
    let touches = log.touched(&Object::Gate(ChName { go, n: 1 }));
    assert_eq!(rt; touches.expect(rt, "touches").len(), 2);
    assert_eq!(rt; log.last_of(&main).expect(rt, "a step").n, 3);
    let store = machine.store();
    assert_eq!(rt; store.taken(), 4);
    let ready = store
        .ready_cases(&main)
        .expect(rt, "memory for the clauses");
    assert_eq!(rt; ready.as_slice(), [1].as_slice());
}

#[test]
fn store_and_log_tell_what_was_done(rt: HostRuntime) {
    let mut asking = Asking::new(&rt, rt.alloc(), CHOOSING);
    asking.ask_all(
        &rt,
        rt.alloc(),
        &[b"step g0", b"step g0", b"step g0", b"undo", b"step g0"],
    );
    show(&rt, rt.alloc(), &asking.session);
}

#[test]
fn touches_are_those_of_the_kept_steps(rt: HostRuntime) {
    let mut asking = Asking::new(&rt, rt.alloc(), SAYING);
    asking.ask_all(&rt, rt.alloc(), &SAID);
    let first = read_go(rt.alloc(), b"g0.1").expect(&rt, "memory for a name");
    let first = Object::Go(first.expect(&rt, "a name"));
    assert!(rt; is_touched(&asking.session, &first, &[1, 3], true));
    assert!(rt; is_touched(&asking.session, &Object::Run, &[0, 1, 2, 3, 4], false));
    asking.ask_all(&rt, rt.alloc(), &[b"back g0.1#1"]);
    assert!(rt; is_touched(&asking.session, &first, &[1], true));
    assert!(rt; is_touched(&asking.session, &Object::Run, &[0, 1, 2, 3], false));
}
