//! Calls of a store that the crates above do not make: they are for users of the library.

ghost use Rattle.gr_step.specs.Stores.{IsStart, program_at};

use gr_base::{Choice, Event, GoName, Kind};
use gr_session::program_of_source;
use gr_step::{Record, StepRefused, Store};
use std::alloc::Global;
use std::process::Abort;
use std::sync::Arc;

/// At its first step `main` stands at a select, which takes the default clause.
const DEFAULT: &[u8] =
    b"package main\nfunc main() {\n\tselect {\n\tdefault:\n\t\tprintln(1)\n\t}\n}\n";

/// The store of `DEFAULT` before its first step.
fn store(rt: &impl Abort, alloc: Global) -> Store
    ensures { IsStart (program_at result) result }
{
    let program = program_of_source(alloc, DEFAULT).expect(rt, "a program");
    let shared = Arc::new(alloc, program).expect(rt, "memory for a program");
    Store::start(alloc, shared).expect(rt, "memory for a store")
}

/// Whether a step took the default clause of `main`.
fn is_default(step: &Record) -> bool {
    step.id.go.is_main() && step.id.n == 1 && step.kind() == Kind::Default
}

/// The step of `main` with this choice, taken by `Store::step` as the first one.
#[tactic(auto, using(crate::proofs::Starting::counted))]
fn first_step(rt: &impl Abort, alloc: Global, choice: Choice) -> Result<Record, StepRefused> {
    let mut store = store(rt, alloc);
    let go = GoName::main(alloc).expect(rt, "memory for a name");
    store.step(Event { go, choice })
}

#[test]
fn a_step_is_taken_with_its_choice_alone(rt: HostRuntime) {
    let taken = first_step(&rt, rt.alloc(), Choice::Default);
    assert!(rt; is_default(&taken.expect(&rt, "a step")));
    let refused = first_step(&rt, rt.alloc(), Choice::Plain);
    assert!(rt; matches!(refused, Err(StepRefused::NoChoice)));
}

#[test]
#[tactic(auto, using(crate::proofs::Starting::counted))]
fn the_usual_step_has_the_usual_choice(rt: HostRuntime) {
    let mut store = store(&rt, rt.alloc());
    let main = GoName::main(rt.alloc()).expect(&rt, "memory for a name");
    let need = store.need(&main).expect(&rt, "memory for a need");
    assert!(rt; need.is_some());
    let usual = store.usual_choice(&main).expect(&rt, "few clauses");
    assert!(rt; usual == Choice::Default);
    let step = store.step_usual(main).expect(&rt, "a step");
    assert!(rt; is_default(&step));
}
