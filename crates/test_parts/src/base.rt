//! Names, values, objects, events and kinds: each text once, printed and read, at the ends of the ranges.

use gr_base::{
    ChName, Fault, GoName, Kind, StepId, Value, print_ch, print_go, print_kind, print_step,
    print_value, read_ch, read_go, read_step,
};
use std::alloc::Global;
use std::collections::BTreeMap;
use std::process::Abort;

/// The goroutine that these counts lead to.
pub(crate) fn named(rt: &impl Abort, alloc: Global, counts: &[u32]) -> GoName {
    let mut name = GoName::main(alloc).expect(rt, "memory for a name");
    for count in counts {
        assert!(rt; *count > 0);
        name = name.child(alloc, *count).expect(rt, "memory for a name");
    }
    name
}

/// Whether a goroutine's name has this text, in both directions.
fn show_go(rt: &impl Abort, alloc: Global, name: &GoName, text: &[u8]) {
    let mut printed = Vec::new(alloc);
    print_go(&mut printed, name).expect(rt, "memory for a text");
    assert!(rt; printed.as_slice() == text);
    let read = read_go(alloc, text).expect(rt, "memory for a name");
    assert!(rt; read.expect(rt, "a name") == *name);
}

/// Whether a channel's name has this text, in both directions.
fn show_ch(rt: &impl Abort, alloc: Global, name: &ChName, text: &[u8]) {
    let mut printed = Vec::new(alloc);
    print_ch(&mut printed, name).expect(rt, "memory for a text");
    assert!(rt; printed.as_slice() == text);
    let read = read_ch(alloc, text).expect(rt, "memory for a name");
    assert!(rt; read.expect(rt, "a name") == *name);
}

/// Whether a step's name has this text, in both directions.
fn show_step(rt: &impl Abort, alloc: Global, name: &StepId, text: &[u8]) {
    let mut printed = Vec::new(alloc);
    print_step(&mut printed, name).expect(rt, "memory for a text");
    assert!(rt; printed.as_slice() == text);
    let read = read_step(alloc, text).expect(rt, "memory for a name");
    assert!(rt; read.expect(rt, "a name") == *name);
}

#[test]
fn names_are_printed_and_read_back(rt: HostRuntime) {
    let alloc = rt.alloc();
    let main = named(&rt, alloc, &[]);
    assert!(rt; main.is_main());
    let go = named(&rt, alloc, &[2, u32::MAX]);
    assert!(rt; main < go);
    show_go(&rt, alloc, &go, b"g0.2.4294967295");
    let channel = ChName { go, n: 10 };
    show_ch(&rt, alloc, &channel, b"g0.2.4294967295/c10");
    let step = StepId {
        go: channel.go,
        n: u64::MAX,
    };
    show_step(&rt, alloc, &step, b"g0.2.4294967295#18446744073709551615");
}

const NO_GOROUTINES: [&[u8]; 4] = [b"g0.4294967296", b"g00", b"g0.", b"g0.01"];

const NO_CHANNELS: [&[u8]; 2] = [b"g0/1", b"g0/c1 "];

const NO_STEPS: [&[u8]; 2] = [b"g0#0", b"g0#18446744073709551616"];

#[test]
fn other_texts_are_no_names(rt: HostRuntime) {
    let alloc = rt.alloc();
    show_go(&rt, alloc, &named(&rt, alloc, &[]), b"g0");
    for text in &NO_GOROUTINES {
        let read = read_go(alloc, text).expect(&rt, "memory for a name");
        assert!(rt; read.is_none());
    }
    for text in &NO_CHANNELS {
        let read = read_ch(alloc, text).expect(&rt, "memory for a name");
        assert!(rt; read.is_none());
    }
    for text in &NO_STEPS {
        let read = read_step(alloc, text).expect(&rt, "memory for a name");
        assert!(rt; read.is_none());
    }
}

/// Whether a copy of the value has this text, which comes after what is there.
fn show_value(rt: &impl Abort, alloc: Global, value: &Value, text: &[u8]) {
    let copy = value.copy(alloc).expect(rt, "memory for a copy");
    let mut printed = Vec::from_slice(alloc, b"= ").expect(rt, "memory for a text");
    print_value(&mut printed, &copy).expect(rt, "memory for a text");
    assert!(rt; printed.as_slice().starts_with(b"= "));
    assert!(rt; &printed[2..] == text);
}

#[test]
fn values_are_printed(rt: HostRuntime) {
    let alloc = rt.alloc();
    let go = named(&rt, alloc, &[]);
    let texts: [(Value, &[u8]); 5] = [
        (Value::Int(i64::MIN), b"-9223372036854775808"),
        (Value::Bool(true), b"true"),
        (Value::Unit, b"{}"),
        (Value::Chan(None), b"nil"),
        (Value::Chan(Some(ChName { go, n: 1 })), b"g0/c1"),
    ];
    for (value, text) in &texts {
        show_value(&rt, alloc, value, text);
    }
}

fn show_kind(rt: &impl Abort, alloc: Global, kind: Kind, text: &[u8]) {
    let mut printed = Vec::new(alloc);
    print_kind(&mut printed, kind).expect(rt, "memory for a text");
    assert!(rt; printed.as_slice() == text);
}

const KINDS: [(Kind, &[u8]); 3] = [
    (Kind::SendWait, b"send-wait"),
    (Kind::Pick(2), b"pick 2"),
    (Kind::Fault(Fault::DivideByZero), b"fault DivideByZero"),
];

#[test]
fn kinds_are_printed(rt: HostRuntime) {
    for (kind, text) in &KINDS {
        show_kind(&rt, rt.alloc(), *kind, text);
    }
}

#[test]
fn names_are_keys(rt: HostRuntime) {
    let alloc = rt.alloc();
    let mut made = BTreeMap::new(alloc);
    let channel = ChName {
        go: named(&rt, alloc, &[1]),
        n: 1,
    };
    let key = channel.copy(alloc).expect(&rt, "memory for a name");
    let before: Result<_, _> = made.insert(key, 5);
    assert!(rt; before.expect(&rt, "memory for a key").is_none());
    assert_eq!(rt; made.get(&channel).copied(), Some(5));
}
