//! Printers: each appends the one text of what it is given, or nothing. They fail only where the text has no room for
//! what they append and its growth was refused.

ghost use Rattle.std.specs.Prelude.{◌≡◌, ◌∷◌, ◌++◌, ◌+◌, ◌*◌, ◌<◌, ◌≤◌, length, drop, codes, decimal, vec_capacity, OnOk, OnErr};
ghost use Rattle.std.specs.List.{flat_map};
ghost use Rattle.gr_base.specs.Names.{go_text, ch_text, step_text};
ghost use Rattle.gr_base.specs.Values.{value_text};
ghost use Rattle.gr_base.specs.Kinds.{fault_text, kind_text};

use crate::kinds::{Fault, Kind};
use crate::memory::NoMemory;
use crate::names::{ChName, GoName, StepId};
use crate::values::Value;
use itoa::{Buffer, write_digits};

/// How many counts a short name of a goroutine has at most. A longer one takes five levels of goroutines, each started by the
/// one above it.
const SHORT_DEPTH: usize = 4;

/// Room for the text of a step of a goroutine with a short name: `g0`, and at most 21 bytes for each of five numbers with its
/// mark.
const SHORT_SIZE: usize = 128;

/// Appends the goroutine's name, as `g0.2.1`.
pub fn print_go(text: &mut Vec<u8>, name: &GoName) -> Result<(), NoMemory>
    ensures ok { OnOk result (text.new.items ≡ text.old.items ++ go_text name.now) }
    ensures err { OnErr result (text.new.items ≡ text.old.items) }
    ensures full { OnErr result (vec_capacity text.old < length text.old.items + length (go_text name.now)) }
    ensures capacity { vec_capacity text.old ≤ vec_capacity text.new }
{
    let before = text.len();
    text.extend_from_slice(b"g0")?;
    for count in name.counts() {
        if append_count(text, b".", u64::from(*count)).is_err() {
            text.truncate(before);
            return Err(NoMemory);
        }
    }
    Ok(())
}

/// Appends the channel's name, as `g0.2/c1`.
pub fn print_ch(text: &mut Vec<u8>, name: &ChName) -> Result<(), NoMemory>
    ensures ok { OnOk result (text.new.items ≡ text.old.items ++ ch_text name.now) }
    ensures err { OnErr result (text.new.items ≡ text.old.items) }
    ensures full { OnErr result (vec_capacity text.old < length text.old.items + length (ch_text name.now)) }
    ensures capacity { vec_capacity text.old ≤ vec_capacity text.new }
{
    let before = text.len();
    print_go(text, &name.go)?;
    if append_count(text, b"/c", u64::from(name.n)).is_err() {
        text.truncate(before);
        return Err(NoMemory);
    }
    Ok(())
}

/// Appends the step's name, as `g0.2#5`.
pub fn print_step(text: &mut Vec<u8>, step: &StepId) -> Result<(), NoMemory>
    ensures ok { OnOk result (text.new.items ≡ text.old.items ++ step_text step.now) }
    ensures err { OnErr result (text.new.items ≡ text.old.items) }
    ensures full { OnErr result (vec_capacity text.old < length text.old.items + length (step_text step.now)) }
    ensures capacity { vec_capacity text.old ≤ vec_capacity text.new }
{
    if step.go.counts().len() <= SHORT_DEPTH {
        return print_short_step(text, step);
    }
    print_long_step(text, step)
}

/// Appends the name of a step whose goroutine has a short name. The text is put together before it is appended.
fn print_short_step(text: &mut Vec<u8>, step: &StepId) -> Result<(), NoMemory>
    requires { length step.now.go ≤ SHORT_DEPTH }
    ensures ok { OnOk result (text.new.items ≡ text.old.items ++ step_text step.now) }
    ensures err { OnErr result (text.new.items ≡ text.old.items) }
    ensures full { OnErr result (vec_capacity text.old < length text.old.items + length (step_text step.now)) }
    ensures capacity { vec_capacity text.old ≤ vec_capacity text.new }
{
    let mut bytes = [0; SHORT_SIZE];
    let number = write_count(b'#', step.n, &mut bytes, SHORT_SIZE);
    let start = write_go(step.go.counts(), &mut bytes, number);
    append(text, &bytes[start..])
}

/// Appends the name of a step of any goroutine.
fn print_long_step(text: &mut Vec<u8>, step: &StepId) -> Result<(), NoMemory>
    ensures ok { OnOk result (text.new.items ≡ text.old.items ++ step_text step.now) }
    ensures err { OnErr result (text.new.items ≡ text.old.items) }
    ensures full { OnErr result (vec_capacity text.old < length text.old.items + length (step_text step.now)) }
    ensures capacity { vec_capacity text.old ≤ vec_capacity text.new }
{
    let before = text.len();
    print_go(text, &step.go)?;
    if append_count(text, b"#", step.n).is_err() {
        text.truncate(before);
        return Err(NoMemory);
    }
    Ok(())
}

/// Writes the mark and the number in decimal, which take at most 21 bytes, so that they end at a place. It answers where they
/// start.
fn write_count(mark: u8, n: u64, bytes: &mut [u8], end: usize) -> usize
    requires room { 21 ≤ end }
    requires within { end ≤ length bytes.old }
    ensures written { drop result bytes.new ≡ mark ∷ decimal n ++ drop end bytes.old }
    ensures start { end ≤ result + 21 }
    ensures within { result ≤ end }
{
    let start = write_digits(n, bytes, end) - 1;
    bytes[start] = mark;
    start
}

/// Writes counts so that they end at a place, each after a dot, and answers where they start.
fn write_counts(counts: &[u32], bytes: &mut [u8], end: usize) -> usize
    requires room { length counts.now * 21 ≤ end }
    requires within { end ≤ length bytes.old }
    ensures written { drop result bytes.new ≡ flat_map (λ count. codes "." ++ decimal count) counts.now ++ drop end bytes.old }
    ensures start { end ≤ result + length counts.now * 21 }
    ensures within { result ≤ end }
{
    let mut start = end;
    let mut left = counts.len();
    while left > 0 {
        left -= 1;
        start = write_count(b'.', u64::from(counts[left]), bytes, start);
    }
    start
}

/// Writes the name of the goroutine with these counts so that it ends at a place, and answers where it starts.
fn write_go(counts: &[u32], bytes: &mut [u8], end: usize) -> usize
    requires room { length counts.now * 21 + 2 ≤ end }
    requires within { end ≤ length bytes.old }
    ensures written { drop result bytes.new ≡ go_text counts.now ++ drop end bytes.old }
    ensures within { result ≤ end }
{
    let start = write_counts(counts, bytes, end) - 2;
    bytes[start] = b'g';
    bytes[start + 1] = b'0';
    start
}

/// Appends the value: a number in decimal, `true` or `false`, `{}`, `nil`, or a channel's name.
pub fn print_value(text: &mut Vec<u8>, value: &Value) -> Result<(), NoMemory>
    ensures ok { OnOk result (text.new.items ≡ text.old.items ++ value_text value.now) }
    ensures err { OnErr result (text.new.items ≡ text.old.items) }
    ensures full { OnErr result (vec_capacity text.old < length text.old.items + length (value_text value.now)) }
    ensures capacity { vec_capacity text.old ≤ vec_capacity text.new }
{
    match value {
        Value::Int(n) => append(text, Buffer::new().format(*n).as_bytes()),
        Value::Bool(true) => append(text, b"true"),
        Value::Bool(false) => append(text, b"false"),
        Value::Unit => append(text, b"{}"),
        Value::Chan(None) => append(text, b"nil"),
        Value::Chan(Some(name)) => print_ch(text, name),
    }
}

/// Appends the kind, as `pure`, `send-wait`, `pick 2` or `fault DivideByZero`.
pub fn print_kind(text: &mut Vec<u8>, kind: Kind) -> Result<(), NoMemory>
    ensures ok { OnOk result (text.new.items ≡ text.old.items ++ kind_text kind) }
    ensures err { OnErr result (text.new.items ≡ text.old.items) }
    ensures full { OnErr result (vec_capacity text.old < length text.old.items + length (kind_text kind)) }
    ensures capacity { vec_capacity text.old ≤ vec_capacity text.new }
{
    match kind {
        Kind::Pure => append(text, b"pure"),
        Kind::Call => append(text, b"call"),
        Kind::Return => append(text, b"return"),
        Kind::Go => append(text, b"go"),
        Kind::Make => append(text, b"make"),
        Kind::Length => append(text, b"length"),
        Kind::Hand => append(text, b"hand"),
        Kind::Meet => append(text, b"meet"),
        Kind::Buffer => append(text, b"buffer"),
        Kind::Take => append(text, b"take"),
        Kind::Closed => append(text, b"closed"),
        Kind::SendWait => append(text, b"send-wait"),
        Kind::RecvWait => append(text, b"recv-wait"),
        Kind::Pick(clause) => append_count(text, b"pick ", u64::from(clause)),
        Kind::Default => append(text, b"default"),
        Kind::SelectWait => append(text, b"select-wait"),
        Kind::Close => append(text, b"close"),
        Kind::Exit => append(text, b"exit"),
        Kind::Fault(fault) => append_both(text, b"fault ", fault_name(fault)),
    }
}

/// The fault's name.
fn fault_name(fault: Fault) -> &'static [u8]
    ensures { result.now ≡ fault_text fault }
{
    match fault {
        Fault::DivideByZero => b"DivideByZero",
        Fault::NegativeShift => b"NegativeShift",
        Fault::SendOnClosed => b"SendOnClosed",
        Fault::CloseOfClosed => b"CloseOfClosed",
        Fault::CloseOfNil => b"CloseOfNil",
        Fault::BadSize => b"BadSize",
        Fault::CallDepth => b"CallDepth",
        Fault::NameDepth => b"NameDepth",
        Fault::NameCount => b"NameCount",
    }
}

/// Appends the piece.
fn append(text: &mut Vec<u8>, piece: &[u8]) -> Result<(), NoMemory>
    ensures ok { OnOk result (text.new.items ≡ text.old.items ++ piece.now) }
    ensures err { OnErr result (text.new.items ≡ text.old.items) }
    ensures full { OnErr result (vec_capacity text.old < length text.old.items + length piece.now) }
    ensures capacity { vec_capacity text.old ≤ vec_capacity text.new }
{
    text.extend_from_slice(piece)?;
    Ok(())
}

/// Appends both pieces or none.
fn append_both(text: &mut Vec<u8>, first: &[u8], second: &[u8]) -> Result<(), NoMemory>
    ensures ok { OnOk result (text.new.items ≡ text.old.items ++ (first.now ++ second.now)) }
    ensures err { OnErr result (text.new.items ≡ text.old.items) }
    ensures full { OnErr result (vec_capacity text.old < length text.old.items + length first.now + length second.now) }
    ensures capacity { vec_capacity text.old ≤ vec_capacity text.new }
{
    let before = text.len();
    text.extend_from_slice(first)?;
    if text.extend_from_slice(second).is_err() {
        text.truncate(before);
        return Err(NoMemory);
    }
    Ok(())
}

/// Appends the mark and the number in decimal, or nothing.
fn append_count(text: &mut Vec<u8>, mark: &[u8], n: u64) -> Result<(), NoMemory>
    ensures ok { OnOk result (text.new.items ≡ text.old.items ++ (mark.now ++ decimal n)) }
    ensures err { OnErr result (text.new.items ≡ text.old.items) }
    ensures full { OnErr result (vec_capacity text.old < length text.old.items + length mark.now + length (decimal n)) }
    ensures capacity { vec_capacity text.old ≤ vec_capacity text.new }
{
    append_both(text, mark, Buffer::new().format(n).as_bytes())
}
