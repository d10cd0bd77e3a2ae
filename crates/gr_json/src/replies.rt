//! JSON of replies.

ghost use Rattle.std.specs.Prelude.{◌≡◌, ◌∷◌, [], codes, IfOk};
ghost use Rattle.serde_json.specs.Data.{boolean, string};
ghost use Rattle.serde_json.specs.View.{view};
ghost use Rattle.gr_command.specs.Replies.{lines_in, goroutine_in, channel_in, status_in};
ghost use Rattle.gr_command.specs.Replies as said;
ghost use Rattle.gr_json.specs.Replies.{reply_data, refusal_code, end_name, end_kind, end_line, status_name};
ghost use Rattle.gr_json.specs.Parts.{count, fields};
ghost use Rattle.gr_json.specs.Replies as json;

use crate::parts::{Told, list, perhaps, text};
use gr_base::{Kind, NoMemory, StepId, Value as Held};
use gr_channels::Waiter;
use gr_command::{
    ChannelShown, FrameShown, GoroutineShown, Refusal, Reply, RunEnd, Status, write_reply,
};
use serde_json::{Value, json};
use std::alloc::{AllocError, Global};

fn code(why: Refusal) -> &'static str
    ensures { result.now ≡ refusal_code why }
{
    match why {
        Refusal::Ended => "N1",
        Refusal::NotThere => "N2",
        Refusal::Waits => "N3",
        Refusal::Done => "N4",
        Refusal::NoChoice => "N5",
        Refusal::NoMemory => "N6",
        Refusal::NothingToUndo => "B1",
        Refusal::NotKept => "B2",
        Refusal::NotTheSteps => "B3",
        Refusal::NothingToRedo => "B5",
        Refusal::LogFull => "Q1",
    }
}

fn name_of_end(end: RunEnd) -> &'static str
    ensures { result.now ≡ end_name end }
{
    match end {
        RunEnd::Ended => "ended",
        RunEnd::Fault(_) => "fault",
        RunEnd::Count => "count",
        RunEnd::Stuck => "stuck",
        RunEnd::Full => "full",
        RunEnd::Break(_) => "break",
        RunEnd::Memory => "memory",
    }
}

/// The kind of the step that stopped the program, if one did.
fn kind_of_end(end: RunEnd) -> Option<Kind>
    ensures { result ≡ end_kind end }
{
    match end {
        RunEnd::Fault(fault) => Some(Kind::Fault(fault)),
        _ => None,
    }
}

/// The line of the breakpoint that ended a run, if one did.
fn line_of_end(end: RunEnd) -> Option<u32>
    ensures { result ≡ end_line end }
{
    match end {
        RunEnd::Break(line) => Some(line),
        _ => None,
    }
}

pub(crate) fn name_of_status(status: Status) -> &'static str
    ensures { result.now ≡ status_name (status_in status) }
{
    match status {
        Status::Ready => "ready",
        Status::Waiting => "waiting",
        Status::Done => "done",
    }
}

impl Told for (Vec<u8>, Held) {
    ghost use Rattle.gr_command.specs.Replies.{variable_in};
    ghost use Rattle.gr_json.specs.Replies.{variable_data};

    ghost told = { λ variable. variable_data (variable_in variable) };

    fn value(&self, alloc: Global) -> Result<Value, NoMemory> {
        let (name, held) = self;
        let name = name.value(alloc)?;
        let held = held.value(alloc)?;
        Ok(json!(in alloc; {"name": name, "value": held})?)
    }
}

fn frame(alloc: Global, function: Value, variables: Value) -> Result<Value, AllocError>
    ensures { IfOk result (λ value. view value
        ≡ fields ((codes "function", view function) ∷ (codes "variables", view variables) ∷ [])) }
{
    json!(in alloc; {"function": function, "variables": variables})
}

impl Told for FrameShown {
    ghost use Rattle.gr_command.specs.Replies.{frame_in};
    ghost use Rattle.gr_json.specs.Replies.{frame_data};

    ghost told = { λ frame. frame_data (frame_in frame) };

    fn value(&self, alloc: Global) -> Result<Value, NoMemory> {
        let function = self.function.value(alloc)?;
        let variables = list(alloc, self.variables.as_slice())?;
        let value = frame(alloc, function, variables)?;
        Ok(value)
    }
}

impl Told for Waiter<()> {
    ghost use Rattle.gr_json.specs.Replies.{receiver_data};

    ghost told = { receiver_data };

    fn value(&self, alloc: Global) -> Result<Value, NoMemory> {
        let clause = perhaps(alloc, &self.case)?;
        let go = self.go.value(alloc)?;
        Ok(json!(in alloc; {"clause": clause, "goroutine": go})?)
    }
}

fn sender(alloc: Global, clause: Value, go: Value, held: Value) -> Result<Value, AllocError>
    ensures { IfOk result (λ value. view value
        ≡ fields ((codes "clause", view clause) ∷ (codes "goroutine", view go) ∷ (codes "value", view held) ∷ [])) }
{
    json!(in alloc; {"clause": clause, "goroutine": go, "value": held})
}

impl Told for Waiter<Held> {
    ghost use Rattle.gr_json.specs.Replies.{sender_data};

    ghost told = { sender_data };

    fn value(&self, alloc: Global) -> Result<Value, NoMemory> {
        let clause = perhaps(alloc, &self.case)?;
        let go = self.go.value(alloc)?;
        let held = self.value.value(alloc)?;
        Ok(sender(alloc, clause, go, held)?)
    }
}

impl Told for (StepId, Kind) {
    ghost use Rattle.gr_json.specs.Replies.{kept_data};

    ghost told = { kept_data };

    fn value(&self, alloc: Global) -> Result<Value, NoMemory> {
        let (id, kind) = self;
        let id = id.value(alloc)?;
        let kind = kind.value(alloc)?;
        Ok(json!(in alloc; {"id": id, "kind": kind})?)
    }
}

fn step_answer(alloc: Global, id: Value, kind: Value) -> Result<Value, AllocError>
    ensures { IfOk result (λ value. view value
        ≡ json.answer (codes "stepped") ((codes "id", view id) ∷ (codes "kind", view kind) ∷ [])) }
{
    json!(in alloc; {"answer": "stepped", "id": id, "kind": kind})
}

fn stepped(alloc: Global, id: &StepId, kind: &Kind) -> Result<Value, NoMemory>
    ensures { IfOk result (λ value. view value ≡ reply_data (said.Stepped id.now kind.now)) }
{
    let id = id.value(alloc)?;
    let kind = kind.value(alloc)?;
    Ok(step_answer(alloc, id, kind)?)
}

fn run_answer(
    alloc: Global,
    end: &str,
    kind: Value,
    line: Value,
    steps: u64,
) -> Result<Value, AllocError>
    ensures { IfOk result (λ value. view value ≡ json.answer (codes "ran") (
        (codes "end", string end.now) ∷ (codes "kind", view kind) ∷ (codes "line", view line)
        ∷ (codes "steps", count steps) ∷ [])) }
{
    json!(in alloc; {"answer": "ran", "end": end, "kind": kind, "line": line, "steps": steps})
}

fn ran(alloc: Global, steps: u64, end: RunEnd) -> Result<Value, NoMemory>
    ensures { IfOk result (λ value. view value ≡ reply_data (said.Ran steps end)) }
{
    let kind = perhaps(alloc, &kind_of_end(end))?;
    let line = perhaps(alloc, &line_of_end(end))?;
    Ok(run_answer(alloc, name_of_end(end), kind, line, steps)?)
}

fn undone(alloc: Global, id: &StepId) -> Result<Value, NoMemory>
    ensures { IfOk result (λ value. view value ≡ reply_data (said.Undone id.now)) }
{
    let id = id.value(alloc)?;
    Ok(json!(in alloc; {"answer": "undone", "id": id})?)
}

fn goroutine_answer(
    alloc: Global,
    frames: Value,
    go: Value,
    line: Value,
    status: &str,
    steps: u64,
) -> Result<Value, AllocError>
    ensures { IfOk result (λ value. view value ≡ json.answer (codes "goroutine") (
        (codes "frames", view frames) ∷ (codes "goroutine", view go) ∷ (codes "line", view line)
        ∷ (codes "status", string status.now) ∷ (codes "steps", count steps) ∷ [])) }
{
    json!(in alloc; {
        "answer": "goroutine",
        "frames": frames,
        "goroutine": go,
        "line": line,
        "status": status,
        "steps": steps
    })
}

fn goroutine(alloc: Global, shown: &GoroutineShown) -> Result<Value, NoMemory>
    ensures { IfOk result (λ value. view value ≡ reply_data (said.Shown shown.now.go (goroutine_in shown.now))) }
{
    let frames = list(alloc, shown.frames.as_slice())?;
    let go = shown.go.value(alloc)?;
    let line = perhaps(alloc, &shown.line)?;
    let status = name_of_status(shown.status);
    let value = goroutine_answer(alloc, frames, go, line, status, shown.steps)?;
    Ok(value)
}

fn channel_answer(
    alloc: Global,
    capacity: u32,
    closed: bool,
    items: Value,
    receivers: Value,
    senders: Value,
) -> Result<Value, AllocError>
    ensures { IfOk result (λ value. view value ≡ json.answer (codes "channel") (
        (codes "capacity", count capacity) ∷ (codes "closed", boolean closed) ∷ (codes "items", view items)
        ∷ (codes "receivers", view receivers) ∷ (codes "senders", view senders) ∷ [])) }
{
    json!(in alloc; {
        "answer": "channel",
        "capacity": capacity,
        "closed": closed,
        "items": items,
        "receivers": receivers,
        "senders": senders
    })
}

fn channel(alloc: Global, shown: &ChannelShown) -> Result<Value, NoMemory>
    ensures { IfOk result (λ value. view value ≡ reply_data (said.Channel (channel_in shown.now))) }
{
    let items = list(alloc, shown.items.as_slice())?;
    let receivers = list(alloc, shown.receivers.as_slice())?;
    let senders = list(alloc, shown.senders.as_slice())?;
    let (capacity, closed) = (shown.capacity, shown.closed);
    let value = channel_answer(alloc, capacity, closed, items, receivers, senders)?;
    Ok(value)
}

fn lines_answer(alloc: Global, lines: Value) -> Result<Value, AllocError>
    ensures { IfOk result (λ value. view value ≡ json.answer (codes "lines") ((codes "lines", view lines) ∷ [])) }
{
    json!(in alloc; {"answer": "lines", "lines": lines})
}

fn lines(alloc: Global, lines: &[Vec<u8>]) -> Result<Value, NoMemory>
    ensures { IfOk result (λ value. view value ≡ reply_data (said.Lines (lines_in lines.now))) }
{
    let lines = list(alloc, lines)?;
    let value = lines_answer(alloc, lines)?;
    Ok(value)
}

fn log(alloc: Global, steps: &[(StepId, Kind)]) -> Result<Value, NoMemory>
    ensures { IfOk result (λ value. view value ≡ reply_data (said.Log steps.now)) }
{
    let steps = list(alloc, steps)?;
    Ok(json!(in alloc; {"answer": "log", "steps": steps})?)
}

fn steps(alloc: Global, ids: &[StepId]) -> Result<Value, NoMemory>
    ensures { IfOk result (λ value. view value ≡ reply_data (said.Steps ids.now)) }
{
    let ids = list(alloc, ids)?;
    Ok(json!(in alloc; {"answer": "steps", "ids": ids})?)
}

fn partly(alloc: Global, ids: &[StepId]) -> Result<Value, NoMemory>
    ensures { IfOk result (λ value. view value ≡ reply_data (said.PartlyDone ids.now)) }
{
    let ids = list(alloc, ids)?;
    Ok(json!(in alloc; {"answer": "partly", "code": "B6", "ids": ids})?)
}

fn order_answer(alloc: Global, earlier: Value, later: Value) -> Result<Value, AllocError>
    ensures { IfOk result (λ value. view value ≡ json.answer (codes "breaks") (
        (codes "code", string (codes "B4")) ∷ (codes "earlier", view earlier) ∷ (codes "later", view later) ∷ [])) }
{
    json!(in alloc; {"answer": "breaks", "code": "B4", "earlier": earlier, "later": later})
}

fn breaks(alloc: Global, earlier: &StepId, later: &StepId) -> Result<Value, NoMemory>
    ensures { IfOk result (λ value. view value ≡ reply_data (said.BreaksDependence earlier.now later.now)) }
{
    let earlier = earlier.value(alloc)?;
    let later = later.value(alloc)?;
    Ok(order_answer(alloc, earlier, later)?)
}

/// A reply that tells a count of steps.
fn counted(alloc: Global, what: &str, steps: u32) -> Result<Value, NoMemory>
    ensures { IfOk result (λ value. view value ≡ json.counted what.now steps) }
{
    Ok(json!(in alloc; {"answer": what, "steps": steps})?)
}

/// A reply without parts.
fn bare(alloc: Global, what: &str) -> Result<Value, NoMemory>
    ensures { IfOk result (λ value. view value ≡ json.answer what.now []) }
{
    Ok(json!(in alloc; {"answer": what})?)
}

fn refused(alloc: Global, why: Refusal) -> Result<Value, NoMemory>
    ensures { IfOk result (λ value. view value ≡ reply_data (said.No why)) }
{
    let code = code(why);
    Ok(json!(in alloc; {"answer": "refused", "code": code})?)
}

impl Told for Reply {
    ghost use Rattle.gr_command.specs.Replies.{said_of};
    ghost use Rattle.gr_json.specs.Replies.{reply_data};

    ghost told = { λ reply. reply_data (said_of reply) };

    fn value(&self, alloc: Global) -> Result<Value, NoMemory> {
        match self {
            Reply::Stepped(id, kind) => stepped(alloc, id, kind),
            Reply::Ran { steps, end } => ran(alloc, *steps, *end),
            Reply::Undone(id) => undone(alloc, id),
            Reply::Shown(shown) => goroutine(alloc, shown),
            Reply::Channel(shown) => channel(alloc, shown),
            Reply::Lines(said) => lines(alloc, said.as_slice()),
            Reply::Log(kept) => log(alloc, kept.as_slice()),
            Reply::Steps(ids) => steps(alloc, ids.as_slice()),
            Reply::PartlyDone(ids) => partly(alloc, ids.as_slice()),
            Reply::BreaksDependence { earlier, later } => breaks(alloc, earlier, later),
            Reply::Acknowledged => bare(alloc, "done"),
            Reply::Granted(steps) => counted(alloc, "granted", *steps),
            Reply::Committed(steps) => counted(alloc, "committed", *steps),
            Reply::Stale => bare(alloc, "stale"),
            Reply::Refused(why) => refused(alloc, *why),
        }
    }
}

fn said_value(alloc: Global, reply: Value, text: Value) -> Result<Value, AllocError>
    ensures { IfOk result (λ value. view value
        ≡ fields ((codes "reply", view reply) ∷ (codes "text", view text) ∷ [])) }
{
    json!(in alloc; {"reply": reply, "text": text})
}

/// A reply by its parts, beside its text.
pub fn said(alloc: Global, reply: &Reply) -> Result<Value, NoMemory>
    ensures { IfOk result (λ value. view value ≡ json.said_data (said.said_of reply.now)) }
{
    let mut bytes = Vec::new(alloc);
    write_reply(&mut bytes, reply)?;
    let text = text(alloc, bytes.as_slice())?;
    let parts = reply.value(alloc)?;
    let value = said_value(alloc, parts, text)?;
    Ok(value)
}
