//! The texts of replies.

ghost use Rattle.std.specs.Prelude.{◌≡◌, ◌++◌, ◌+◌, ◌<◌, ◌≤◌, length, vec_capacity, OnOk, OnErr};
ghost use Rattle.gr_command.specs.Room.{Puts};
ghost use Rattle.gr_command.specs.Replies.{lines_in};
ghost use Rattle.gr_command.specs.Texts.{refusal_text, said_text, reply_text};
ghost use Rattle.gr_command.specs.Replies as said;

use crate::pieces::{EachSpaced, RowOf, RowsOf, Written, make_room, put, put_three, put_two};
use crate::refusal::Refusal;
use crate::reply::{GoroutineShown, Reply, RunEnd};
use gr_base::{Kind, NoMemory, StepId};

/// The fewest bytes that the name of a step takes in a list, with the space before it, as in ` g0#1`.
const SHORTEST_NAME: usize = 5;

fn refused(why: Refusal) -> &'static [u8]
    ensures { result.now ≡ refusal_text why }
{
    match why {
        Refusal::Ended => b"no N1\n",
        Refusal::NotThere => b"no N2\n",
        Refusal::Waits => b"no N3\n",
        Refusal::Done => b"no N4\n",
        Refusal::NoChoice => b"no N5\n",
        Refusal::NoMemory => b"no N6\n",
        Refusal::NothingToUndo => b"no B1\n",
        Refusal::NotKept => b"no B2\n",
        Refusal::NotTheSteps => b"no B3\n",
        Refusal::NothingToRedo => b"no B5\n",
        Refusal::LogFull => b"no Q1\n",
    }
}

impl Written for Refusal {
    ghost text_of = { refusal_text };

    fn put_into(&self, text: &mut Vec<u8>) -> Result<(), NoMemory> {
        put(text, refused(*self))
    }
}

impl Written for RunEnd {
    ghost use Rattle.gr_command.specs.Texts.{end_text};

    ghost text_of = { end_text };

    fn put_into(&self, text: &mut Vec<u8>) -> Result<(), NoMemory> {
        match self {
            RunEnd::Ended => put(text, b"ended"),
            RunEnd::Fault(_) => put(text, b"fault"),
            RunEnd::Count => put(text, b"count"),
            RunEnd::Stuck => put(text, b"stuck"),
            RunEnd::Full => put(text, b"full"),
            RunEnd::Break(line) => put_two(text, b"break ", line),
            RunEnd::Memory => put(text, b"memory"),
        }
    }
}

/// A count of steps and their names, as the end of a line.
#[derive(Drop)]
struct Named<'a>(&'a [StepId]);

impl Written for Named<'_> {
    ghost use Rattle.gr_command.specs.Texts.{ids_text};

    ghost text_of = { λ named. ids_text named.0.now };

    fn put_into(&self, text: &mut Vec<u8>) -> Result<(), NoMemory> {
        // Most of the room is made at once.
        make_room(text, self.0.len().saturating_mul(SHORTEST_NAME));
        let count = self.0.len() as u64;
        put_three(text, &count, &EachSpaced(self.0), b"\n")
    }
}

fn put_stepped(text: &mut Vec<u8>, id: &StepId, kind: &Kind) -> Result<(), NoMemory>
    ensures { Puts result text.old text.new (said_text (said.Stepped id.now kind.now)) }
{
    put_three(text, b"ok ", &(id, kind), b"\n")
}

fn put_ran(text: &mut Vec<u8>, steps: u64, end: RunEnd) -> Result<(), NoMemory>
    ensures { Puts result text.old text.new (said_text (said.Ran steps end)) }
{
    put_two(text, b"ok ", &steps)?;
    put_three(text, b" ", &end, b"\n")
}

fn put_shown(text: &mut Vec<u8>, goroutine: &GoroutineShown) -> Result<(), NoMemory>
    ensures { Puts result text.old text.new (said_text (said.Shown goroutine.now.go (said.goroutine_in goroutine.now))) }
{
    put_three(
        text,
        &RowOf(goroutine),
        &RowsOf(goroutine.frames.as_slice()),
        b"ok\n",
    )
}

fn put_lines(text: &mut Vec<u8>, lines: &[Vec<u8>]) -> Result<(), NoMemory>
    ensures { Puts result text.old text.new (said_text (said.Lines (lines_in lines.now))) }
{
    put_two(text, &RowsOf(lines), b"ok\n")
}

fn put_log(text: &mut Vec<u8>, steps: &[(StepId, Kind)]) -> Result<(), NoMemory>
    ensures { Puts result text.old text.new (said_text (said.Log steps.now)) }
{
    RowsOf(steps).put_into(text)?;
    put_three(text, b"ok ", &(steps.len() as u64), b"\n")
}

fn put_breaks(text: &mut Vec<u8>, earlier: &StepId, later: &StepId) -> Result<(), NoMemory>
    ensures { Puts result text.old text.new (said_text (said.BreaksDependence earlier.now later.now)) }
{
    put_three(text, b"no B4 ", &(earlier, later), b"\n")
}

fn put_reply(text: &mut Vec<u8>, reply: &Reply) -> Result<(), NoMemory>
    ensures { Puts result text.old text.new (reply_text reply.now) }
{
    match reply {
        Reply::Stepped(id, kind) => put_stepped(text, id, kind),
        Reply::Ran { steps, end } => put_ran(text, *steps, *end),
        Reply::Undone(id) => put_three(text, b"ok ", id, b"\n"),
        Reply::Shown(goroutine) => put_shown(text, goroutine),
        Reply::Channel(channel) => put_two(text, channel, b"ok\n"),
        Reply::Lines(lines) => put_lines(text, lines.as_slice()),
        Reply::Log(steps) => put_log(text, steps.as_slice()),
        Reply::Steps(ids) => put_two(text, b"ok ", &Named(ids.as_slice())),
        Reply::PartlyDone(ids) => put_two(text, b"no B6 ", &Named(ids.as_slice())),
        Reply::BreaksDependence { earlier, later } => put_breaks(text, earlier, later),
        Reply::Acknowledged => put(text, b"ok\n"),
        Reply::Granted(steps) => put_three(text, b"ok grant ", steps, b"\n"),
        Reply::Committed(steps) => put_three(text, b"ok batch ", steps, b"\n"),
        Reply::Stale => put(text, b"no stale\n"),
        Reply::Refused(why) => why.put_into(text),
    }
}

/// Appends the text of a reply: lines that end in newlines, each but the last after `| `. The one error is that the text has
/// no room and its growth was refused. The text is then as it was.
#[tactic(auto, using(crate::proofs::Growing::cut_back))]
pub fn write_reply(text: &mut Vec<u8>, reply: &Reply) -> Result<(), NoMemory>
    ensures ok { OnOk result (text.new.items ≡ text.old.items ++ reply_text reply.now) }
    ensures err { OnErr result (text.new.items ≡ text.old.items) }
    ensures full { OnErr result (vec_capacity text.old < length text.old.items + length (reply_text reply.now)) }
    ensures capacity { vec_capacity text.old ≤ vec_capacity text.new }
{
    let before = text.len();
    if put_reply(text, reply).is_err() {
        text.truncate(before);
        return Err(NoMemory);
    }
    Ok(())
}
