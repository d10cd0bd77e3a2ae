//! A script: commands that a session carries out one after the other, as long as none is refused.

ghost use Rattle.std.specs.Prelude.{◌≡◌, ◌+◌, ◌<◌, ◌≤◌, ◌∷◌, length, ℕ, OnOk, Err};
ghost use Rattle.gr_program.specs.Views.{program_of};
ghost use Rattle.gr_command.specs.Replies.{said_of};
ghost use Rattle.gr_command.specs.Commands.{meaning};
ghost use Rattle.gr_serve.specs.Lines.{lines_of};
ghost use Rattle.gr_survey.specs.Scripts.{Comes, Follows, IsRefused, outcome_of};

use gr_base::NoMemory;
use gr_command::{Command, Line, Refusal, Reply, RunEnd, read_command};
use gr_lines::counted::split_line;
use gr_session::{AskRefused, DeskId, Session};
use std::alloc::Global;

/// Why a script was not carried out to its end.
#[derive(Clone, Copy)]
pub enum ScriptFault {
    /// The line with this number, from 1, is no command, or its command is refused.
    Refused(usize),
    /// A growth was refused.
    Memory,
}

/// What becomes of a line.
#[derive(Clone, Copy, PartialEq, Eq)]
pub(crate) enum Outcome {
    Done,
    Quit,
    Refused,
    Memory,
}

/// What became of a command, by its reply.
fn outcome_in(reply: &Reply) -> Outcome
    ensures { result ≡ outcome_of (said_of reply.now) }
{
    match reply {
        Reply::Refused(Refusal::NoMemory) | Reply::PartlyDone(_) => Outcome::Memory,
        Reply::Ran {
            steps: _,
            end: RunEnd::Memory,
        } => Outcome::Memory,
        Reply::Refused(_)
        | Reply::BreaksDependence {
            earlier: _,
            later: _,
        } => Outcome::Refused,
        _ => Outcome::Done,
    }
}

/// Asks a command of the session.
fn take_command(alloc: Global, session: &mut Session, desk: DeskId, command: Command) -> Outcome
    requires { (1 ≤ desk.number) × (desk.number ≤ session.old.askers) }
    ensures comes { Comes (program_of session.old.program) desk.number (Line.Command command) session.old.journal result
        session.new.journal }
    ensures others { (session.new.program ≡ session.old.program) × (session.new.askers ≡ session.old.askers) }
{
    match session.ask(alloc, desk, command) {
        Ok(receipt) => outcome_in(&receipt.reply),
        Err(AskRefused::JournalFull) => Outcome::Refused,
        Err(AskRefused::NoMemory) => Outcome::Memory,
    }
}

/// Lets the session carry out what a line says.
fn take_line(alloc: Global, session: &mut Session, desk: DeskId, line: &[u8]) -> Outcome
    requires { (1 ≤ desk.number) × (desk.number ≤ session.old.askers) }
    ensures comes { Comes (program_of session.old.program) desk.number (meaning line.now) session.old.journal result
        session.new.journal }
    ensures others { (session.new.program ≡ session.old.program) × (session.new.askers ≡ session.old.askers) }
{
    match read_command(alloc, line) {
        Err(NoMemory) => Outcome::Memory,
        Ok(Line::Blank) => Outcome::Done,
        Ok(Line::Rejected) => Outcome::Refused,
        Ok(Line::Quit) => Outcome::Quit,
        Ok(Line::Command(command)) => take_command(alloc, session, desk, command),
    }
}

/// Cuts the first line off bytes: it stands before the first newline, and the rest behind that.
fn cut_line(bytes: &[u8]) -> (&[u8], &[u8])
    requires { 0 < length bytes.now }
    ensures lines { lines_of bytes.now ≡ result.0.now ∷ lines_of result.1.now }
    ensures less { length result.1.now < length bytes.now }
{
    let (line, rest) = split_line(bytes);
    match rest {
        [_, behind @ ..] => (line, behind),
        [] => (line, rest),
    }
}

/// Lets the session carry out the commands of a script, a line each, up to `quit` or to its end. The asker is one that `enrol` of
/// this session gave. With `Refused` the lines before that one were carried out.
pub fn follow(
    alloc: Global,
    session: &mut Session,
    desk: DeskId,
    script: &[u8],
) -> Result<(), ScriptFault>
    requires { (1 ≤ desk.number) × (desk.number ≤ session.old.askers) }
    ensures follows { OnOk result (Follows (program_of session.old.program) desk.number (lines_of script.now)
        session.old.journal session.new.journal) }
    ensures refused { (n : ℕ) → result ≡ Err (ScriptFault.Refused n)
        → IsRefused (program_of session.old.program) desk.number (lines_of script.now) n session.old.journal }
    ensures others { (session.new.program ≡ session.old.program) × (session.new.askers ≡ session.old.askers) }
{
    let mut rest = script;
    let mut taken = 0;
    while !rest.is_empty() {
        let (line, behind) = cut_line(rest);
        match take_line(alloc, session, desk, line) {
            Outcome::Done => {}
            Outcome::Quit => return Ok(()),
            Outcome::Refused => return Err(ScriptFault::Refused(taken + 1)),
            Outcome::Memory => return Err(ScriptFault::Memory),
        }
        rest = behind;
        taken += 1;
    }
    Ok(())
}
