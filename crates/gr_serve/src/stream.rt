//! A stream of commands, and its replies.
ghost use Rattle.std.specs.Prelude.{◌≡◌, ◌≤◌, OnOk, IfErr};
ghost use Rattle.gr_lines.specs.Devices.{change, NeverFails};
ghost use Rattle.gr_serve.specs.Fault.{Blames};
ghost use Rattle.gr_serve.specs.Streams.{Serves, Leaves};

use crate::client::{Client, put_answer, serve_client};
use gr_base::NoMemory;
use gr_lines::counted::Counted;
use gr_session::{Command, DeskId, Session};
use std::alloc::Global;
use std::io::{BufRead, Write};
use thiserror::Error;

/// Why a stream was left before `quit` and before its end.
#[derive(Debug, Drop, Error)]
pub enum ServeFault {
    /// The reader failed.
    #[error("the commands cannot be read")]
    Read,
    /// The writer failed.
    #[error("a reply cannot be written")]
    Write,
    /// A growth was refused.
    #[error("out of memory")]
    Memory,
}

// The client of a session that is not shared.
#[derive(Drop)]
struct SessionDesk<'a> {
    session: &'a mut Session,
    desk: DeskId,
}

impl<'a> Client for SessionDesk<'a> {
    ghost use Rattle.std.specs.Prelude.{ℕ, List, ◌≤◌};
    ghost use Rattle.gr_program.specs.declared.program.Program.{Program};
    ghost use Rattle.gr_program.specs.Views.{program_of};
    ghost use Rattle.gr_session.specs.declared.journal.DeskId.{DeskId};
    ghost use Rattle.gr_session.specs.declared.journal.Entry.{Entry};
    ghost use Rattle.gr_serve.specs.Stream.{of_session};

    ghost State = { List Entry };

    ghost state = { λ c. c.session.now.journal };

    // The reference to the session, the desk that asks, and the program and the number of askers of the session.
    ghost Fixed = { ℕ × DeskId × Program × ℕ };

    ghost fixed = { λ c. (c.session.ghost_name, c.desk, c.session.now.program, c.session.now.askers) };

    ghost may_ask = { λ f. (1 ≤ f.1.number) × (f.1.number ≤ f.3) };

    ghost gets = { λ f. of_session (program_of f.2) f.1.number };

    fn ask(&mut self, alloc: Global, command: Command, text: &mut Vec<u8>) -> Result<(), NoMemory> {
        match self.session.ask(alloc, self.desk, command) {
            Ok(receipt) => put_answer(text, Ok(&receipt)),
            Err(why) => put_answer(text, Err(why)),
        }
    }
}

/// Answers the lines that the reader gives, in order, up to `quit` or the end. A command is asked of the session for
/// this desk, whose number `enrol` of the session gave.
///
/// Each answer is written before the next line is read. The contract says so by what a failure leaves. A writer may fail at
/// each write: what was read then ends in the line whose answer was begun (`ServedPart`). A reader may fail at each byte: the
/// lines that were read whole are then answered (`ServedWhole`).
///
/// The fault names the device that failed. After `Read` the session stands after the last whole line. After `Write`
/// the last command was asked, and a beginning of its answer may have gone out. After `Memory` no device failed, and
/// the session stands as after one of these, or after the line before the last.
pub fn serve<R: BufRead, W: Write>(
    alloc: Global,
    session: &mut Session,
    desk: DeskId,
    reader: &mut Counted<R>,
    writer: &mut Counted<W>,
) -> Result<(), ServeFault>
    requires { (1 ≤ desk.number) × (desk.number ≤ session.old.askers) }
    ensures ok { OnOk result (Serves desk.number session.old session.new
        (change R.remaining reader.old reader.new) (change W.contents writer.old writer.new)) }
    ensures err { IfErr result (λ fault. Leaves fault desk.number session.old session.new
        (change R.remaining reader.old reader.new) (change W.contents writer.old writer.new)) }
    ensures reads { OnOk result (NeverFails (change R.remaining reader.old reader.new)) }
    ensures writes { OnOk result (NeverFails (change W.contents writer.old writer.new)) }
    ensures blames { IfErr result (λ fault.
        Blames fault (change R.remaining reader.old reader.new) (change W.contents writer.old writer.new)) }
    ensures others { (session.new.program ≡ session.old.program) × (session.new.askers ≡ session.old.askers) }
{
    let mut client = SessionDesk { session, desk };
    match serve_client(alloc, &mut client, reader, writer) {
        Ok(()) => Ok(()),
        Err(fault) => Err(fault),
    }
}
