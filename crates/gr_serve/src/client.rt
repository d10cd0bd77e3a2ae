//! Clients of a session, and how the lines of one are answered.
ghost use Rattle.std.specs.Prelude.{◌≡◌, ◌++◌, [], OnOk, OnErr};
ghost use Rattle.gr_lines.specs.Devices.{change};
ghost use Rattle.gr_serve.specs.Replies.{answer_of, answer_text};
ghost use Rattle.gr_serve.specs.Clients.{IsAnswered, LineEnds, StreamEnds};

use crate::stream::ServeFault;
use gr_base::NoMemory;
use gr_command::{Command, Line, read_command, write_reply};
use gr_lines::counted::{Counted, LineEnd, LineError, read_line};
use gr_session::{AskRefused, Receipt};
use std::alloc::Global;
use std::io::{BufRead, Write};

/// A client of a session, which asks commands of it.
pub trait Client {
    ghost use Rattle.std.specs.Prelude.{◌≡◌, []};
    ghost use Rattle.gr_serve.specs.Stream.{Gets};
    ghost use Rattle.gr_serve.specs.Clients.{IsAnswered};

    // What its commands change.
    ghost State: { Type 0 };

    ghost state: { Self → State };

    // What they leave as it is.
    ghost Fixed: { Type 0 };

    ghost fixed: { Self → Fixed };

    // Whether it may ask, and what may then come of a command.
    ghost may_ask: { Fixed → Type 0 };

    ghost gets: { Fixed → Gets State };

    /// Asks a command, and puts the text of what came of it into `text`, which is empty.
    fn ask(&mut self, alloc: Global, command: Command, text: &mut Vec<u8>) -> Result<(), NoMemory>
        requires may { may_ask (fixed self.old) }
        requires empty { text.old.items ≡ [] }
        ensures answered { IsAnswered (gets (fixed self.old)) (Line.Command command) (state self.old) (state self.new)
            text.new.items result }
        ensures fixed { fixed self.new ≡ fixed self.old };
}

/// Appends the bytes. An error leaves the text as it was.
fn put(text: &mut Vec<u8>, bytes: &[u8]) -> Result<(), NoMemory>
    ensures ok { OnOk result (text.new.items ≡ text.old.items ++ bytes.now) }
    ensures err { OnErr result (text.new.items ≡ text.old.items) }
{
    Ok(text.extend_from_slice(bytes)?)
}

/// Appends the text of what came of a command. An error leaves the text as it was.
pub fn put_answer(text: &mut Vec<u8>, asked: Result<&Receipt, AskRefused>) -> Result<(), NoMemory>
    ensures ok { OnOk result (text.new.items ≡ text.old.items ++ answer_text (answer_of asked.entry)) }
    ensures err { OnErr result (text.new.items ≡ text.old.items) }
{
    match asked {
        Ok(receipt) => write_reply(text, &receipt.reply),
        Err(AskRefused::JournalFull) => put(text, b"no Q1\n"),
        Err(AskRefused::NoMemory) => put(text, b"no Q2\n"),
    }
}

/// Answers one line, and puts the text of the answer into `text`, which is empty.
fn answer<C: Client>(
    alloc: Global,
    client: &mut C,
    line: Line,
    text: &mut Vec<u8>,
) -> Result<(), NoMemory>
    requires may { C.may_ask (C.fixed client.old) }
    requires empty { text.old.items ≡ [] }
    ensures answered { IsAnswered (C.gets (C.fixed client.old)) line (C.state client.old) (C.state client.new)
        text.new.items result }
    ensures fixed { C.fixed client.new ≡ C.fixed client.old }
{
    match line {
        Line::Blank => Ok(()),
        Line::Rejected => put(text, b"? bad command\n"),
        Line::Quit => put(text, b"ok\n"),
        Line::Command(command) => client.ask(alloc, command, text),
    }
}

/// Answers one line, and writes the answer. Its text replaces what `text` held. Whether the line was `quit`.
fn serve_line<C: Client, W: Write>(
    alloc: Global,
    client: &mut C,
    line: &[u8],
    text: &mut Vec<u8>,
    writer: &mut Counted<W>,
) -> Result<bool, ServeFault>
    requires { C.may_ask (C.fixed client.old) }
    ensures ends { LineEnds (C.gets (C.fixed client.old)) line.now (C.state client.old) (C.state client.new) result
        (change W.contents writer.old writer.new) }
    ensures fixed { C.fixed client.new ≡ C.fixed client.old }
{
    let said = match read_command(alloc, line) {
        Ok(said) => said,
        Err(NoMemory) => return Err(ServeFault::Memory),
    };
    let quit = matches!(said, Line::Quit);
    text.clear();
    match answer(alloc, client, said, text) {
        Err(NoMemory) => Err(ServeFault::Memory),
        Ok(()) => match writer.put(text.as_slice()) {
            Err(_) => Err(ServeFault::Write),
            Ok(()) => Ok(quit),
        },
    }
}

/// Answers the lines that the reader gives, in order, up to `quit` or the end. The faults are those of `stream::serve`, and leave
/// the client as they leave the session there.
pub fn serve_client<C: Client, R: BufRead, W: Write>(
    alloc: Global,
    client: &mut C,
    reader: &mut Counted<R>,
    writer: &mut Counted<W>,
) -> Result<(), ServeFault>
    requires { C.may_ask (C.fixed client.old) }
    ensures ends { StreamEnds (C.gets (C.fixed client.old)) (C.state client.old) (C.state client.new) result
        (change R.remaining reader.old reader.new) (change W.contents writer.old writer.new) }
    ensures fixed { C.fixed client.new ≡ C.fixed client.old }
{
    let mut line = Vec::new(alloc);
    let mut text = Vec::new(alloc);
    loop {
        line.clear();
        match read_line(reader, &mut line) {
            Err(LineError::Read) => return Err(ServeFault::Read),
            Err(LineError::Memory) => return Err(ServeFault::Memory),
            Ok(LineEnd::End) => {
                if line.is_empty() {
                    return Ok(());
                }
                match serve_line(alloc, client, line.as_slice(), &mut text, writer) {
                    Err(fault) => return Err(fault),
                    Ok(_) => return Ok(()),
                }
            }
            Ok(LineEnd::Newline) => match serve_line(
                alloc,
                client,
                line.as_slice(),
                &mut text,
                writer,
            ) {
                Err(fault) => return Err(fault),
                Ok(true) => return Ok(()),
                Ok(false) => {}
            },
        }
    }
}
