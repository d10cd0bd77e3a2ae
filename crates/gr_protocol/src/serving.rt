//! A client's lines, and the answers to them.

ghost use Rattle.std.specs.Prelude.{◌≡◌, ◌≤◌, IfOk, IfErr, OnOk};
ghost use Rattle.gr_program.specs.Views.{program_of};
ghost use Rattle.gr_command.specs.Requests.{request_meant};
ghost use Rattle.gr_lines.specs.Devices.{change, NeverFails};
ghost use Rattle.gr_serve.specs.Debug.{BlamesDevice};
ghost use Rattle.gr_serve.specs.Fault.{BlamesWriter};
ghost use Rattle.gr_protocol.specs.Answers.{is_quit};
ghost use Rattle.gr_protocol.specs.Clients.{IsClient, RemainsClient};
ghost use Rattle.gr_protocol.specs.Streams.{LineAnswered, Converses, Debugged, Unserved};

use crate::answering::answer_line;
use crate::client::Client;
use gr_lines::counted::{Counted, LineEnd, LineError, read_line};
use gr_serve::debug::{DebugFault, open_text};
use gr_serve::stream::ServeFault;
use std::alloc::Global;
use std::io::{BufRead, Read, Write};
use std::mem;

/// Answers one line, and writes the answer. Whether the line was `quit`.
fn serve_line<W: Write>(
    alloc: Global,
    client: &mut Client,
    line: &[u8],
    text: &mut Vec<u8>,
    writer: &mut Counted<W>,
) -> Result<bool, ServeFault>
    requires { IsClient client.old }
    ensures answered { OnOk result (LineAnswered (program_of client.old.session.program) client.old.desk.number line.now
        client.old.session.journal client.new.session.journal (change W.contents writer.old writer.new)) }
    ensures quit { IfOk result (λ quit. quit ≡ is_quit (request_meant line.now)) }
    ensures same { OnOk result (NeverFails (change W.contents writer.old writer.new)) }
    ensures blames { IfErr result (λ fault. BlamesWriter fault (change W.contents writer.old writer.new)) }
    ensures client { RemainsClient client.old client.new }
{
    let Ok(quit) = answer_line(alloc, client, line, text) else {
        return Err(ServeFault::Memory);
    };
    match writer.put(text.as_slice()) {
        Ok(()) => Ok(quit),
        Err(_) => Err(ServeFault::Write),
    }
}

/// Answers the lines that the reader gives, in order, up to `quit` or the end. Each answer is written before the next line is
/// read. What the answer to a line is, `answer_line` says. A fault names the device that failed, or is out of memory.
pub fn serve<R: BufRead, W: Write>(
    alloc: Global,
    client: &mut Client,
    reader: &mut Counted<R>,
    writer: &mut Counted<W>,
) -> Result<(), ServeFault>
    requires { IsClient client.old }
    ensures answered { Converses (program_of client.old.session.program) client.old.desk.number
        client.old.session.journal client.new.session.journal result
        (change R.remaining reader.old reader.new) (change W.contents writer.old writer.new) }
    ensures client { RemainsClient client.old client.new }
{
    let mut line = Vec::new(alloc);
    let mut text = Vec::new(alloc);
    loop {
        line.clear();
        match read_line(reader, &mut line) {
            Err(LineError::Read) => return Err(ServeFault::Read),
            Err(LineError::Memory) => return Err(ServeFault::Memory),
            Ok(LineEnd::End) => {
                if line.is_empty() {
                    return Ok(());
                }
                match serve_line(alloc, client, line.as_slice(), &mut text, writer) {
                    Err(fault) => return Err(fault),
                    Ok(_) => return Ok(()),
                }
            }
            Ok(LineEnd::Newline) => {
                match serve_line(alloc, client, line.as_slice(), &mut text, writer) {
                    Err(fault) => return Err(fault),
                    Ok(true) => return Ok(()),
                    Ok(false) => {}
                }
            }
        }
    }
}

/// Reads the source, opens a session of its program with one asker, and serves that asker's lines as `serve` does.
///
/// The session's memory is not given back: this is the last thing that a program does. After `Source` and `Open` no line was read
/// and nothing was written. The fault names the device that failed, if one did.
pub fn debug<S: Read, R: BufRead, W: Write>(
    alloc: Global,
    source: &mut Counted<S>,
    reader: &mut Counted<R>,
    writer: &mut Counted<W>,
) -> Result<(), DebugFault>
    ensures ok { OnOk result (Debugged (change S.remaining source.old source.new)
        (change R.remaining reader.old reader.new) (change W.contents writer.old writer.new)) }
    ensures unserved { IfErr result (λ fault. Unserved fault (change S.remaining source.old source.new)
        (change R.remaining reader.old reader.new) (change W.contents writer.old writer.new)) }
    ensures blames { IfErr result (λ fault. BlamesDevice fault (change S.remaining source.old source.new)
        (change R.remaining reader.old reader.new) (change W.contents writer.old writer.new)) }
{
    let mut text = Vec::new(alloc);
    let mut session = match open_text(alloc, source, &mut text) {
        Ok(session) => session,
        Err(fault) => return Err(fault),
    };
    let desk = match session.enrol() {
        Ok(desk) => desk,
        Err(_) => return Err(DebugFault::Serve(ServeFault::Memory)),
    };
    let mut client = Client {
        session,
        desk,
        source: text,
        follower: None,
    };
    let served = serve(alloc, &mut client, reader, writer);
    // Taking its logs apart would take as long as a tenth of their steps took.
    mem::forget(client);
    match served {
        Ok(()) => Ok(()),
        Err(fault) => Err(DebugFault::Serve(fault)),
    }
}
