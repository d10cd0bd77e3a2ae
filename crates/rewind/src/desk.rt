//! A stream of commands of a desk, and its replies.
ghost use Rattle.std.specs.Prelude.{◌≡◌, OnOk, IfErr};
ghost use Rattle.gr_lines.specs.Devices.{change, NeverFails};
ghost use Rattle.gr_serve.specs.Fault.{Blames};
ghost use Rattle.rewind.specs.DeskStreams.{Serves, Leaves};

use gr_base::NoMemory;
use gr_lines::counted::Counted;
use gr_serve::client::{Client, put_answer, serve_client};
use gr_serve::stream::ServeFault;
use gr_share::{Command, Desk, Room, Shared};
use std::alloc::Global;
use std::io::{BufRead, Write};
use std::sync::Wait;

// A client of a shared session.
#[derive(Drop)]
struct SharedDesk<'a, B: Room, T> {
    rt: &'a T,
    shared: &'a Shared<B>,
    desk: &'a mut Desk<B>,
}

impl<'a, B: Room, T: Wait> Client for SharedDesk<'a, B, T> {
    ghost use Rattle.std.specs.Prelude.{ℕ};
    ghost use Rattle.gr_share.specs.Calls.{Asker};
    ghost use Rattle.rewind.specs.DeskStreams.{of_desk};

    ghost State = { Asker };

    ghost state = { λ c. c.desk.now };

    // The reference to the desk, and the desk's number.
    ghost Fixed = { ℕ × ℕ };

    ghost fixed = { λ c. (c.desk.ghost_name, c.desk.now.number) };

    ghost may_ask = { λ _. Unit {0} };

    ghost gets = { λ _. of_desk };

    fn ask(&mut self, alloc: Global, command: Command, text: &mut Vec<u8>) -> Result<(), NoMemory> {
        put_answer(text, self.desk.ask(self.rt, alloc, self.shared, command))
    }
}

/// Answers the lines that the reader gives, in order, up to `quit` or the end, as `stream::serve` does, but asks the
/// commands of a desk of a shared session. The desk's calls grow by the commands of the lines that got an entry, in
/// their order, and the writer gets the output for their receipts. Each command waits for the session's lock.
///
/// The faults are those of `stream::serve`, and leave the desk as they leave the session there.
pub fn serve_desk<B: Room, T: Wait, R: BufRead, W: Write>(
    rt: &T,
    alloc: Global,
    shared: &Shared<B>,
    desk: &mut Desk<B>,
    reader: &mut Counted<R>,
    writer: &mut Counted<W>,
) -> Result<(), ServeFault>
    ensures ok { OnOk result (Serves desk.old desk.new
        (change R.remaining reader.old reader.new) (change W.contents writer.old writer.new)) }
    ensures err { IfErr result (λ fault. Leaves fault desk.old desk.new
        (change R.remaining reader.old reader.new) (change W.contents writer.old writer.new)) }
    ensures number { desk.new.number ≡ desk.old.number }
    ensures reads { OnOk result (NeverFails (change R.remaining reader.old reader.new)) }
    ensures writes { OnOk result (NeverFails (change W.contents writer.old writer.new)) }
    ensures blames { IfErr result (λ fault.
        Blames fault (change R.remaining reader.old reader.new) (change W.contents writer.old writer.new)) }
{
    let mut client = SharedDesk { rt, shared, desk };
    match serve_client(alloc, &mut client, reader, writer) {
        Ok(()) => Ok(()),
        Err(fault) => Err(fault),
    }
}
