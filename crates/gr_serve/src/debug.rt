//! A session from its source to its last reply.
ghost use Rattle.std.specs.Prelude.{◌≡◌, [], length, IfOk, OnOk, OnErr, IfErr, IsErrOf};
ghost use Rattle.gr_program.specs.Views.{program_of};
ghost use Rattle.gr_lines.specs.Devices.{change, device_of, Fails, NeverFails};
ghost use Rattle.gr_serve.specs.Debug.{SourceRead, ReadInPart, Opened, Accepted, SourceLeft, Debugged, DebugLeft};
ghost use Rattle.gr_serve.specs.Debug.{BlamesSource, BlamesDevice};
ghost use Rattle.gr_serve.specs.Debug as spec;
ghost use Rattle.gr_session.specs.Source.{IsProgramOf};

use crate::stream::{ServeFault, serve};
use gr_lines::counted::{Counted, LineError};
use gr_scan::scan::TEXT_LIMIT;
use gr_session::{OpenError, Session, program_of_source};
use std::alloc::Global;
use std::io::{BufRead, Read, Write};
use std::mem;
use thiserror::Error;

/// Why a session was not served to `quit` or to the end of its commands.
#[derive(Debug, Drop, Error)]
pub enum DebugFault {
    /// The source failed.
    #[error("the source cannot be read")]
    Source,
    /// The source has no program, or there was no memory for one.
    #[error("the source was not opened: {0}")]
    Open(OpenError),
    /// The stream of commands was left, or there was no memory for the source.
    #[error("{0}")]
    Serve(ServeFault),
    /// The threads of workers were not started, or did not give the session back whole.
    #[error("the workers' threads failed")]
    Threads,
}

// How many bytes of a source are read at once.
const BLOCK: usize = 8192;

/// The bytes of the source; of a source that is too long, more than a text may have, and at most a block more.
pub fn read_source<S: Read>(source: &mut Counted<S>, text: &mut Vec<u8>) -> Result<(), LineError>
    requires { length text.old.items ≡ 0 }
    ensures ok { OnOk result
        (SourceRead (S.remaining (device_of source.old)) (S.remaining (device_of source.new)) text.new.items) }
    ensures part { OnErr result (ReadInPart (S.remaining (device_of source.old)) (S.remaining (device_of source.new))) }
    ensures same { OnOk result (NeverFails (change S.remaining source.old source.new)) }
    ensures read { IsErrOf result LineError.Read → Fails (change S.remaining source.old source.new) }
    ensures memory { IsErrOf result LineError.Memory → NeverFails (change S.remaining source.old source.new) }
{
    let mut block = [0u8; BLOCK];
    while text.len() <= TEXT_LIMIT {
        let Ok(count) = source.read(&mut block) else {
            return Err(LineError::Read);
        };
        if count == 0 {
            return Ok(());
        }
        if text.extend_from_slice(&block[..count]).is_err() {
            return Err(LineError::Memory);
        }
    }
    Ok(())
}

/// What a fault of reading is for a session.
fn reading_fault(error: LineError) -> DebugFault
    ensures { result ≡ spec.reading_fault error }
{
    match error {
        LineError::Read => DebugFault::Source,
        LineError::Memory => DebugFault::Serve(ServeFault::Memory),
    }
}

/// Reads the source into `text`, which is empty, and opens a session of its program. The faults are those of `debug` where no
/// session was opened: `Source`, `Open`, and `Serve` where it was out of memory.
pub fn open_text<S: Read>(
    alloc: Global,
    source: &mut Counted<S>,
    text: &mut Vec<u8>,
) -> Result<Session, DebugFault>
    requires { length text.old.items ≡ 0 }
    ensures program { IfOk result (λ session.
        Opened (S.remaining (device_of source.old)) (S.remaining (device_of source.new)) (program_of session.program)) }
    ensures text { IfOk result (λ session. IsProgramOf text.new.items (program_of session.program)) }
    ensures empty { IfOk result (λ session. (session.journal ≡ []) × (session.askers ≡ 0)) }
    ensures err { IfErr result (λ fault. SourceLeft fault (change S.remaining source.old source.new)) }
    ensures same { OnOk result (NeverFails (change S.remaining source.old source.new)) }
    ensures source { IfErr result (λ fault. BlamesSource fault (change S.remaining source.old source.new)) }
{
    if let Err(error) = read_source(source, text) {
        return Err(reading_fault(error));
    }
    match Session::open(alloc, text.as_slice()) {
        Ok(session) => Ok(session),
        Err(error) => Err(DebugFault::Open(error)),
    }
}

/// Reads the source, and opens a session of its program, as `open_text` does. The text is let go.
pub fn open_source<S: Read>(alloc: Global, source: &mut Counted<S>) -> Result<Session, DebugFault>
    ensures program { IfOk result (λ session.
        Opened (S.remaining (device_of source.old)) (S.remaining (device_of source.new)) (program_of session.program)) }
    ensures empty { IfOk result (λ session. (session.journal ≡ []) × (session.askers ≡ 0)) }
    ensures err { IfErr result (λ fault. SourceLeft fault (change S.remaining source.old source.new)) }
    ensures same { OnOk result (NeverFails (change S.remaining source.old source.new)) }
    ensures source { IfErr result (λ fault. BlamesSource fault (change S.remaining source.old source.new)) }
{
    let mut text = Vec::new(alloc);
    open_text(alloc, source, &mut text)
}

/// Reads the source, and tells whether it is accepted: whether it has a program. A refusal says why it has none, in the sense of
/// `program_of_source`; so does one of `debug`. No session is made, so none is refused for its memory.
pub fn check<S: Read>(alloc: Global, source: &mut Counted<S>) -> Result<(), DebugFault>
    ensures ok { OnOk result (Accepted (change S.remaining source.old source.new)) }
    ensures err { IfErr result (λ fault. SourceLeft fault (change S.remaining source.old source.new)) }
    ensures same { OnOk result (NeverFails (change S.remaining source.old source.new)) }
    ensures blames { IfErr result (λ fault. BlamesSource fault (change S.remaining source.old source.new)) }
    ensures no_session { IsErrOf result (DebugFault.Open OpenError.Memory) → ⊥ }
{
    let mut text = Vec::new(alloc);
    if let Err(error) = read_source(source, &mut text) {
        return Err(reading_fault(error));
    }
    match program_of_source(alloc, text.as_slice()) {
        Ok(program) => {
            mem::forget(program);
            Ok(())
        }
        Err(error) => Err(DebugFault::Open(error)),
    }
}

/// Reads the source, opens a session of its program with one asker, and serves that asker's commands. The answer to each line
/// is written before the next one is read. A command is answered by its reply, or by `no Q1` or `no Q2` where the journal is
/// full or there is no memory for its entry. A rejected line is answered by `? bad command`, and a blank one by nothing. `quit`
/// is answered by `ok`, and then nothing is read.
///
/// The session's memory is not given back: this is the last thing that a program does.
///
/// After `Source` and `Open` no command was read and nothing was written. A source of more than 1,048,576 bytes is not opened.
/// Of no source are more than 8,192 bytes read beyond that. After `Serve` the session stands as `serve` says. The fault names the
/// device that failed, if one did.
pub fn debug<S: Read, R: BufRead, W: Write>(
    alloc: Global,
    source: &mut Counted<S>,
    reader: &mut Counted<R>,
    writer: &mut Counted<W>,
) -> Result<(), DebugFault>
    ensures ok { OnOk result (Debugged (change S.remaining source.old source.new)
        (change R.remaining reader.old reader.new) (change W.contents writer.old writer.new)) }
    ensures err { IfErr result (λ fault. DebugLeft fault (change S.remaining source.old source.new)
        (change R.remaining reader.old reader.new) (change W.contents writer.old writer.new)) }
    ensures blames { IfErr result (λ fault. BlamesDevice fault (change S.remaining source.old source.new)
        (change R.remaining reader.old reader.new) (change W.contents writer.old writer.new)) }
{
    let mut session = match open_source(alloc, source) {
        Ok(session) => session,
        Err(fault) => return Err(fault),
    };
    let desk = match session.enrol() {
        Ok(desk) => desk,
        Err(_) => return Err(DebugFault::Serve(ServeFault::Memory)),
    };
    let served = serve(alloc, &mut session, desk, reader, writer);
    // Taking its log apart would take as long as a tenth of its steps took.
    mem::forget(session);
    match served {
        Ok(()) => Ok(()),
        Err(fault) => Err(DebugFault::Serve(fault)),
    }
}
