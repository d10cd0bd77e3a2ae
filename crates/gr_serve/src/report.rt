//! Faults as a user reads them.
ghost use Rattle.std.specs.Prelude.{◌≡◌, ◌++◌, codes, decimal, option_map, OnOk, OnErr, IfOk};
ghost use Rattle.gr_serve.specs.Report.{scan_code as code_of_scan, parse_code as code_of_parse, rule_code as code_of_rule};
ghost use Rattle.gr_serve.specs.Report.{check_code as code_of_check, place_text, open_text, serve_text, fault_text, fault_line};
ghost use Rattle.gr_serve.specs.Report.{code_of, code_of_open, status_of, Grows};

use crate::debug::DebugFault;
use crate::stream::ServeFault;
use gr_base::NoMemory;
use gr_scan::scan::ScanError;
use gr_session::{OpenError, Position};
use gr_syntax::parse::ParseError;
use gr_types::refusal::{CheckError, RefusalCode};
use itoa::Buffer;

fn scan_code(error: ScanError) -> &'static [u8]
    ensures { result.now ≡ code_of_scan error }
{
    match error {
        ScanError::Strange(_) => b"S1",
        ScanError::Malformed(_) => b"S2",
        ScanError::TooGreat(_) => b"S3",
        ScanError::MalformedText(_) => b"S4",
        ScanError::Unclosed(_) => b"S5",
        ScanError::LeftOut(_) => b"S6",
        ScanError::TooLong => b"S7",
        ScanError::Memory => b"S8",
    }
}

fn parse_code(error: ParseError) -> &'static [u8]
    ensures { result.now ≡ code_of_parse error }
{
    match error {
        ParseError::NoFile { token: _ } => b"P1",
        ParseError::LeftOut { token: _ } => b"P2",
        ParseError::TooHigh { token: _ } => b"P3",
        ParseError::Memory => b"P4",
    }
}

fn rule_code(code: RefusalCode) -> &'static [u8]
    ensures { result.now ≡ code_of_rule code }
{
    match code {
        RefusalCode::UnknownName => b"C1",
        RefusalCode::DeclaredTwice => b"C2",
        RefusalCode::WrongForm => b"C3",
        RefusalCode::WrongCount => b"C4",
        RefusalCode::WrongDirection => b"C5",
        RefusalCode::MissingReturn => b"C6",
        RefusalCode::Constant => b"C7",
        RefusalCode::WrongLabel => b"C8",
        RefusalCode::NoMain => b"C9",
        RefusalCode::NoNewVariable => b"C10",
    }
}

fn check_code(error: CheckError) -> &'static [u8]
    ensures { result.now ≡ code_of_check error }
{
    match error {
        CheckError::Refused { code, at: _ } => rule_code(code),
        CheckError::Memory => b"C11",
    }
}

#[tactic(auto, using(crate::proofs::Growing::grows_same, crate::proofs::Growing::grows_append))]
fn put(text: &mut Vec<u8>, more: &[u8]) -> Result<(), NoMemory>
    ensures ok { OnOk result (text.new.items ≡ text.old.items ++ more.now) }
    ensures grows { Grows text.old.items text.new.items }
{
    Ok(text.extend_from_slice(more)?)
}

#[tactic(auto, using(crate::proofs::Growing::grows_then, crate::proofs::Growing::grows_same))]
fn put_number(text: &mut Vec<u8>, number: usize) -> Result<(), NoMemory>
    ensures ok { OnOk result (text.new.items ≡ text.old.items ++ decimal number) }
    ensures grows { Grows text.old.items text.new.items }
{
    let mut buffer = Buffer::new();
    put(text, buffer.format(number).as_bytes())
}

#[tactic(auto, using(crate::proofs::Growing::grows_then, crate::proofs::Growing::grows_same))]
fn put_place(text: &mut Vec<u8>, at: Option<Position>) -> Result<(), NoMemory>
    ensures ok { OnOk result (text.new.items ≡ text.old.items ++ place_text at) }
    ensures grows { Grows text.old.items text.new.items }
{
    let Some(at) = at else {
        return Ok(());
    };
    put(text, b" at ")?;
    put_number(text, at.line)?;
    put(text, b":")?;
    put_number(text, at.column)?;
    Ok(())
}

#[tactic(auto, using(crate::proofs::Growing::grows_then, crate::proofs::Growing::grows_same))]
fn put_open(text: &mut Vec<u8>, error: OpenError) -> Result<(), NoMemory>
    ensures ok { OnOk result (text.new.items ≡ text.old.items ++ open_text error) }
    ensures grows { Grows text.old.items text.new.items }
{
    let (code, at) = match error {
        OpenError::Scan(error, at) => (scan_code(error), at),
        OpenError::Parse(error, at) => (parse_code(error), at),
        OpenError::Check(error, at) => (check_code(error), at),
        OpenError::Memory => return put(text, b"memory"),
    };
    put(text, code)?;
    put_place(text, at)
}

#[tactic(auto, using(crate::proofs::Growing::grows_then, crate::proofs::Growing::grows_same))]
fn put_unreadable(text: &mut Vec<u8>, file: &[u8]) -> Result<(), NoMemory>
    ensures ok { OnOk result (text.new.items ≡ text.old.items ++ (codes "cannot read " ++ file.now)) }
    ensures grows { Grows text.old.items text.new.items }
{
    put(text, b"cannot read ")?;
    put(text, file)
}

#[tactic(auto, using(crate::proofs::Growing::grows_then, crate::proofs::Growing::grows_same))]
fn put_fault(text: &mut Vec<u8>, fault: &DebugFault, file: &[u8]) -> Result<(), NoMemory>
    ensures ok { OnOk result (text.new.items ≡ text.old.items ++ fault_text file.now fault.now) }
    ensures grows { Grows text.old.items text.new.items }
{
    match fault {
        DebugFault::Source => put_unreadable(text, file),
        DebugFault::Open(error) => put_open(text, *error),
        DebugFault::Serve(ServeFault::Read) => put(text, b"read"),
        DebugFault::Serve(ServeFault::Write) => put(text, b"write"),
        DebugFault::Serve(ServeFault::Memory) => put(text, b"memory"),
        DebugFault::Threads => put(text, b"threads"),
    }
}

#[tactic(auto, using(crate::proofs::Growing::grows_then, crate::proofs::Growing::grows_same))]
fn put_line(text: &mut Vec<u8>, fault: &DebugFault, file: &[u8]) -> Result<(), NoMemory>
    ensures ok { OnOk result (text.new.items ≡ text.old.items ++ fault_line file.now fault.now) }
    ensures grows { Grows text.old.items text.new.items }
{
    put(text, b"rewind: ")?;
    put_fault(text, fault, file)?;
    put(text, b"\n")
}

fn open_code(error: OpenError) -> Option<&'static [u8]>
    ensures { option_map (λ code. code.now) result ≡ code_of_open error }
{
    match error {
        OpenError::Scan(error, _) => Some(scan_code(error)),
        OpenError::Parse(error, _) => Some(parse_code(error)),
        OpenError::Check(error, _) => Some(check_code(error)),
        OpenError::Memory => None,
    }
}

/// The code of a source that is refused; `None` for other faults.
pub fn refusal_code(fault: &DebugFault) -> Option<&'static [u8]>
    ensures { option_map (λ code. code.now) result ≡ code_of fault.now }
{
    match fault {
        DebugFault::Open(error) => open_code(*error),
        DebugFault::Source | DebugFault::Serve(_) | DebugFault::Threads => None,
    }
}

/// The exit status of a session that a fault ended. It is 1 where the source cannot be read or is refused, and 3 where reading,
/// writing or threads failed, or the program is out of memory.
pub fn exit_status(fault: &DebugFault) -> u8
    ensures { result ≡ status_of fault.now }
{
    match fault {
        DebugFault::Source => 1,
        DebugFault::Open(OpenError::Memory) => 3,
        DebugFault::Open(_) => 1,
        DebugFault::Serve(_) => 3,
        DebugFault::Threads => 3,
    }
}

/// Appends the line that tells a fault to the user, with its newline, and answers the exit status. The line is
/// `rewind: CODE at LINE:COL` for a source that is refused (without a place for S7, S8, P4 and C11), `rewind:
/// cannot read FILE`, `rewind: memory`, `rewind: read`, `rewind: write` or `rewind: threads`. Out of memory, it leaves the
/// text as it was; `exit_status` takes none.
#[tactic(auto, using(crate::proofs::Growing::cut_back))]
pub fn report(fault: &DebugFault, file: &str, text: &mut Vec<u8>) -> Result<u8, NoMemory>
    ensures line { OnOk result (text.new.items ≡ text.old.items ++ fault_line file.now fault.now) }
    ensures status { IfOk result (λ status. status ≡ status_of fault.now) }
    ensures err { OnErr result (text.new.items ≡ text.old.items) }
{
    let before = text.len();
    match put_line(text, fault, file.as_bytes()) {
        Ok(()) => Ok(exit_status(fault)),
        Err(NoMemory) => {
            text.truncate(before);
            Err(NoMemory)
        }
    }
}
