//! The program `rewind`. `rewind FILE` debugs the Go program in FILE by the commands of standard input, and `rewind --json FILE`
//! does so for a client, by lines of JSON. `rewind --check FILE` only tells whether it is accepted, and `rewind --explain CODE`
//! tells what a code means. `rewind --search FILE` searches all schedules for one that ends badly, and
//! `rewind --blame FILE --after SCRIPT` tells after which step none ends well any more.
//!
//! Exit status: 0 at `quit` or at the end of the commands, and where a search has its answer; 1 where FILE cannot be read or is no
//! program, with one line on standard error; 2 where the command line or a command of SCRIPT is refused; 3 where reading, writing
//! or threads failed, or it is out of memory; 4 where a schedule ends badly; 5 where a search met a limit.
#![tactic(auto)]

mod files;
mod searching;

use clap::error::{Error, ErrorKind};
use files::tell_of;
use gr_protocol::serving::debug as debug_told;
use rewind::command_line::settings;
use rewind::counted::Counted;
use rewind::debug::{DebugFault, check, debug};
use rewind::explanations::explain;
use rewind::report::{exit_status, report};
use rewind::settings::Settings;
use rewind::stream::ServeFault;
use rewind::terminal::{Explained, Prompted};
use rewind::words::{NOT_TEXT, STRANGE_CODE};
use rewind::workers::debug_beside;
use searching::{blame_file, search_file};
use std::fs::File;
use std::io::{BufRead, BufReader, ErrorKind as IoErrorKind, IsTerminal, Read, Write};
use std::process::ExitCode;
use std::sync::Wait;
use std::thread::Threads;
use std::{env, io};

const MEMORY: DebugFault = DebugFault::Serve(ServeFault::Memory);

/// Whether a person reads what is told.
fn is_at_terminal(rt: &HostRuntime) -> bool {
    rt.stdin().is_terminal() && rt.stderr().is_terminal()
}

/// Tells a fault on standard error: its line, and plain words at a terminal.
pub(crate) fn fail(rt: &HostRuntime, fault: &DebugFault, file: &str) -> ExitCode {
    let mut line = Vec::new(rt.alloc());
    if report(fault, file, &mut line).is_ok() {
        let _ = rt.stderr().write_all(line.as_slice());
    }
    if is_at_terminal(rt) {
        tell_of(rt, fault, file);
    }
    ExitCode::from(exit_status(fault))
}

/// Tells what `clap` says of the command line: its help on standard output, a mistake on standard error.
fn refuse(rt: &HostRuntime, error: &Error) -> ExitCode {
    if error.kind() == ErrorKind::OutOfMemory {
        return fail(rt, &MEMORY, "");
    }
    let _ = error.print(rt);
    ExitCode::from(if error.use_stderr() { 2 } else { 0 })
}

/// Refuses a command line, in these words.
fn refuse_with(rt: &HostRuntime, words: &str) -> ExitCode {
    let _ = rt.stderr().write_all(words.as_bytes());
    ExitCode::from(2)
}

/// Serves a session over a source, beside this many workers.
fn debug_with<T: Threads + Wait + Sync, S: Read, R: BufRead, W: Write>(
    rt: &HostRuntime,
    threads: &T,
    workers: u32,
    source: &mut Counted<S>,
    reader: &mut Counted<R>,
    writer: &mut Counted<W>,
) -> Result<(), DebugFault> {
    if workers == 0 {
        debug(rt.alloc(), source, reader, writer)
    } else {
        debug_beside(threads, rt.alloc(), workers, source, reader, writer)
    }
}

/// Debugs the program in a file, with a prompt and plain words at a terminal.
fn debug_file<T: Threads + Wait + Sync>(
    rt: &HostRuntime,
    threads: &T,
    file: &str,
    workers: u32,
) -> io::Result<ExitCode> {
    let Ok(opened) = File::open(rt, file) else {
        return Ok(fail(rt, &DebugFault::Source, file));
    };
    let mut source = Counted::new(BufReader::new(rt.alloc(), opened)?);
    let debugged = if is_at_terminal(rt) {
        let prompted = Prompted::new(rt.stdin(), rt.stderr());
        let mut reader = Counted::new(BufReader::new(rt.alloc(), prompted)?);
        let mut writer = Counted::new(Explained::new(rt.stdout(), rt.stderr()));
        debug_with(rt, threads, workers, &mut source, &mut reader, &mut writer)
    } else {
        let mut reader = Counted::new(BufReader::new(rt.alloc(), rt.stdin())?);
        let mut writer = Counted::new(rt.stdout());
        debug_with(rt, threads, workers, &mut source, &mut reader, &mut writer)
    };
    match debugged {
        Ok(()) => Ok(ExitCode::from(0)),
        Err(fault) => Ok(fail(rt, &fault, file)),
    }
}

/// Debugs the program in a file for a client, by lines of JSON.
fn tell_file(rt: &HostRuntime, file: &str) -> io::Result<ExitCode> {
    let Ok(opened) = File::open(rt, file) else {
        return Ok(fail(rt, &DebugFault::Source, file));
    };
    let mut source = Counted::new(BufReader::new(rt.alloc(), opened)?);
    let mut reader = Counted::new(BufReader::new(rt.alloc(), rt.stdin())?);
    let mut writer = Counted::new(rt.stdout());
    match debug_told(rt.alloc(), &mut source, &mut reader, &mut writer) {
        Ok(()) => Ok(ExitCode::from(0)),
        Err(fault) => Ok(fail(rt, &fault, file)),
    }
}

/// Tells whether the program in a file is accepted.
fn check_file(rt: &HostRuntime, file: &str) -> io::Result<ExitCode> {
    let Ok(opened) = File::open(rt, file) else {
        return Ok(fail(rt, &DebugFault::Source, file));
    };
    let mut source = Counted::new(BufReader::new(rt.alloc(), opened)?);
    match check(rt.alloc(), &mut source) {
        Ok(()) => Ok(ExitCode::from(0)),
        Err(fault) => Ok(fail(rt, &fault, file)),
    }
}

/// Tells what a code means.
fn explain_code(rt: &HostRuntime, code: &str) -> ExitCode {
    let Some(page) = explain(code.as_bytes()) else {
        return refuse_with(rt, STRANGE_CODE);
    };
    match rt.stdout().write_all(page.as_bytes()) {
        Ok(()) => ExitCode::from(0),
        Err(_) => fail(rt, &DebugFault::Serve(ServeFault::Write), ""),
    }
}

/// The runtime has threads in `main` alone, so it comes twice.
fn run<T: Threads + Wait + Sync>(rt: &HostRuntime, threads: &T) -> io::Result<ExitCode> {
    let words: Vec<String> = match env::args(rt) {
        Ok(words) => words.collect(rt.alloc())?,
        Err(error) if error.kind() == IoErrorKind::InvalidData => {
            return Ok(refuse_with(rt, NOT_TEXT));
        }
        Err(error) => return Err(error),
    };
    let mut texts = Vec::new(rt.alloc());
    for word in &words {
        texts.push(word.as_str())?;
    }
    match settings(rt.alloc(), texts.as_slice()) {
        Ok(Settings::Debug { file, workers }) => debug_file(rt, threads, file, workers),
        Ok(Settings::Check { file }) => check_file(rt, file),
        Ok(Settings::Tell { file }) => tell_file(rt, file),
        Ok(Settings::Explain { code }) => Ok(explain_code(rt, code)),
        Ok(
            Settings::Search {
                file,
                after,
                leaks,
                states,
            },
        ) => search_file(rt, file, after, leaks, states),
        Ok(
            Settings::Blame {
                file,
                after,
                states,
            },
        ) => blame_file(rt, file, after, states),
        Err(error) => Ok(refuse(rt, &error)),
    }
}

fn main(rt: HostRuntime) -> ExitCode {
    match run(&rt, &rt) {
        Ok(code) => code,
        // No call of `run` passes on another error than that it is out of memory.
        Err(_) => fail(&rt, &MEMORY, ""),
    }
}
