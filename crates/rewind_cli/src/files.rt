//! What is said, at a terminal, of a file that was not debugged.

use rewind::debug::DebugFault;
use rewind::report::refusal_code;
use rewind::terminal::show_meaning;
use rewind::words::{EMPTY, FOLDER, FORBIDDEN, MISSING, NOT_UTF_8, UNREAD};
use std::fs;
use std::fs::File;
use std::io::{ErrorKind, Write};

/// Says in plain words what is wrong with the file, after the line of a fault. Says nothing where the fault does not concern
/// the file.
pub(crate) fn tell_of(rt: &HostRuntime, fault: &DebugFault, file: &str) {
    match fault {
        DebugFault::Source => tell(rt, words_of_unread(rt, file)),
        DebugFault::Open(_) => match words_of_text(rt, file) {
            Some(words) => tell(rt, words),
            None => tell_refusal(rt, fault),
        },
        DebugFault::Serve(_) | DebugFault::Threads => {}
    }
}

fn tell(rt: &HostRuntime, words: &str) {
    let _ = rt.stderr().write_all(words.as_bytes());
}

/// Tells what the code of a refused source means.
fn tell_refusal(rt: &HostRuntime, fault: &DebugFault) {
    if let Some(code) = refusal_code(fault) {
        show_meaning(&mut rt.stderr(), code);
    }
}

/// Why a file was not read.
fn words_of_unread(rt: &HostRuntime, file: &str) -> &'static str {
    match File::open(rt, file) {
        Err(error) => match error.kind() {
            ErrorKind::NotFound => MISSING,
            ErrorKind::PermissionDenied => FORBIDDEN,
            _ => UNREAD,
        },
        Ok(opened) => match opened.metadata() {
            Ok(known) if known.is_dir() => FOLDER,
            _ => UNREAD,
        },
    }
}

/// What is to be said of a file that is empty, or no UTF-8.
fn words_of_text(rt: &HostRuntime, file: &str) -> Option<&'static str> {
    // What is no plain file may not be there a second time.
    if !fs::metadata(rt, file).ok()?.is_file() {
        return None;
    }
    let text = fs::read(rt, file).ok()?;
    if text.is_empty() {
        Some(EMPTY)
    } else if str::from_utf8(text.as_slice()).is_err() {
        Some(NOT_UTF_8)
    } else {
        None
    }
}
