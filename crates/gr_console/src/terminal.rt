//! What a person sees at a terminal: a prompt before each line, and plain words after each refusal.
ghost use Rattle.std.specs.Prelude.{◌≡◌};
ghost use Rattle.gr_console.specs.Terminal.{reader_of, writer_of};

use crate::explanations::{explain, meaning_of};
use crate::words::{BANNER, NO_COMMAND, PROMPT};
use std::io;
use std::io::{Read, Write};

/// A reader that shows a prompt on a screen before each read that begins a line, and a banner before the first read. A terminal
/// gives one line to a read.
#[derive(Drop)]
pub struct Prompted<R, S> {
    reader: R,
    screen: S,
    // What is shown before the next bytes are read.
    due: &'static str,
}

impl<R, S> Prompted<R, S> {
    /// The reader, with prompts on the screen.
    pub fn new(reader: R, screen: S) -> Prompted<R, S>
        ensures { reader_of result ≡ reader }
    {
        Prompted {
            reader,
            screen,
            due: BANNER,
        }
    }
}

impl<R: Read, S: Write> Read for Prompted<R, S> {
    ghost remaining = { λ prompted. R.remaining (reader_of prompted) };

    /// What the screen can't show is left out.
    fn read(&mut self, buf: &mut [u8]) -> io::Result<usize> {
        let _ = self.screen.write_all(self.due.as_bytes());
        self.due = "";
        let count = self.reader.read(buf)?;
        match buf[..count].last() {
            Some(b'\n') => self.due = PROMPT,
            Some(_) => {}
            None => {
                let _ = self.screen.write_all(b"\n");
            }
        }
        Ok(count)
    }
}

// The first bytes of a line: a refusal begins with `no` and its code, and the answer to no command with `?`.
#[derive(Drop)]
struct LineStart {
    bytes: [u8; 5],
    count: usize,
}

impl LineStart {
    fn new() -> LineStart {
        LineStart {
            bytes: [0; 5],
            count: 0,
        }
    }

    fn push(&mut self, byte: u8) {
        if self.count < 5 {
            self.bytes[self.count] = byte;
            self.count += 1;
        }
    }
}

/// Shows on a screen what a code means, in one line.
pub fn show_meaning<S: Write>(screen: &mut S, code: &[u8]) {
    if let Some(page) = explain(code) {
        let _ = screen.write_all(meaning_of(page).as_bytes());
        let _ = screen.write_all(b" (more: rewind --explain ");
        let _ = screen.write_all(code);
        let _ = screen.write_all(b")\n");
    }
}

/// Shows what a line means that tells a refusal.
fn show_line<S: Write>(screen: &mut S, line: &LineStart) {
    let start = line.bytes.as_slice();
    match start {
        [b'n', b'o', b' ', code @ ..] => show_meaning(screen, code),
        [b'?', ..] => {
            let _ = screen.write_all(NO_COMMAND.as_bytes());
        }
        _ => {}
    }
}

/// Shows what each line means that ends in these bytes.
fn show_lines<S: Write>(screen: &mut S, line: &mut LineStart, bytes: &[u8]) {
    for byte in bytes {
        if *byte == b'\n' {
            show_line(screen, line);
            *line = LineStart::new();
        } else {
            line.push(*byte);
        }
    }
}

/// A writer of replies that shows on a screen, after each refusal, what it means.
#[derive(Drop)]
pub struct Explained<W, S> {
    writer: W,
    screen: S,
    line: LineStart,
}

impl<W, S> Explained<W, S> {
    /// The writer, with meanings on the screen.
    pub fn new(writer: W, screen: S) -> Explained<W, S>
        ensures { writer_of result ≡ writer }
    {
        Explained {
            writer,
            screen,
            line: LineStart::new(),
        }
    }
}

impl<W: Write, S: Write> Write for Explained<W, S> {
    ghost contents = { λ explained. W.contents (writer_of explained) };

    fn write(&mut self, buf: &[u8]) -> io::Result<usize> {
        let count = self.writer.write(buf)?;
        show_lines(&mut self.screen, &mut self.line, &buf[..count]);
        Ok(count)
    }

    fn flush(&mut self) -> io::Result<()> {
        self.writer.flush()
    }
}
