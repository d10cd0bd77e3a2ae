//! String literals.
ghost use Rattle.std.specs.Prelude.{◌≡◌, true, Some, None, IfOk, IfErr, IfSome};
ghost use Rattle.gr_scan.specs.Strings.{is_plain, escaped as escape_of, is_left_out_escape, part_of, text_of};
ghost use Rattle.gr_scan.specs.Scanning.{text_end, Tells};
ghost use Rattle.gr_scan.specs.Faults.{text_fault};

use crate::scan::ScanError;
use std::alloc::{AllocError, Global};

/// What a byte of a string literal is, after the opening quote.
#[derive(Clone, Copy, PartialEq, Eq)]
enum Part {
    /// A byte of the value.
    Byte(u8),
    /// The backslash before an escaped byte.
    Backslash,
    /// The closing quote.
    Close,
    /// A byte or an escape that the language leaves out.
    LeftOut,
    /// A byte that no string literal has there.
    Malformed,
}

fn plain(b: u8) -> bool
    ensures { result ≡ is_plain b }
{
    b == b'\t' || (b >= b' ' && b <= b'~') || b >= 0x80
}

/// The byte that a backslash and this byte stand for.
fn escaped(b: u8) -> Option<u8>
    ensures { result ≡ escape_of b }
{
    match b {
        b'\\' => Some(b'\\'),
        b'"' => Some(b'"'),
        b't' => Some(b'\t'),
        _ => None,
    }
}

/// Whether a backslash and this byte are an escape that the language leaves out.
fn left_out(b: u8) -> bool
    ensures { result ≡ is_left_out_escape b }
{
    matches!(
        b,
        b'a' | b'b' | b'f' | b'n' | b'r' | b'v' | b'x' | b'u' | b'U' | b'0'..=b'7'
    )
}

fn read_escape(b: u8) -> Part
    ensures { result ≡ part_of true b }
{
    if let Some(byte) = escaped(b) {
        return Part::Byte(byte);
    }
    if left_out(b) {
        Part::LeftOut
    } else {
        Part::Malformed
    }
}

/// What a byte is; `escape` says whether a backslash before it escapes it.
fn read_byte(escape: bool, b: u8) -> Part
    ensures { result ≡ part_of escape b }
{
    if escape {
        return read_escape(b);
    }
    match b {
        b'"' => Part::Close,
        b'\\' => Part::Backslash,
        _ if plain(b) => Part::Byte(b),
        b'\n' => Part::Malformed,
        _ => Part::LeftOut,
    }
}

/// The length of the string literal at the front of a text that begins with a quote. A fault gives `at` as its place.
pub fn literal_length(text: &[u8], at: usize) -> Result<usize, ScanError>
    ensures ok { IfOk result (λ n. text_end text.now ≡ Some n) }
    ensures err { IfErr result (λ e. Tells e (text_end text.now ≡ None)) }
    ensures fault { IfErr result (λ e. text_fault at text.now ≡ Some e) }
{
    let mut escape = false;
    for i in 1..text.len() {
        match read_byte(escape, text[i]) {
            Part::Byte(_) => escape = false,
            Part::Backslash => escape = true,
            Part::Close => return Ok(i + 1),
            Part::LeftOut => return Err(ScanError::LeftOut(at)),
            Part::Malformed => return Err(ScanError::MalformedText(at)),
        }
    }
    Err(ScanError::MalformedText(at))
}

/// The bytes that a string literal stands for.
fn value(alloc: Global, literal: &[u8]) -> Result<Vec<u8>, AllocError>
    ensures { IfOk result (λ v. IfSome (text_of literal.now) (λ bytes. v.items ≡ bytes)) }
{
    let mut value = Vec::new(alloc);
    let mut escape = false;
    for i in 1..literal.len() {
        match read_byte(escape, literal[i]) {
            Part::Byte(byte) => {
                value.push(byte)?;
                escape = false;
            }
            Part::Backslash => escape = true,
            Part::Close | Part::LeftOut | Part::Malformed => return Ok(value),
        }
    }
    Ok(value)
}

/// The bytes that a string literal stands for, on the heap.
pub fn boxed_value(alloc: Global, literal: &[u8]) -> Result<Box<Vec<u8>>, AllocError>
    ensures { IfOk result (λ b. IfSome (text_of literal.now) (λ bytes. b.value.items ≡ bytes)) }
{
    Ok(Box::new(alloc, value(alloc, literal)?)?)
}
