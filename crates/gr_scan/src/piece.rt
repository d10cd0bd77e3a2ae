//! The pieces that a text is cut into.
ghost use Rattle.std.specs.Prelude.{◌≡◌, ℕ, ◌+◌, ◌<◌, ◌≤◌, ◌==◌, Some, length, slice_index, IfSome, IfNone, IfOk, IfErr, true};
ghost use Rattle.std.specs.Prelude.{false};
ghost use Rattle.gr_scan.specs.Pieces.{is_letter, is_word, is_digit, is_space, Closes, IsPiece, NoPiece};
ghost use Rattle.gr_scan.specs.Faults.{stray_fault};
ghost use Rattle.gr_scan.specs.Scanning.{class_of, OnlyMarks, IsFirstEnd, Tells, Letter, Digit, Quote, Slash, Point};

use crate::marks::operator;
use crate::quoted::literal_length;
use crate::scan::ScanError;
use crate::token::Mark;

/// What a piece of a text is.
#[derive(Clone, Copy, PartialEq, Eq)]
pub enum Piece {
    /// A space, a tab or a carriage return.
    Space,
    Newline,
    /// A line comment, without the newline after it.
    Comment,
    /// A general comment, from `/*` to the first `*/`.
    GeneralComment,
    /// The two bytes that begin a general comment that nothing closes.
    OpenComment,
    /// A name or a keyword.
    Word,
    /// A run of digits, letters and `_` that begins with a digit.
    Number,
    Operator(Mark),
    /// A number and the point after it, or a point and the digit after it.
    Fraction,
    /// A string literal, with its quotes.
    Text,
}

/// What a byte may begin.
#[derive(Clone, Copy, PartialEq, Eq)]
pub enum Class {
    Letter,
    Digit,
    Space,
    Newline,
    Quote,
    Slash,
    Point,
    Other,
}

fn letter(b: u8) -> bool
    ensures { result ≡ is_letter b }
{
    b.is_ascii_alphabetic() || b == b'_'
}

/// Whether a byte is a decimal digit.
pub fn digit(b: u8) -> bool
    ensures { result ≡ is_digit b }
{
    b.is_ascii_digit()
}

fn word(b: u8) -> bool
    ensures { result ≡ is_word b }
{
    letter(b) || digit(b)
}

fn space(b: u8) -> bool
    ensures { result ≡ is_space b }
{
    b == b' ' || b == b'\t' || b == b'\r'
}

fn classify(b: u8) -> Class
    ensures { result ≡ class_of b }
{
    if letter(b) {
        Class::Letter
    } else if digit(b) {
        Class::Digit
    } else if space(b) {
        Class::Space
    } else if b == b'\n' {
        Class::Newline
    } else if b == b'"' {
        Class::Quote
    } else if b == b'/' {
        Class::Slash
    } else if b == b'.' {
        Class::Point
    } else {
        Class::Other
    }
}

/// The byte at a place, and 0 past the end.
pub fn byte(text: &[u8], at: usize) -> u8
    ensures { result ≡ slice_index text.now at }
{
    if at < text.len() { text[at] } else { 0 }
}

/// How far the bytes of names go on.
fn run_end(text: &[u8], from: usize) -> usize
    requires { from ≤ length text.now }
    ensures low { from ≤ result }
    ensures high { result ≤ length text.now }
    ensures inside { (k : ℕ) → from ≤ k → k < result → is_word (slice_index text.now k) ≡ true }
    ensures longest { result < length text.now → is_word (slice_index text.now result) ≡ false }
{
    for i in from..text.len() {
        if !word(text[i]) {
            return i;
        }
    }
    text.len()
}

/// How far a line goes on.
fn line_end(text: &[u8], from: usize) -> usize
    requires { from ≤ length text.now }
    ensures low { from ≤ result }
    ensures high { result ≤ length text.now }
    ensures inside { (k : ℕ) → from ≤ k → k < result → slice_index text.now k ≡ 10 → ⊥ }
    ensures longest { result < length text.now → slice_index text.now result ≡ 10 }
{
    for i in from..text.len() {
        if text[i] == b'\n' {
            return i;
        }
    }
    text.len()
}

/// How far a general comment goes on, its `*/` included; `None` where nothing closes it.
fn comment_end(text: &[u8]) -> Option<usize>
    ensures some { IfSome result (λ n. IsFirstEnd n text.now) }
    ensures none { IfNone result ((k : ℕ) → 2 ≤ k → Closes text.now k → ⊥) }
{
    for i in 2..text.len() {
        if text[i] == b'*' && byte(text, i + 1) == b'/' {
            return Some(i + 2);
        }
    }
    None
}

fn number(text: &[u8]) -> (Piece, usize)
    requires filled { 0 < length text.now }
    requires digit { class_of (slice_index text.now 0) ≡ Digit }
    ensures { IsPiece result.0 result.1 text.now }
{
    let end = run_end(text, 1);
    if byte(text, end) == b'.' {
        (Piece::Fraction, end + 1)
    } else {
        (Piece::Number, end)
    }
}

fn string(text: &[u8], at: usize) -> Result<(Piece, usize), ScanError>
    requires filled { 0 < length text.now }
    requires class { class_of (slice_index text.now 0) ≡ Quote }
    ensures ok { IfOk result (λ p. IsPiece p.0 p.1 text.now) }
    ensures err { IfErr result (λ e. Tells e (NoPiece text.now)) }
    ensures fault { IfErr result (λ e. stray_fault at text.now ≡ Some e) }
{
    let size = literal_length(text, at)?;
    Ok((Piece::Text, size))
}

fn mark(text: &[u8], at: usize) -> Result<(Piece, usize), ScanError>
    requires marks { OnlyMarks text.now }
    requires no_quote { (slice_index text.now 0 == 34) ≡ false }
    ensures ok { IfOk result (λ p. IsPiece p.0 p.1 text.now) }
    ensures err { IfErr result (λ e. Tells e (NoPiece text.now)) }
    ensures fault { IfErr result (λ e. stray_fault at text.now ≡ Some e) }
{
    match operator(text) {
        Some((mark, size)) => Ok((Piece::Operator(mark), size)),
        None if matches!(byte(text, 0), b'\'' | b'`') => Err(ScanError::LeftOut(at)),
        None => Err(ScanError::Strange(at)),
    }
}

fn slash(text: &[u8], at: usize) -> Result<(Piece, usize), ScanError>
    requires filled { 0 < length text.now }
    requires class { class_of (slice_index text.now 0) ≡ Slash }
    ensures ok { IfOk result (λ p. IsPiece p.0 p.1 text.now) }
    ensures err { IfErr result (λ e. Tells e (NoPiece text.now)) }
    ensures fault { IfErr result (λ e. stray_fault at text.now ≡ Some e) }
{
    let second = byte(text, 1);
    if second == b'/' {
        return Ok((Piece::Comment, line_end(text, 2)));
    }
    if second == b'*' {
        return match comment_end(text) {
            Some(end) => Ok((Piece::GeneralComment, end)),
            None => Ok((Piece::OpenComment, 2)),
        };
    }
    mark(text, at)
}

fn point(text: &[u8], at: usize) -> Result<(Piece, usize), ScanError>
    requires filled { 0 < length text.now }
    requires class { class_of (slice_index text.now 0) ≡ Point }
    ensures ok { IfOk result (λ p. IsPiece p.0 p.1 text.now) }
    ensures err { IfErr result (λ e. Tells e (NoPiece text.now)) }
    ensures fault { IfErr result (λ e. stray_fault at text.now ≡ Some e) }
{
    if digit(byte(text, 1)) {
        return Ok((Piece::Fraction, 2));
    }
    mark(text, at)
}

/// The longest piece at the front, and its length in bytes. Where no piece begins, the fault gives `at` as its place.
pub fn longest_piece(text: &[u8], at: usize) -> Result<(Piece, usize), ScanError>
    requires { 0 < length text.now }
    ensures ok { IfOk result (λ p. IsPiece p.0 p.1 text.now) }
    ensures err { IfErr result (λ e. Tells e (NoPiece text.now)) }
    ensures fault { IfErr result (λ e. stray_fault at text.now ≡ Some e) }
{
    match classify(text[0]) {
        Class::Letter => Ok((Piece::Word, run_end(text, 1))),
        Class::Digit => Ok(number(text)),
        Class::Space => Ok((Piece::Space, 1)),
        Class::Newline => Ok((Piece::Newline, 1)),
        Class::Quote => string(text, at),
        Class::Slash => slash(text, at),
        Class::Point => point(text, at),
        Class::Other => mark(text, at),
    }
}
