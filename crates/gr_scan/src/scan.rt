//! From a text to its tokens.
ghost use Rattle.std.specs.Prelude.{◌≡◌, ◌+◌, ◌-◌, ◌<◌, ◌≤◌, ◌^◌, ◌↔◌, ℕ, List, [], ◌∷◌, ◌++◌, length, OnOk, IfOk, IfErr};
ghost use Rattle.gr_scan.specs.Marks.{keywords, mark_in};
ghost use Rattle.gr_scan.specs.Tokens.{Tok, At, place_of_span, token_of, tokens_of};
ghost use Rattle.gr_scan.specs.Scan.{IsScan, HasNoTokens, items_of, keyword_or_name, line_after, mark_size, semicolon, word_ends};
ghost use Rattle.gr_scan.specs.Rising.{RiseFrom};
ghost use Rattle.gr_scan.specs.Scan as spec;
ghost use Rattle.gr_scan.specs.Pieces.{Spells};
ghost use Rattle.gr_scan.specs.Scanning.{Puts, Finds};
ghost use Rattle.gr_scan.specs.Faults.{piece_fault, HasFault, FirstFault, place_of};
ghost use Rattle.gr_scan.specs.declared.scan.ScanError.TheVariants.{Memory, TooLong};

use crate::marks::keyword;
use crate::piece::{Piece, longest_piece};
use crate::position::newlines;
use crate::token::{Kind, Mark, Span, Token};
use crate::{number, quoted};
use std::alloc::{AllocError, Global};
use thiserror::Error;

/// The most bytes that a text may have.
pub const TEXT_LIMIT: usize = 1_048_576;

/// Why a text has no tokens. Each fault that has a number gives the number of bytes before it.
#[derive(Clone, Copy, Debug, PartialEq, Eq, Error)]
pub enum ScanError {
    /// S1: a byte that begins no token.
    #[error("no token begins at byte offset {0}")]
    Strange(usize),
    /// S2: a run of digits and letters that is a number of no base.
    #[error("malformed number at byte offset {0}")]
    Malformed(usize),
    /// S3: a number over 2^63.
    #[error("number over 2^63 at byte offset {0}")]
    TooGreat(usize),
    /// S4: a string that is not closed on its line, or has an escape of no kind.
    #[error("malformed string at byte offset {0}")]
    MalformedText(usize),
    /// S5: a general comment that is not closed.
    #[error("unclosed comment at byte offset {0}")]
    Unclosed(usize),
    /// S6: a literal or a comment of a kind that is left out.
    #[error("literal or comment of a kind that is left out at byte offset {0}")]
    LeftOut(usize),
    /// S7: the text is longer than 1,048,576 bytes.
    #[error("text of more than {limit} bytes", limit = TEXT_LIMIT)]
    TooLong,
    /// S8: there was not enough memory, which says nothing about the text.
    #[error("out of memory")]
    Memory,
}

impl ScanError {
    /// How many bytes stand before the fault, where it has a place in the text.
    pub fn place(self) -> Option<usize>
        ensures { result ≡ place_of self }
    {
        match self {
            ScanError::Strange(at)
            | ScanError::Malformed(at)
            | ScanError::TooGreat(at)
            | ScanError::MalformedText(at)
            | ScanError::Unclosed(at)
            | ScanError::LeftOut(at) => Some(at),
            ScanError::TooLong | ScanError::Memory => None,
        }
    }
}

impl From<AllocError> for ScanError {
    ghost from_gives = { λ _ e. e ≡ Memory };

    fn from(_: AllocError) -> Self {
        ScanError::Memory
    }
}

fn ends_line(mark: Mark) -> bool
    ensures { result ≡ spec.ends_line mark }
{
    matches!(
        mark,
        Mark::Break
            | Mark::Continue
            | Mark::Fallthrough
            | Mark::Return
            | Mark::PlusPlus
            | Mark::MinusMinus
            | Mark::RightParen
            | Mark::RightBracket
            | Mark::RightBrace
    )
}

#[tactic(auto, using(crate::proofs::Goes::tokens_of_push))]
fn push<'a>(tokens: &mut Vec<Token<'a>>, kind: Kind<'a>, span: Span) -> Result<(), AllocError>
    ensures { OnOk result (tokens_of tokens.new.items ≡ tokens_of tokens.old.items
        ++ (token_of (record { kind = kind.entry; span = span }) ∷ [])) }
{
    tokens.push(Token { kind, span })?;
    Ok(())
}

/// Puts the semicolon at the end of a line that wants one.
fn end_line(tokens: &mut Vec<Token>, wanted: bool, at: u32, line: u32) -> Result<(), AllocError>
    ensures { OnOk result (tokens_of tokens.new.items ≡ tokens_of tokens.old.items ++ semicolon wanted at line) }
{
    if wanted {
        let span = Span {
            start: at,
            end: at,
            line,
        };
        push(tokens, Kind::Mark(Mark::Semicolon), span)?;
    }
    Ok(())
}

/// Adds a keyword or a name; answers whether a line that ends in it wants a semicolon.
#[tactic(auto, using(crate::proofs::Goes::tokens_of_push))]
fn put_word<'a>(
    tokens: &mut Vec<Token<'a>>,
    bytes: &'a [u8],
    span: Span,
) -> Result<bool, AllocError>
    ensures added { OnOk result (tokens_of tokens.new.items ≡ tokens_of tokens.old.items
        ++ (At (place_of_span span) (keyword_or_name (mark_in keywords bytes.now) bytes.now) ∷ [])) }
    ensures ends { IfOk result (λ wanted. wanted ≡ word_ends (keyword_or_name (mark_in keywords bytes.now) bytes.now)) }
{
    if let Some(mark) = keyword(bytes) {
        push(tokens, Kind::Mark(mark), span)?;
        return Ok(ends_line(mark));
    }
    push(tokens, Kind::Name(bytes), span)?;
    Ok(true)
}

/// Adds what a piece is; answers whether the line so far wants a semicolon at its end.
fn put<'a>(
    alloc: Global,
    tokens: &mut Vec<Token<'a>>,
    wanted: bool,
    piece: Piece,
    bytes: &'a [u8],
    span: Span,
) -> Result<bool, ScanError>
    requires spelled { Spells piece bytes.now }
    requires place { span.end ≡ span.start + length bytes.now }
    ensures added { Puts result wanted (items_of piece bytes.now span.start span.line) (tokens_of tokens.old.items)
        (tokens_of tokens.new.items) }
    ensures fault { IfErr result (λ e. Finds e (piece_fault span.start piece bytes.now)) }
{
    match piece {
        Piece::Space | Piece::Comment => Ok(wanted),
        Piece::GeneralComment if newlines(bytes) == 0 => Ok(wanted),
        Piece::GeneralComment | Piece::Newline => {
            end_line(tokens, wanted, span.start, span.line)?;
            Ok(false)
        }
        Piece::OpenComment => Err(ScanError::Unclosed(span.start as usize)),
        Piece::Word => Ok(put_word(tokens, bytes, span)?),
        Piece::Number => {
            push(
                tokens,
                Kind::Number(number::read(bytes, span.start as usize)?),
                span,
            )?;
            Ok(true)
        }
        Piece::Operator(mark) => {
            push(tokens, Kind::Mark(mark), span)?;
            Ok(ends_line(mark))
        }
        Piece::Fraction => Err(ScanError::LeftOut(span.start as usize)),
        Piece::Text => {
            push(tokens, Kind::Text(quoted::boxed_value(alloc, bytes)?), span)?;
            Ok(true)
        }
    }
}

fn next_line(piece: Piece, bytes: &[u8], line: usize) -> usize
    requires filled { 0 < length bytes.now }
    requires low { line + length bytes.now < 2 ^ 64 }
    ensures after { result ≡ line_after piece bytes.now line }
    ensures near { result ≤ line + length bytes.now }
{
    match piece {
        Piece::Newline => line + 1,
        Piece::GeneralComment => line + newlines(bytes),
        _ => line,
    }
}

fn byte_order_mark(text: &[u8]) -> usize
    ensures size { result ≡ mark_size text.now }
    ensures within { result ≤ length text.now }
{
    if text.starts_with(b"\xef\xbb\xbf") {
        3
    } else {
        0
    }
}

/// The tokens of a text.
pub fn scan(alloc: Global, text: &[u8]) -> Result<Vec<Token<'_>>, ScanError>
    // The answer is the list of tokens of the text.
    ensures tokens { IfOk result (λ v. IsScan text.now (tokens_of v.items)) }
    // An error says that the text has none.
    ensures none { IfErr result (λ e. HasNoTokens e text.now) }
    // The error is the first fault of the text.
    ensures fault { IfErr result (λ e. HasFault e text.now) }
    ensures too_long { (result ≡ Err TooLong) ↔ (TEXT_LIMIT < length text.now) }
{
    if text.len() > TEXT_LIMIT {
        return Err(ScanError::TooLong);
    }
    let mut tokens = Vec::new(alloc);
    let mut start = byte_order_mark(text);
    let (_, mut rest) = text.split_at(start);
    let mut line = 1;
    let mut wanted = false;
    while !rest.is_empty() {
        let (piece, size) = longest_piece(rest, start)?;
        let (bytes, after) = rest.split_at(size);
        let end = start + size;
        let span = Span {
            start: start as u32,
            end: end as u32,
            line: line as u32,
        };
        wanted = put(alloc, &mut tokens, wanted, piece, bytes, span)?;
        line = next_line(piece, bytes, line);
        start = end;
        rest = after;
    }
    end_line(&mut tokens, wanted, start as u32, line as u32)?;
    Ok(tokens)
}

/// A text has at most one list of tokens.
pub fn one_list()
    ensures { (text : List ℕ) (a b : List Tok) → IsScan text a → IsScan text b → a ≡ b }
{}

/// The tokens of a text stand one after another.
pub fn tokens_in_order()
    ensures { (text : List ℕ) (ts : List Tok) → IsScan text ts → RiseFrom 0 ts }
{}

/// A text has at most one first fault.
pub fn one_fault()
    ensures { (text : List ℕ) (at : ℕ) (a b : ScanError) → FirstFault a at text → FirstFault b at text → a ≡ b }
{}
