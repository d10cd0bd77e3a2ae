//! From a source to a session.
ghost use Rattle.std.specs.Prelude.{◌≡◌, ◌<◌, ◌↔◌, [], length, None, IfOk, IfErr, IsErrOf};
ghost use Rattle.gr_scan.specs.Tokens.{tokens_of};
ghost use Rattle.gr_tree.specs.Files.{file_of};
ghost use Rattle.gr_program.specs.Views.{program_of};
ghost use Rattle.gr_session.specs.Source.{IsFileOf, IsProgramOf};
ghost use Rattle.gr_session.specs.Refused.{SaysWhy};
ghost use Rattle.gr_session.specs.Refused as spec;

use crate::session::Session;
use gr_base::NoMemory;
use gr_program::Program;
use gr_scan::position::Position;
use gr_scan::scan::{ScanError, TEXT_LIMIT, one_list, scan};
use gr_scan::token::Token;
use gr_syntax::parse::{ParseError, one_tree, parse};
use gr_tree::File;
use gr_types::check::check;
use gr_types::refusal::CheckError;
use std::alloc::Global;
use thiserror::Error;

/// Why a source was not opened. A fault that has a place in the source comes with its position.
#[derive(Clone, Copy, Debug, PartialEq, Eq, Error)]
pub enum OpenError {
    /// It has no tokens, or there is no memory for them.
    #[error("{0}")]
    Scan(ScanError, Option<Position>),
    /// No file has its tokens, or there is no memory for one.
    #[error("{0}")]
    Parse(ParseError, Option<Position>),
    /// The file breaks a rule of the language, or there is no memory for its program.
    #[error("{0}")]
    Check(CheckError, Option<Position>),
    /// There is no memory for a session of the program.
    #[error("out of memory")]
    Memory,
}

/// Where the token of this index begins; after the last, where the text ends.
fn token_position(text: &[u8], tokens: &[Token], index: usize) -> Position
    ensures { result ≡ spec.token_position text.now (tokens_of tokens.now) index }
{
    match tokens.get(index) {
        Some(token) => Position::of(text, token.place().start),
        None => Position::of(text, text.len()),
    }
}

fn scan_error(text: &[u8], error: ScanError) -> OpenError
    ensures { result ≡ OpenError.Scan error (spec.scan_position text.now error) }
{
    let at = match error.place() {
        Some(before) => Some(Position::of(text, before)),
        None => None,
    };
    OpenError::Scan(error, at)
}

fn parse_error(text: &[u8], tokens: &[Token], error: ParseError) -> OpenError
    ensures { result ≡ OpenError.Parse error (spec.parse_position text.now (tokens_of tokens.now) error) }
{
    let at = match error {
        ParseError::Memory => None,
        ParseError::NoFile { token }
        | ParseError::LeftOut { token }
        | ParseError::TooHigh { token } => Some(token_position(text, tokens, token)),
    };
    OpenError::Parse(error, at)
}

fn check_error(text: &[u8], error: CheckError) -> OpenError
    ensures { result ≡ OpenError.Check error (spec.check_position text.now error) }
{
    let at = match error {
        CheckError::Memory => None,
        CheckError::Refused { code: _, at } => Some(Position::of(text, at)),
    };
    OpenError::Check(error, at)
}

/// The file of a source. Its tokens are let go.
fn read_file(alloc: Global, text: &[u8]) -> Result<File, OpenError>
    ensures file { IfOk result (λ file. IsFileOf text.now (file_of file)) }
    ensures none { IfErr result (λ e. SaysWhy e text.now) }
    ensures too_long { IsErrOf result (OpenError.Scan ScanError.TooLong None) ↔ (TEXT_LIMIT < length text.now) }
    ensures no_session { IsErrOf result OpenError.Memory → ⊥ }
{
    // brings the law to the prover
    one_list();
    let tokens = match scan(alloc, text) {
        Ok(tokens) => tokens,
        Err(error) => return Err(scan_error(text, error)),
    };
    match parse(alloc, tokens.as_slice()) {
        Ok(file) => Ok(file),
        Err(error) => Err(parse_error(text, tokens.as_slice(), error)),
    }
}

/// The program of a source of at most 1,048,576 bytes. The errors are those of `Session::open`, but for `Memory`: no session is
/// made.
pub fn program_of_source(alloc: Global, text: &[u8]) -> Result<Program, OpenError>
    ensures program { IfOk result (λ p. IsProgramOf text.now (program_of p)) }
    ensures none { IfErr result (λ e. SaysWhy e text.now) }
    ensures too_long { IsErrOf result (OpenError.Scan ScanError.TooLong None) ↔ (TEXT_LIMIT < length text.now) }
    ensures no_session { IsErrOf result OpenError.Memory → ⊥ }
{
    // brings the laws to the prover
    one_list();
    one_tree();
    let file = read_file(alloc, text)?;
    match check(alloc, file) {
        Ok(program) => Ok(program),
        Err(error) => Err(check_error(text, error)),
    }
}

impl Session {
    /// A session of the program that a source has, with an empty journal and no asker.
    pub fn open(alloc: Global, text: &[u8]) -> Result<Session, OpenError>
        ensures program { IfOk result (λ s. IsProgramOf text.now (program_of s.program)) }
        ensures journal { IfOk result (λ s. s.journal ≡ []) }
        ensures askers { IfOk result (λ s. s.askers ≡ 0) }
        ensures none { IfErr result (λ e. SaysWhy e text.now) }
        ensures too_long { IsErrOf result (OpenError.Scan ScanError.TooLong None) ↔ (TEXT_LIMIT < length text.now) }
    {
        let program = program_of_source(alloc, text)?;
        match Session::new(alloc, program) {
            Ok(session) => Ok(session),
            Err(NoMemory) => Err(OpenError::Memory),
        }
    }
}
