//! The file that a list of tokens spells.

ghost use Rattle.std.specs.Prelude.{◌≡◌, List, IfOk, IfErr};
ghost use Rattle.std.specs.List.{slice_get};
ghost use Rattle.gr_scan.specs.Tokens.{Tok, tokens_of};
ghost use Rattle.gr_tree.specs.Files.{FileTree, file_of};
ghost use Rattle.gr_syntax.specs.FileGrammar.{SpellsFile, IsTreeOf};
ghost use Rattle.gr_syntax.specs.Refused.{is_left_out, left_out, HasNoTree};

use crate::function::file;
use crate::look::ReadError;
use gr_scan::token::{Kind, Mark, Token};
use gr_tree::File;
use std::alloc::Global;
use thiserror::Error;

/// Why a list of tokens has no tree. A token is named by its index; the number of tokens stands for the end.
#[derive(Clone, Copy, Debug, PartialEq, Eq, Drop, Error)]
pub enum ParseError {
    /// No file has these tokens (P1). The token is the first at which they stop being the beginning of a file. Tests show
    /// that, and no clause.
    #[error("token {token} cannot stand here")]
    NoFile { token: usize },
    /// No file has these tokens (P2), and the token begins something of Go that the language leaves out. It is the first at
    /// which they stop being the beginning of a file. Tests show that, and no clause.
    #[error("token {token} begins a form that is left out")]
    LeftOut { token: usize },
    /// Every tree is higher than `gr_tree::HEIGHT_LIMIT` (P3): a part that begins at this token, or one around it, is too high.
    #[error("too many levels at token {token}")]
    TooHigh { token: usize },
    /// Memory ran out (P4).
    #[error("out of memory")]
    Memory,
}

/// Whether this mark begins something of Go that the language leaves out. `var` does so outside functions, and `func` inside.
fn mark_is_left_out(mark: Mark) -> bool
    ensures { result ≡ is_left_out mark }
{
    matches!(
        mark,
        Mark::Const
            | Mark::Defer
            | Mark::Fallthrough
            | Mark::Func
            | Mark::Goto
            | Mark::Import
            | Mark::Interface
            | Mark::Map
            | Mark::Switch
            | Mark::Type
            | Mark::Var
            | Mark::Star
            | Mark::And
            | Mark::LeftBracket
            | Mark::Dot
            | Mark::Ellipsis
    )
}

/// Whether the token with this index is such a mark.
fn token_is_left_out(token: usize, tokens: &[Token]) -> bool
    ensures { result ≡ left_out (slice_get (tokens_of tokens.now) token) }
{
    let Some(refused) = tokens.get(token) else {
        return false;
    };
    match &refused.kind {
        Kind::Mark(mark) => mark_is_left_out(*mark),
        Kind::Name(_) => false,
        Kind::Number(_) => false,
        Kind::Text(_) => false,
    }
}

/// The tree of the file that the tokens spell (Go: Source file organization).
///
/// Where the tokens are no file and are too high besides, either error may be answered. The time is linear in the number of
/// tokens, also where they are refused. Recursion goes no deeper than `gr_tree::HEIGHT_LIMIT`.
pub fn parse(alloc: Global, tokens: &[Token]) -> Result<File, ParseError>
    // The tokens spell the answer, which is low enough.
    ensures tree { IfOk result (λ f. IsTreeOf (file_of f) (tokens_of tokens.now)) }
    // What an error says of the tokens.
    ensures none { IfErr result (λ e. HasNoTree e (tokens_of tokens.now)) }
{
    // What was left is a part of `tokens`, so the difference is the index of its first token.
    let count = tokens.len();
    match file(alloc, tokens) {
        Ok(file) => Ok(file),
        Err(ReadError::Wrong { left }) => {
            let token = count.saturating_sub(left);
            if token_is_left_out(token, tokens) {
                Err(ParseError::LeftOut { token })
            } else {
                Err(ParseError::NoFile { token })
            }
        }
        Err(ReadError::TooHigh { left }) => Err(ParseError::TooHigh {
            token: count.saturating_sub(left),
        }),
        Err(ReadError::Memory) => Err(ParseError::Memory),
    }
}

/// At most one tree spells a list of tokens.
#[tactic(auto, using(crate::proofs::Files::one_tree))]
pub fn one_tree()
    ensures { (f g : FileTree) (ts : List Tok) → SpellsFile f ts → SpellsFile g ts → f ≡ g }
{}
