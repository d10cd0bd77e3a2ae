//! Identifiers of the language, as words of commands.

ghost use Rattle.std.specs.Prelude.{◌≡◌, IfOk, IsTrue};
ghost use Rattle.std.specs.List.{list_all};
ghost use Rattle.gr_scan.specs.Pieces.{is_letter, is_word};
ghost use Rattle.gr_command.specs.Arguments.{is_name as name, is_identifier as identifier};
ghost use Rattle.gr_command.specs.Arguments.{identifier_named};

use gr_base::NoMemory;
use gr_scan::marks::is_keyword;
use std::alloc::Global;
use std::marker::Model;
use std::sync::ArcSlice;

/// An identifier of the language: letters, digits and `_`, with no digit first, and no keyword.
#[derive(Drop)]
pub struct Identifier {
    bytes: ArcSlice<u8>,
}

impl Model for Identifier {
    ghost use Rattle.std.specs.Prelude.{List, ℕ, IsTrue};
    ghost use Rattle.std.specs.Arc.{arc_slice_items};
    ghost use Rattle.gr_command.specs.Arguments.{is_identifier};

    ghost Value = { List ℕ };

    ghost view = { λ name. arc_slice_items name.bytes };

    ghost invariant = { λ name. IsTrue (is_identifier (arc_slice_items name.bytes)) };
}

impl Identifier {
    /// The identifier that a word is, if it is one. The one error is out of memory for it.
    pub fn read(alloc: Global, word: &[u8]) -> Result<Option<Identifier>, NoMemory>
        ensures { IfOk result (λ name. name ≡ identifier_named word.now) }
    {
        if !is_identifier(word) {
            return Ok(None);
        }
        let bytes = ArcSlice::from_slice(alloc, word)?;
        Ok(Some(Identifier { bytes }))
    }

    /// The bytes of the identifier.
    pub fn as_slice(&self) -> &[u8]
        ensures value { result.now ≡ self.now }
        ensures valid { IsTrue (identifier self.now) }
    {
        self.bytes.as_slice()
    }

    /// A copy of the identifier, which shares its bytes.
    pub fn copy(&self, _alloc: Global) -> Result<Identifier, NoMemory>
        ensures { IfOk result (λ name. name ≡ self.now) }
    {
        let bytes = self.bytes.clone()?;
        Ok(Identifier { bytes })
    }
}

/// Whether an identifier may begin with a byte.
fn is_first_byte(byte: u8) -> bool
    ensures { result ≡ is_letter byte }
{
    byte.is_ascii_alphabetic() || byte == b'_'
}

/// Whether an identifier may have a byte after its first.
fn is_word_byte(byte: u8) -> bool
    ensures { result ≡ is_word byte }
{
    is_first_byte(byte) || byte.is_ascii_digit()
}

/// Whether all bytes are such as an identifier may have after its first.
fn has_word_bytes(bytes: &[u8]) -> bool
    ensures { result ≡ list_all is_word bytes.now }
{
    bytes.iter().all(|byte| is_word_byte(*byte))
}

/// Whether a word has letters, digits and `_` alone, and no digit first.
fn is_name(word: &[u8]) -> bool
    ensures { result ≡ name word.now }
{
    match word.split_first() {
        None => false,
        Some((first, rest)) => is_first_byte(*first) && has_word_bytes(rest),
    }
}

/// Whether a word is an identifier, and no keyword.
fn is_identifier(word: &[u8]) -> bool
    ensures { result ≡ identifier word.now }
{
    is_name(word) && !is_keyword(word)
}
