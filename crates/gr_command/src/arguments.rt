//! What the words after the first one of a command name.

ghost use Rattle.std.specs.Prelude.{◌≡◌, ◌+◌, ◌≤◌, IfOk, IfSome, OnErr, option_copied, option_map};
ghost use Rattle.gr_base.specs.Names.{with_digit, go_named, ch_named, step_named};
ghost use Rattle.gr_command.specs.Commands.{HasNamed};
ghost use Rattle.gr_command.specs.Words.{words_of};
ghost use Rattle.gr_command.specs.Arguments.{number_named, number_or_zero_named, ordinal_named, steps_named, only, one_named};

use crate::step_list::StepList;
use crate::words::next_word;
use gr_base::{ChName, GoName, NoMemory, StepId, read_ch, read_go, read_step};
use std::alloc::Global;

/// The number with one more digit, if it is then from 1 to `largest`.
fn push_digit(largest: u64, n: u64, byte: u8) -> Option<u64>
    ensures value { result ≡ with_digit (largest + 1) n byte }
    ensures range { IfSome result (λ longer. longer ≤ largest) }
{
    if !byte.is_ascii_digit() {
        return None;
    }
    let longer = n.checked_mul(10)?.checked_add(u64::from(byte - b'0'))?;
    if longer > 0 && longer <= largest {
        Some(longer)
    } else {
        None
    }
}

/// The number from 1 to `largest` that the digits spell, if they spell one with no leading zero.
pub(crate) fn read_number(largest: u64, digits: &[u8]) -> Option<u64>
    ensures value { result ≡ number_named largest digits.now }
    ensures range { IfSome result (λ n. n ≤ largest) }
{
    let mut count = 0;
    for digit in digits {
        count = push_digit(largest, count, *digit)?;
    }
    if count == 0 { None } else { Some(count) }
}

/// The number from 0 to `largest` that the digits spell, if they spell one with no leading zero; zero is `0`.
pub(crate) fn read_number_or_zero(largest: u64, digits: &[u8]) -> Option<u64>
    ensures value { result ≡ number_or_zero_named largest digits.now }
    ensures range { IfSome result (λ n. n ≤ largest) }
{
    if digits == b"0".as_slice() {
        return Some(0);
    }
    read_number(largest, digits)
}

/// The number from 1 to 4,294,967,295 that a word spells.
pub(crate) fn read_ordinal(word: &[u8]) -> Option<u32>
    ensures { result ≡ ordinal_named word.now }
{
    read_number(u64::from(u32::MAX), word).map(|number| number as u32)
}

/// The word of a text, if it has just one.
pub(crate) fn only_word(text: &[u8]) -> Option<&[u8]>
    ensures { option_copied result ≡ only (words_of text.now) }
{
    let (word, rest) = next_word(text)?;
    match next_word(rest) {
        None => Some(word),
        Some(_) => None,
    }
}

/// The goroutine that the text names, if it is one word that names one.
pub(crate) fn only_go(alloc: Global, text: &[u8]) -> Result<Option<GoName>, NoMemory>
    ensures ok { IfOk result (λ go. go ≡ one_named go_named (words_of text.now)) }
    ensures needed { OnErr result (HasNamed (words_of text.now)) }
{
    match only_word(text) {
        None => Ok(None),
        Some(word) => read_go(alloc, word),
    }
}

/// The channel that the text names, if it is one word that names one.
pub(crate) fn only_ch(alloc: Global, text: &[u8]) -> Result<Option<ChName>, NoMemory>
    ensures ok { IfOk result (λ channel. channel ≡ one_named ch_named (words_of text.now)) }
    ensures needed { OnErr result (HasNamed (words_of text.now)) }
{
    match only_word(text) {
        None => Ok(None),
        Some(word) => read_ch(alloc, word),
    }
}

/// The step that the text names, if it is one word that names one.
pub(crate) fn only_step(alloc: Global, text: &[u8]) -> Result<Option<StepId>, NoMemory>
    ensures ok { IfOk result (λ id. id ≡ one_named step_named (words_of text.now)) }
    ensures needed { OnErr result (HasNamed (words_of text.now)) }
{
    match only_word(text) {
        None => Ok(None),
        Some(word) => read_step(alloc, word),
    }
}

/// The number that the text spells, if it is one word that spells one from 1 to 4,294,967,295.
pub(crate) fn only_ordinal(text: &[u8]) -> Option<u32>
    ensures { result ≡ one_named ordinal_named (words_of text.now) }
{
    read_ordinal(only_word(text)?)
}

/// The steps that the words of the text name, if each names one.
pub(crate) fn read_steps(alloc: Global, text: &[u8]) -> Result<Option<StepList>, NoMemory>
    ensures ok { IfOk result (λ ids. ids ≡ steps_named (words_of text.now)) }
    ensures needed { OnErr result (HasNamed (words_of text.now)) }
{
    let mut ids = Vec::new(alloc);
    let mut left = text;
    while let Some((word, rest)) = next_word(left) {
        let Some(id) = read_step(alloc, word)? else {
            return Ok(None);
        };
        ids.push(id)?;
        left = rest;
    }
    Ok(Some(StepList::new(ids)))
}
