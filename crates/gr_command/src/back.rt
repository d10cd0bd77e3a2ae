//! Which step a line asks to be taken back.

ghost use Rattle.std.specs.Prelude.{◌≡◌, ◌∷◌, IfOk, OnErr};
ghost use Rattle.gr_base.specs.Names.{go_named, ch_named};
ghost use Rattle.gr_command.specs.Words.{words_of};
ghost use Rattle.gr_command.specs.Arguments.{ordinal_named, identifier_named, both_named};
ghost use Rattle.gr_command.specs.Commands.{by_table, targets_asked, target_asked, HasNamed};

use crate::arguments::{only_go, read_ordinal};
use crate::identifier::Identifier;
use crate::target::Target;
use crate::words::{next_word, spells};
use gr_base::{ChName, GoName, NoMemory, read_ch, read_go, read_step};
use std::alloc::Global;

/// A channel, and which of its sends or receives, if the text has just two words that name that.
fn communication(alloc: Global, text: &[u8]) -> Result<Option<(ChName, u32)>, NoMemory>
    ensures ok { IfOk result (λ named. named ≡ both_named ch_named ordinal_named (words_of text.now)) }
    ensures needed { OnErr result (HasNamed (words_of text.now)) }
{
    let Some((channel, rest)) = next_word(text) else {
        return Ok(None);
    };
    let Some((number, rest)) = next_word(rest) else {
        return Ok(None);
    };
    let None = next_word(rest) else {
        return Ok(None);
    };
    let Some(number) = read_ordinal(number) else {
        return Ok(None);
    };
    Ok(read_ch(alloc, channel)?.map(|channel| (channel, number)))
}

/// A goroutine and the name of a variable, if the text has just two words that name that.
fn variable(alloc: Global, text: &[u8]) -> Result<Option<(GoName, Identifier)>, NoMemory>
    ensures ok { IfOk result (λ named. named ≡ both_named go_named identifier_named (words_of text.now)) }
    ensures needed { OnErr result (HasNamed (words_of text.now)) }
{
    let Some((go, rest)) = next_word(text) else {
        return Ok(None);
    };
    let Some((name, rest)) = next_word(rest) else {
        return Ok(None);
    };
    let None = next_word(rest) else {
        return Ok(None);
    };
    let Some(go) = read_go(alloc, go)? else {
        return Ok(None);
    };
    Ok(Identifier::read(alloc, name)?.map(|name| (go, name)))
}

/// Which step a word and the text after it ask for, in each way but by its name.
fn by_way(alloc: Global, word: &[u8], rest: &[u8]) -> Result<Option<Target>, NoMemory>
    ensures ok { IfOk result (λ target. target ≡ by_table targets_asked word.now (words_of rest.now)) }
    ensures needed { OnErr result (HasNamed (words_of rest.now)) }
{
    if spells(word, b"go") {
        return Ok(only_go(alloc, rest)?.map(|go| Target::Start(go)));
    }
    if spells(word, b"send") {
        let named = communication(alloc, rest)?;
        return Ok(named.map(|(channel, number)| Target::Send { channel, number }));
    }
    if spells(word, b"recv") {
        let named = communication(alloc, rest)?;
        return Ok(named.map(|(channel, number)| Target::Receive { channel, number }));
    }
    if spells(word, b"var") {
        return Ok(variable(alloc, rest)?.map(|(go, name)| Target::Variable { go, name }));
    }
    Ok(None)
}

/// Which step the text asks to be taken back, if it asks for one: `G#N`, `go G`, `send C K`, `recv C K` or `var G X`.
pub(crate) fn read_target(alloc: Global, text: &[u8]) -> Result<Option<Target>, NoMemory>
    ensures ok { IfOk result (λ target. target ≡ target_asked (words_of text.now)) }
    ensures needed { OnErr result (HasNamed (words_of text.now)) }
{
    let Some((word, rest)) = next_word(text) else {
        return Ok(None);
    };
    match next_word(rest) {
        None => Ok(read_step(alloc, word)?.map(|id| Target::Step(id))),
        Some(_) => by_way(alloc, word, rest),
    }
}
