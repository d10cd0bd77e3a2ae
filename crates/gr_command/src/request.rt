//! What a line of a client asks beside commands.

ghost use Rattle.std.specs.Prelude.{◌≡◌, ◌∷◌, [], IfOk, OnErr};
ghost use Rattle.std.specs.Io.BufRead.{strip_last};
ghost use Rattle.gr_command.specs.Commands.{HasNamed, by_table};
ghost use Rattle.gr_command.specs.Requests.{MayAskOf, about_asked, at_asked, count_named, queries, request_meant, views};
ghost use Rattle.gr_command.specs.Words.{words_of};

use crate::arguments::{only_ch, only_go, read_number_or_zero, read_ordinal};
use crate::command::Line;
use crate::read::{LINE_LIMIT, read_command, without_return};
use crate::words::{next_word, spells};
use gr_base::{ChName, GoName, NoMemory, StepId, read_step};
use std::alloc::Global;

/// What is shown of a state.
#[derive(Drop)]
pub enum View {
    /// How the goroutine stands, as `show` tells it.
    Goroutine(GoName),
    /// How the channel stands, as `chan` tells it.
    Channel(ChName),
    /// The lines that the goroutine printed, as `text` tells them.
    Text(GoName),
    /// The lines that all goroutines printed, as `console` tells them.
    Console,
}

/// A question about steps that are kept.
#[derive(Drop)]
pub enum Query {
    /// What the step of a name was.
    Step(StepId),
    /// What the steps from one place of the log to another were, both included. Places are counted from 1.
    Places(u32, u32),
    /// What is shown of the state after so many of the first steps, from 0 to their number.
    At(u32, View),
}

/// What a line of a client asks.
#[derive(Drop)]
pub enum Request {
    Ask(Query),
    /// What the line says as a command.
    Say(Line),
}

/// Two places of the log, if the words name two.
fn places(first: &[u8], last: &[u8]) -> Option<Query>
    ensures { result ≡ about_asked (first.now ∷ last.now ∷ []) }
{
    let first = read_ordinal(first)?;
    let last = read_ordinal(last)?;
    Some(Query::Places(first, last))
}

/// A question what steps were, if the text names one step or two places.
fn about(alloc: Global, text: &[u8]) -> Result<Option<Query>, NoMemory>
    ensures ok { IfOk result (λ query. query ≡ about_asked (words_of text.now)) }
    ensures needed { OnErr result (HasNamed (words_of text.now)) }
{
    let Some((first, rest)) = next_word(text) else {
        return Ok(None);
    };
    let Some((last, rest)) = next_word(rest) else {
        return Ok(read_step(alloc, first)?.map(Query::Step));
    };
    match next_word(rest) {
        None => Ok(places(first, last)),
        Some(_) => Ok(None),
    }
}

/// What a word and the text after it ask to show of a state, if they ask that.
fn viewed(alloc: Global, word: &[u8], rest: &[u8]) -> Result<Option<View>, NoMemory>
    ensures ok { IfOk result (λ view. view ≡ by_table views word.now (words_of rest.now)) }
    ensures needed { OnErr result (HasNamed (words_of rest.now)) }
{
    if spells(word, b"show") {
        return Ok(only_go(alloc, rest)?.map(View::Goroutine));
    }
    if spells(word, b"chan") {
        return Ok(only_ch(alloc, rest)?.map(View::Channel));
    }
    if spells(word, b"text") {
        return Ok(only_go(alloc, rest)?.map(View::Text));
    }
    if spells(word, b"console") && next_word(rest).is_none() {
        return Ok(Some(View::Console));
    }
    Ok(None)
}

/// The number from 0 to 4,294,967,295 that a word spells.
fn read_count(word: &[u8]) -> Option<u32>
    ensures { result ≡ count_named word.now }
{
    read_number_or_zero(u64::from(u32::MAX), word).map(|number| number as u32)
}

/// A question what is shown of the state after so many steps, if the text asks that.
fn earlier(alloc: Global, text: &[u8]) -> Result<Option<Query>, NoMemory>
    ensures ok { IfOk result (λ query. query ≡ at_asked (words_of text.now)) }
    ensures needed { OnErr result (HasNamed (words_of text.now)) }
{
    let Some((count, rest)) = next_word(text) else {
        return Ok(None);
    };
    let Some((word, rest)) = next_word(rest) else {
        return Ok(None);
    };
    let Some(steps) = read_count(count) else {
        return Ok(None);
    };
    Ok(viewed(alloc, word, rest)?.map(|view| Query::At(steps, view)))
}

/// The query that a word and the text after it are, if they are one.
fn queried(alloc: Global, word: &[u8], rest: &[u8]) -> Result<Option<Query>, NoMemory>
    ensures ok { IfOk result (λ query. query ≡ by_table queries word.now (words_of rest.now)) }
    ensures needed { OnErr result (MayAskOf (word.now ∷ words_of rest.now)) }
{
    if spells(word, b"about") {
        return about(alloc, rest);
    }
    if spells(word, b"at") {
        return earlier(alloc, rest);
    }
    Ok(None)
}

/// What a line asks: a query of the table `queries` of `specs/Requests`, or what it says as a command. The words are those of
/// commands, as `read_command` reads them.
///
/// The one error is out of memory. It comes only after `about`, `at` and the first words of commands with a name, and only where
/// a later word names a goroutine, a channel or a step.
pub fn read_request(alloc: Global, line: &[u8]) -> Result<Request, NoMemory>
    ensures ok { IfOk result (λ request. request ≡ request_meant line.now) }
    ensures needed { OnErr result (MayAskOf (words_of (strip_last 13 line.now))) }
{
    if line.len() <= LINE_LIMIT
        && let Some((word, rest)) = next_word(without_return(line))
        && let Some(query) = queried(alloc, word, rest)?
    {
        return Ok(Request::Ask(query));
    }
    Ok(Request::Say(read_command(alloc, line)?))
}
