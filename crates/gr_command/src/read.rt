//! What a line of bytes asks.

ghost use Rattle.std.specs.Prelude.{◌≡◌, ◌∷◌, IfOk, OnErr};
ghost use Rattle.std.specs.Io.BufRead.{strip_last};
ghost use Rattle.gr_command.specs.Words.{words_of};
ghost use Rattle.gr_command.specs.Commands.{alone as if_alone, about, step_asked, back_asked, order_asked, by_table, questions};
ghost use Rattle.gr_command.specs.Commands.{commands, meaning, HasNamed, MayName};
ghost use Rattle.gr_command.specs.Arguments.{number_named, number_or_zero_named};
ghost use Rattle.gr_command.specs.declared.command.Command.TheVariants.{Run, Free};

use crate::arguments::{
    only_ch, only_go, only_ordinal, only_step, only_word, read_number, read_number_or_zero,
    read_ordinal, read_steps,
};
use crate::back::read_target;
use crate::command::{Command, Line};
use crate::words::{next_word, spells};
use gr_base::{NoMemory, read_go};
use std::alloc::Global;

/// The most bytes of a line that is a command; its newline is not counted.
pub const LINE_LIMIT: usize = 1_048_576;

/// The most steps that one `run` may ask for.
pub const RUN_LIMIT: u64 = 1_000_000;

/// The most steps that one `free` may grant.
pub const GRANT_LIMIT: u64 = 1_000_000;

/// A step of the goroutine that the text names, with the clause of a select if a second word names that.
fn step(alloc: Global, text: &[u8]) -> Result<Option<Line>, NoMemory>
    ensures ok { IfOk result (λ line. line ≡ step_asked (words_of text.now)) }
    ensures needed { OnErr result (HasNamed (words_of text.now)) }
{
    let Some((name, rest)) = next_word(text) else {
        return Ok(None);
    };
    let Some((clause, rest)) = next_word(rest) else {
        return Ok(read_go(alloc, name)?.map(|go| Line::Command(Command::Step { go, case: None })));
    };
    let None = next_word(rest) else {
        return Ok(None);
    };
    let Some(clause) = read_ordinal(clause) else {
        return Ok(None);
    };
    let case = Some(clause);
    Ok(read_go(alloc, name)?.map(|go| Line::Command(Command::Step { go, case })))
}

/// To take many steps, if the text is one word that says how many.
fn run(text: &[u8]) -> Option<Line>
    ensures { result ≡ about (number_named 1_000_000) Run (words_of text.now) }
{
    let count = read_number(RUN_LIMIT, only_word(text)?)?;
    Some(Line::Command(Command::Run {
        count: count as u32,
    }))
}

/// To grant the workers steps, if the text is one word that says how many.
fn free(text: &[u8]) -> Option<Line>
    ensures { result ≡ about (number_or_zero_named 1_000_000) Free (words_of text.now) }
{
    let steps = read_number_or_zero(GRANT_LIMIT, only_word(text)?)?;
    Some(Line::Command(Command::Free(steps as u32)))
}

/// To take a step back, if the text says which.
fn back(alloc: Global, text: &[u8]) -> Result<Option<Line>, NoMemory>
    ensures ok { IfOk result (λ line. line ≡ back_asked (words_of text.now)) }
    ensures needed { OnErr result (HasNamed (words_of text.now)) }
{
    Ok(read_target(alloc, text)?.map(|target| Line::Command(Command::Back(target))))
}

/// The command that puts the steps in the order of the text, if the text has a word and each word names a step.
fn order(alloc: Global, text: &[u8]) -> Result<Option<Line>, NoMemory>
    ensures ok { IfOk result (λ line. line ≡ order_asked (words_of text.now)) }
    ensures needed { OnErr result (HasNamed (words_of text.now)) }
{
    let Some(_) = next_word(text) else {
        return Ok(None);
    };
    Ok(read_steps(alloc, text)?.map(|ids| Line::Command(Command::Order(ids))))
}

/// The command of one word, if no word follows it.
fn alone(line: Line, rest: &[u8]) -> Option<Line>
    ensures { result ≡ if_alone line (words_of rest.now) }
{
    match next_word(rest) {
        None => Some(line),
        Some(_) => None,
    }
}

pub(crate) fn without_return(line: &[u8]) -> &[u8]
    ensures { result.now ≡ strip_last 13 line.now }
{
    match line.split_last() {
        Some((b'\r', rest)) => rest,
        _ => line,
    }
}

/// What a word and the text after it ask, if they are a question.
fn question(alloc: Global, word: &[u8], rest: &[u8]) -> Result<Option<Line>, NoMemory>
    ensures ok { IfOk result (λ line. line ≡ by_table questions word.now (words_of rest.now)) }
    ensures needed { OnErr result (MayName (word.now ∷ words_of rest.now)) }
{
    if spells(word, b"deps") {
        return Ok(only_step(alloc, rest)?.map(|id| Line::Command(Command::Dependents(id))));
    }
    if spells(word, b"causes") {
        return Ok(only_step(alloc, rest)?.map(|id| Line::Command(Command::Causes(id))));
    }
    if spells(word, b"show") {
        return Ok(only_go(alloc, rest)?.map(|go| Line::Command(Command::Show(go))));
    }
    if spells(word, b"chan") {
        return Ok(only_ch(alloc, rest)?.map(|channel| Line::Command(Command::Chan(channel))));
    }
    if spells(word, b"text") {
        return Ok(only_go(alloc, rest)?.map(|go| Line::Command(Command::Text(go))));
    }
    if spells(word, b"console") {
        return Ok(alone(Line::Command(Command::Console), rest));
    }
    if spells(word, b"log") {
        return Ok(alone(Line::Command(Command::Log), rest));
    }
    Ok(None)
}

/// What a word and the text after it ask, if they are a command.
fn asked(alloc: Global, word: &[u8], rest: &[u8]) -> Result<Option<Line>, NoMemory>
    ensures ok { IfOk result (λ line. line ≡ by_table commands word.now (words_of rest.now)) }
    ensures needed { OnErr result (MayName (word.now ∷ words_of rest.now)) }
{
    if spells(word, b"step") {
        return step(alloc, rest);
    }
    if spells(word, b"run") {
        return Ok(run(rest));
    }
    if spells(word, b"undo") {
        return Ok(alone(Line::Command(Command::Undo), rest));
    }
    if spells(word, b"back") {
        return back(alloc, rest);
    }
    if spells(word, b"redo") {
        return Ok(alone(Line::Command(Command::Redo), rest));
    }
    if spells(word, b"order") {
        return order(alloc, rest);
    }
    if spells(word, b"break") {
        return Ok(only_ordinal(rest).map(|line| Line::Command(Command::Break(line))));
    }
    if spells(word, b"clear") {
        return Ok(only_ordinal(rest).map(|line| Line::Command(Command::Clear(line))));
    }
    if spells(word, b"free") {
        return Ok(free(rest));
    }
    if spells(word, b"quit") {
        return Ok(alone(Line::Quit, rest));
    }
    question(alloc, word, rest)
}

/// What a line says. Its words stand between spaces or tabs, and a carriage return at its end is dropped. The table `commands` of
/// `specs/Commands` has each command by its first word, and what words may follow. `docs/COMMANDS.md` shows it to users.
///
/// Numbers are decimal and have no leading zero. A line with no word is blank. Every other line is rejected, and so is one of
/// more than 1,048,576 bytes.
///
/// The one error is out of memory. It comes only after the eight first words that a name follows, and only where a later word
/// names a goroutine, a channel or a step.
pub fn read_command(alloc: Global, line: &[u8]) -> Result<Line, NoMemory>
    ensures ok { IfOk result (λ read. read ≡ meaning line.now) }
    ensures needed { OnErr result (MayName (words_of (strip_last 13 line.now))) }
{
    if line.len() > LINE_LIMIT {
        return Ok(Line::Rejected);
    }
    let Some((word, rest)) = next_word(without_return(line)) else {
        return Ok(Line::Blank);
    };
    match asked(alloc, word, rest)? {
        Some(line) => Ok(line),
        None => Ok(Line::Rejected),
    }
}
