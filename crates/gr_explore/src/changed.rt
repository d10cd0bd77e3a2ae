//! The goroutines and channels that a step changed, by its record.

ghost use Rattle.std.specs.Prelude.{◌≡◌, OnOk, option_copied};
ghost use Rattle.gr_rules.specs.Operators.{same_channel};
ghost use Rattle.gr_record.specs.Effects.{reached_by_passage};
ghost use Rattle.gr_record.specs.Fews.{members};
ghost use Rattle.gr_record.specs.Parts.{made_in};
ghost use Rattle.gr_explore.specs.Keeping.{with_name};
ghost use Rattle.gr_explore.specs.Books.{channels_noted, goroutines_noted, with_first, with_some};

use crate::pages::{Paged, Pages};
use gr_base::{ChName, GoName, NoMemory};
use gr_record::record::Passage;
use gr_step::{Beyond, Form, Record};
use std::alloc::Global;

/// Notes the names that stand first in these pairs.
fn note_first<N: Paged, U>(
    alloc: Global,
    pages: &mut Pages<N>,
    pairs: &[(N, U)],
) -> Result<(), NoMemory>
    ensures written { pages.new.written ≡ pages.old.written }
    ensures changed { OnOk result (pages.new.changed.items ≡ with_first N.eq pairs.now pages.old.changed.items) }
{
    for (name, _) in pairs {
        pages.note(alloc, name)?;
    }
    Ok(())
}

/// Notes a name, if there is one.
fn note_some<N: Paged>(
    alloc: Global,
    pages: &mut Pages<N>,
    name: Option<&N>,
) -> Result<(), NoMemory>
    ensures written { pages.new.written ≡ pages.old.written }
    ensures changed { OnOk result (pages.new.changed.items
        ≡ with_some N.eq (option_copied name.entry) pages.old.changed.items) }
{
    match name {
        Some(name) => pages.note(alloc, name),
        None => Ok(()),
    }
}

/// Notes the goroutines that a step changed: its own, those that it met, and the one that it started.
pub(crate) fn note_goroutines(
    alloc: Global,
    pages: &mut Pages<GoName>,
    step: &Record,
) -> Result<(), NoMemory>
    ensures written { pages.new.written ≡ pages.old.written }
    ensures changed { OnOk result (pages.new.changed.items ≡ goroutines_noted step.now pages.old.changed.items) }
{
    pages.note(alloc, &step.id.go)?;
    match step.change.form() {
        Form::Exchanges(_, exchange) => pages.note(alloc, &exchange.met.0),
        Form::Further(_, further) => {
            note_first(alloc, pages, further.beyond.met.as_slice())?;
            note_some(alloc, pages, further.beyond.begins())
        }
        _ => Ok(()),
    }
}

/// Notes the channel that a step changed, if it did.
fn note_passage(alloc: Global, pages: &mut Pages<ChName>, passage: &Passage) -> Result<(), NoMemory>
    ensures written { pages.new.written ≡ pages.old.written }
    ensures changed { OnOk result (pages.new.changed.items
        ≡ with_first same_channel (members (reached_by_passage passage.now).channels) pages.old.changed.items) }
{
    match &passage.undo {
        Some(_) => pages.note(alloc, passage.contact.operation.channel()),
        None => Ok(()),
    }
}

/// The channel that a step made, if it made one.
fn made(beyond: &Beyond) -> Option<&ChName>
    ensures { option_copied result ≡ made_in beyond.now }
{
    match &beyond.more {
        Some(more) => more.makes.as_ref(),
        None => None,
    }
}

/// Notes the channels that a step changed, and the one that it made.
pub(crate) fn note_channels(
    alloc: Global,
    pages: &mut Pages<ChName>,
    step: &Record,
) -> Result<(), NoMemory>
    ensures written { pages.new.written ≡ pages.old.written }
    ensures changed { OnOk result (pages.new.changed.items ≡ channels_noted step.now pages.old.changed.items) }
{
    match step.change.form() {
        Form::Alone(_, _) => Ok(()),
        Form::WaitsToSend(_, channel, _) | Form::WaitsToReceive(_, channel, _) => {
            pages.note(alloc, channel)
        }
        Form::Passes(_, passage) => note_passage(alloc, pages, passage),
        Form::Exchanges(_, exchange) => note_passage(alloc, pages, &exchange.passage),
        Form::Further(_, further) => {
            note_first(alloc, pages, further.beyond.channels.as_slice())?;
            note_some(alloc, pages, made(&further.beyond))
        }
    }
}
