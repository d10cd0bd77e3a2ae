//! The goroutines and the channels that may be there, by the records of a log, in the order of names.

ghost use Rattle.std.specs.Prelude.{◌≡◌, ◌∷◌, ◌++◌, [], IfOk, OnOk, option_copied};
ghost use Rattle.std.specs.List.Sorted.{IsPermutation};
ghost use Rattle.std.specs.Option.{option_to_list};
ghost use Rattle.gr_record.specs.Records.{begun_by, made_by};
ghost use Rattle.gr_schedules.specs.Names.{goroutines_begun, channels_made};

use gr_base::{ChName, GoName, NoMemory};
use gr_step::{Change, Form, Record};
use std::alloc::Global;

/// The goroutine that a step started, if it started one.
pub(crate) fn begun(change: &Change) -> Option<&GoName>
    ensures { option_copied result ≡ begun_by change.now }
{
    match change.form() {
        Form::Further(_, further) => further.beyond.begins(),
        _ => None,
    }
}

/// The channel that a step made, if it made one.
fn made(change: &Change) -> Option<&ChName>
    ensures { option_copied result ≡ made_by change.now }
{
    match change.form() {
        Form::Further(_, further) => match &further.beyond.more {
            Some(more) => more.makes.as_ref(),
            None => None,
        },
        _ => None,
    }
}

/// Adds the goroutine that a step started, if it started one.
fn push_begun(alloc: Global, names: &mut Vec<GoName>, change: &Change) -> Result<(), NoMemory>
    ensures { OnOk result (names.new.items ≡ names.old.items ++ option_to_list (begun_by change.now)) }
{
    if let Some(name) = begun(change) {
        names.push(name.copy(alloc)?)?;
    }
    Ok(())
}

/// Adds the channel that a step made, if it made one.
fn push_made(alloc: Global, names: &mut Vec<ChName>, change: &Change) -> Result<(), NoMemory>
    ensures { OnOk result (names.new.items ≡ names.old.items ++ option_to_list (made_by change.now)) }
{
    if let Some(name) = made(change) {
        names.push(name.copy(alloc)?)?;
    }
    Ok(())
}

/// Adds the goroutines that the steps of a log started.
fn push_all_begun(alloc: Global, names: &mut Vec<GoName>, log: &[Record]) -> Result<(), NoMemory>
    ensures { OnOk result (names.new.items ≡ names.old.items ++ goroutines_begun log.now) }
{
    for step in log {
        push_begun(alloc, names, &step.change)?;
    }
    Ok(())
}

/// Adds the channels that the steps of a log made.
fn push_all_made(alloc: Global, names: &mut Vec<ChName>, log: &[Record]) -> Result<(), NoMemory>
    ensures { OnOk result (names.new.items ≡ names.old.items ++ channels_made log.now) }
{
    for step in log {
        push_made(alloc, names, &step.change)?;
    }
    Ok(())
}

/// All goroutines that may be there after the steps of a log, in the order of names.
pub(crate) fn goroutines_known(alloc: Global, log: &[Record]) -> Result<Vec<GoName>, NoMemory>
    ensures { IfOk result (λ names. IsPermutation ([] ∷ goroutines_begun log.now) names.items) }
{
    let mut names = Vec::new(alloc);
    names.push(GoName::main(alloc)?)?;
    push_all_begun(alloc, &mut names, log)?;
    names.sort()?;
    Ok(names)
}

/// All channels that may be there after the steps of a log, in the order of names.
pub(crate) fn channels_known(alloc: Global, log: &[Record]) -> Result<Vec<ChName>, NoMemory>
    ensures { IfOk result (λ names. IsPermutation (channels_made log.now) names.items) }
{
    let mut names = Vec::new(alloc);
    push_all_made(alloc, &mut names, log)?;
    names.sort()?;
    Ok(names)
}
