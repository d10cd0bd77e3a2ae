//! What a step reached beyond its goroutine: other goroutines, and a channel.

ghost use Rattle.std.specs.Prelude.{◌≡◌, ◌++◌, [], ◌∷◌, IfOk, OnOk, option_copied, option_map};
ghost use Rattle.gr_record.specs.Conflicts.{written_by};
ghost use Rattle.gr_record.specs.Records.{operation_in, operation_of};
ghost use Rattle.gr_touches.specs.ObjectRefs.{seen};
ghost use Rattle.gr_touches.specs.Told.{seen_in};
ghost use Rattle.gr_facts.specs.Facts.{first_gate, made_in, others_in, other_than};

use gr_base::{ChName, GoName, Kind, NoMemory, Object};
use gr_record::record::Form;
use gr_record::{Operation, Record};
use gr_touches::{ObjectRef, TouchedObjects, writes};
use std::alloc::Global;

/// Adds a goroutine to names, if the object is one other than its own.
fn add_other(
    alloc: Global,
    own: &GoName,
    object: &ObjectRef<'_>,
    names: &mut Vec<GoName>,
) -> Result<(), NoMemory>
    ensures { OnOk result (names.new.items ≡ names.old.items ++ other_than own.now (seen object.now)) }
{
    match object {
        ObjectRef::Go(go) => {
            if *go == own {
                return Ok(());
            }
            names.push(go.copy(alloc)?)?;
            Ok(())
        }
        _ => Ok(()),
    }
}

/// Adds the goroutines among objects that are other than its own.
fn add_others(
    alloc: Global,
    own: &GoName,
    objects: &[Object],
    names: &mut Vec<GoName>,
) -> Result<(), NoMemory>
    ensures { OnOk result (names.new.items ≡ names.old.items ++ others_in own.now objects.now) }
{
    for object in objects {
        add_other(alloc, own, &ObjectRef::of(object), names)?;
    }
    Ok(())
}

/// The goroutines beside its own that a step wrote: the one that it started, or those whose waits it ended.
pub(crate) fn reached_by(alloc: Global, step: &Record) -> Result<Vec<GoName>, NoMemory>
    ensures { IfOk result (λ names. names.items ≡ others_in step.now.id.go (written_by step.now)) }
{
    let own = &step.id.go;
    let mut names = Vec::new(alloc);
    let mut left = writes(step);
    while let Some((first, rest)) = left.split_first() {
        add_other(alloc, own, &first, &mut names)?;
        left = rest;
    }
    add_others(alloc, own, left.others, &mut names)?;
    Ok(names)
}

/// The first channel whose gate is among objects.
fn gate_among(objects: TouchedObjects<'_>) -> Option<&ChName>
    ensures { option_copied result ≡ first_gate (seen_in objects.entry) }
{
    let Some((first, rest)) = objects.split_first() else {
        return gate_in(objects.others);
    };
    match first {
        ObjectRef::Gate(channel) => Some(channel),
        _ => gate_among(rest),
    }
}

/// The first channel whose gate is in a slice.
fn gate_in(objects: &[Object]) -> Option<&ChName>
    ensures { option_copied result ≡ first_gate objects.now }
{
    for object in objects {
        if let Object::Gate(channel) = object {
            return Some(channel);
        }
    }
    None
}

/// The channel that a step made.
pub(crate) fn made_by(alloc: Global, step: &Record) -> Result<Option<ChName>, NoMemory>
    ensures { IfOk result (λ made. made ≡ made_in step.now.change.kind (written_by step.now)) }
{
    if step.change.kind() != Kind::Make {
        return Ok(None);
    }
    match gate_among(writes(step)) {
        Some(channel) => Ok(Some(channel.copy(alloc)?)),
        None => Ok(None),
    }
}

/// A copy of what a step did with a channel.
fn copied(alloc: Global, operation: &Operation) -> Result<Operation, NoMemory>
    ensures { IfOk result (λ copy. operation_of copy ≡ operation_of operation.now) }
{
    match operation {
        Operation::SendsOn(channel) => Ok(Operation::SendsOn(channel.copy(alloc)?)),
        Operation::ReceivesFrom(channel) => Ok(Operation::ReceivesFrom(channel.copy(alloc)?)),
        Operation::TakesLenOf(channel) => Ok(Operation::TakesLenOf(channel.copy(alloc)?)),
        Operation::TakesCapOf(channel) => Ok(Operation::TakesCapOf(channel.copy(alloc)?)),
        Operation::Closes(channel) => Ok(Operation::Closes(channel.copy(alloc)?)),
    }
}

/// What a step did with a channel, if it did something.
pub(crate) fn operation_by(alloc: Global, step: &Record) -> Result<Option<Operation>, NoMemory>
    ensures { IfOk result (λ operation. option_map operation_of operation ≡ operation_in step.now.change) }
{
    match step.change.form() {
        Form::Alone(_, _) => Ok(None),
        Form::WaitsToSend(_, channel, _) => Ok(Some(Operation::SendsOn(channel.copy(alloc)?))),
        Form::WaitsToReceive(_, channel, _) => Ok(Some(Operation::ReceivesFrom(channel.copy(
            alloc,
        )?))),
        Form::Passes(_, passage) => Ok(Some(copied(alloc, &passage.contact.operation)?)),
        Form::Exchanges(_, exchange) => Ok(Some(copied(
            alloc,
            &exchange.passage.contact.operation,
        )?)),
        Form::Further(_, further) => match &further.beyond.operation {
            Some(operation) => Ok(Some(copied(alloc, operation)?)),
            None => Ok(None),
        },
    }
}
