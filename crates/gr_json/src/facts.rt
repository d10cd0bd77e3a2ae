//! JSON of what a step was, and of what it moved and printed.

ghost use Rattle.std.specs.Prelude.{◌≡◌, ◌∷◌, [], codes, IfOk, option_map};
ghost use Rattle.serde_json.specs.Data.{boolean, string};
ghost use Rattle.serde_json.specs.View.{view};
ghost use Rattle.gr_record.specs.Records.{operation_of};
ghost use Rattle.gr_json.specs.Facts.{operation_name, object_name, owner_data, slot_of, place_data};
ghost use Rattle.gr_json.specs.Parts.{fields, perhaps as perhaps_data};

use crate::parts::{Told, list, perhaps};
use gr_base::{NoMemory, Object};
use gr_facts::{Facts, Moved, Source};
use gr_record::Operation;
use serde_json::{Value, json};
use std::alloc::{AllocError, Global};

fn name_of_operation(operation: &Operation) -> &'static str
    ensures { result.now ≡ operation_name (operation_of operation.now) }
{
    match operation {
        Operation::SendsOn(_) => "send",
        Operation::ReceivesFrom(_) => "receive",
        Operation::TakesLenOf(_) => "len",
        Operation::TakesCapOf(_) => "cap",
        Operation::Closes(_) => "close",
    }
}

fn operation_value(alloc: Global, channel: Value, name: &str) -> Result<Value, AllocError>
    ensures { IfOk result (λ value. view value
        ≡ fields ((codes "name", view channel) ∷ (codes "operation", string name.now) ∷ [])) }
{
    json!(in alloc; {"name": channel, "operation": name})
}

impl Told for Operation {
    ghost use Rattle.gr_record.specs.Records.{operation_of};
    ghost use Rattle.gr_json.specs.Facts.{operation_data};

    ghost told = { λ operation. operation_data (operation_of operation) };

    fn value(&self, alloc: Global) -> Result<Value, NoMemory> {
        let channel = self.channel().value(alloc)?;
        let value = operation_value(alloc, channel, name_of_operation(self))?;
        Ok(value)
    }
}

fn name_of_object(object: &Object) -> &'static str
    ensures { result.now ≡ object_name object.now }
{
    match object {
        Object::Run => "run",
        Object::Go(_) => "goroutine",
        Object::Gate(_) => "gate",
        Object::Tail(_) => "tail",
        Object::Head(_) => "head",
        Object::Slot(_, _) => "slot",
    }
}

/// The goroutine or the channel that an object is of, or null.
fn owner(alloc: Global, object: &Object) -> Result<Value, NoMemory>
    ensures { IfOk result (λ value. view value ≡ perhaps_data (λ owner. owner) (owner_data object.now)) }
{
    match object {
        Object::Run => Ok(Value::Null),
        Object::Go(go) => go.value(alloc),
        Object::Gate(channel) => channel.value(alloc),
        Object::Tail(channel) => channel.value(alloc),
        Object::Head(channel) => channel.value(alloc),
        Object::Slot(channel, _) => channel.value(alloc),
    }
}

/// The place of the slot that an object is, if it is one.
fn slot(object: &Object) -> Option<u32>
    ensures { result ≡ slot_of object.now }
{
    match object {
        Object::Slot(_, place) => Some(*place),
        _ => None,
    }
}

fn source_value(
    alloc: Global,
    object: &str,
    owner: Value,
    slot: Value,
    step: Value,
    wrote: bool,
) -> Result<Value, AllocError>
    ensures { IfOk result (λ value. view value ≡ fields (
        (codes "object", string object.now) ∷ (codes "of", view owner) ∷ (codes "slot", view slot)
        ∷ (codes "step", view step) ∷ (codes "wrote", boolean wrote) ∷ [])) }
{
    json!(in alloc; {"object": object, "of": owner, "slot": slot, "step": step, "wrote": wrote})
}

impl Told for Source {
    ghost use Rattle.gr_json.specs.Facts.{source_data};

    ghost told = { source_data };

    fn value(&self, alloc: Global) -> Result<Value, NoMemory> {
        let owner = owner(alloc, &self.object)?;
        let slot = perhaps(alloc, &slot(&self.object))?;
        let step = perhaps(alloc, &self.step)?;
        let object = name_of_object(&self.object);
        let value = source_value(alloc, object, owner, slot, step, self.wrote)?;
        Ok(value)
    }
}

fn place_value(alloc: Global, function: Value, line: Value) -> Result<Value, AllocError>
    ensures { IfOk result (λ value. view value
        ≡ fields ((codes "function", view function) ∷ (codes "line", view line) ∷ [])) }
{
    json!(in alloc; {"function": function, "line": line})
}

/// The function and the line of a statement.
fn place(alloc: Global, facts: &Facts) -> Result<Value, NoMemory>
    ensures { IfOk result (λ value. view value
        ≡ place_data (option_map (λ name. name.items) facts.now.function) facts.now.line) }
{
    let function = perhaps(alloc, &facts.function)?;
    let line = perhaps(alloc, &facts.line)?;
    let value = place_value(alloc, function, line)?;
    Ok(value)
}

/// The parts of a row.
#[derive(Drop)]
struct Row {
    at: Value,
    channel: Value,
    given: Value,
    id: Value,
    kind: Value,
    made: Value,
    prints: bool,
    reached: Value,
    sources: Value,
}

fn row_value(alloc: Global, row: Row) -> Result<Value, AllocError>
    ensures { IfOk result (λ value. view value ≡ fields (
        (codes "at", view row.at) ∷ (codes "channel", view row.channel) ∷ (codes "given", view row.given)
        ∷ (codes "id", view row.id) ∷ (codes "kind", view row.kind) ∷ (codes "made", view row.made)
        ∷ (codes "prints", boolean row.prints) ∷ (codes "reached", view row.reached)
        ∷ (codes "sources", view row.sources) ∷ [])) }
{
    let Row {
        at,
        channel,
        given,
        id,
        kind,
        made,
        prints,
        reached,
        sources,
    } = row;
    json!(in alloc; {
        "at": at,
        "channel": channel,
        "given": given,
        "id": id,
        "kind": kind,
        "made": made,
        "prints": prints,
        "reached": reached,
        "sources": sources
    })
}

impl Told for Facts {
    ghost use Rattle.gr_facts.specs.Views.{facts_in};
    ghost use Rattle.gr_json.specs.Facts.{facts_data};

    ghost told = { λ facts. facts_data (facts_in facts) };

    fn value(&self, alloc: Global) -> Result<Value, NoMemory> {
        let row = Row {
            at: place(alloc, self)?,
            channel: perhaps(alloc, &self.operation)?,
            given: list(alloc, self.given.as_slice())?,
            id: self.id.value(alloc)?,
            kind: self.kind.value(alloc)?,
            made: perhaps(alloc, &self.made)?,
            prints: self.prints,
            reached: list(alloc, self.reached.as_slice())?,
            sources: list(alloc, self.sources.as_slice())?,
        };
        let value = row_value(alloc, row)?;
        Ok(value)
    }
}

fn moved_value(alloc: Global, id: Value, printed: Value, moved: Value) -> Result<Value, AllocError>
    ensures { IfOk result (λ value. view value ≡ fields (
        (codes "id", view id) ∷ (codes "printed", view printed) ∷ (codes "value", view moved) ∷ [])) }
{
    json!(in alloc; {"id": id, "printed": printed, "value": moved})
}

impl Told for Moved {
    ghost use Rattle.gr_facts.specs.Views.{moved_in};
    ghost use Rattle.gr_json.specs.Facts.{moved_data};

    ghost told = { λ row. moved_data (moved_in row) };

    fn value(&self, alloc: Global) -> Result<Value, NoMemory> {
        let id = self.id.value(alloc)?;
        let printed = perhaps(alloc, &self.printed)?;
        let moved = perhaps(alloc, &self.value)?;
        let value = moved_value(alloc, id, printed, moved)?;
        Ok(value)
    }
}
