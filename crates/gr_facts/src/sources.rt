//! The steps that had written last what a step touched.

ghost use Rattle.std.specs.Prelude.{◌≡◌, ◌++◌, true, false, ℕ, List, take, option_copied, IfOk, OnOk};
ghost use Rattle.gr_program.specs.Programs.{Program};
ghost use Rattle.gr_rules.specs.States.{State};
ghost use Rattle.gr_laws.specs.Reached.{Logged};
ghost use Rattle.gr_record.specs.Conflicts.{read_by, written_by};
ghost use Rattle.gr_touches.specs.ObjectRefs.{seen};
ghost use Rattle.gr_touches.specs.Told.{seen_in};
ghost use Rattle.gr_depend.specs.Logs.{records_of};
ghost use Rattle.gr_facts.specs.Asked.{IsStepAt};
ghost use Rattle.gr_facts.specs.Facts.{source_of, sources_of};
ghost use Rattle.gr_facts.specs.Recorded.{writer_in};
ghost use Rattle.gr_facts.specs.Sources.{Causes, TellRead, TellWritten};

use gr_base::{NoMemory, Object, StepId};
use gr_depend::Log;
use gr_record::Record;
use gr_touches::{ObjectRef, TouchedObjects, reads, writes};
use std::alloc::Global;

/// An object that a step touched.
#[derive(Drop)]
pub struct Source {
    pub object: Object,
    /// Whether it wrote the object. Else it read it.
    pub wrote: bool,
    /// The step that had written it last, if one had.
    pub step: Option<StepId>,
}

/// The object, with names of its own.
fn named(alloc: Global, object: &ObjectRef<'_>) -> Result<Object, NoMemory>
    ensures { IfOk result (λ named. named ≡ seen object.now) }
{
    match object {
        ObjectRef::Run => Ok(Object::Run),
        ObjectRef::Go(go) => Ok(Object::Go(go.copy(alloc)?)),
        ObjectRef::Gate(channel) => Ok(Object::Gate(channel.copy(alloc)?)),
        ObjectRef::Tail(channel) => Ok(Object::Tail(channel.copy(alloc)?)),
        ObjectRef::Head(channel) => Ok(Object::Head(channel.copy(alloc)?)),
        ObjectRef::Slot(channel, place) => Ok(Object::Slot(channel.copy(alloc)?, *place)),
    }
}

/// The last step before a place of the log that wrote an object, if one did. Beside a search in the touches of the object the
/// time is that of the reads since.
fn writer_before<'a>(log: &'a Log, object: &Object, place: usize) -> Option<&'a StepId>
    ensures { option_copied result ≡ writer_in (take place (records_of log.now)) object.now }
{
    let touches = log.touched(object)?;
    let mut left = touches.partition_point(|touch| (touch.place() as usize) < place);
    while left > 0 {
        left -= 1;
        let touch = touches[left];
        if touch.writes() {
            return Some(&log.record(touch.place() as usize).id);
        }
    }
    None
}

/// Adds an object that a step at a place of the log touched, unless it is `Run`.
fn add_source(
    alloc: Global,
    log: &Log,
    place: usize,
    wrote: bool,
    object: &ObjectRef<'_>,
    sources: &mut Vec<Source>,
) -> Result<(), NoMemory>
    ensures { OnOk result (sources.new.items
        ≡ sources.old.items ++ source_of wrote (writer_in (take place (records_of log.now))) (seen object.now)) }
{
    if let ObjectRef::Run = object {
        return Ok(());
    }
    let object = named(alloc, object)?;
    let step = match writer_before(log, &object, place) {
        Some(id) => Some(id.copy(alloc)?),
        None => None,
    };
    sources.push(Source {
        object,
        wrote,
        step,
    })?;
    Ok(())
}

/// Adds objects of a slice that a step at a place of the log touched.
fn add_listed(
    alloc: Global,
    log: &Log,
    place: usize,
    wrote: bool,
    objects: &[Object],
    sources: &mut Vec<Source>,
) -> Result<(), NoMemory>
    ensures { OnOk result (sources.new.items
        ≡ sources.old.items ++ sources_of wrote (writer_in (take place (records_of log.now))) objects.now) }
{
    for object in objects {
        add_source(alloc, log, place, wrote, &ObjectRef::of(object), sources)?;
    }
    Ok(())
}

/// Adds the objects that a step at a place of the log touched.
fn add_sources(
    alloc: Global,
    log: &Log,
    place: usize,
    wrote: bool,
    objects: TouchedObjects<'_>,
    sources: &mut Vec<Source>,
) -> Result<(), NoMemory>
    ensures { OnOk result (sources.new.items
        ≡ sources.old.items ++ sources_of wrote (writer_in (take place (records_of log.now))) (seen_in objects.entry)) }
{
    let mut left = objects;
    while let Some((first, rest)) = left.split_first() {
        add_source(alloc, log, place, wrote, &first, sources)?;
        left = rest;
    }
    add_listed(alloc, log, place, wrote, left.others, sources)
}

/// The objects that a step at a place of the log touched, each with the step that had written it last.
pub(crate) fn sources_at(
    alloc: Global,
    log: &Log,
    place: usize,
    step: &Record,
) -> Result<Vec<Source>, NoMemory>
    ensures { IfOk result (λ sources. sources.items
        ≡ sources_of false (writer_in (take place (records_of log.now))) (read_by step.now)
        ++ sources_of true (writer_in (take place (records_of log.now))) (written_by step.now)) }
{
    let mut sources = Vec::new(alloc);
    add_sources(alloc, log, place, false, reads(step), &mut sources)?;
    add_sources(alloc, log, place, true, writes(step), &mut sources)?;
    Ok(sources)
}

/// A step that is told as a source stands before the step, and conflicts with it. Of each object that the step wrote, or touched
/// and did not write, the last step that had written it is told, but for whether the program runs.
pub fn law_of_sources()
    ensures causes { (p : Program) (log : List (Logged p)) (place : ℕ) (s : State) (l : Logged p) (at : IsStepAt p log place s l)
        → Causes p log place s l at }
    ensures written { (p : Program) (log : List (Logged p)) (place : ℕ) (s : State) (l : Logged p) (at : IsStepAt p log place s l)
        → TellWritten p log place s l at }
    ensures read { (p : Program) (log : List (Logged p)) (place : ℕ) (s : State) (l : Logged p) (at : IsStepAt p log place s l)
        → TellRead p log place s l at }
{}
