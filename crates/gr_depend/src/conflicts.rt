//! Whether two steps conflict.

ghost use Rattle.std.specs.Prelude.{◌≡◌, ◌<◌, length, slice_get, Some};
ghost use Rattle.std.specs.List.{list_any};
ghost use Rattle.gr_record.specs.Conflicts.{written_by, read_by, touched_by, conflict_of};
ghost use Rattle.gr_touches.specs.ObjectRefs.{seen};
ghost use Rattle.gr_touches.specs.Told.{seen_in};
ghost use Rattle.gr_touches.specs.Touches.{is_among};
ghost use Rattle.gr_depend.specs.Marked.{reached_by};

use crate::log::Log;
use gr_base::Object;
use gr_record::Record;
use gr_touches::{ObjectRef, TouchedObjects, Wanted, reads, writes};

/// Whether the object is one of these.
fn is_one_of(object: &ObjectRef<'_>, objects: TouchedObjects<'_>) -> bool
    ensures { result ≡ is_among (seen object.now) (seen_in objects.entry) }
{
    let Some((first, rest)) = objects.split_first() else {
        return is_in(object, objects.others);
    };
    object.is(&first) || is_one_of(object, rest)
}

/// Whether the object is one of a slice.
fn is_in(object: &ObjectRef<'_>, objects: &[Object]) -> bool
    ensures { result ≡ is_among (seen object.now) objects.now }
{
    objects.iter().any(|other| object.is(&ObjectRef::of(other)))
}

/// Whether a step wrote the object.
pub(crate) fn has_written(step: &Record, object: &ObjectRef<'_>) -> bool
    ensures { result ≡ is_among (seen object.now) (written_by step.now) }
{
    is_one_of(object, writes(step))
}

/// Whether a step touched the object.
fn has_touched(step: &Record, object: &ObjectRef<'_>) -> bool
    ensures { result ≡ is_among (seen object.now) (touched_by step.now) }
{
    is_one_of(object, reads(step)) || has_written(step, object)
}

/// Whether a step touched the object in the wanted way.
fn has_reached(step: &Record, object: &ObjectRef<'_>, wanted: Wanted) -> bool
    ensures { result ≡ is_among (seen object.now) (reached_by wanted step.now) }
{
    match wanted {
        Wanted::All => has_touched(step, object),
        Wanted::Writes => has_written(step, object),
    }
}

/// Whether a step touched one of these objects in the wanted way.
fn reached_any(step: &Record, objects: TouchedObjects<'_>, wanted: Wanted) -> bool
    ensures { result ≡ list_any (λ o. is_among o (reached_by wanted step.now)) (seen_in objects.entry) }
{
    let Some((first, rest)) = objects.split_first() else {
        return reached_any_in(step, objects.others, wanted);
    };
    has_reached(step, &first, wanted) || reached_any(step, rest, wanted)
}

/// Whether a step touched one of a slice of objects in the wanted way.
fn reached_any_in(step: &Record, objects: &[Object], wanted: Wanted) -> bool
    ensures { result ≡ list_any (λ o. is_among o (reached_by wanted step.now)) objects.now }
{
    objects
        .iter()
        .any(|object| has_reached(step, &ObjectRef::of(object), wanted))
}

/// Whether the second step wrote what the first read and did not write.
fn overwrites(first: &Record, second: &Record) -> bool
    ensures { result ≡ list_any (λ o. is_among o (written_by second.now)) (read_by first.now) }
{
    reached_any(second, reads(first), Wanted::Writes)
}

/// Whether the second step touched what the first wrote.
fn meets_writes(first: &Record, second: &Record) -> bool
    ensures { result ≡ list_any (λ o. is_among o (touched_by second.now)) (written_by first.now) }
{
    reached_any(second, writes(first), Wanted::All)
}

/// Whether two steps conflict.
pub(crate) fn conflict(first: &Record, second: &Record) -> bool
    ensures { result ≡ conflict_of first.now second.now }
{
    overwrites(first, second) || meets_writes(first, second)
}

impl Log {
    ghost use Rattle.gr_depend.specs.Logs.{records_of};
    ghost use Rattle.gr_record.specs.declared.record.Record.{Record};

    /// Whether the steps at two places conflict.
    pub fn conflicts(&self, first: usize, second: usize) -> bool
        requires first { first < length (records_of self.now) }
        requires second { second < length (records_of self.now) }
        ensures { (a b : Record) → slice_get (records_of self.now) first ≡ Some a
            → slice_get (records_of self.now) second ≡ Some b → result ≡ conflict_of a b }
    {
        conflict(self.record(first), self.record(second))
    }
}
