//! Which steps are kept, and what they printed.

ghost use Rattle.std.specs.Prelude.{◌≡◌, ◌++◌, List, map, take, IfOk, OnOk};
ghost use Rattle.gr_program.specs.Programs.{Program};
ghost use Rattle.gr_laws.specs.Reached.{Logged};
ghost use Rattle.gr_refine.specs.Contents.{Contents};
ghost use Rattle.gr_command.specs.Replies.{lines_in, said_of};
ghost use Rattle.gr_step.specs.Stores.{program_at, contents_at};
ghost use Rattle.gr_step.specs.Kept.{Kept};
ghost use Rattle.gr_queries.specs.Said.{console_said, log_said, records_said};
ghost use Rattle.gr_queries.specs.Consoles.{OfEachLog, count_in, lines_told, passed, texts_of, untold};

use gr_base::{GoName, Kind, NoMemory, StepId};
use gr_command::Reply;
use gr_step::{Record, Store};
use indexmap::IndexMap;
use std::alloc::Global;

/// The steps of these records, with their kinds.
pub fn log(alloc: Global, records: &[Record]) -> Result<Reply, NoMemory>
    ensures records { IfOk result (λ reply. said_of reply ≡ records_said records.now) }
    ensures kept { (p : Program) (s t : Contents) (log : List (Logged p))
        → Kept p s records.now log t
        → IfOk result (λ reply. said_of reply ≡ log_said p log) }
{
    let steps = steps_told(alloc, records)?;
    Ok(Reply::Log(steps))
}

/// The names of the steps, with their kinds.
fn steps_told(alloc: Global, records: &[Record]) -> Result<Vec<(StepId, Kind)>, NoMemory>
    ensures { IfOk result (λ steps. steps.items ≡ map (λ r. (r.id, r.change.kind)) records.now) }
{
    let mut steps = Vec::with_capacity(alloc, records.len())?;
    for record in records {
        let id = record.id.copy(alloc)?;
        steps.push_reserved((id, record.change.kind()));
    }
    Ok(steps)
}

/// The lines that all goroutines printed, in the order of the steps of these records.
pub fn console(alloc: Global, store: &Store, records: &[Record]) -> Result<Reply, NoMemory>
    ensures { IfOk result (λ reply. OfEachLog (program_at store.now) records.now (contents_at store.now)
        (λ log. said_of reply ≡ console_said (program_at store.now) log)) }
{
    let lines = lines_printed(alloc, store, records)?;
    Ok(Reply::Lines(lines))
}

/// The lines of the goroutines' texts, in the order of the steps that printed them.
fn lines_printed(alloc: Global, store: &Store, records: &[Record]) -> Result<Vec<Vec<u8>>, NoMemory>
    ensures { IfOk result (λ lines. lines_in lines.items ≡ lines_told (texts_of (contents_at store.now)) records.now) }
{
    let mut lines = Vec::new(alloc);
    let mut counts = IndexMap::new(alloc);
    for record in records {
        if !record.printed() {
            continue;
        }
        tell_next(alloc, store, &record.id.go, &mut counts, &mut lines)?;
    }
    Ok(lines)
}

/// How many lines of a goroutine were told before.
fn count_of(counts: &IndexMap<GoName, usize>, go: &GoName) -> usize
    ensures { result ≡ count_in counts.now go.now }
{
    match counts.get(go) {
        Some(count) => *count,
        None => 0,
    }
}

/// Tells the next line of a goroutine, if there is one. `counts` has how many lines of each goroutine were told before.
fn tell_next(
    alloc: Global,
    store: &Store,
    go: &GoName,
    counts: &mut IndexMap<GoName, usize>,
    lines: &mut Vec<Vec<u8>>,
) -> Result<(), NoMemory>
    ensures lines { OnOk result (lines_in lines.new.items
        ≡ lines_in lines.old.items ++ take 1 (untold counts.old (texts_of (contents_at store.now)) go.now)) }
    ensures counts { OnOk result (untold counts.new (texts_of (contents_at store.now))
        ≡ passed go.now (untold counts.old (texts_of (contents_at store.now)))) }
{
    let Some(goroutine) = store.goroutine(go) else {
        return Ok(());
    };
    let count = count_of(counts, go);
    let Some(line) = goroutine.text().get(count) else {
        return Ok(());
    };
    let copy = Vec::from_slice(alloc, line)?;
    lines.push(copy)?;
    let name = go.copy(alloc)?;
    counts.insert(name, count + 1)?;
    Ok(())
}
