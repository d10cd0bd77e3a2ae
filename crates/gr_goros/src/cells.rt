//! The cells of a frame: how they are written to, and put back.

ghost use Rattle.std.specs.Prelude.{◌≡◌, ◌+◌, ◌<◌, ◌≤◌, IfOk, IfSome, OnErr, replicate, slice_get, slice_set, vec_len};
ghost use Rattle.std.specs.Prelude.{vec_capacity};
ghost use Rattle.gr_base.specs.declared.values.Value.TheVariants.{Int, Bool};
ghost use Rattle.gr_rules.specs.Outcomes.{gives, wrong};
ghost use Rattle.gr_rules.specs.Evaluation.{Variables, held};
ghost use Rattle.gr_rules.specs.Frames.{assigned};
ghost use Rattle.gr_goros.specs.Undoing.{each_restored, restored};

use crate::undo::Former;
use gr_base::{ChName, NoMemory, Value};
use std::alloc::Global;
use std::mem;

/// What a cell holds, from which it is put back. A channel is kept in a box of its own, whose place is taken here.
fn kept(alloc: Global, slot: u32, held: &Option<Value>) -> Result<Former, NoMemory>
    ensures { IfOk result (λ former. (cells : Variables) → restored former cells ≡ slice_set cells slot held.now) }
{
    match held {
        None => Ok(Former::Nothing(slot)),
        Some(Value::Int(n)) => Ok(Former::Int(slot, *n)),
        Some(Value::Bool(b)) => Ok(Former::Bool(slot, *b)),
        Some(Value::Unit) => Ok(Former::Unit(slot)),
        Some(Value::Chan(None)) => Ok(Former::Nil(slot)),
        Some(Value::Chan(Some(name))) => Ok(Former::Channel(
            slot,
            Box::new(alloc, name.copy(alloc)?)?,
        )),
    }
}

/// Writes to a cell, if there is one with the number, and answers what it held. Refused, nothing has changed.
pub(crate) fn write(
    alloc: Global,
    cells: &mut Vec<Option<Value>>,
    slot: u32,
    value: Value,
) -> Result<Former, NoMemory>
    ensures after { IfOk result (λ _. cells.new.items ≡ slice_set cells.old.items slot (Some value)) }
    ensures back { IfOk result (λ former. restored former cells.new.items ≡ cells.old.items) }
    ensures err { OnErr result (cells.new ≡ cells.old) }
{
    let place = slot as usize;
    if place < cells.len() {
        let former = kept(alloc, slot, &cells[place])?;
        cells[place] = Some(value);
        return Ok(former);
    }
    Ok(Former::Same)
}

/// Writes to a cell, if there is one with the number, and notes what it held.
fn note(
    cells: &mut Vec<Option<Value>>,
    written: &mut Vec<(u32, Option<Value>)>,
    slot: u32,
    value: Value,
)
    requires { vec_len written.old < vec_capacity written.old }
    ensures after { cells.new.items ≡ slice_set cells.old.items slot (Some value) }
    ensures back { each_restored written.new.items cells.new.items ≡ each_restored written.old.items cells.old.items }
    ensures len { vec_len written.new ≤ vec_len written.old + 1 }
    ensures capacity { vec_capacity written.new ≡ vec_capacity written.old }
{
    let place = slot as usize;
    if place < cells.len() {
        let held = mem::replace(&mut cells[place], Some(value));
        written.push_reserved((slot, held));
    }
}

/// Puts what a cell held back into it, if there is one with the number.
#[inline(always)]
pub(crate) fn put(cells: &mut Vec<Option<Value>>, slot: usize, held: Option<Value>)
    ensures { cells.new.items ≡ slice_set cells.old.items slot held }
{
    if slot < cells.len() {
        cells[slot] = held;
    }
}

/// Puts a number into a cell that holds another.
#[inline(always)]
#[tactic(auto, using(crate::proofs::CellLemmas::number_back))]
pub(crate) fn put_number(cells: &mut Vec<Option<Value>>, slot: u32, former: i64, n: i64)
    requires { held (slice_get cells.old.items slot) ≡ gives (Int former) }
    ensures after { cells.new.items ≡ slice_set cells.old.items slot (Some (Int n)) }
    ensures back { slice_set cells.new.items slot (Some (Int former)) ≡ cells.old.items }
{
    put(cells, slot as usize, Some(Value::Int(n)));
}

/// Puts back what each of these cells held, the last first.
fn put_each(cells: &mut Vec<Option<Value>>, mut written: Vec<(u32, Option<Value>)>)
    ensures { cells.new.items ≡ each_restored written.items cells.old.items }
{
    while let Some((slot, held)) = written.pop() {
        put(cells, slot as usize, held);
    }
}

/// Puts back what the cells held before a change.
pub(crate) fn put_back(cells: &mut Vec<Option<Value>>, former: Former)
    ensures { cells.new.items ≡ restored former cells.old.items }
{
    match former {
        Former::Same => {}
        Former::Nothing(slot) => put(cells, slot as usize, None),
        Former::Int(slot, n) => put(cells, slot as usize, Some(Value::Int(n))),
        Former::Bool(slot, b) => put(cells, slot as usize, Some(Value::Bool(b))),
        Former::Unit(slot) => put(cells, slot as usize, Some(Value::Unit)),
        Former::Nil(slot) => put(cells, slot as usize, Some(Value::Chan(None))),
        Former::Channel(slot, name) => {
            let name = Box::into_inner(name);
            put(cells, slot as usize, Some(Value::Chan(Some(name))));
        }
        Former::IntAndBool(b, slot, n) => {
            let slot = slot as usize;
            put(cells, slot + 1, Some(Value::Bool(b)));
            put(cells, slot, Some(Value::Int(n)));
        }
        Former::Each(written) => put_each(cells, Box::into_inner(written)),
    }
}

/// Assigns values to cells, from left to right, and answers what those held. Refused, nothing has changed.
pub(crate) fn assign(
    alloc: Global,
    cells: &mut Vec<Option<Value>>,
    targets: &[Option<u32>],
    values: Vec<Value>,
) -> Result<Vec<(u32, Option<Value>)>, NoMemory>
    requires { ¬ (assigned targets.now values.items cells.old.items ≡ wrong) }
    ensures after { IfOk result (λ _. assigned targets.now values.items cells.old.items ≡ gives cells.new.items) }
    ensures back { IfOk result (λ written. each_restored written.items cells.new.items ≡ cells.old.items) }
    ensures err { OnErr result (cells.new.items ≡ cells.old.items) }
{
    let mut written = Vec::with_capacity(alloc, targets.len())?;
    let mut values = values.into_iter();
    for target in targets {
        let Some(value) = values.next() else {
            unreachable!();
        };
        let Some(slot) = *target else {
            continue;
        };
        note(cells, &mut written, slot, value);
    }
    Ok(written)
}

/// The number and the truth value that two cells hold, if they do, and the second follows the first.
fn number_and_truth(cells: &[Option<Value>], first: u32, second: u32) -> Option<(i64, bool)>
    ensures next { IfSome result (λ _. second ≡ first + 1) }
    ensures number { IfSome result (λ r. held (slice_get cells.now first) ≡ gives (Int r.0)) }
    ensures truth { IfSome result (λ r. held (slice_get cells.now second) ≡ gives (Bool r.1)) }
{
    if first.checked_add(1)? != second {
        return None;
    }
    let n = match cells.get(first as usize) {
        Some(Some(Value::Int(n))) => *n,
        _ => return None,
    };
    match cells.get(second as usize) {
        Some(Some(Value::Bool(b))) => Some((n, *b)),
        _ => None,
    }
}

/// Writes to two cells, one after the other, and answers what they held. Refused, nothing has changed.
#[tactic(auto, using(crate::proofs::CellLemmas::two_back))]
pub(crate) fn write_two(
    alloc: Global,
    cells: &mut Vec<Option<Value>>,
    first: (u32, Value),
    second: (u32, Value),
) -> Result<Former, NoMemory>
    ensures after { IfOk result (λ _. cells.new.items
        ≡ slice_set (slice_set cells.old.items first.0 (Some first.1)) second.0 (Some second.1)) }
    ensures back { IfOk result (λ former. restored former cells.new.items ≡ cells.old.items) }
    ensures err { OnErr result (cells.new.items ≡ cells.old.items) }
{
    if let Some((n, truth)) = number_and_truth(cells, first.0, second.0) {
        put(cells, first.0 as usize, Some(first.1));
        put(cells, second.0 as usize, Some(second.1));
        return Ok(Former::IntAndBool(truth, first.0, n));
    }
    let mut kept = Box::new(alloc, Vec::new(alloc))?;
    let mut written = Vec::with_capacity(alloc, 2)?;
    note(cells, &mut written, first.0, first.1);
    note(cells, &mut written, second.0, second.1);
    *kept = written;
    Ok(Former::Each(kept))
}

/// This many cells without a value.
pub(crate) fn empty(alloc: Global, count: usize) -> Result<Vec<Option<Value>>, NoMemory>
    ensures { IfOk result (λ cells. cells.items ≡ replicate count None) }
{
    let mut cells = Vec::with_capacity(alloc, count)?;
    for _ in 0..count {
        cells.push_reserved(None);
    }
    Ok(cells)
}

/// Gives values to parameters.
pub(crate) fn fill(cells: &mut Vec<Option<Value>>, targets: &[Option<u32>], values: Vec<Value>)
    requires { ¬ (assigned targets.now values.items cells.old.items ≡ wrong) }
    ensures { assigned targets.now values.items cells.old.items ≡ gives cells.new.items }
{
    let mut values = values.into_iter();
    for target in targets {
        let Some(value) = values.next() else {
            unreachable!();
        };
        let Some(slot) = *target else {
            continue;
        };
        put(cells, slot as usize, Some(value));
    }
}
