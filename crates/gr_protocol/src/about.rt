//! Queries about the steps that are kept.

ghost use Rattle.std.specs.Prelude.{◌≡◌, ◌∷◌, [], ◌+◌, ◌<◌, ◌^◌, codes, IfOk, map};
ghost use Rattle.serde_json.specs.View.{view};
ghost use Rattle.gr_program.specs.Programs.{Program};
ghost use Rattle.gr_rollback.specs.Machines.{Stands};
ghost use Rattle.gr_rollback.specs.Pasts.{Timeline};
ghost use Rattle.gr_facts.specs.Views.{facts_in};
ghost use Rattle.gr_json.specs.Parts.{fields};
ghost use Rattle.gr_protocol.specs.About.{TellsFrom, TellsAsked, about_data, rows_between as rows_asked, next_place as place_left};
ghost use Rattle.gr_command.specs.declared.request.Query.TheVariants.{Step, Places};

use gr_base::{NoMemory, StepId};
use gr_facts::{Facts, about, about_at};
use gr_json::Told;
use gr_json::parts::{list, perhaps};
use gr_rollback::Machine;
use serde_json::{Value, json};
use std::alloc::{AllocError, Global};
use std::slice;

/// The most rows of one answer.
pub const MOST_ROWS: usize = 1000;

/// What is told of so many steps from a place on, counted from 0, or of all up to the end of the log.
fn rows_from(
    alloc: Global,
    machine: &Machine,
    place: usize,
    rows: usize,
) -> Result<Vec<Facts>, NoMemory>
    requires { place + rows < 2 ^ 64 }
    ensures { IfOk result (λ told. (p : Program) (w : Timeline p) → Stands p w machine.now
        → TellsFrom p w.past.log place rows told.items) }
{
    let mut told = Vec::new(alloc);
    while told.len() < rows {
        let Some(facts) = about_at(alloc, machine, place + told.len())? else {
            return Ok(told);
        };
        told.push(facts)?;
    }
    Ok(told)
}

fn answer(alloc: Global, rows: Value, next: Value) -> Result<Value, AllocError>
    ensures { IfOk result (λ value. view value
        ≡ fields ((codes "about", view rows) ∷ (codes "next", view next) ∷ [])) }
{
    json!(in alloc; {"about": rows, "next": next})
}

/// Rows of facts, and the place from which there may be more.
fn rows_value(alloc: Global, rows: &[Facts], next: Option<u32>) -> Result<Value, NoMemory>
    ensures { IfOk result (λ value. view value ≡ about_data (map facts_in rows.now) next) }
{
    let rows = list(alloc, rows)?;
    let next = perhaps(alloc, &next)?;
    let value = answer(alloc, rows, next)?;
    Ok(value)
}

/// What is told of the step of a name.
pub(crate) fn about_step(alloc: Global, machine: &Machine, id: &StepId) -> Result<Value, NoMemory>
    ensures { IfOk result (λ value. (p : Program) (w : Timeline p) → Stands p w machine.now
        → TellsAsked p w.past.log (Step id.now) (view value)) }
{
    let told = about(alloc, machine, id)?;
    match told {
        Some(facts) => rows_value(alloc, slice::from_ref(&facts), None),
        None => rows_value(alloc, &[], None),
    }
}

/// How many rows an answer has at most for the places from the first to the last.
fn rows_between(first: u32, last: u32) -> usize
    ensures { result ≡ rows_asked first last }
{
    let asked = (last as usize + 1).saturating_sub(first as usize);
    asked.min(MOST_ROWS)
}

/// The place from which to ask on, where an answer is full.
fn next_place(first: u32, last: u32, rows: usize) -> Option<u32>
    ensures { result ≡ place_left first last rows }
{
    if rows != MOST_ROWS {
        return None;
    }
    let next = first as usize + MOST_ROWS;
    if next <= last as usize {
        Some(next as u32)
    } else {
        None
    }
}

/// What is told of the steps from one place to another, both counted from 1.
pub(crate) fn about_places(
    alloc: Global,
    machine: &Machine,
    first: u32,
    last: u32,
) -> Result<Value, NoMemory>
    ensures { IfOk result (λ value. (p : Program) (w : Timeline p) → Stands p w machine.now
        → TellsAsked p w.past.log (Places first last) (view value)) }
{
    let place = (first as usize).saturating_sub(1);
    let rows = rows_from(alloc, machine, place, rows_between(first, last))?;
    let next = next_place(first, last, rows.len());
    rows_value(alloc, rows.as_slice(), next)
}
