//! Where the goroutine of a step stood.

ghost use Rattle.std.specs.Prelude.{◌≡◌, IfOk, option_copied, option_map, option_and_then, slice_get};
ghost use Rattle.gr_program.specs.Views.{program_of};
ghost use Rattle.gr_code.specs.CodeViews.{program_code_of};
ghost use Rattle.gr_depend.specs.Given.{spot_before, stood};
ghost use Rattle.gr_facts.specs.Recorded.{function_there, line_there};

use gr_base::{GoName, NoMemory};
use gr_code::code::{Code, FunctionCode};
use gr_goros::{KeptUndo, Spot};
use gr_program::program::{Function, Program};
use gr_record::Record;
use gr_record::record::Form;
use std::alloc::Global;
use std::slice;

/// Where a goroutine stood before the first of these changes that keeps it, if one does.
fn first_spot(go: &GoName, changes: &[(GoName, KeptUndo)]) -> Option<Spot>
    ensures { result ≡ spot_before go.now changes.now }
{
    for i in 0..changes.len() {
        let (name, undo) = &changes[i];
        if go != name {
            continue;
        }
        if let Some(spot) = undo.spot() {
            return Some(spot);
        }
    }
    None
}

/// Where the goroutine of a step stood.
pub(crate) fn stood_at(step: &Record) -> Option<Spot>
    ensures { result ≡ stood step.now }
{
    match step.change.form() {
        Form::Alone(_, own) => own.spot(),
        Form::WaitsToSend(_, _, spot) | Form::WaitsToReceive(_, _, spot) => Some(*spot),
        Form::Passes(_, passage) => passage.own.spot(),
        Form::Exchanges(_, exchange) => {
            if let Some(spot) = exchange.passage.own.spot() {
                return Some(spot);
            }
            first_spot(&step.id.go, slice::from_ref(&exchange.met))
        }
        Form::Further(_, further) => {
            if let Some(spot) = further.own.spot() {
                return Some(spot);
            }
            first_spot(&step.id.go, further.beyond.met.as_slice())
        }
    }
}

/// The function of a program with a number.
pub(crate) fn function_of(program: &Program, number: usize) -> Option<&Function>
    ensures { option_copied result ≡ slice_get program.now.functions.items number }
{
    program.functions.get(number)
}

/// The code of the function with a number.
pub(crate) fn code_of(code: &Code, number: u32) -> Option<&FunctionCode>
    ensures { option_copied result ≡ slice_get code.now.functions.items number }
{
    code.functions.get(number as usize)
}

/// The name of the function at a spot.
pub(crate) fn function_at(
    alloc: Global,
    program: &Program,
    spot: Spot,
) -> Result<Option<Vec<u8>>, NoMemory>
    ensures { IfOk result (λ name. option_map (λ name. name.items) name ≡ function_there (program_of program.now) spot) }
{
    let Some(function) = function_of(program, spot.function as usize) else {
        return Ok(None);
    };
    let name = Vec::from_slice(alloc, &function.name)?;
    Ok(Some(name))
}

/// The line on which the statement of an instruction of a function begins.
fn line_in(function: &FunctionCode, number: u32) -> Option<u32>
    ensures { result ≡ slice_get function.now.lines.items number }
{
    function.lines.get(number as usize).copied()
}

/// The line on which the statement at a spot begins.
pub(crate) fn line_at(code: &Code, spot: Spot) -> Option<usize>
    ensures { result ≡ line_there (program_code_of code.now) spot }
{
    let function = code_of(code, spot.function)?;
    let line = line_in(function, spot.number)?;
    Some(line as usize)
}
