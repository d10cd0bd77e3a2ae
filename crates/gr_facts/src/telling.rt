//! What is told of a step.

ghost use Rattle.std.specs.Prelude.{◌≡◌, IfOk, take, option_and_then, option_map};
ghost use Rattle.gr_program.specs.Views.{program_of};
ghost use Rattle.gr_code.specs.CodeViews.{program_code_of};
ghost use Rattle.gr_depend.specs.Logs.{records_of};
ghost use Rattle.gr_facts.specs.Recorded.{facts_by, function_there, line_there};
ghost use Rattle.gr_facts.specs.Views.{facts_in};

use crate::giving::given;
use crate::reaching::{made_by, operation_by, reached_by};
use crate::sources::{Source, sources_at};
use crate::standing::{function_at, line_at, stood_at};
use gr_base::{ChName, GoName, Kind, NoMemory, StepId};
use gr_code::code::Code;
use gr_depend::Log;
use gr_goros::Spot;
use gr_program::program::Program;
use gr_record::{Operation, Record};
use std::alloc::Global;

/// What is told of a step.
#[derive(Drop)]
pub struct Facts {
    pub id: StepId,
    /// Its kind, with the clause of a select that it picked, or with its fault.
    pub kind: Kind,
    /// What it did with a channel, if it did something.
    pub operation: Option<Operation>,
    /// Whether it printed a line.
    pub prints: bool,
    /// The name of the function in which its goroutine stood.
    pub function: Option<Vec<u8>>,
    /// The line on which its statement begins, counted from 1.
    pub line: Option<usize>,
    /// The names of the variables that it gave values.
    pub given: Vec<Vec<u8>>,
    /// The goroutines beside its own that it started, met or woke.
    pub reached: Vec<GoName>,
    /// The channel that it made.
    pub made: Option<ChName>,
    /// The objects that it touched, but for `Run`. What it read and did not write comes first.
    pub sources: Vec<Source>,
}

/// The name of the function in which a goroutine stood.
fn function_stood(
    alloc: Global,
    program: &Program,
    spot: Option<Spot>,
) -> Result<Option<Vec<u8>>, NoMemory>
    ensures { IfOk result (λ name. option_map (λ name. name.items) name
        ≡ option_and_then (function_there (program_of program.now)) spot) }
{
    match spot {
        Some(spot) => function_at(alloc, program, spot),
        None => Ok(None),
    }
}

/// The line on which the statement begins at which a goroutine stood.
fn line_stood(code: &Code, spot: Option<Spot>) -> Option<usize>
    ensures { result ≡ option_and_then (line_there (program_code_of code.now)) spot }
{
    line_at(code, spot?)
}

/// What the record of a step at a place of the log tells.
pub(crate) fn told(
    alloc: Global,
    program: &Program,
    code: &Code,
    log: &Log,
    place: usize,
    step: &Record,
) -> Result<Facts, NoMemory>
    ensures { IfOk result (λ told. facts_in told
        ≡ facts_by (program_of program.now) (program_code_of code.now) (take place (records_of log.now)) step.now) }
{
    let spot = stood_at(step);
    let id = step.id.copy(alloc)?;
    let operation = operation_by(alloc, step)?;
    let function = function_stood(alloc, program, spot)?;
    let given = given(alloc, program, code, step)?;
    let reached = reached_by(alloc, step)?;
    let made = made_by(alloc, step)?;
    let sources = sources_at(alloc, log, place, step)?;
    Ok(Facts {
        id,
        kind: step.kind(),
        operation,
        prints: step.printed(),
        function,
        line: line_stood(code, spot),
        given,
        reached,
        made,
        sources,
    })
}
