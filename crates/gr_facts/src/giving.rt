//! The variables that a step gave values.

ghost use Rattle.std.specs.Prelude.{◌≡◌, ◌++◌, [], ◌∷◌, map, IfOk, OnOk, option_copied, slice_get};
ghost use Rattle.gr_program.specs.TypeViews.{declared_of};
ghost use Rattle.gr_program.specs.Views.{program_of};
ghost use Rattle.gr_rules.specs.Assigned.{names_in, names_of};
ghost use Rattle.gr_rules.specs.Tells.{function_of as function_ruled};
ghost use Rattle.gr_code.specs.CodeViews.{action_of, instruction_of, program_code_of};
ghost use Rattle.gr_depend.specs.Given.{assigned_by, gave, given_at, given_from, given_there, parameters_named};

use crate::standing::{code_of, function_of, stood_at};
use gr_base::{Kind, NoMemory};
use gr_code::code::{Action, Ask, Code, FunctionCode, Instruction};
use gr_goros::Spot;
use gr_program::program::{Function, Program, Variable};
use gr_record::Record;
use std::alloc::Global;

/// The variable of a function with a number.
fn variable_at(function: &Function, number: usize) -> Option<&Variable>
    ensures { option_copied result ≡ slice_get function.now.variables.items number }
{
    function.variables.get(number)
}

/// The instruction of a function with a number.
fn instruction_at(function: &FunctionCode, number: u32) -> Option<&Instruction>
    ensures { option_copied result ≡ slice_get function.now.instructions.items number }
{
    function.instructions.get(number as usize)
}

/// Adds the name of a variable of a function. The blank identifier has none.
fn add_name(
    alloc: Global,
    function: &Function,
    variable: Option<usize>,
    names: &mut Vec<Vec<u8>>,
) -> Result<(), NoMemory>
    ensures { OnOk result (map (λ name. name.items) names.new.items
        ≡ map (λ name. name.items) names.old.items ++ names_of (declared_of function.now.variables.items) (variable ∷ [])) }
{
    let Some(number) = variable else {
        return Ok(());
    };
    let Some(variable) = variable_at(function, number) else {
        return Ok(());
    };
    let name = Vec::from_slice(alloc, &variable.name)?;
    names.push(name)?;
    Ok(())
}

/// Adds the name of a target in a function.
fn add_target(
    alloc: Global,
    function: &Function,
    target: Option<u32>,
    names: &mut Vec<Vec<u8>>,
) -> Result<(), NoMemory>
    ensures { OnOk result (map (λ name. name.items) names.new.items
        ≡ map (λ name. name.items) names.old.items ++ names_of (declared_of function.now.variables.items) (target ∷ [])) }
{
    let Some(number) = target else {
        return Ok(());
    };
    add_name(alloc, function, Some(number as usize), names)
}

/// The names of these targets in a function.
fn names_of_targets(
    alloc: Global,
    function: &Function,
    targets: &[Option<u32>],
) -> Result<Vec<Vec<u8>>, NoMemory>
    ensures { IfOk result (λ names. map (λ name. name.items) names.items
        ≡ names_of (declared_of function.now.variables.items) targets.now) }
{
    let mut names = Vec::new(alloc);
    for target in targets {
        add_target(alloc, function, *target, &mut names)?;
    }
    Ok(names)
}

/// The names of the parameters of a function.
fn names_of_parameters(alloc: Global, function: &Function) -> Result<Vec<Vec<u8>>, NoMemory>
    ensures { IfOk result (λ names. map (λ name. name.items) names.items
        ≡ names_of (declared_of function.now.variables.items) (map (λ p. p.variable) function.now.parameters.items)) }
{
    let mut names = Vec::new(alloc);
    for parameter in &function.parameters {
        add_name(alloc, function, parameter.variable, &mut names)?;
    }
    Ok(names)
}

/// The names of these targets in the function with a number.
fn targets_in(
    alloc: Global,
    program: &Program,
    function: usize,
    targets: &[Option<u32>],
) -> Result<Vec<Vec<u8>>, NoMemory>
    ensures { IfOk result (λ names. map (λ name. name.items) names.items
        ≡ names_in (function_ruled (program_of program.now) function) targets.now) }
{
    let Some(function) = function_of(program, function) else {
        return Ok(Vec::new(alloc));
    };
    names_of_targets(alloc, function, targets)
}

/// The names of the parameters of the function with a number.
fn parameters_of(
    alloc: Global,
    program: &Program,
    function: usize,
) -> Result<Vec<Vec<u8>>, NoMemory>
    ensures { IfOk result (λ names. map (λ name. name.items) names.items
        ≡ parameters_named (program_of program.now) function) }
{
    let Some(function) = function_of(program, function) else {
        return Ok(Vec::new(alloc));
    };
    names_of_parameters(alloc, function)
}

/// The variables to which an action in a function assigns.
fn assigned_in(
    alloc: Global,
    program: &Program,
    function: usize,
    action: &Action,
) -> Result<Vec<Vec<u8>>, NoMemory>
    ensures { IfOk result (λ names. map (λ name. name.items) names.items
        ≡ assigned_by (program_of program.now) function (action_of action.now)) }
{
    match action {
        Action::Assign { targets, .. } => targets_in(alloc, program, function, targets),
        Action::Update { variable, .. } => targets_in(alloc, program, function, &[Some(*variable)]),
        _ => Ok(Vec::new(alloc)),
    }
}

/// The variables that an instruction of a function gives values, where its step is no fault.
fn given_in(
    alloc: Global,
    program: &Program,
    function: usize,
    instruction: &Instruction,
) -> Result<Vec<Vec<u8>>, NoMemory>
    ensures { IfOk result (λ names. map (λ name. name.items) names.items
        ≡ given_at (program_of program.now) function (instruction_of instruction.now)) }
{
    match instruction {
        Instruction::Part {
            ask: Ask::Call {
                function: callee,
                ..
            },
            ..
        } => parameters_of(alloc, program, *callee as usize),
        Instruction::Perform { action, .. } => assigned_in(alloc, program, function, action),
        _ => Ok(Vec::new(alloc)),
    }
}

/// The variables that the instruction at a spot gives values, where its step is no fault.
fn given_by(
    alloc: Global,
    program: &Program,
    code: &Code,
    spot: Spot,
) -> Result<Vec<Vec<u8>>, NoMemory>
    ensures { IfOk result (λ names. map (λ name. name.items) names.items
        ≡ given_there (program_of program.now) (program_code_of code.now) spot) }
{
    let Some(function) = code_of(code, spot.function) else {
        return Ok(Vec::new(alloc));
    };
    let Some(instruction) = instruction_at(function, spot.number) else {
        return Ok(Vec::new(alloc));
    };
    given_in(alloc, program, spot.function as usize, instruction)
}

/// The variables that a step gave values, by their names.
pub(crate) fn given(
    alloc: Global,
    program: &Program,
    code: &Code,
    step: &Record,
) -> Result<Vec<Vec<u8>>, NoMemory>
    ensures { IfOk result (λ names. map (λ name. name.items) names.items
        ≡ gave (program_of program.now) (program_code_of code.now) step.now) }
{
    if let Kind::Fault(_) = step.change.kind() {
        return Ok(Vec::new(alloc));
    }
    let Some(spot) = stood_at(step) else {
        return Ok(Vec::new(alloc));
    };
    given_by(alloc, program, code, spot)
}
