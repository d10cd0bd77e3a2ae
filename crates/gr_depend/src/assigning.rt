//! The steps that gave a variable a value.

ghost use Rattle.std.specs.Prelude.{◌≡◌, ◌∷◌, [], ℕ, List, map, Some, slice_get, option_copied, option_map, option_and_then};
ghost use Rattle.std.specs.List.{list_any};
ghost use Rattle.gr_program.specs.Programs as programs;
ghost use Rattle.gr_program.specs.TypeViews.{declared_of};
ghost use Rattle.gr_program.specs.Views.{program_of};
ghost use Rattle.gr_rules.specs.Assigned.{names_in, assigned, last_assignment};
ghost use Rattle.gr_rules.specs.Tells.{function_of};
ghost use Rattle.gr_laws.specs.Reached.{Logged};
ghost use Rattle.gr_code.specs.CodeViews.{action_of, instruction_of, program_code_of};
ghost use Rattle.gr_lower.specs.Lowered.{lowered};
ghost use Rattle.gr_refine.specs.Contents.{Contents};
ghost use Rattle.gr_record.specs.declared.record.Record as steps;
ghost use Rattle.gr_record.specs.Kept.{Kept};
ghost use Rattle.gr_record.specs.Listings.{state_in};
ghost use Rattle.gr_record.specs.Running.{Running};
ghost use Rattle.gr_record.specs.Records.{event_of};
ghost use Rattle.gr_record.specs.Taking.{IsRecord};
ghost use Rattle.gr_record.specs.Pairs.{id_of};
ghost use Rattle.gr_depend.specs.Given.{GivenByInstruction, is_called, any_called, parameters_named, assigned_by, given_at};
ghost use Rattle.gr_depend.specs.Given.{given_there, spot_before};
ghost use Rattle.gr_depend.specs.Given.{stood, gave, last_given};

use crate::history::has_faulted;
use crate::log::Log;
use gr_base::{GoName, StepId};
use gr_code::code::{Action, Ask, Code, FunctionCode, Instruction};
use gr_goros::{KeptUndo, Spot};
use gr_program::program::{Function, Program, Variable};
use gr_record::Record;
use gr_record::record::Form;
use std::slice;

/// Where a goroutine stood before the first of these changes that keeps it, if one does.
fn first_spot(go: &GoName, changes: &[(GoName, KeptUndo)]) -> Option<Spot>
    ensures { result ≡ spot_before go.now changes.now }
{
    for i in 0..changes.len() {
        let (name, undo) = &changes[i];
        if go != name {
            continue;
        }
        if let Some(spot) = undo.spot() {
            return Some(spot);
        }
    }
    None
}

/// The variable of a function with a number.
fn variable_at(function: &Function, number: usize) -> Option<&Variable>
    ensures { option_copied result ≡ slice_get function.now.variables.items number }
{
    function.variables.get(number)
}

/// The function of a program with a number.
fn function_at(program: &Program, number: usize) -> Option<&Function>
    ensures { option_copied result ≡ slice_get program.now.functions.items number }
{
    program.functions.get(number)
}

/// The code of the function with a number.
fn code_at(code: &Code, number: u32) -> Option<&FunctionCode>
    ensures { option_copied result ≡ slice_get code.now.functions.items number }
{
    code.functions.get(number as usize)
}

/// The instruction of a function with a number.
fn instruction_at(function: &FunctionCode, number: u32) -> Option<&Instruction>
    ensures { option_copied result ≡ slice_get function.now.instructions.items number }
{
    function.instructions.get(number as usize)
}

/// Whether a variable of a function has this name. No variable is called `_`.
#[tactic(auto, using(crate::proofs::CalledLemmas::variable_found, crate::proofs::CalledLemmas::no_variable))]
fn is_named(function: &Function, variable: Option<usize>, name: &[u8]) -> bool
    ensures { result ≡ is_called name.now (declared_of function.now.variables.items) variable }
{
    let Some(number) = variable else {
        return false;
    };
    let Some(variable) = variable_at(function, number) else {
        return false;
    };
    name == variable.name.as_slice()
}

/// Whether a target in a function is called so.
fn names_target(function: &Function, target: Option<u32>, name: &[u8]) -> bool
    ensures { result ≡ is_called name.now (declared_of function.now.variables.items) target }
{
    let Some(number) = target else {
        return false;
    };
    is_named(function, Some(number as usize), name)
}

/// Whether one of these targets in a function is called so.
fn names_one(function: &Function, targets: &[Option<u32>], name: &[u8]) -> bool
    ensures { result ≡ list_any (is_called name.now (declared_of function.now.variables.items)) targets.now }
{
    targets
        .iter()
        .any(|target| names_target(function, *target, name))
}

/// Whether a parameter of a function is called so.
fn names_parameter(function: &Function, name: &[u8]) -> bool
    ensures { result ≡ list_any (λ p. is_called name.now
        (declared_of function.now.variables.items) p.variable) function.now.parameters.items }
{
    function
        .parameters
        .iter()
        .any(|parameter| is_named(function, parameter.variable, name))
}

/// Whether one of these targets in the function with a number is called so.
#[tactic(auto, using(crate::proofs::CalledLemmas::named_found, crate::proofs::CalledLemmas::none_named))]
fn names_in_function(
    program: &Program,
    function: usize,
    targets: &[Option<u32>],
    name: &[u8],
) -> bool
    ensures { result ≡ any_called name.now (names_in (function_of (program_of program.now) function) targets.now) }
{
    let Some(function) = function_at(program, function) else {
        return false;
    };
    names_one(function, targets, name)
}

/// Whether a parameter of the function with a number is called so.
#[tactic(auto, using(crate::proofs::CalledLemmas::parameter_found, crate::proofs::CalledLemmas::no_parameter))]
fn takes(program: &Program, function: usize, name: &[u8]) -> bool
    ensures { result ≡ any_called name.now (parameters_named (program_of program.now) function) }
{
    let Some(function) = function_at(program, function) else {
        return false;
    };
    names_parameter(function, name)
}

/// Whether an action in a function assigns to a variable of this name.
fn assigns_to(program: &Program, function: usize, action: &Action, name: &[u8]) -> bool
    ensures { result ≡ any_called name.now (assigned_by (program_of program.now) function (action_of action.now)) }
{
    match action {
        Action::Assign { targets, .. } => names_in_function(program, function, targets, name),
        Action::Update { variable, .. } => names_in_function(
            program,
            function,
            &[Some(*variable)],
            name,
        ),
        _ => false,
    }
}

/// Whether an instruction of a function gives a variable of this name a value, where its step is no fault.
fn gives_at(program: &Program, function: usize, instruction: &Instruction, name: &[u8]) -> bool
    ensures { result ≡ any_called name.now (given_at (program_of program.now) function (instruction_of instruction.now)) }
{
    match instruction {
        Instruction::Part {
            ask: Ask::Call {
                function: callee,
                ..
            },
            ..
        } => takes(program, *callee as usize, name),
        Instruction::Perform { action, .. } => assigns_to(program, function, action, name),
        _ => false,
    }
}

/// Whether the instruction at a spot gives a variable of this name a value, where its step is no fault.
#[tactic(auto, using(crate::proofs::CalledLemmas::given_found, crate::proofs::CalledLemmas::no_code, crate::proofs::CalledLemmas::no_instruction))]
fn gives_there(program: &Program, code: &Code, spot: Spot, name: &[u8]) -> bool
    ensures { result ≡ any_called name.now (given_there (program_of program.now) (program_code_of code.now) spot) }
{
    let Some(function) = code_at(code, spot.function) else {
        return false;
    };
    let Some(instruction) = instruction_at(function, spot.number) else {
        return false;
    };
    gives_at(program, spot.function as usize, instruction, name)
}

/// Where the goroutine of a step stood.
fn stood_at(step: &Record) -> Option<Spot>
    ensures { result ≡ stood step.now }
{
    match step.change.form() {
        Form::Alone(_, own) => own.spot(),
        Form::WaitsToSend(_, _, spot) | Form::WaitsToReceive(_, _, spot) => Some(*spot),
        Form::Passes(_, passage) => passage.own.spot(),
        Form::Exchanges(_, exchange) => {
            if let Some(spot) = exchange.passage.own.spot() {
                return Some(spot);
            }
            first_spot(&step.id.go, slice::from_ref(&exchange.met))
        }
        Form::Further(_, further) => {
            if let Some(spot) = further.own.spot() {
                return Some(spot);
            }
            first_spot(&step.id.go, further.beyond.met.as_slice())
        }
    }
}

/// Whether a step gave a variable of this name a value.
fn has_given(program: &Program, code: &Code, step: &Record, name: &[u8]) -> bool
    ensures { result ≡ any_called name.now (gave (program_of program.now) (program_code_of code.now) step.now) }
{
    if has_faulted(step) {
        return false;
    }
    let Some(spot) = stood_at(step) else {
        return false;
    };
    gives_there(program, code, spot, name)
}

impl Log {
    ghost use Rattle.gr_depend.specs.Logs.{records_of};

    /// The name of the last step of a goroutine that gave a value to a variable of this name in one of its frames, or to a
    /// parameter in a call. Neither a `go` step nor a fault gives a value. It takes no memory.
    pub fn assigned(
        &self,
        program: &Program,
        code: &Code,
        go: &GoName,
        name: &[u8],
    ) -> Option<&StepId>
        ensures { option_copied result ≡ last_given (program_of program.now) (program_code_of code.now) go.now name.now
            (records_of self.now) }
    {
        let step = self.records.iter().rev().find(|step| go == &step.id.go
            && has_given(program, code, step, name))?;
        Some(&step.id)
    }
}

/// Records and code say what steps gave values, and the rules say the same: of each instruction, of each step, and of the last
/// step that gave a variable a value.
pub fn law_of_assignments()
    ensures instructions { GivenByInstruction }
    ensures steps { (p : programs.Program) (s t : Contents) (r : steps.Record)
        → Running p s → IsRecord p s r t
        → gave p (lowered p) r ≡ assigned p (state_in p s) (event_of r) }
    ensures last { (p : programs.Program) (s t : Contents) (records : List steps.Record) (log : List (Logged p)) (g x : List ℕ)
        → Running p s → Kept p s records log t
        → last_given p (lowered p) g x records
        ≡ option_and_then (λ i. option_map (id_of p) (slice_get log i))
        (last_assignment p (state_in p s) g x (map (λ l. l.event) log)) }
{}
