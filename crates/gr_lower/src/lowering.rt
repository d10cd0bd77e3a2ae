//! The code of functions and programs.
ghost use Rattle.std.specs.Prelude.{◌≡◌, length, map, IfOk};
ghost use Rattle.gr_program.specs.TypeViews.{declared_of};
ghost use Rattle.gr_program.specs.Views.{stmts_of, parameters_of, function_of, functions_of, program_of};
ghost use Rattle.gr_rules.specs.Frames.{variable_of};
ghost use Rattle.gr_code.specs.CodeViews.{instructions_of, function_code_of, program_code_of};
ghost use Rattle.gr_lower.specs.Lowered.{body_code, lowered_function, lowered};

use crate::frames::cells_of;
use crate::nesting::Ways;
use crate::parts::{kept, kept_target};
use crate::performing::perform_none;
use crate::placing::lines_of;
use crate::sizes::Sizes;
use crate::sizing::size_of_all;
use crate::statements::lower_stmts;
use gr_base::NoMemory;
use gr_code::code::{Action, Code, FunctionCode, Instruction};
use gr_program::{Function, Parameter, Program, Stmt, Variable};
use std::alloc::Global;

fn variables_of(alloc: Global, parameters: &[Parameter]) -> Result<Vec<Option<u32>>, NoMemory>
    ensures { IfOk result (λ xs. xs.items ≡ map variable_of (parameters_of parameters.now)) }
{
    let mut found = Vec::new(alloc);
    for parameter in parameters {
        found.push(kept_target(parameter.variable)?)?;
    }
    Ok(found)
}

fn count_variables(variables: &[Variable]) -> usize
    ensures { result ≡ length (declared_of variables.now) }
{
    variables.len()
}

/// The instructions of a body, in a function with this many variables. Its closing brace comes last.
fn lower_body(alloc: Global, body: &[Stmt], variables: usize) -> Result<Vec<Instruction>, NoMemory>
    ensures { IfOk result (λ xs. instructions_of xs.items ≡ body_code variables (stmts_of body.now)) }
{
    let mut sizes = Sizes::new(alloc);
    let many = size_of_all(alloc, &mut sizes, body)?;
    let mut out = Vec::new(alloc);
    lower_stmts(
        alloc,
        &mut out,
        &mut sizes,
        body,
        variables,
        many,
        &Ways::Outside,
    )?;
    perform_none(alloc, &mut out, Action::Return)?;
    Ok(out)
}

fn lower_function(alloc: Global, function: &Function) -> Result<FunctionCode, NoMemory>
    ensures { IfOk result (λ f. function_code_of f ≡ lowered_function (function_of function.now)) }
{
    let variables = count_variables(&function.variables);
    let parameters = variables_of(alloc, &function.parameters)?;
    let instructions = lower_body(alloc, &function.body, variables)?;
    let cells = cells_of(variables, &instructions)?;
    let lines = lines_of(alloc, &function.body, function.closing)?;
    Ok(FunctionCode {
        parameters,
        variables,
        cells,
        instructions,
        lines,
    })
}

/// The code of a program: one instruction for each step. Its only error is that memory ran out. A function of 2^32
/// instructions or more is out of memory too, and so is a program with a number of more than 32 bits.
pub fn lower(alloc: Global, program: &Program) -> Result<Code, NoMemory>
    ensures { IfOk result (λ code. program_code_of code ≡ lowered (program_of program.now)) }
{
    let main = kept(program.main)?;
    let mut functions = Vec::new(alloc);
    for function in &program.functions {
        let code = lower_function(alloc, function)?;
        functions.push(code)?;
    }
    Ok(Code { functions, main })
}
