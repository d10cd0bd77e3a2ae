//! Look-ups in code.

ghost use Rattle.std.specs.Prelude.{◌≡◌, ◌-◌, slice_get, option_copied};
ghost use Rattle.gr_code.specs.CodeViews.{function_code_of, program_code_of};

use gr_code::code::{Arm, Code, FunctionCode, Instruction};

/// The function with a number.
pub(crate) fn function_at(code: &Code, number: u32) -> Option<&FunctionCode>
    ensures { option_copied result ≡ slice_get code.now.functions.items number }
{
    code.functions.get(number as usize)
}

/// The instruction of a function with a number.
pub(crate) fn instruction_at(function: &FunctionCode, number: u32) -> Option<&Instruction>
    ensures { option_copied result ≡ slice_get function.now.instructions.items number }
{
    function.instructions.get(number as usize)
}

/// The line of the instruction of a function with a number.
pub(crate) fn line_at(function: &FunctionCode, number: u32) -> Option<&u32>
    ensures { option_copied result ≡ slice_get function.now.lines.items number }
{
    function.lines.get(number as usize)
}

/// The clause of a select with a number, counted from 1.
pub(crate) fn arm_at(arms: &[Arm], number: u32) -> Option<&Arm>
    ensures { option_copied result ≡ slice_get arms.now (number - 1) }
{
    arms.get((number as usize).saturating_sub(1))
}

/// The code of a function.
#[tactic(auto, using(crate::proofs::CodeLemmas::found_function, crate::proofs::CodeLemmas::no_function))]
pub(crate) fn code_of(code: &Code, function: u32) -> &FunctionCode
    requires { ¬ (slice_get (program_code_of code.now).functions function ≡ None) }
    ensures { slice_get (program_code_of code.now).functions function ≡ Some (function_code_of result.now) }
{
    match function_at(code, function) {
        Some(function_code) => function_code,
        None => unreachable!(),
    }
}
