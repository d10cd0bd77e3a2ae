//! Equality of checked programs.
ghost use Rattle.std.specs.Prelude.{◌≡◌};
ghost use Rattle.std.specs.Option.{option_eq};
ghost use Rattle.std.specs.Cmp.Lexicographic.{pointwise};
ghost use Rattle.gr_tree.specs.Statements.{optional};
ghost use Rattle.gr_program.specs.Types.{same_type};
ghost use Rattle.gr_program.specs.TypeViews.{ty_of, variable_of, declared_of};
ghost use Rattle.gr_program.specs.Views.{parameter_of, parameters_of, function_of, functions_of, program_of};
ghost use Rattle.gr_program.specs.Sameness as spec;
ghost use Rattle.gr_program.specs.SameProgramLaws.{program, same_as_seen};

use crate::act_equality::{is_same_place, is_same_target};
use crate::program::{Function, Parameter, Program, Variable};
use crate::stmt_equality::are_same_stmts;
use crate::types::{Type, is_same};

impl PartialEq for Program {
    // Programs are equal where they are the same but for where they lie in memory.
    ghost eq = { λ a b. spec.same_program (program_of a) (program_of b) };

    ghost laws = { same_as_seen program_of spec.same_program program };

    fn eq(&self, other: &Program) -> bool {
        are_same_functions(&self.functions, &other.functions) && self.main == other.main
    }
}

fn is_same_parameter(a: &Parameter, b: &Parameter) -> bool
    ensures { result ≡ spec.same_parameter (parameter_of a.now) (parameter_of b.now) }
{
    is_same_target(&a.variable, &b.variable) && is_same(&a.value_type, &b.value_type)
}

#[tactic(auto, using(crate::proofs::SameLists::other_parameters))]
fn are_same_parameters(a: &[Parameter], b: &[Parameter]) -> bool
    ensures { result ≡ pointwise spec.same_parameter (parameters_of a.now) (parameters_of b.now) }
{
    if a.len() != b.len() {
        return false;
    }
    for number in 0..a.len() {
        if !is_same_parameter(&a[number], &b[number]) {
            return false;
        }
    }
    true
}

fn is_same_variable(a: &Variable, b: &Variable) -> bool
    ensures { result ≡ spec.same_declared (variable_of a.now) (variable_of b.now) }
{
    a.name.as_slice() == b.name.as_slice() && is_same(&a.value_type, &b.value_type)
}

#[tactic(auto, using(crate::proofs::SameLists::other_variables))]
fn are_same_variables(a: &[Variable], b: &[Variable]) -> bool
    ensures { result ≡ pointwise spec.same_declared (declared_of a.now) (declared_of b.now) }
{
    if a.len() != b.len() {
        return false;
    }
    for number in 0..a.len() {
        if !is_same_variable(&a[number], &b[number]) {
            return false;
        }
    }
    true
}

fn is_same_result(a: &Option<Type>, b: &Option<Type>) -> bool
    ensures { result ≡ option_eq same_type (optional ty_of a.now) (optional ty_of b.now) }
{
    match (a, b) {
        (Some(x), Some(y)) => is_same(x, y),
        (None, None) => true,
        _ => false,
    }
}

fn is_same_function(a: &Function, b: &Function) -> bool
    ensures { result ≡ spec.same_function (function_of a.now) (function_of b.now) }
{
    let is_same_signature = a.name.as_slice() == b.name.as_slice()
        && are_same_parameters(&a.parameters, &b.parameters)
        && is_same_result(&a.result, &b.result);
    is_same_signature
        && are_same_variables(&a.variables, &b.variables)
        && are_same_stmts(&a.body, &b.body)
        && is_same_place(a.closing, b.closing)
}

#[tactic(auto, using(crate::proofs::SameLists::other_functions))]
fn are_same_functions(a: &[Function], b: &[Function]) -> bool
    ensures { result ≡ pointwise spec.same_function (functions_of a.now) (functions_of b.now) }
{
    if a.len() != b.len() {
        return false;
    }
    for number in 0..a.len() {
        if !is_same_function(&a[number], &b[number]) {
            return false;
        }
    }
    true
}
