//! The headings of functions (Go: Function declarations).
ghost use Rattle.std.specs.Prelude.{◌≡◌, []};
ghost use Rattle.gr_tree.specs.Files as trees;
ghost use Rattle.gr_tree.specs.Statements.{optional};
ghost use Rattle.gr_typing.specs.Scopes.{Sign};
ghost use Rattle.gr_program.specs.TypeViews.{ty_of, types_of};
ghost use Rattle.gr_exprs.specs.Signatures.{sign_of};
ghost use Rattle.gr_exprs.specs.FunctionTables.{functions_of};
ghost use Rattle.gr_types.specs.FindingFiles as files;
ghost use Rattle.gr_types.specs.Outlines as spec;
ghost use Rattle.gr_types.specs.OutlineViews.{outline_of, outlines_of, taken_of};
ghost use Rattle.gr_exprs.specs.Checking.{Agrees};
ghost use Rattle.gr_types.specs.Checking.{Settles};

use crate::parameters::{Parameters, result_type, take_groups};
use crate::refusal::{CheckError, refused};
use gr_exprs::bytes::copy;
use gr_exprs::functions::Functions;
use gr_exprs::names::is_predeclared;
use gr_exprs::refusal::{RefusalCode, RuleError};
use gr_exprs::scope::Scope;
use gr_exprs::types::Signature;
use gr_program::types::copy_optional;
use gr_program::{Parameter, Type};
use gr_tree::Func;
use std::alloc::Global;

/// A function whose heading fits.
#[derive(Drop)]
pub struct Outline<'a> {
    pub func: &'a Func,
    pub parameters: Vec<Parameter>,
    pub result: Option<Type>,
    /// The scope of the body, with the parameters.
    pub scope: Scope,
}

/// Whether a function may have this name after those that are known.
fn name_fits(functions: &Functions, name: &[u8]) -> bool
    ensures { result ≡ spec.name_fits (functions_of functions.now) name.now }
{
    !is_predeclared(name) && name != b"init".as_slice() && functions.number(name).is_none()
}

fn is_bare(name: &[u8], types: &[Type], wanted: &Option<Type>) -> bool
    ensures { result ≡ files.is_bare (Sign name.now (types_of types.now) (optional ty_of wanted.now)) }
{
    match wanted {
        Some(_) => false,
        None => types.is_empty(),
    }
}

/// Whether this is no `main` with parameters or a result.
fn fits_main(name: &[u8], types: &[Type], wanted: &Option<Type>) -> bool
    ensures { result ≡ spec.fits_main (Sign name.now (types_of types.now) (optional ty_of wanted.now)) }
{
    name != b"main".as_slice() || is_bare(name, types, wanted)
}

fn outline_of_heading<'a>(
    alloc: Global,
    func: &'a Func,
    parameters: Parameters,
    wanted: Option<Type>,
) -> Result<(Signature, Outline<'a>), RuleError>
    ensures { Agrees (λ h. (sign_of h.0, outline_of h.1)) result
        (spec.headed (trees.function_of func.now) func.now.name.items (taken_of parameters) (optional ty_of wanted)) }
{
    let Parameters {
        types,
        parameters,
        scope,
    } = parameters;
    if !fits_main(&func.name, &types, &wanted) {
        return Err(RuleError::Broken(RefusalCode::NoMain));
    }
    let signature = Signature {
        name: copy(alloc, &func.name)?,
        parameters: types,
        result: copy_optional(alloc, &wanted)?,
    };
    Ok((
        signature,
        Outline {
            func,
            parameters,
            result: wanted,
            scope,
        },
    ))
}

/// The heading of a function after those that are known.
#[tactic(auto, unfolding(crate::specs::Outlines::heading_in))]
fn heading<'a>(
    alloc: Global,
    funcs: &[Func],
    functions: &Functions,
    func: &'a Func,
) -> Result<(Signature, Outline<'a>), RuleError>
    ensures { Agrees (λ h. (sign_of h.0, outline_of h.1)) result
        (spec.heading_in (functions_of functions.now) (trees.function_of func.now)) }
{
    if !name_fits(functions, &func.name) {
        return Err(RuleError::Broken(RefusalCode::DeclaredTwice));
    }
    let parameters = take_groups(alloc, funcs, &func.parameters)?;
    let wanted = result_type(alloc, funcs, &func.result)?;
    outline_of_heading(alloc, func, parameters, wanted)
}

/// The functions that calls may name, from the headings of a file's functions, and an outline of each.
pub fn headings<'a>(
    alloc: Global,
    funcs: &'a [Func],
) -> Result<(Functions, Vec<Outline<'a>>), CheckError>
    ensures { Settles (λ r. (functions_of r.0, outlines_of r.1.items)) result
        (spec.headings_in [] [] (trees.functions_of funcs.now)) }
{
    let mut functions = Functions::new(alloc);
    let mut outlines = Vec::new(alloc);
    for func in funcs {
        let (signature, outline) = match heading(alloc, funcs, &functions, func) {
            Ok(headed) => headed,
            Err(fault) => return Err(refused(fault, func.place)),
        };
        functions = functions.with(alloc, signature)?;
        outlines.push(outline)?;
    }
    Ok((functions, outlines))
}
