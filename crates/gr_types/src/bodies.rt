//! The bodies of functions.
ghost use Rattle.std.specs.Prelude.{◌≡◌};
ghost use Rattle.gr_tree.specs.Files as trees;
ghost use Rattle.gr_tree.specs.Statements.{statements_of};
ghost use Rattle.gr_program.specs.Views as programs;
ghost use Rattle.gr_program.specs.Views.{stmts_of};
ghost use Rattle.gr_exprs.specs.Tables.{scope_of};
ghost use Rattle.gr_types.specs.ContextViews.{context_of};
ghost use Rattle.gr_exprs.specs.FunctionTables.{functions_of};
ghost use Rattle.gr_types.specs.Outlines as spec;
ghost use Rattle.gr_types.specs.OutlineViews.{outline_of, outlines_of};
ghost use Rattle.gr_types.specs.Checking.{Settles};
ghost use Rattle.gr_types.specs.Codes as spec_codes;

use crate::context::{Context, Nest};
use crate::endings::ends;
use crate::labels::{LabelError, UnfitLabel, unfit_label};
use crate::outlines::Outline;
use crate::refusal::{CheckError, refused};
use crate::statements::body;
use gr_exprs::bytes::copy;
use gr_exprs::functions::Functions;
use gr_exprs::refusal::{RefusalCode, RuleError};
use gr_exprs::scope::Scope;
use gr_program as checked;
use gr_program::Function;
use gr_program::order::is_in_order;
use gr_tree::Stmt;
use std::alloc::Global;

/// The code of what is wrong with a label.
fn label_code(fault: LabelError) -> RefusalCode
    ensures { result ≡ spec_codes.label_code fault }
{
    match fault {
        LabelError::Blank | LabelError::Unused => RefusalCode::WrongLabel,
        LabelError::DeclaredTwice => RefusalCode::DeclaredTwice,
    }
}

/// The rule that is broken first, and where: that of a statement, or that of a label.
fn earlier(code: RefusalCode, at: usize, unfit: Option<UnfitLabel>) -> (RefusalCode, usize)
    ensures { result ≡ spec_codes.earlier_of code at unfit }
{
    match unfit {
        Some(label) if label.place.start < at => (label_code(label.fault), label.place.start),
        _ => (code, at),
    }
}

/// The statements of a body, among which every label fits.
fn labeled(
    alloc: Global,
    context: &Context,
    scope: &mut Scope,
    stmts: &[Stmt],
) -> Result<Vec<checked::Stmt>, CheckError>
    ensures { Settles (λ v. (stmts_of v.items, scope_of scope.new)) result
        (spec.labeled_in (context_of context.now) (scope_of scope.old) (statements_of stmts.now)) }
{
    let unfit = unfit_label(alloc, stmts)?;
    let steps = match body(alloc, context, scope, stmts) {
        Ok(steps) => steps,
        Err(CheckError::Refused { code, at }) => {
            let (code, at) = earlier(code, at, unfit);
            return Err(CheckError::Refused { code, at });
        }
        Err(CheckError::Memory) => return Err(CheckError::Memory),
    };
    match unfit {
        None => Ok(steps),
        Some(label) => Err(CheckError::Refused {
            code: label_code(label.fault),
            at: label.place.start,
        }),
    }
}

/// The function of an outline.
#[tactic(auto, unfolding(crate::specs::Outlines::finished))]
fn finish(alloc: Global, functions: &Functions, outline: Outline) -> Result<Function, CheckError>
    ensures value { Settles programs.function_of result (spec.finished (functions_of functions.now) (outline_of outline.entry)) }
    // Where nothing else is wrong, a missing return is refused, at the closing brace.
    ensures missing { spec_codes.TellsMissingReturn (functions_of functions.now) (outline_of outline.entry) result }
{
    let Outline {
        func,
        parameters,
        result: wanted,
        mut scope,
    } = outline;
    let context = Context {
        functions,
        result: &wanted,
        nest: &Nest::Outside,
    };
    let body = labeled(alloc, &context, &mut scope, &func.body)?;
    if wanted.is_some() && !ends(&func.body) {
        return Err(CheckError::Refused {
            code: RefusalCode::MissingReturn,
            at: func.end.start,
        });
    }
    if !is_in_order(func.place.start, &body, func.end.start) {
        return Err(refused(RuleError::Broken(RefusalCode::WrongForm), func.place));
    }
    Ok(Function {
        name: copy(alloc, &func.name)?,
        parameters,
        result: wanted,
        variables: scope.into_variables(),
        body,
        closing: func.end,
    })
}

/// The functions of these outlines.
pub fn bodies(
    alloc: Global,
    functions: &Functions,
    outlines: Vec<Outline>,
) -> Result<Vec<Function>, CheckError>
    ensures { Settles (λ v. programs.functions_of v.items) result
        (spec.finished_all (functions_of functions.now) (outlines_of outlines.entry.items)) }
{
    let mut finished = Vec::new(alloc);
    for outline in outlines {
        finished.push(finish(alloc, functions, outline)?)?;
    }
    Ok(finished)
}
