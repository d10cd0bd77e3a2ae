//! What stands between `if` or `for` and a block.
ghost use Rattle.gr_tree.specs.Exprs.{tree_of};
ghost use Rattle.gr_tree.specs.Statements.{optional, simple_of, heading_of, if_of, target_of};
ghost use Rattle.gr_exprs.specs.Tables.{scope_of};
ghost use Rattle.gr_program.specs.TypeViews.{ty_of};
ghost use Rattle.gr_exprs.specs.FunctionTables.{functions_of};
ghost use Rattle.gr_program.specs.Views.{expr_of, act_of, opening_of};
ghost use Rattle.gr_types.specs.FindingStatements as spec;
ghost use Rattle.gr_types.specs.StatementParts.{if_parts_of, loop_parts_of, range_parts_of};
ghost use Rattle.gr_exprs.specs.Checking.{Agrees};
ghost use Rattle.gr_types.specs.Checking.{Settles};

use crate::acts::simple;
use crate::assigning::definition::define_target;
use crate::assigning::targets::target_for;
use crate::communications::received_from;
use crate::refusal::{CheckError, refused};
use gr_const::Constant;
use gr_exprs::expressions::find;
use gr_exprs::functions::Functions;
use gr_exprs::operands::{Operand, of_kind};
use gr_exprs::refusal::{RefusalCode, RuleError};
use gr_exprs::scope::Scope;
use gr_program as checked;
use gr_program::types::copy;
use gr_program::{Act, Opening, Type};
use gr_scan::token::Place;
use gr_tree::{Expr, Header, IfHead, RangeTarget, Simple};
use std::alloc::Global;

/// What stands between `if` and its block.
#[derive(Drop)]
pub struct IfParts {
    pub init: Option<Box<Opening>>,
    pub condition: checked::Expr,
}

/// What stands between `for` and its block, unless it is a range.
#[derive(Drop)]
pub struct LoopParts {
    pub init: Option<Box<Opening>>,
    pub condition: Option<checked::Expr>,
    pub post: Option<Box<Opening>>,
}

/// What stands between `for` and its block in a loop over the values that a channel gives.
#[derive(Drop)]
pub struct RangeParts {
    pub target: Option<usize>,
    pub channel: checked::Expr,
}

/// What stands between `for` and its block.
#[derive(Drop)]
pub enum ForParts {
    Loop(LoopParts),
    Range(RangeParts),
}

fn header_act(
    alloc: Global,
    functions: &Functions,
    scope: &mut Scope,
    header: &Header,
) -> Result<Act, CheckError>
    ensures { Settles (λ a. (act_of a, scope_of scope.new)) result
        (spec.simple_in (functions_of functions.now) (scope_of scope.old) (simple_of header.now.simple)) }
{
    match simple(alloc, functions, scope, &header.simple) {
        Ok(act) => Ok(act),
        Err(fault) => Err(refused(fault, header.place)),
    }
}

/// A statement of a heading; what it breaks stands at its own place.
#[tactic(auto, unfolding(crate::specs::FindingStatements::opening_in))]
fn opening(
    alloc: Global,
    functions: &Functions,
    scope: &mut Scope,
    header: &Option<Box<Header>>,
) -> Result<Option<Box<Opening>>, CheckError>
    ensures { Settles (λ o. (optional opening_of o, scope_of scope.new)) result
        (spec.opening_in (functions_of functions.now) (scope_of scope.old) (optional heading_of header.now)) }
{
    let Some(header) = header else {
        return Ok(None);
    };
    let act = header_act(alloc, functions, scope, header)?;
    let place = header.place;
    Ok(Some(Box::new(alloc, Opening { place, act })?))
}

/// The post statement of a for, which may not be a definition.
#[tactic(auto, unfolding(crate::specs::FindingStatements::post_in))]
fn post_statement(
    alloc: Global,
    functions: &Functions,
    scope: &mut Scope,
    header: &Option<Box<Header>>,
) -> Result<Option<Box<Opening>>, CheckError>
    ensures { Settles (λ o. (optional opening_of o, scope_of scope.new)) result
        (spec.post_in (functions_of functions.now) (scope_of scope.old) (optional heading_of header.now)) }
{
    if let Some(post) = header {
        if let Simple::Define(_, _) = post.simple {
            return Err(refused(RuleError::Broken(RefusalCode::WrongForm), post.place));
        }
    }
    opening(alloc, functions, scope, header)
}

#[tactic(auto, using(crate::proofs::Conditions::no_truth), unfolding(crate::specs::FindingStatements::condition_in))]
fn truth(
    alloc: Global,
    functions: &Functions,
    scope: &Scope,
    expr: &Expr,
) -> Result<checked::Expr, RuleError>
    ensures { Agrees expr_of result (spec.condition_in (functions_of functions.now) (scope_of scope.now) (tree_of expr.now)) }
{
    match find(alloc, functions, scope, expr)? {
        Operand::Constant(Constant::Whole(_)) => Err(RuleError::Broken(RefusalCode::WrongForm)),
        value => of_kind(&Type::Bool, value),
    }
}

fn condition(
    alloc: Global,
    functions: &Functions,
    scope: &Scope,
    place: Place,
    expr: &Expr,
) -> Result<checked::Expr, CheckError>
    ensures { Settles expr_of result (spec.condition_in (functions_of functions.now) (scope_of scope.now) (tree_of expr.now)) }
{
    match truth(alloc, functions, scope, expr) {
        Ok(term) => Ok(term),
        Err(fault) => Err(refused(fault, place)),
    }
}

#[tactic(auto, unfolding(crate::specs::FindingStatements::loop_condition_in))]
fn loop_condition(
    alloc: Global,
    functions: &Functions,
    scope: &Scope,
    place: Place,
    expr: &Option<Expr>,
) -> Result<Option<checked::Expr>, CheckError>
    ensures { Settles (λ o. optional expr_of o) result
        (spec.loop_condition_in (functions_of functions.now) (scope_of scope.now) (optional tree_of expr.now)) }
{
    let Some(expr) = expr else {
        return Ok(None);
    };
    Ok(Some(condition(alloc, functions, scope, place, expr)?))
}

/// The heading of an if at a place. The block of the place is the if's own.
#[tactic(auto, unfolding(crate::specs::FindingStatements::if_head_in))]
pub fn if_parts(
    alloc: Global,
    functions: &Functions,
    scope: &mut Scope,
    place: Place,
    head: &IfHead,
) -> Result<IfParts, CheckError>
    ensures { Settles (λ p. (if_parts_of p, scope_of scope.new)) result
        (spec.if_head_in (functions_of functions.now) (scope_of scope.old) (if_of head.now)) }
{
    let init = opening(alloc, functions, scope, &head.init)?;
    let condition = condition(alloc, functions, scope, place, &head.condition)?;
    Ok(IfParts { init, condition })
}

/// The heading of a for at a place. The block of the place is the for's own.
#[tactic(auto, unfolding(crate::specs::FindingStatements::for_parts))]
pub fn loop_parts(
    alloc: Global,
    functions: &Functions,
    scope: &mut Scope,
    place: Place,
    init: &Option<Box<Header>>,
    condition: &Option<Expr>,
    post: &Option<Box<Header>>,
) -> Result<LoopParts, CheckError>
    ensures { Settles (λ p. (loop_parts_of p, scope_of scope.new)) result
        (spec.for_parts (functions_of functions.now) (scope_of scope.old) (optional heading_of init.now)
        (optional tree_of condition.now) (optional heading_of post.now)) }
{
    let init = opening(alloc, functions, scope, init)?;
    let condition = loop_condition(alloc, functions, scope, place, condition)?;
    let post = post_statement(alloc, functions, scope, post)?;
    Ok(LoopParts {
        init,
        condition,
        post,
    })
}

/// The target for the values of a range, which have this type.
#[tactic(auto, unfolding(crate::specs::FindingStatements::target_in))]
pub fn range_target(
    alloc: Global,
    functions: &Functions,
    scope: &mut Scope,
    own: &Type,
    target: &RangeTarget,
) -> Result<Option<usize>, RuleError>
    ensures { Agrees (λ k. (k, scope_of scope.new)) result
        (spec.target_in (scope_of scope.old) (ty_of own.now) (target_of target.now)) }
{
    match target {
        RangeTarget::Nothing => Ok(None),
        RangeTarget::Assign(name) => Ok(target_for(functions, scope, name, own)?),
        RangeTarget::Define(name) => define_target(
            alloc,
            functions,
            scope,
            name,
            copy(alloc, own)?,
        ),
    }
}

#[tactic(auto, unfolding(crate::specs::FindingStatements::range_parts))]
fn range(
    alloc: Global,
    functions: &Functions,
    scope: &mut Scope,
    target: &RangeTarget,
    expr: &Expr,
) -> Result<RangeParts, RuleError>
    ensures { Agrees (λ p. (range_parts_of p, scope_of scope.new)) result
        (spec.range_parts (functions_of functions.now) (scope_of scope.old) (target_of target.now) (tree_of expr.now)) }
{
    let value = find(alloc, functions, scope, expr)?;
    let (element, channel) = received_from(value)?;
    scope.enter(alloc)?;
    let target = range_target(alloc, functions, scope, &element, target)?;
    Ok(RangeParts { target, channel })
}

/// The heading of a range at a place. It goes into the block of the for.
pub fn range_parts(
    alloc: Global,
    functions: &Functions,
    scope: &mut Scope,
    place: Place,
    target: &RangeTarget,
    expr: &Expr,
) -> Result<RangeParts, CheckError>
    ensures { Settles (λ p. (range_parts_of p, scope_of scope.new)) result
        (spec.range_parts (functions_of functions.now) (scope_of scope.old) (target_of target.now) (tree_of expr.now)) }
{
    match range(alloc, functions, scope, target, expr) {
        Ok(parts) => Ok(parts),
        Err(fault) => Err(refused(fault, place)),
    }
}
