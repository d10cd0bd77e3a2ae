//! The right sides of assignments, definitions and declarations: as many expressions as names, or one receive for two.
ghost use Rattle.std.specs.Prelude.{◌≡◌};
ghost use Rattle.gr_tree.specs.Exprs.{names_of, tree_of, trees_of};
ghost use Rattle.gr_tree.specs.Statements.{optional};
ghost use Rattle.gr_exprs.specs.Tables.{scope_of};
ghost use Rattle.gr_exprs.specs.FunctionTables.{functions_of};
ghost use Rattle.gr_types.specs.FindingStatements as spec;
ghost use Rattle.gr_types.specs.Taking as pure;
ghost use Rattle.gr_types.specs.TakerViews.{pair_view};
ghost use Rattle.gr_exprs.specs.Checking.{Agrees, meanings_of, typed_of};

use crate::communications::receive_of;
use gr_exprs::expressions::find_all;
use gr_exprs::functions::Functions;
use gr_exprs::operands::Operand;
use gr_exprs::refusal::{RefusalCode, RuleError};
use gr_exprs::scope::Scope;
use gr_program as checked;
use gr_program::Type;
use gr_tree::{Expr, UnaryOp};
use std::alloc::Global;
use std::collections::VecDeque;

/// Two names and one expression, which has to be a receive: one name takes its value, the other whether there was one.
#[derive(Clone, Copy)]
pub struct ReceivePair<'a> {
    pub value: &'a [u8],
    pub ok: &'a [u8],
    pub expr: &'a Expr,
}

/// The names and the expression, where there are two names and one expression.
#[tactic(auto, using(crate::proofs::Counts::no_pair))]
pub fn pair<'a>(names: &'a [Vec<u8>], exprs: &'a [Expr]) -> Option<ReceivePair<'a>>
    ensures { optional pair_view result ≡ spec.pair_of (names_of names.now) (trees_of exprs.now) }
{
    match (names, exprs) {
        ([value, ok], [expr]) => Some(ReceivePair { value, ok, expr }),
        _ => None,
    }
}

fn is_receive(expr: &Expr) -> bool
    ensures { result ≡ pure.is_receive (tree_of expr.now) }
{
    match expr {
        Expr::Unary(UnaryOp::Receive, _) => true,
        Expr::Paren(inner) => is_receive(inner),
        _ => false,
    }
}

/// The one expression for two names as a receive: the type of the channel's elements, and the channel.
#[tactic(auto, using(crate::proofs::Taking::received_none))]
pub fn received_pair(
    alloc: Global,
    functions: &Functions,
    scope: &Scope,
    expr: &Expr,
) -> Result<(Type, checked::Expr), RuleError>
    ensures { Agrees typed_of result (spec.receive_in (functions_of functions.now) (scope_of scope.now) (tree_of expr.now)) }
{
    if !is_receive(expr) {
        return Err(RuleError::Broken(RefusalCode::WrongCount));
    }
    receive_of(alloc, functions, scope, expr)
}

/// The values of as many expressions as there are names.
#[tactic(auto, using(crate::proofs::Counts::counts_equal, crate::proofs::Counts::counts_differ))]
pub fn values_for(
    alloc: Global,
    functions: &Functions,
    scope: &Scope,
    names: &[Vec<u8>],
    exprs: &[Expr],
) -> Result<VecDeque<Operand>, RuleError>
    ensures { Agrees (λ v. meanings_of v.items) result
        (pure.values_for (functions_of functions.now) (scope_of scope.now) (names_of names.now) (trees_of exprs.now)) }
{
    if names.len() != exprs.len() {
        return Err(RuleError::Broken(RefusalCode::WrongCount));
    }
    find_all(alloc, functions, scope, exprs)
}
