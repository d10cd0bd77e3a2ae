//! Equality of what statements do.
ghost use Rattle.std.specs.Prelude.{◌≡◌, ◌&&◌, not};
ghost use Rattle.std.specs.Option.{option_eq};
ghost use Rattle.gr_tree.specs.Statements.{optional};
ghost use Rattle.gr_program.specs.Views.{act_of, opening_of};
ghost use Rattle.gr_program.specs.Sameness as spec;

use crate::expr_equality::{
    are_same_exprs, are_same_printed, is_same_binary, is_same_expr, is_same_if_any, is_same_literal,
};
use crate::program::{Act, Opening};
use gr_scan::token::Place;

/// Whether two places are the same.
pub fn is_same_place(a: Place, b: Place) -> bool
    ensures { result ≡ spec.same_place a b }
{
    a.start == b.start && a.end == b.end && a.line == b.line
}

/// Whether two targets are the same.
pub fn is_same_target(a: &Option<usize>, b: &Option<usize>) -> bool
    ensures { result ≡ spec.same_target a.now b.now }
{
    a == b
}

/// Whether two lists of targets are the same.
pub fn are_same_targets(a: &[Option<usize>], b: &[Option<usize>]) -> bool
    ensures { result ≡ spec.same_targets a.now b.now }
{
    a == b
}

/// Whether both are assignments, and the same.
fn is_same_assignment(a: &Act, b: &Act) -> bool
    ensures { result ≡ (spec.assigns (act_of a.now) && spec.same_act (act_of a.now) (act_of b.now)) }
{
    match (a, b) {
        (
            Act::Assign {
                targets: x,
                values: v,
            },
            Act::Assign {
                targets: y,
                values: w,
            },
        ) => are_same_targets(x, y) && are_same_exprs(v, w),
        (
            Act::AssignReceive {
                value: x,
                ok: o,
                channel: c,
                zero: v,
            },
            Act::AssignReceive {
                value: y,
                ok: p,
                channel: d,
                zero: w,
            },
        ) => {
            is_same_target(x, y)
                && is_same_target(o, p)
                && is_same_expr(c, d)
                && is_same_literal(*v, *w)
        }
        _ => false,
    }
}

/// Whether both are an assignment with an operator, a send or a go, and the same.
fn is_same_passing(a: &Act, b: &Act) -> bool
    ensures { result ≡ (spec.passes (act_of a.now) && spec.same_act (act_of a.now) (act_of b.now)) }
{
    match (a, b) {
        (
            Act::Update {
                variable: m,
                op: o,
                value: v,
            },
            Act::Update {
                variable: n,
                op: p,
                value: w,
            },
        ) => m == n && is_same_binary(*o, *p) && is_same_expr(v, w),
        (
            Act::Send {
                channel: c,
                value: v,
            },
            Act::Send {
                channel: d,
                value: w,
            },
        ) => is_same_expr(c, d) && is_same_expr(v, w),
        (
            Act::Go {
                function: m,
                arguments: x,
            },
            Act::Go {
                function: n,
                arguments: y,
            },
        ) => m == n && are_same_exprs(x, y),
        _ => false,
    }
}

/// Whether both are something else, and the same.
fn is_same_other(a: &Act, b: &Act) -> bool
    ensures { result ≡ (not (spec.assigns (act_of a.now)) &&
        (not (spec.passes (act_of a.now)) && spec.same_act (act_of a.now) (act_of b.now))) }
{
    match (a, b) {
        (Act::Eval(x), Act::Eval(y)) | (Act::Close(x), Act::Close(y)) => is_same_expr(x, y),
        (Act::Print(x), Act::Print(y)) => are_same_printed(x, y),
        (Act::Return(x), Act::Return(y)) => is_same_if_any(x, y),
        (Act::Break(m), Act::Break(n)) | (Act::Continue(m), Act::Continue(n)) => m == n,
        _ => false,
    }
}

/// Whether two statements do the same.
#[tactic(auto, using(crate::proofs::SameLists::either_kind))]
pub fn is_same_act(a: &Act, b: &Act) -> bool
    ensures { result ≡ spec.same_act (act_of a.now) (act_of b.now) }
{
    is_same_assignment(a, b) || is_same_passing(a, b) || is_same_other(a, b)
}

/// Whether two statements of headings are the same, where there may be none.
pub fn is_same_opening(a: &Option<Box<Opening>>, b: &Option<Box<Opening>>) -> bool
    ensures { result ≡ option_eq spec.same_opening (optional opening_of a.now) (optional opening_of b.now) }
{
    match (a, b) {
        (Some(x), Some(y)) => is_same_place(x.place, y.place) && is_same_act(&x.act, &y.act),
        (None, None) => true,
        _ => false,
    }
}
