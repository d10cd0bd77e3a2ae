//! Equality of statements in programs.
ghost use Rattle.std.specs.Prelude.{◌≡◌, ◌&&◌, not};
ghost use Rattle.gr_program.specs.Views.{stmt_of, stmts_of, case_on, cases_of};
ghost use Rattle.gr_program.specs.Programs.{no_case};
ghost use Rattle.gr_program.specs.Sameness as spec;

use crate::act_equality::{
    are_same_targets, is_same_act, is_same_opening, is_same_place, is_same_target,
};
use crate::expr_equality::{is_same_expr, is_same_if_any, is_same_literal};
use crate::program::{Case, Stmt};

/// Whether two statements are the same but for the statements in them.
#[tactic(auto, using(crate::proofs::SameLists::either_kind))]
fn is_same_heading(a: &Stmt, b: &Stmt) -> bool
    ensures { result ≡ spec.same_heading (stmt_of a.now) (stmt_of b.now) }
{
    is_same_loop_heading(a, b) || is_same_plain_heading(a, b)
}

/// Whether two statements that are no loops are the same but for the statements in them.
fn is_same_plain_heading(a: &Stmt, b: &Stmt) -> bool
    ensures { result ≡ (not (spec.loops (stmt_of a.now)) && spec.same_heading (stmt_of a.now) (stmt_of b.now)) }
{
    match (a, b) {
        (Stmt::Act { place: m, act: x }, Stmt::Act { place: n, act: y }) => {
            is_same_place(*m, *n) && is_same_act(x, y)
        }
        (Stmt::Block(_), Stmt::Block(_)) => true,
        (
            Stmt::If {
                place: m,
                init: i,
                condition: c,
                ..
            },
            Stmt::If {
                place: n,
                init: j,
                condition: d,
                ..
            },
        ) => is_same_place(*m, *n) && is_same_opening(i, j) && is_same_expr(c, d),
        (Stmt::Select { place: m, .. }, Stmt::Select { place: n, .. }) => is_same_place(*m, *n),
        _ => false,
    }
}

/// Whether two loops are the same but for the statements in them.
fn is_same_loop_heading(a: &Stmt, b: &Stmt) -> bool
    ensures { result ≡ (spec.loops (stmt_of a.now) && spec.same_heading (stmt_of a.now) (stmt_of b.now)) }
{
    match (a, b) {
        (
            Stmt::For {
                place: m,
                init: i,
                condition: c,
                post: x,
                ..
            },
            Stmt::For {
                place: n,
                init: j,
                condition: d,
                post: y,
                ..
            },
        ) => is_same_place(*m, *n)
            && is_same_opening(i, j)
            && is_same_if_any(c, d)
            && is_same_opening(x, y),
        (
            Stmt::Range {
                place: m,
                target: x,
                channel: c,
                ..
            },
            Stmt::Range {
                place: n,
                target: y,
                channel: d,
                ..
            },
        ) => is_same_place(*m, *n) && is_same_target(x, y) && is_same_expr(c, d),
        _ => false,
    }
}

/// Whether two clauses are the same but for their bodies.
fn is_same_awaited(a: &Case, b: &Case) -> bool
    ensures { result ≡ spec.same_awaited (case_on a.now no_case) (case_on b.now no_case) }
{
    match (a, b) {
        (Case::Default(_), Case::Default(_)) => true,
        (
            Case::Send {
                channel: c,
                value: v,
                ..
            },
            Case::Send {
                channel: d,
                value: w,
                ..
            },
        ) => is_same_expr(c, d) && is_same_expr(v, w),
        (
            Case::Receive {
                targets: x,
                channel: c,
                zero: v,
                ..
            },
            Case::Receive {
                targets: y,
                channel: d,
                zero: w,
                ..
            },
        ) => are_same_targets(x, y) && is_same_expr(c, d) && is_same_literal(*v, *w),
        _ => false,
    }
}

#[cycle(same_stmts)]
fn is_same_stmt(a: &Stmt, b: &Stmt) -> bool
    ensures { result ≡ spec.same_stmt (stmt_of a.now) (stmt_of b.now) }
{
    if !is_same_heading(a, b) {
        return false;
    }
    match (a, b) {
        (Stmt::Act { .. }, Stmt::Act { .. }) => true,
        (Stmt::Block(x), Stmt::Block(y)) => are_same_stmts(x, y),
        (
            Stmt::If {
                body: x,
                otherwise: v,
                ..
            },
            Stmt::If {
                body: y,
                otherwise: w,
                ..
            },
        ) => are_same_stmts(x, y) && are_same_stmts(v, w),
        (Stmt::For { body: x, .. }, Stmt::For { body: y, .. }) => are_same_stmts(x, y),
        (Stmt::Range { body: x, .. }, Stmt::Range { body: y, .. }) => are_same_stmts(x, y),
        (Stmt::Select { cases: x, .. }, Stmt::Select { cases: y, .. }) => are_same_cases(x, y),
        _ => false,
    }
}

/// Whether two lists of statements are the same.
#[cycle(same_stmts)]
#[tactic(auto, using(crate::proofs::SameLists::other_stmts))]
pub fn are_same_stmts(a: &[Stmt], b: &[Stmt]) -> bool
    ensures { result ≡ spec.same_stmts (stmts_of a.now) (stmts_of b.now) }
{
    if a.len() != b.len() {
        return false;
    }
    for number in 0..a.len() {
        if !is_same_stmt(&a[number], &b[number]) {
            return false;
        }
    }
    true
}

#[cycle(same_stmts)]
fn is_same_case(a: &Case, b: &Case) -> bool
    ensures { result ≡ spec.same_first (case_on a.now no_case) (case_on b.now no_case) }
{
    if !is_same_awaited(a, b) {
        return false;
    }
    match (a, b) {
        (Case::Default(x), Case::Default(y)) => are_same_stmts(x, y),
        (Case::Send { body: x, .. }, Case::Send { body: y, .. }) => are_same_stmts(x, y),
        (Case::Receive { body: x, .. }, Case::Receive { body: y, .. }) => are_same_stmts(x, y),
        _ => false,
    }
}

#[cycle(same_stmts)]
#[tactic(auto, using(crate::proofs::SameLists::other_cases))]
fn are_same_cases(a: &[Case], b: &[Case]) -> bool
    ensures { result ≡ spec.same_cases (cases_of a.now) (cases_of b.now) }
{
    if a.len() != b.len() {
        return false;
    }
    for number in 0..a.len() {
        if !is_same_case(&a[number], &b[number]) {
            return false;
        }
    }
    true
}
