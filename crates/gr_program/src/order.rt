//! Whether the statements of a function stand in the order of its text.
ghost use Rattle.std.specs.Prelude.{◌≡◌};
ghost use Rattle.gr_tree.specs.Statements.{optional};
ghost use Rattle.gr_program.specs.Order.{stands_in_order};
ghost use Rattle.gr_program.specs.LastStarts as spec;
ghost use Rattle.gr_program.specs.Views.{opening_of, stmt_of, stmts_of, cases_of};

use crate::program::{Case, Opening, Stmt};
use gr_scan::token::Place;

/// The start of the statement at this place, if it comes after the last one.
fn next_start(last: usize, place: Place) -> Option<usize>
    ensures { result ≡ spec.next_start last place.start }
{
    if last < place.start {
        Some(place.start)
    } else {
        None
    }
}

fn after_opening(last: usize, opening: &Option<Box<Opening>>) -> Option<usize>
    ensures { result ≡ spec.after_opening (optional opening_of opening.now) last }
{
    match opening {
        Some(opening) => next_start(last, opening.place),
        None => Some(last),
    }
}

/// The last start of these statements, if each begins after the one before it.
#[cycle(ordering)]
fn after_body(last: usize, body: &[Stmt]) -> Option<usize>
    ensures { result ≡ spec.after_body (stmts_of body.now) last }
{
    let mut start = last;
    for stmt in body {
        start = after_stmt(start, stmt)?;
    }
    Some(start)
}

#[cycle(ordering)]
fn after_cases(last: usize, cases: &[Case]) -> Option<usize>
    ensures { result ≡ spec.after_cases (cases_of cases.now) last }
{
    let mut start = last;
    for case in cases {
        start = after_case(start, case)?;
    }
    Some(start)
}

#[cycle(ordering)]
fn after_case(last: usize, case: &Case) -> Option<usize>
    ensures { result ≡ spec.after_body (spec.case_body case.now) last }
{
    match case {
        Case::Default(body) => after_body(last, body),
        Case::Send { body, .. } => after_body(last, body),
        Case::Receive { body, .. } => after_body(last, body),
    }
}

#[cycle(ordering)]
fn after_stmt(last: usize, stmt: &Stmt) -> Option<usize>
    ensures { result ≡ spec.after_stmt (stmt_of stmt.now) last }
{
    match stmt {
        Stmt::Act { place, .. } => next_start(last, *place),
        Stmt::Block(body) => after_body(last, body),
        Stmt::If {
            place,
            init,
            body,
            otherwise,
            ..
        } => {
            let start = after_opening(next_start(last, *place)?, init)?;
            after_body(after_body(start, body)?, otherwise)
        }
        Stmt::For {
            place,
            init,
            post,
            body,
            ..
        } => {
            let start = after_opening(next_start(last, *place)?, init)?;
            after_body(after_opening(start, post)?, body)
        }
        Stmt::Range { place, body, .. } => after_body(next_start(last, *place)?, body),
        Stmt::Select { place, cases } => after_cases(next_start(last, *place)?, cases),
    }
}

/// Whether the statements of a function that begins at a place begin one after another, and all before its closing brace.
#[tactic(auto, using(crate::proofs::Starts::order_by_last))]
pub fn is_in_order(start: usize, body: &[Stmt], closing: usize) -> bool
    ensures { result ≡ stands_in_order start (stmts_of body.now) closing }
{
    match after_body(start, body) {
        Some(last) => last < closing,
        None => false,
    }
}
