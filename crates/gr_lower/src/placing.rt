//! The lines on which the statements of instructions begin.
ghost use Rattle.std.specs.Prelude.{◌≡◌, ◌+◌, ◌++◌, ◌∷◌, [], replicate, IfOk, OnOk};
ghost use Rattle.gr_tree.specs.Statements.{optional};
ghost use Rattle.gr_program.specs.Programs.{Cases};
ghost use Rattle.gr_program.specs.Views.{opening_of, stmt_of, stmts_of, case_on, cases_of};
ghost use Rattle.gr_lower.specs.Lines.{opening_lines, stmt_lines, stmts_lines, cases_lines};
ghost use Rattle.gr_lower.specs.Lowered.{body_lines};

use crate::parts::{kept, sum};
use crate::sizing::{count_cases, size_of_act, size_of_targets, size_of_test, size_of_use};
use gr_base::NoMemory;
use gr_program::Stmt;
use gr_program::program::{Case, Opening};
use gr_scan::token::Place;
use std::alloc::Global;

fn mark(lines: &mut Vec<u32>, many: usize, line: usize) -> Result<(), NoMemory>
    ensures { OnOk result (lines.new.items ≡ lines.old.items ++ replicate many line) }
{
    let line = kept(line)?;
    for _ in 0..many {
        lines.push(line)?;
    }
    Ok(())
}

fn mark_opening(lines: &mut Vec<u32>, opening: &Option<Box<Opening>>) -> Result<(), NoMemory>
    ensures { OnOk result (lines.new.items ≡ lines.old.items ++ opening_lines (optional opening_of opening.now)) }
{
    match opening {
        Some(opening) => mark(lines, size_of_act(&opening.act)?, opening.place.line),
        None => Ok(()),
    }
}

#[cycle(marking)]
fn mark_stmt(lines: &mut Vec<u32>, stmt: &Stmt) -> Result<(), NoMemory>
    ensures { OnOk result (lines.new.items ≡ lines.old.items ++ stmt_lines (stmt_of stmt.now)) }
{
    match stmt {
        Stmt::Act { place, act } => mark(lines, size_of_act(act)?, place.line),
        Stmt::Block(body) => mark_stmts(lines, body),
        Stmt::If {
            place,
            init,
            condition,
            body,
            otherwise,
        } => {
            mark_opening(lines, init)?;
            mark(lines, size_of_use(condition)?, place.line)?;
            mark_stmts(lines, body)?;
            mark_stmts(lines, otherwise)
        }
        Stmt::For {
            place,
            init,
            condition,
            post,
            body,
        } => {
            mark_opening(lines, init)?;
            mark(lines, size_of_test(condition)?, place.line)?;
            mark_stmts(lines, body)?;
            mark_opening(lines, post)
        }
        Stmt::Range {
            place,
            channel,
            body,
            ..
        } => {
            mark(lines, size_of_use(channel)?, place.line)?;
            mark(lines, 3, place.line)?;
            mark_stmts(lines, body)
        }
        Stmt::Select { place, cases } => {
            mark(lines, sum(count_cases(cases)?, 1)?, place.line)?;
            mark_cases(lines, cases, place.line)
        }
    }
}

#[cycle(marking)]
fn mark_stmts(lines: &mut Vec<u32>, stmts: &[Stmt]) -> Result<(), NoMemory>
    ensures { OnOk result (lines.new.items ≡ lines.old.items ++ stmts_lines (stmts_of stmts.now)) }
{
    for stmt in stmts {
        mark_stmt(lines, stmt)?;
    }
    Ok(())
}

#[cycle(marking)]
fn mark_case(lines: &mut Vec<u32>, case: &Case, line: usize) -> Result<(), NoMemory>
    ensures { OnOk result ((others : Cases)
        → lines.new.items ++ cases_lines line others ≡ lines.old.items ++ cases_lines line (case_on case.now others)) }
{
    match case {
        Case::Default(body) => mark_stmts(lines, body),
        Case::Send { body, .. } => mark_stmts(lines, body),
        Case::Receive { targets, body, .. } => {
            mark(lines, size_of_targets(targets), line)?;
            mark_stmts(lines, body)
        }
    }
}

#[cycle(marking)]
fn mark_cases(lines: &mut Vec<u32>, cases: &[Case], line: usize) -> Result<(), NoMemory>
    ensures { OnOk result (lines.new.items ≡ lines.old.items ++ cases_lines line (cases_of cases.now)) }
{
    for case in cases {
        mark_case(lines, case, line)?;
    }
    Ok(())
}

/// The lines of the instructions of a function's body.
pub fn lines_of(alloc: Global, body: &[Stmt], closing: Place) -> Result<Vec<u32>, NoMemory>
    ensures { IfOk result (λ lines. lines.items ≡ body_lines (stmts_of body.now) closing) }
{
    let mut lines = Vec::new(alloc);
    mark_stmts(&mut lines, body)?;
    lines.push(kept(closing.line)?)?;
    Ok(lines)
}
