//! Statements that hold others, from what was found of their parts.
ghost use Rattle.std.specs.Prelude.{◌≡◌, IfOk};
ghost use Rattle.gr_tree.specs.Statements.{optional};
ghost use Rattle.gr_program.specs.Programs as pure;
ghost use Rattle.gr_program.specs.Views.{expr_of, opening_of, stmt_of, stmts_of, case_on};
ghost use Rattle.gr_types.specs.ActViews.{awaited_of};
ghost use Rattle.gr_types.specs.StatementParts.{made_of, repeated_by};

use crate::communications::Awaited;
use crate::headings::{ForParts, IfParts, LoopParts, RangeParts};
use gr_program as checked;
use gr_program::Case;
use gr_scan::token::Place;
use std::alloc::{AllocError, Global};

/// What a statement does, which is one statement of the program or none.
pub fn listed(alloc: Global, stmt: Option<checked::Stmt>) -> Result<Vec<checked::Stmt>, AllocError>
    ensures { IfOk result (λ v. stmts_of v.items ≡ made_of stmt) }
{
    let mut stmts = Vec::new(alloc);
    let Some(stmt) = stmt else {
        return Ok(stmts);
    };
    stmts.push(stmt)?;
    Ok(stmts)
}

pub fn conditional(
    place: Place,
    parts: IfParts,
    body: Vec<checked::Stmt>,
    otherwise: Vec<checked::Stmt>,
) -> checked::Stmt
    ensures { stmt_of result ≡ pure.If place (optional opening_of parts.init) (expr_of parts.condition) (stmts_of body.items)
        (stmts_of otherwise.items) }
{
    let IfParts { init, condition } = parts;
    checked::forms::conditional(place, init, condition, body, otherwise)
}

pub fn repeated(place: Place, parts: ForParts, body: Vec<checked::Stmt>) -> checked::Stmt
    ensures { stmt_of result ≡ repeated_by place parts (stmts_of body.items) }
{
    match parts {
        ForParts::Loop(
            LoopParts {
                init,
                condition,
                post,
            },
        ) => checked::forms::repeated(place, init, condition, post, body),
        ForParts::Range(RangeParts { target, channel }) => {
            checked::forms::ranged(place, target, channel, body)
        }
    }
}

pub fn awaited_case(awaited: Awaited, body: Vec<checked::Stmt>) -> Case
    ensures { case_on result ≡ awaited_of awaited (stmts_of body.items) }
{
    match awaited {
        Awaited::Send { channel, value } => checked::forms::send_case(channel, value, body),
        Awaited::Receive {
            targets,
            channel,
            zero,
        } => checked::forms::receive_case(targets, channel, zero, body),
    }
}
