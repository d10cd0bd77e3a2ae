//! Receives, sends, and what the clauses of a select wait for.
ghost use Rattle.std.specs.Prelude.{◌≡◌};
ghost use Rattle.gr_tree.specs.Exprs.{tree_of, names_of};
ghost use Rattle.gr_tree.specs.Statements as trees;
ghost use Rattle.gr_tree.specs.Statements.{comm_of};
ghost use Rattle.gr_exprs.specs.Tables.{scope_of};
ghost use Rattle.gr_exprs.specs.FunctionTables.{functions_of};
ghost use Rattle.gr_types.specs.Acting.{received_from};
ghost use Rattle.gr_types.specs.FindingStatements as spec;
ghost use Rattle.gr_exprs.specs.Checking.{Agrees, meaning_of, typed_of};
ghost use Rattle.gr_types.specs.ActViews.{awaited_of, sent_of};

use crate::assigning::definition::define_targets;
use crate::assigning::targets::targets_for;
use gr_exprs::expressions::find;
use gr_exprs::functions::Functions;
use gr_exprs::operands::{Operand, as_channel, as_type};
use gr_exprs::refusal::{RefusalCode, RuleError};
use gr_exprs::scope::Scope;
use gr_exprs::types::{may_receive, may_send, zero};
use gr_program as checked;
use gr_program::{Literal, Type};
use gr_tree::{Communication, Expr, UnaryOp};
use std::alloc::Global;

/// What a clause of a select waits for.
#[derive(Drop)]
pub enum Awaited {
    Send {
        channel: checked::Expr,
        value: checked::Expr,
    },
    /// A receive, with the targets for its value and for whether there was one, as many as are asked for.
    Receive {
        targets: Vec<Option<usize>>,
        channel: checked::Expr,
        zero: Literal,
    },
}

/// A value as a channel that values are received from: the type of its elements, and the channel.
pub fn received_from(value: Operand) -> Result<(Type, checked::Expr), RuleError>
    ensures { Agrees typed_of result (received_from (meaning_of value)) }
{
    let channel = as_channel(value)?;
    if !may_receive(channel.direction) {
        return Err(RuleError::Broken(RefusalCode::WrongDirection));
    }
    Ok((channel.element, channel.term))
}

/// A receive: the type of the channel's elements, and the channel.
#[tactic(auto, unfolding(crate::specs::FindingStatements::receive_in))]
pub fn receive_of(
    alloc: Global,
    functions: &Functions,
    scope: &Scope,
    expr: &Expr,
) -> Result<(Type, checked::Expr), RuleError>
    ensures { Agrees typed_of result (spec.receive_in (functions_of functions.now) (scope_of scope.now) (tree_of expr.now)) }
{
    match expr {
        Expr::Paren(inner) => receive_of(alloc, functions, scope, inner),
        Expr::Unary(UnaryOp::Receive, operand) => {
            received_from(find(alloc, functions, scope, operand)?)
        }
        _ => Err(RuleError::Broken(RefusalCode::WrongForm)),
    }
}

/// A send: the channel, and the value.
#[tactic(auto, unfolding(crate::specs::FindingStatements::send_in))]
pub fn send_of(
    alloc: Global,
    functions: &Functions,
    scope: &Scope,
    channel: &Expr,
    value: &Expr,
) -> Result<(checked::Expr, checked::Expr), RuleError>
    ensures { Agrees sent_of result
        (spec.send_in (functions_of functions.now) (scope_of scope.now) (tree_of channel.now) (tree_of value.now)) }
{
    let channel = as_channel(find(alloc, functions, scope, channel)?)?;
    if !may_send(channel.direction) {
        return Err(RuleError::Broken(RefusalCode::WrongDirection));
    }
    let value = as_type(&channel.element, find(alloc, functions, scope, value)?)?;
    Ok((channel.term, value))
}

/// What is waited for by a clause that assigns to these names.
#[tactic(auto, unfolding(crate::specs::FindingStatements::comm_in))]
fn awaits_assigned(
    alloc: Global,
    functions: &Functions,
    scope: &Scope,
    names: &[Vec<u8>],
    expr: &Expr,
) -> Result<Awaited, RuleError>
    ensures { Agrees (λ o. (awaited_of o, scope_of scope.now)) result
        (spec.comm_in (functions_of functions.now) (scope_of scope.now)
        (trees.AssignTo (names_of names.now) (tree_of expr.now))) }
{
    let (element, channel) = receive_of(alloc, functions, scope, expr)?;
    let zero = zero(&element);
    let types = [element, Type::Bool];
    let targets = targets_for(alloc, functions, scope, names, &types)?;
    Ok(Awaited::Receive {
        targets,
        channel,
        zero,
    })
}

/// What is waited for by a clause that defines these names.
#[tactic(auto, unfolding(crate::specs::FindingStatements::comm_in))]
fn awaits_defined(
    alloc: Global,
    functions: &Functions,
    scope: &mut Scope,
    names: &[Vec<u8>],
    expr: &Expr,
) -> Result<Awaited, RuleError>
    ensures { Agrees (λ o. (awaited_of o, scope_of scope.new)) result
        (spec.comm_in (functions_of functions.now) (scope_of scope.old)
        (trees.DefineAs (names_of names.now) (tree_of expr.now))) }
{
    let (element, channel) = receive_of(alloc, functions, scope, expr)?;
    let zero = zero(&element);
    let types = [element, Type::Bool];
    let targets = define_targets(alloc, functions, scope, names, &types)?;
    Ok(Awaited::Receive {
        targets,
        channel,
        zero,
    })
}

/// What a clause waits for; its names are declared in the block of the place.
#[tactic(auto, unfolding(crate::specs::FindingStatements::comm_in))]
pub fn awaits(
    alloc: Global,
    functions: &Functions,
    scope: &mut Scope,
    communication: &Communication,
) -> Result<Awaited, RuleError>
    ensures { Agrees (λ o. (awaited_of o, scope_of scope.new)) result
        (spec.comm_in (functions_of functions.now) (scope_of scope.old) (comm_of communication.now)) }
{
    match communication {
        Communication::Send(channel, value) => {
            let (channel, value) = send_of(alloc, functions, scope, channel, value)?;
            Ok(Awaited::Send { channel, value })
        }
        Communication::Receive(expr) => {
            let (element, channel) = receive_of(alloc, functions, scope, expr)?;
            let targets = Vec::new(alloc);
            Ok(Awaited::Receive {
                targets,
                channel,
                zero: zero(&element),
            })
        }
        Communication::Assign(names, expr) => awaits_assigned(alloc, functions, scope, names, expr),
        Communication::Define(names, expr) => awaits_defined(alloc, functions, scope, names, expr),
    }
}
