//! What is done with operands: their parts are written first, and then an instruction that takes what is left of them.

ghost use Rattle.std.specs.Prelude.{◌≡◌, ◌+◌, ◌++◌, ◌∷◌, [], IfOk, OnOk, vec_len};
ghost use Rattle.gr_program.specs.Views.{expr_of, exprs_of};
ghost use Rattle.gr_rules.specs.Operands as rules;
ghost use Rattle.gr_code.specs.Instructions as spec;
ghost use Rattle.gr_code.specs.CodeViews.{operand_of, operands_of, action_of, instructions_of};
ghost use Rattle.gr_code.specs.Passing.{parts_in};
ghost use Rattle.gr_lower.specs.PartCode.{left_in, code_in};
ghost use Rattle.gr_lower.specs.StatementCode.{performed};

use crate::expressions::{lower_expr, lower_exprs, put};
use crate::parts::{abandon, sum};
use gr_base::NoMemory;
use gr_code::code::{Action, Instruction, Operand};
use gr_program::Expr;
use std::alloc::Global;

/// What is done with operands.
pub fn perform(
    out: &mut Vec<Instruction>,
    action: Action,
    operands: Vec<Operand>,
) -> Result<(), NoMemory>
    ensures code { OnOk result (instructions_of out.new.items
        ≡ instructions_of out.old.items ++ spec.Perform (action_of action) (operands_of operands.items) ∷ []) }
    ensures grown { OnOk result (vec_len out.new ≡ vec_len out.old + 1) }
{
    put(out, Instruction::Perform { action, operands })
}

/// One operand.
pub fn single(alloc: Global, operand: Operand) -> Result<Vec<Operand>, NoMemory>
    ensures { IfOk result (λ xs. operands_of xs.items ≡ rules.one (operand_of operand)) }
{
    let mut operands = Vec::new(alloc);
    operands.push(operand)?;
    Ok(operands)
}

/// Two operands.
pub fn pair(alloc: Global, first: Operand, second: Operand) -> Result<Vec<Operand>, NoMemory>
    ensures { IfOk result (λ xs. operands_of xs.items ≡ rules.two (operand_of first) (operand_of second)) }
{
    let mut operands = Vec::new(alloc);
    operands.push(first)?;
    operands.push(second)?;
    Ok(operands)
}

/// Writes the parts of expressions, and then what is done with what is left of them.
pub fn perform_all(
    alloc: Global,
    out: &mut Vec<Instruction>,
    exprs: &[Expr],
    first: usize,
    action: Action,
) -> Result<(), NoMemory>
    ensures code { OnOk result (instructions_of out.new.items
        ≡ instructions_of out.old.items
        ++ performed (rules.operands_of (exprs_of exprs.now)) first (vec_len out.old) (action_of action)) }
    ensures grown { OnOk result (vec_len out.new ≡ vec_len out.old + (parts_in (rules.operands_of (exprs_of exprs.now)) + 1)) }
{
    match lower_exprs(alloc, out, exprs, first) {
        Ok(operands) => perform(out, action, operands),
        Err(fault) => abandon(action, fault),
    }
}

/// Writes the parts of one expression, and then what is done with what is left of it.
pub fn perform_one(
    alloc: Global,
    out: &mut Vec<Instruction>,
    expr: &Expr,
    first: usize,
    action: Action,
) -> Result<(), NoMemory>
    ensures code { OnOk result (instructions_of out.new.items
        ≡ instructions_of out.old.items
        ++ performed (rules.one (rules.operand_of (expr_of expr.now))) first (vec_len out.old) (action_of action)) }
    ensures grown { OnOk result (vec_len out.new
        ≡ vec_len out.old + (parts_in (rules.one (rules.operand_of (expr_of expr.now))) + 1)) }
{
    let operand = match lower_expr(alloc, out, expr, first) {
        Ok(operand) => operand,
        Err(fault) => return abandon(action, fault),
    };
    match single(alloc, operand) {
        Ok(operands) => perform(out, action, operands),
        Err(fault) => abandon(action, fault),
    }
}

/// Writes the parts of two expressions, and answers what is left of them.
pub fn lower_two(
    alloc: Global,
    out: &mut Vec<Instruction>,
    channel: &Expr,
    value: &Expr,
    first: usize,
) -> Result<Vec<Operand>, NoMemory>
    ensures code { OnOk result (instructions_of out.new.items ≡ instructions_of out.old.items
        ++ code_in (rules.two (rules.operand_of (expr_of channel.now)) (rules.operand_of (expr_of value.now))) first
        (vec_len out.old)) }
    ensures grown { OnOk result (vec_len out.new ≡ vec_len out.old
        + parts_in (rules.two (rules.operand_of (expr_of channel.now)) (rules.operand_of (expr_of value.now)))) }
    ensures value { IfOk result (λ xs. operands_of xs.items
        ≡ left_in (rules.two (rules.operand_of (expr_of channel.now)) (rules.operand_of (expr_of value.now))) first) }
{
    let begins = out.len();
    let channel = lower_expr(alloc, out, channel, first)?;
    let next = match sum(first, out.len() - begins) {
        Ok(next) => next,
        Err(fault) => return abandon(channel, fault),
    };
    match lower_expr(alloc, out, value, next) {
        Ok(value) => pair(alloc, channel, value),
        Err(fault) => abandon(channel, fault),
    }
}

/// Writes the parts of two expressions, and then what is done with what is left of them.
pub fn perform_two(
    alloc: Global,
    out: &mut Vec<Instruction>,
    channel: &Expr,
    value: &Expr,
    first: usize,
    action: Action,
) -> Result<(), NoMemory>
    ensures code { OnOk result (instructions_of out.new.items ≡ instructions_of out.old.items
        ++ performed (rules.two (rules.operand_of (expr_of channel.now)) (rules.operand_of (expr_of value.now))) first
        (vec_len out.old) (action_of action)) }
    ensures grown { OnOk result (vec_len out.new ≡ vec_len out.old
        + (parts_in (rules.two (rules.operand_of (expr_of channel.now)) (rules.operand_of (expr_of value.now))) + 1)) }
{
    match lower_two(alloc, out, channel, value, first) {
        Ok(operands) => perform(out, action, operands),
        Err(fault) => abandon(action, fault),
    }
}

/// Writes what is done with no operands.
pub fn perform_none(
    alloc: Global,
    out: &mut Vec<Instruction>,
    action: Action,
) -> Result<(), NoMemory>
    ensures code { OnOk result (instructions_of out.new.items ≡ instructions_of out.old.items
        ++ spec.Perform (action_of action) rules.nothing ∷ []) }
    ensures grown { OnOk result (vec_len out.new ≡ vec_len out.old + 1) }
{
    perform(out, action, Vec::new(alloc))
}
