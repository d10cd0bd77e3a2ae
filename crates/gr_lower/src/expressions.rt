//! The code of the parts of expressions, and the operands that are left of them.
ghost use Rattle.std.specs.Prelude.{◌≡◌, ◌+◌, ◌-◌, ◌≤◌, ◌++◌, ◌∷◌, [], IfOk, OnOk, vec_len, Some};
ghost use Rattle.gr_program.specs.Views.{expr_of, exprs_of};
ghost use Rattle.gr_rules.specs.Operands as rules;
ghost use Rattle.gr_code.specs.Instructions as spec;
ghost use Rattle.gr_code.specs.CodeViews.{operand_of, operands_of, ask_of, instruction_of, instructions_of};
ghost use Rattle.gr_code.specs.Passing.{parts, parts_in, with_decision};
ghost use Rattle.gr_lower.specs.PartCode.{left as spec_left, left_in, code, code_in, left_binary, right_code};

use crate::parts::{abandon, count, is_logic, kept, kept_sum, push, sum};
use gr_base::NoMemory;
use gr_code::code::{Ask, Instruction, Operand};
use gr_program::{Expr, Literal};
use gr_tree::{BinaryOp, UnaryOp};
use std::alloc::Global;

/// One more instruction.
pub fn put(out: &mut Vec<Instruction>, instruction: Instruction) -> Result<(), NoMemory>
    ensures code { OnOk result (instructions_of out.new.items ≡ instructions_of out.old.items ++ instruction_of instruction
        ∷ []) }
    ensures grown { OnOk result (vec_len out.new ≡ vec_len out.old + 1) }
{
    Ok(out.push(instruction)?)
}

fn unary(alloc: Global, op: UnaryOp, operand: Operand) -> Result<Operand, NoMemory>
    ensures { IfOk result (λ x. operand_of x ≡ rules.Unary op (operand_of operand)) }
{
    Ok(Operand::Unary(op, Box::new(alloc, operand)?))
}

fn binary(alloc: Global, op: BinaryOp, left: Operand, right: Operand) -> Result<Operand, NoMemory>
    ensures { IfOk result (λ x. operand_of x ≡ rules.Binary op (operand_of left) (operand_of right)) }
{
    Ok(Operand::Binary(op, Box::new(alloc, left)?, Box::new(alloc, right)?))
}

fn decided(alloc: Global, op: BinaryOp, slot: usize, right: Operand) -> Result<Operand, NoMemory>
    ensures { IfOk result (λ x. operand_of x ≡ rules.Decided op slot (operand_of right)) }
{
    Ok(Operand::Decided(op, kept(slot)?, Box::new(alloc, right)?))
}

/// The temporary of a part after those of its operands, and the instruction after it.
fn numbers_of_part(first: usize, begins: usize, here: usize) -> Result<(u32, u32), NoMemory>
    requires { begins ≤ here }
    ensures { IfOk result (λ p. (p.0 ≡ first + (here - begins)) × (p.1 ≡ here + 1)) }
{
    let slot = kept_sum(first, here - begins)?;
    let on = kept_sum(here, 1)?;
    Ok((slot, on))
}

/// A part after those of its operands, which begin at an instruction, the first with the temporary `first`.
fn part(
    out: &mut Vec<Instruction>,
    ask: Ask,
    first: usize,
    begins: usize,
) -> Result<Operand, NoMemory>
    requires { begins ≤ vec_len out.old }
    ensures code { OnOk result (instructions_of out.new.items
        ≡ instructions_of out.old.items
        ++ spec.Part (ask_of ask) (Some (first + (vec_len out.old - begins))) (vec_len out.old + 1) ∷ []) }
    ensures grown { OnOk result (vec_len out.new ≡ vec_len out.old + 1) }
    ensures value { IfOk result (λ x. operand_of x ≡ rules.Variable (first + (vec_len out.old - begins))) }
{
    let (slot, on) = match numbers_of_part(first, begins, out.len()) {
        Ok(numbers) => numbers,
        Err(fault) => return abandon(ask, fault),
    };
    put(
        out,
        Instruction::Part {
            ask,
            slot: Some(slot),
            on,
        },
    )?;
    Ok(Operand::Variable(slot))
}

/// The temporary of a decision at `here`, where it leads when it settles, and where its right operand begins.
fn numbers_of_decision(slot: usize, here: usize, passed: usize) -> Result<(u32, u32, u32), NoMemory>
    ensures { IfOk result (λ p. (p.0 ≡ slot) × ((p.1 ≡ here + 1 + passed) × (p.2 ≡ here + 1))) }
{
    let right = sum(here, 1)?;
    let settled = kept_sum(right, passed)?;
    Ok((kept(slot)?, settled, kept(right)?))
}

/// The decision of `&&` or `||` before the parts of its right operand.
fn decide(
    out: &mut Vec<Instruction>,
    op: BinaryOp,
    left: Operand,
    slot: usize,
    passed: usize,
) -> Result<(), NoMemory>
    ensures code { OnOk result (instructions_of out.new.items ≡ instructions_of out.old.items
        ++ spec.Decide op (operand_of left) slot (vec_len out.old + 1 + passed) (vec_len out.old + 1) ∷ []) }
    ensures grown { OnOk result (vec_len out.new ≡ vec_len out.old + 1) }
{
    let (slot, settled, right) = match numbers_of_decision(slot, out.len(), passed) {
        Ok(numbers) => numbers,
        Err(fault) => return abandon(left, fault),
    };
    put(
        out,
        Instruction::Decide {
            op,
            left,
            slot,
            settled,
            right,
        },
    )
}

/// Writes the instructions of the parts of an expression, the first with the temporary `first`. Answers the operand that is
/// left.
#[cycle(lowering)]
pub fn lower_expr(
    alloc: Global,
    out: &mut Vec<Instruction>,
    expr: &Expr,
    first: usize,
) -> Result<Operand, NoMemory>
    ensures code { OnOk result (instructions_of out.new.items
        ≡ instructions_of out.old.items ++ code (rules.operand_of (expr_of expr.now)) first (vec_len out.old)) }
    ensures grown { OnOk result (vec_len out.new ≡ vec_len out.old + parts (rules.operand_of (expr_of expr.now))) }
    ensures value { IfOk result (λ x. operand_of x ≡ spec_left (rules.operand_of (expr_of expr.now)) first) }
{
    let begins = out.len();
    match expr {
        Expr::Literal(value) => Ok(Operand::Literal(*value)),
        Expr::Variable(number) => Ok(Operand::Variable(kept(*number)?)),
        Expr::Unary(op, operand) => {
            let operand = lower_expr(alloc, out, operand, first)?;
            unary(alloc, *op, operand)
        }
        Expr::Binary(op, left, right) => {
            let left = lower_expr(alloc, out, left, first)?;
            match sum(first, out.len() - begins) {
                Ok(next) => lower_right(alloc, out, right, *op, left, next),
                Err(fault) => abandon(left, fault),
            }
        }
        Expr::Receive(channel, zero) => {
            let channel = lower_expr(alloc, out, channel, first)?;
            let zero = *zero;
            part(out, Ask::Receive { channel, zero }, first, begins)
        }
        Expr::Call(function, arguments) => {
            let function = kept(*function)?;
            let arguments = lower_exprs(alloc, out, arguments, first)?;
            part(
                out,
                Ask::Call {
                    function,
                    arguments,
                },
                first,
                begins,
            )
        }
        Expr::Len(channel) => {
            let channel = lower_expr(alloc, out, channel, first)?;
            part(out, Ask::Len { channel }, first, begins)
        }
        Expr::Cap(channel) => {
            let channel = lower_expr(alloc, out, channel, first)?;
            part(out, Ask::Cap { channel }, first, begins)
        }
        Expr::Make => {
            let size = Operand::Literal(Literal::Number(0));
            part(out, Ask::Make { size }, first, begins)
        }
        Expr::MakeSized(size) => {
            let size = lower_expr(alloc, out, size, first)?;
            part(out, Ask::Make { size }, first, begins)
        }
    }
}

/// The rest of a binary expression, whose left operand is done: its right operand, after a decision where that has parts.
#[cycle(lowering)]
fn lower_right(
    alloc: Global,
    out: &mut Vec<Instruction>,
    right: &Expr,
    op: BinaryOp,
    left: Operand,
    next: usize,
) -> Result<Operand, NoMemory>
    ensures code { OnOk result (instructions_of out.new.items ≡ instructions_of out.old.items
        ++ right_code op (operand_of left) (parts (rules.operand_of (expr_of right.now))) next (vec_len out.old)
        (code (rules.operand_of (expr_of right.now)))) }
    ensures grown { OnOk result (vec_len out.new
        ≡ vec_len out.old + with_decision op (parts (rules.operand_of (expr_of right.now)))) }
    ensures value { IfOk result (λ x. operand_of x
        ≡ left_binary op (operand_of left) (parts (rules.operand_of (expr_of right.now))) next
        (spec_left (rules.operand_of (expr_of right.now)))) }
{
    let passed = match count(right) {
        Ok(passed) => passed,
        Err(fault) => return abandon(left, fault),
    };
    if passed == 0 || !is_logic(op) {
        return match lower_expr(alloc, out, right, next) {
            Ok(right) => binary(alloc, op, left, right),
            Err(fault) => abandon(left, fault),
        };
    }
    decide(out, op, left, next, passed)?;
    let right = lower_expr(alloc, out, right, sum(next, 1)?)?;
    decided(alloc, op, next, right)
}

/// Writes the parts of several expressions, one after another, and answers what is left of each.
#[cycle(lowering)]
pub fn lower_exprs(
    alloc: Global,
    out: &mut Vec<Instruction>,
    exprs: &[Expr],
    first: usize,
) -> Result<Vec<Operand>, NoMemory>
    ensures code { OnOk result (instructions_of out.new.items
        ≡ instructions_of out.old.items ++ code_in (rules.operands_of (exprs_of exprs.now)) first (vec_len out.old)) }
    ensures grown { OnOk result (vec_len out.new ≡ vec_len out.old + parts_in (rules.operands_of (exprs_of exprs.now))) }
    ensures value { IfOk result (λ xs. operands_of xs.items ≡ left_in (rules.operands_of (exprs_of exprs.now)) first) }
{
    let begins = out.len();
    let mut operands = Vec::new(alloc);
    for expr in exprs {
        let next = sum(first, out.len() - begins)?;
        let operand = lower_expr(alloc, out, expr, next)?;
        push(&mut operands, operand)?;
    }
    Ok(operands)
}
