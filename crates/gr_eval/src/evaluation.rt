//! Evaluation of operands.
ghost use Rattle.std.specs.Prelude.{◌≡◌, ◌≢◌, IfOk, IfErr, IfSome, IsOk, length, slice_get};
ghost use Rattle.gr_base.specs.declared.values.Value.TheVariants as values;
ghost use Rattle.gr_code.specs.CodeViews.{operand_of, operands_of};
ghost use Rattle.gr_rules.specs.Outcomes.{gives, wrong};
ghost use Rattle.gr_rules.specs.Operands as operands;
ghost use Rattle.gr_rules.specs.Evaluation as rules;
ghost use Rattle.gr_eval.specs.Views.{value_of, scalar_outcome, seen_outcome};
ghost use Rattle.gr_eval.specs.Stops.{Stops, WantsName};

use crate::operators::{apply_seen, on_ints, operate_seen, settles_seen};
use crate::seen::{Scalar, Seen};
use crate::stop::Stop;
use gr_base::{Fault, Value};
use gr_code::code::Operand;
use gr_program::Literal;
use gr_tree::BinaryOp;
use std::alloc::Global;

/// The value in a cell that has one.
pub(crate) fn held<'a>(cells: &'a [Option<Value>], number: u32) -> Seen<'a>
    requires { rules.held (slice_get cells.now number) ≢ wrong }
    ensures { rules.held (slice_get cells.now number) ≡ gives (value_of result) }
{
    match cells.get(number as usize) {
        Some(Some(value)) => Seen::of(value),
        _ => unreachable!(),
    }
}

/// The value of an operand that has no operands of its own.
fn leaf<'a>(cells: &'a [Option<Value>], operand: &Operand) -> Option<Seen<'a>>
    requires { rules.evaluate cells.now (operand_of operand.now) ≢ wrong }
    ensures { IfSome result (λ v. rules.evaluate cells.now (operand_of operand.now) ≡ gives (value_of v)) }
{
    match operand {
        Operand::Literal(literal) => Some(Seen::of_literal(*literal)),
        Operand::Variable(number) => Some(held(cells, *number)),
        _ => None,
    }
}

/// The value of an operand that has no operands of its own, or of an operator on two such operands.
fn of_leaves<'a>(cells: &'a [Option<Value>], operand: &Operand) -> Option<Result<Seen<'a>, Fault>>
    requires { rules.evaluate cells.now (operand_of operand.now) ≢ wrong }
    ensures { IfSome result (λ r. rules.evaluate cells.now (operand_of operand.now) ≡ seen_outcome r) }
{
    match operand {
        Operand::Binary(op, left, right) => {
            let left = leaf(cells, left)?;
            if settles_seen(*op, left) {
                return Some(Ok(left));
            }
            let right = leaf(cells, right)?;
            Some(operate_seen(*op, left, right).map(|scalar| scalar.to_seen()))
        }
        _ => Some(Ok(leaf(cells, operand)?)),
    }
}

/// The number in a cell that has one.
pub fn number_in(cells: &[Option<Value>], cell: u32) -> Option<i64>
    ensures { IfSome result (λ n. rules.held (slice_get cells.now cell) ≡ gives (values.Int n)) }
{
    match cells.get(cell as usize) {
        Some(Some(Value::Int(n))) => Some(*n),
        _ => None,
    }
}

/// The number that the operand is, where that stands in a cell or in the code.
#[inline]
pub fn number_of(cells: &[Option<Value>], operand: &Operand) -> Option<i64>
    ensures { IfSome result (λ n. rules.evaluate cells.now (operand_of operand.now) ≡ gives (values.Int n)) }
{
    match operand {
        Operand::Variable(cell) => number_in(cells, *cell),
        Operand::Literal(Literal::Number(n)) => Some(*n),
        _ => None,
    }
}

/// The number of an operand that stands in a cell or in the code, or of an operator on two such operands.
#[inline]
fn number_from(cells: &[Option<Value>], operand: &Operand) -> Option<i64>
    requires { rules.evaluate cells.now (operand_of operand.now) ≢ wrong }
    ensures { IfSome result (λ n. rules.evaluate cells.now (operand_of operand.now) ≡ gives (values.Int n)) }
{
    let Operand::Binary(op, left, right) = operand else {
        return number_of(cells, operand);
    };
    let x = number_of(cells, left)?;
    let y = number_of(cells, right)?;
    match on_ints(*op, x, y) {
        Ok(Scalar::Int(n)) => Some(n),
        _ => None,
    }
}

/// What an operator gives on such numbers.
#[inline(never)]
fn of_nested(
    cells: &[Option<Value>],
    op: BinaryOp,
    left: &Operand,
    right: &Operand,
) -> Option<Result<Scalar, Fault>>
    requires { rules.evaluate cells.now (operands.Binary op (operand_of left.now) (operand_of right.now)) ≢ wrong }
    ensures { IfSome result (λ r. rules.evaluate cells.now (operands.Binary op (operand_of left.now) (operand_of right.now))
        ≡ scalar_outcome r) }
{
    let x = number_from(cells, left)?;
    let y = number_from(cells, right)?;
    Some(on_ints(op, x, y))
}

/// What the operand gives, where it is a number. The number stands in a cell or in the code, or an operator gives it. The
/// operands of that operator are such numbers, or operators on them.
#[inline]
pub fn of_numbers(cells: &[Option<Value>], operand: &Operand) -> Option<Result<Scalar, Fault>>
    requires { rules.evaluate cells.now (operand_of operand.now) ≢ wrong }
    ensures { IfSome result (λ r. rules.evaluate cells.now (operand_of operand.now) ≡ scalar_outcome r) }
{
    match operand {
        Operand::Binary(op, left, right) => {
            if let Some(x) = number_of(cells, left) {
                if let Some(y) = number_of(cells, right) {
                    return Some(on_ints(*op, x, y));
                }
            }
            of_nested(cells, *op, left, right)
        }
        _ => Some(Ok(Scalar::Int(number_of(cells, operand)?))),
    }
}

/// The value of the operand. A channel's name is lent from where it lies, since no operator makes a name.
pub(crate) fn look<'a>(cells: &'a [Option<Value>], operand: &Operand) -> Result<Seen<'a>, Fault>
    requires { rules.evaluate cells.now (operand_of operand.now) ≢ wrong }
    ensures { rules.evaluate cells.now (operand_of operand.now) ≡ seen_outcome result }
{
    match operand {
        Operand::Literal(literal) => Ok(Seen::of_literal(*literal)),
        Operand::Variable(number) => Ok(held(cells, *number)),
        Operand::Unary(op, inner) => Ok(apply_seen(*op, look(cells, inner)?).to_seen()),
        Operand::Binary(op, left, right) => {
            if let Some(result) = of_numbers(cells, operand) {
                return Ok(result?.to_seen());
            }
            let left = look(cells, left)?;
            if settles_seen(*op, left) {
                return Ok(left);
            }
            let right = look(cells, right)?;
            Ok(operate_seen(*op, left, right)?.to_seen())
        }
        Operand::Decided(op, number, right) => {
            let left = held(cells, *number);
            if settles_seen(*op, left) {
                return Ok(left);
            }
            look(cells, right)
        }
    }
}

/// The value of any operand.
#[inline(never)]
fn evaluate_any(alloc: Global, cells: &[Option<Value>], operand: &Operand) -> Result<Value, Stop>
    requires { rules.evaluate cells.now (operand_of operand.now) ≢ wrong }
    ensures ok { IfOk result (λ v. rules.evaluate cells.now (operand_of operand.now) ≡ gives v) }
    ensures stop { IfErr result (λ e. Stops e (rules.evaluate cells.now (operand_of operand.now))) }
    ensures needed { IfErr result (λ e. WantsName e (rules.evaluate cells.now (operand_of operand.now))) }
{
    if let Some(result) = of_leaves(cells, operand) {
        return Ok(result?.to_value(alloc)?);
    }
    Ok(look(cells, operand)?.to_value(alloc)?)
}

/// The value of the operand in a frame with these cells. Errors: the fault with which the program stops, and out of memory
/// for the name of a channel.
pub fn evaluate(alloc: Global, cells: &[Option<Value>], operand: &Operand) -> Result<Value, Stop>
    requires { rules.evaluate cells.now (operand_of operand.now) ≢ wrong }
    ensures ok { IfOk result (λ v. rules.evaluate cells.now (operand_of operand.now) ≡ gives v) }
    ensures stop { IfErr result (λ e. Stops e (rules.evaluate cells.now (operand_of operand.now))) }
    ensures needed { IfErr result (λ e. WantsName e (rules.evaluate cells.now (operand_of operand.now))) }
{
    match of_numbers(cells, operand) {
        Some(result) => Ok(result?.to_value()),
        None => evaluate_any(alloc, cells, operand),
    }
}

/// The values of the operands, from left to right. Errors: the fault of the first that has one, and out of memory, where there
/// are operands.
pub fn evaluate_all(
    alloc: Global,
    cells: &[Option<Value>],
    operands: &[Operand],
) -> Result<Vec<Value>, Stop>
    requires { rules.evaluate_all cells.now (operands_of operands.now) ≢ wrong }
    ensures ok { IfOk result (λ v. rules.evaluate_all cells.now (operands_of operands.now) ≡ gives v.items) }
    ensures stop { IfErr result (λ e. Stops e (rules.evaluate_all cells.now (operands_of operands.now))) }
    ensures none { length operands.now ≡ 0 → IsOk result }
{
    let mut values = Vec::with_capacity(alloc, operands.len())?;
    for operand in operands {
        let value = evaluate(alloc, cells, operand)?;
        values.push(value)?;
    }
    Ok(values)
}
