//! Whether an evaluation stops the program, without its values.
ghost use Rattle.std.specs.Prelude.{◌≡◌, ◌≢◌, slice_get};
ghost use Rattle.gr_code.specs.CodeViews.{operand_of, operands_of};
ghost use Rattle.gr_rules.specs.Outcomes.{wrong};
ghost use Rattle.gr_rules.specs.Evaluation as rules;
ghost use Rattle.gr_eval.specs.Stops.{is_fault, updated};

use crate::evaluation::{held, look};
use crate::operators::operate_seen;
use gr_base::Value;
use gr_code::code::Operand;
use gr_tree::BinaryOp;

/// Whether the evaluation of the operand stops the program. It takes no memory.
pub fn faults(cells: &[Option<Value>], operand: &Operand) -> bool
    requires { rules.evaluate cells.now (operand_of operand.now) ≢ wrong }
    ensures { result ≡ is_fault (rules.evaluate cells.now (operand_of operand.now)) }
{
    match look(cells, operand) {
        Ok(_) => false,
        Err(_) => true,
    }
}

/// Whether the evaluation of these operands, from left to right, stops the program. It takes no memory.
pub fn any_faults(cells: &[Option<Value>], operands: &[Operand]) -> bool
    requires { rules.evaluate_all cells.now (operands_of operands.now) ≢ wrong }
    ensures { result ≡ is_fault (rules.evaluate_all cells.now (operands_of operands.now)) }
{
    for operand in operands {
        if faults(cells, operand) {
            return true;
        }
    }
    false
}

/// Whether an operator on what a cell has, and on the value of the operand, stops the program. It takes no memory.
pub fn update_faults(cells: &[Option<Value>], cell: u32, op: BinaryOp, operand: &Operand) -> bool
    requires { updated op (rules.evaluate cells.now (operand_of operand.now)) (rules.held (slice_get cells.now cell)) ≢ wrong }
    ensures { result ≡ is_fault (updated op (rules.evaluate cells.now (operand_of operand.now))
        (rules.held (slice_get cells.now cell))) }
{
    let Ok(right) = look(cells, operand) else {
        return true;
    };
    let left = held(cells, cell);
    match operate_seen(op, left, right) {
        Ok(_) => false,
        Err(_) => true,
    }
}
