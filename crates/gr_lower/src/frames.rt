//! How many cells the frames of a function have.
ghost use Rattle.std.specs.Prelude.{◌≡◌, ◌+◌, max, IfOk};
ghost use Rattle.gr_code.specs.CodeViews.{action_of, arm_of, arms_of, instruction_of, instructions_of};
ghost use Rattle.gr_lower.specs.Lowered as spec;

use crate::parts::sum;
use gr_base::NoMemory;
use gr_code::code::{Action, Arm, Instruction};

fn larger(a: usize, b: usize) -> usize
    ensures { result ≡ max a b }
{
    if a < b { b } else { a }
}

/// The cells up to this one, with it.
fn cells_to(slot: u32) -> Result<usize, NoMemory>
    ensures { IfOk result (λ n. n ≡ slot + 1) }
{
    sum(slot as usize, 1)
}

fn action_cells(action: &Action) -> Result<usize, NoMemory>
    ensures { IfOk result (λ n. n ≡ spec.action_cells (action_of action.now)) }
{
    match action {
        Action::AssignReceived { value, ok, .. } => Ok(larger(cells_to(*value)?, cells_to(*ok)?)),
        Action::Range { slot, .. } => cells_to(*slot),
        Action::Turn { slot, .. } => cells_to(*slot),
        _ => Ok(0),
    }
}

fn arm_cells(arm: &Arm) -> Result<usize, NoMemory>
    ensures { IfOk result (λ n. n ≡ spec.arm_cells (arm_of arm.now)) }
{
    match arm {
        Arm::Receive {
            into: Some((value, ok)),
            ..
        } => Ok(larger(cells_to(*value)?, cells_to(*ok)?)),
        _ => Ok(0),
    }
}

fn arms_cells(arms: &[Arm]) -> Result<usize, NoMemory>
    ensures { IfOk result (λ n. n ≡ spec.arms_cells 0 (arms_of arms.now)) }
{
    let mut found = 0usize;
    for arm in arms {
        found = larger(found, arm_cells(arm)?);
    }
    Ok(found)
}

fn cells_for(instruction: &Instruction) -> Result<usize, NoMemory>
    ensures { IfOk result (λ n. n ≡ spec.cells_for (instruction_of instruction.now)) }
{
    match instruction {
        Instruction::Part {
            slot: Some(slot),
            ..
        } => cells_to(*slot),
        Instruction::Part { slot: None, .. } => Ok(0),
        Instruction::Decide { slot, .. } => cells_to(*slot),
        Instruction::Perform { action, .. } => action_cells(action),
        Instruction::Choose { arms } => arms_cells(arms),
    }
}

/// The cells of this many variables, and of the temporaries of the instructions.
pub fn cells_of(variables: usize, instructions: &[Instruction]) -> Result<usize, NoMemory>
    ensures { IfOk result (λ n. n ≡ spec.cells_of variables (instructions_of instructions.now)) }
{
    let mut found = variables;
    for instruction in instructions {
        found = larger(found, cells_for(instruction)?);
    }
    Ok(found)
}
