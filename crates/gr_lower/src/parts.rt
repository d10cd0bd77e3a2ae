//! How many parts expressions have, and numbers as code keeps them.
ghost use Rattle.std.specs.Prelude.{◌≡◌, ◌+◌, ◌++◌, ◌∷◌, [], Err, IfOk, OnOk};
ghost use Rattle.gr_program.specs.Views.{expr_of, exprs_of};
ghost use Rattle.gr_rules.specs.Operands.{operand_of, operands_of};
ghost use Rattle.gr_rules.specs.Parts.{is_logical};
ghost use Rattle.gr_code.specs.Passing.{parts, parts_in, with_decision};

use gr_base::NoMemory;
use gr_program::Expr;
use gr_tree::BinaryOp;
use std::alloc::Global;

/// The sum, where there is such a number: no memory holds more instructions.
pub fn sum(a: usize, b: usize) -> Result<usize, NoMemory>
    ensures { IfOk result (λ n. n ≡ a + b) }
{
    a.checked_add(b).ok_or(NoMemory)
}

/// The number as code keeps it. One of more than 32 bits is out of memory.
pub fn kept(number: usize) -> Result<u32, NoMemory>
    ensures { IfOk result (λ n. n ≡ number) }
{
    u32::try_from(number).map_err(|_| NoMemory)
}

/// The sum as code keeps it.
pub fn kept_sum(a: usize, b: usize) -> Result<u32, NoMemory>
    ensures { IfOk result (λ n. n ≡ a + b) }
{
    kept(sum(a, b)?)
}

/// This error; what was written for the code is dropped.
///
/// A proof sees what is dropped by this call as one value. Where `?` drops it, the proof takes it apart.
pub fn abandon<V: Drop, T>(_written: V, error: NoMemory) -> Result<T, NoMemory>
    ensures { result ≡ Err error }
{
    Err(error)
}

/// Adds a value to these.
pub fn push<T: Drop>(values: &mut Vec<T>, value: T) -> Result<(), NoMemory>
    ensures items { OnOk result (values.new.items ≡ values.old.items ++ (value ∷ [])) }
{
    values.push(value)?;
    Ok(())
}

/// The number of a variable as code keeps it, if there is one.
pub fn kept_target(target: Option<usize>) -> Result<Option<u32>, NoMemory>
    ensures { IfOk result (λ kept. kept ≡ target) }
{
    match target {
        Some(number) => Ok(Some(kept(number)?)),
        None => Ok(None),
    }
}

/// A copy of the targets, as code keeps them.
pub fn kept_targets(alloc: Global, targets: &[Option<usize>]) -> Result<Vec<Option<u32>>, NoMemory>
    ensures { IfOk result (λ kept. kept.items ≡ targets.now) }
{
    let mut found = Vec::new(alloc);
    for target in targets {
        found.push(kept_target(*target)?)?;
    }
    Ok(found)
}

/// Whether the operator is `&&` or `||`.
pub fn is_logic(op: BinaryOp) -> bool
    ensures { result ≡ is_logical op }
{
    match op {
        BinaryOp::LogicalAnd | BinaryOp::LogicalOr => true,
        _ => false,
    }
}

/// The parts of a right operand, with the decision before them.
fn decided(op: BinaryOp, right: usize) -> Result<usize, NoMemory>
    ensures { IfOk result (λ n. n ≡ with_decision op right) }
{
    if right > 0 && is_logic(op) {
        return sum(right, 1);
    }
    Ok(right)
}

/// How many parts the expression has, with those of right operands that may be passed by.
#[cycle(counting)]
pub fn count(expr: &Expr) -> Result<usize, NoMemory>
    ensures { IfOk result (λ n. n ≡ parts (operand_of (expr_of expr.now))) }
{
    match expr {
        Expr::Literal(_) | Expr::Variable(_) => Ok(0),
        Expr::Make => Ok(1),
        Expr::Unary(_, operand) => count(operand),
        Expr::Binary(op, left, right) => sum(count(left)?, decided(*op, count(right)?)?),
        Expr::Receive(operand, _) | Expr::Len(operand) | Expr::Cap(operand) => sum(
            count(operand)?,
            1,
        ),
        Expr::MakeSized(operand) => sum(count(operand)?, 1),
        Expr::Call(_, arguments) => sum(count_all(arguments)?, 1),
    }
}

/// How many parts several expressions have together.
#[cycle(counting)]
pub fn count_all(exprs: &[Expr]) -> Result<usize, NoMemory>
    ensures { IfOk result (λ n. n ≡ parts_in (operands_of (exprs_of exprs.now))) }
{
    let mut found = 0usize;
    for expr in exprs {
        found = sum(found, count(expr)?)?;
    }
    Ok(found)
}
