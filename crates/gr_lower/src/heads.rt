//! The instructions of statements before those of their bodies.
ghost use Rattle.std.specs.Prelude.{◌≡◌, ◌+◌, ◌++◌, ◌∷◌, [], IfOk, OnOk, vec_len};
ghost use Rattle.gr_tree.specs.Statements.{optional};
ghost use Rattle.gr_program.specs.Views.{expr_of, opening_of};
ghost use Rattle.gr_rules.specs.Operands as rules;
ghost use Rattle.gr_code.specs.Instructions as spec;
ghost use Rattle.gr_code.specs.CodeViews.{action_of, instructions_of};
ghost use Rattle.gr_code.specs.Passing.{parts_in};
ghost use Rattle.gr_lower.specs.Sizes.{tested, opening_size, targets_size};
ghost use Rattle.gr_lower.specs.StatementCode.{performed, targets_code};
ghost use Rattle.gr_lower.specs.Headings.{ways_of, if_heading, turn_of, for_heading};
ghost use Rattle.gr_lower.specs.TurnHeadings.{turn_heading, range_heading};

use crate::acts::{assign_pair, lower_opening};
use crate::choices::entry;
use crate::nesting::Ways;
use crate::parts::{abandon, kept, kept_sum, kept_target, kept_targets, sum};
use crate::performing::{perform, perform_none, perform_one, single};
use crate::sizing::{size_of_opening, size_of_test, size_of_use};
use gr_base::NoMemory;
use gr_code::code::{Action, Instruction, Operand};
use gr_program::program::Opening;
use gr_program::{Expr, Literal};
use std::alloc::Global;

/// A test with a condition that may be missing.
fn perform_tested(
    alloc: Global,
    out: &mut Vec<Instruction>,
    condition: &Option<Expr>,
    first: usize,
    action: Action,
) -> Result<(), NoMemory>
    ensures code { OnOk result (instructions_of out.new.items
        ≡ instructions_of out.old.items
        ++ performed (tested (optional expr_of condition.now)) first (vec_len out.old) (action_of action)) }
    ensures grown { OnOk result (vec_len out.new ≡ vec_len out.old + (parts_in (tested (optional expr_of condition.now)) + 1)) }
{
    match condition {
        Some(condition) => perform_one(alloc, out, condition, first, action),
        None => {
            match single(alloc, Operand::Literal(Literal::Truth(true))) {
                Ok(operands) => perform(out, action, operands),
                Err(fault) => abandon(action, fault),
            }
        }
    }
}

/// An if before its sides, which have this many instructions.
pub fn head_if(
    alloc: Global,
    out: &mut Vec<Instruction>,
    init: &Option<Box<Opening>>,
    condition: &Expr,
    sides: (usize, usize),
    first: usize,
    on: usize,
    ways: &Ways,
) -> Result<(), NoMemory>
    ensures code { OnOk result (instructions_of out.new.items ≡ instructions_of out.old.items
        ++ if_heading (optional opening_of init.now) (rules.operand_of (expr_of condition.now)) sides.0 sides.1 first
        (vec_len out.old) on (ways_of ways.now)) }
    ensures grown { OnOk result (vec_len out.new
        ≡ vec_len out.old + (opening_size (optional opening_of init.now) +
        (parts_in (rules.one (rules.operand_of (expr_of condition.now))) + 1))) }
{
    let test = sum(out.len(), size_of_opening(init)?)?;
    let body = sum(test, size_of_use(condition)?)?;
    let holds = kept(entry(sides.0, body, on))?;
    let fails = kept(entry(sides.1, sum(body, sides.0)?, on))?;
    lower_opening(alloc, out, init, first, test, ways)?;
    perform_one(alloc, out, condition, first, Action::Test { holds, fails })
}

/// A for before its body. The body and the post statement have this many instructions. Answers where a turn ends, and the test.
pub fn head_for(
    alloc: Global,
    out: &mut Vec<Instruction>,
    init: &Option<Box<Opening>>,
    condition: &Option<Expr>,
    sizes: (usize, usize),
    first: usize,
    on: usize,
    ways: &Ways,
) -> Result<(usize, usize), NoMemory>
    ensures code { OnOk result (instructions_of out.new.items ≡ instructions_of out.old.items
        ++ for_heading (optional opening_of init.now) (optional expr_of condition.now) sizes.0 sizes.1 first (vec_len out.old) on
        (ways_of ways.now)) }
    ensures grown { OnOk result (vec_len out.new
        ≡ vec_len out.old + (opening_size (optional opening_of init.now) +
        (parts_in (tested (optional expr_of condition.now)) + 1))) }
    ensures turn { IfOk result (λ p. p.0
        ≡ turn_of (optional opening_of init.now) (optional expr_of condition.now) sizes.0 sizes.1 (vec_len out.old)) }
    ensures test { IfOk result (λ p. p.1 ≡ vec_len out.old + opening_size (optional opening_of init.now)) }
{
    let test = sum(out.len(), size_of_opening(init)?)?;
    let body = sum(test, size_of_test(condition)?)?;
    let turn = entry(sizes.1, sum(body, sizes.0)?, test);
    let holds = kept(entry(sizes.0, body, turn))?;
    let fails = kept(on)?;
    lower_opening(alloc, out, init, first, test, ways)?;
    perform_tested(alloc, out, condition, first, Action::Test { holds, fails })?;
    Ok((turn, test))
}

/// Assigns what a temporary holds to a variable, if there is one.
fn assign_one(
    alloc: Global,
    out: &mut Vec<Instruction>,
    target: Option<usize>,
    slot: u32,
    on: usize,
) -> Result<(), NoMemory>
    ensures code { OnOk result (instructions_of out.new.items ≡ instructions_of out.old.items
        ++ spec.Perform (spec.Assigns (target ∷ []) on) (rules.one (rules.Variable slot)) ∷ []) }
    ensures grown { OnOk result (vec_len out.new ≡ vec_len out.old + 1) }
{
    let (target, on) = (kept_target(target)?, kept(on)?);
    let targets = vec![in alloc; target]?;
    match single(alloc, Operand::Variable(slot)) {
        Ok(operands) => perform(out, Action::Assign { targets, on }, operands),
        Err(fault) => abandon(targets, fault),
    }
}

/// What a turn of a loop over a channel does before the body.
fn take_turn(
    alloc: Global,
    out: &mut Vec<Instruction>,
    target: Option<usize>,
    many: usize,
    first: usize,
    on: usize,
) -> Result<(), NoMemory>
    ensures code { OnOk result (instructions_of out.new.items ≡ instructions_of out.old.items
        ++ turn_heading target many first (vec_len out.old) on) }
    ensures grown { OnOk result (vec_len out.new ≡ vec_len out.old + 3) }
{
    let turn = out.len();
    let slot = kept_sum(first, 1)?;
    let body = kept_sum(turn, 1)?;
    let after = kept_sum(turn, 2)?;
    let begins = entry(many, sum(turn, 3)?, turn);
    let channel = single(alloc, Operand::Variable(kept(first)?))?;
    perform(out, Action::Turn { slot, body, after }, channel)?;
    assign_one(alloc, out, target, slot, begins)?;
    perform_none(alloc, out, Action::GoOn { on: kept(on)? })
}

/// A loop over a channel before its body, which has this many instructions. Answers where a turn begins.
pub fn head_range(
    alloc: Global,
    out: &mut Vec<Instruction>,
    target: Option<usize>,
    channel: &Expr,
    many: usize,
    first: usize,
    on: usize,
) -> Result<usize, NoMemory>
    ensures code { OnOk result (instructions_of out.new.items ≡ instructions_of out.old.items
        ++ range_heading target (rules.operand_of (expr_of channel.now)) many first (vec_len out.old) on) }
    ensures grown { OnOk result (vec_len out.new
        ≡ vec_len out.old + (parts_in (rules.one (rules.operand_of (expr_of channel.now))) + 1 + 3)) }
    ensures value { IfOk result (λ n. n ≡ vec_len out.old + (parts_in (rules.one (rules.operand_of (expr_of channel.now))) + 1)) }
{
    let turn = sum(out.len(), size_of_use(channel)?)?;
    let action = Action::Range {
        slot: kept(first)?,
        on: kept(turn)?,
    };
    perform_one(alloc, out, channel, first, action)?;
    take_turn(alloc, out, target, many, first, on)?;
    Ok(turn)
}

/// What a clause assigns before its statements.
pub fn take_received(
    alloc: Global,
    out: &mut Vec<Instruction>,
    targets: &[Option<usize>],
    first: usize,
    on: usize,
) -> Result<(), NoMemory>
    ensures code { OnOk result (instructions_of out.new.items ≡ instructions_of out.old.items
        ++ targets_code targets.now first on) }
    ensures grown { OnOk result (vec_len out.new ≡ vec_len out.old + targets_size targets.now) }
{
    if targets.is_empty() {
        return Ok(());
    }
    let targets = kept_targets(alloc, targets)?;
    assign_pair(alloc, out, targets, first, kept(on)?)
}
