//! The code of statements with no statements in them.
ghost use Rattle.std.specs.Prelude.{◌≡◌, ◌+◌, ◌++◌, ◌∷◌, [], IfOk, OnOk, vec_len};
ghost use Rattle.gr_tree.specs.Statements.{optional};
ghost use Rattle.gr_program.specs.TypeViews.{literal_of};
ghost use Rattle.gr_program.specs.Views.{expr_of, prints_of, act_of, opening_of};
ghost use Rattle.gr_rules.specs.Operands as rules;
ghost use Rattle.gr_rules.specs.Points as points;
ghost use Rattle.gr_code.specs.Instructions as spec;
ghost use Rattle.gr_code.specs.CodeViews.{operands_of, pieces_of, piece_of, instructions_of};
ghost use Rattle.gr_code.specs.Passing.{parts_in};
ghost use Rattle.gr_lower.specs.PartCode.{left_in, code_in};
ghost use Rattle.gr_lower.specs.Sizes.{whole_size, returned, act_size, opening_size};
ghost use Rattle.gr_lower.specs.StatementCode.{performed, whole_code, goes, act_code, opening_code};
ghost use Rattle.gr_lower.specs.Headings.{ways_of};

use crate::expressions::{lower_expr, lower_exprs, put};
use crate::nesting::{Ways, leaving, turning};
use crate::parts::{abandon, kept, kept_sum, kept_target, kept_targets, push, sum};
use crate::performing::{pair, perform, perform_all, perform_none, perform_one, perform_two};
use crate::sizing::size_of_use;
use gr_base::NoMemory;
use gr_code::code::{Action, Ask, Instruction, Operand, Piece};
use gr_program::program::{Opening, Printed};
use gr_program::{Act, Expr, Literal};
use std::alloc::Global;

/// A `return`, which may have no value.
fn give_back(
    alloc: Global,
    out: &mut Vec<Instruction>,
    value: &Option<Expr>,
    first: usize,
) -> Result<(), NoMemory>
    ensures code { OnOk result (instructions_of out.new.items
        ≡ instructions_of out.old.items
        ++ performed (returned (optional expr_of value.now)) first (vec_len out.old) spec.Returns) }
    ensures grown { OnOk result (vec_len out.new ≡ vec_len out.old + (parts_in (returned (optional expr_of value.now)) + 1)) }
{
    match value {
        Some(value) => perform_one(alloc, out, value, first, Action::Return),
        None => perform_none(alloc, out, Action::Return),
    }
}

/// A call or a receive that is a statement.
fn whole(
    alloc: Global,
    out: &mut Vec<Instruction>,
    value: &Expr,
    first: usize,
    on: u32,
) -> Result<(), NoMemory>
    ensures code { OnOk result (instructions_of out.new.items
        ≡ instructions_of out.old.items ++ whole_code (rules.operand_of (expr_of value.now)) first (vec_len out.old) on) }
    ensures grown { OnOk result (vec_len out.new ≡ vec_len out.old + whole_size (rules.operand_of (expr_of value.now))) }
{
    let slot = None;
    match value {
        Expr::Call(function, arguments) => {
            let function = kept(*function)?;
            let arguments = lower_exprs(alloc, out, arguments, first)?;
            let ask = Ask::Call {
                function,
                arguments,
            };
            put(out, Instruction::Part { ask, slot, on })
        }
        Expr::Receive(channel, zero) => {
            let channel = lower_expr(alloc, out, channel, first)?;
            let zero = *zero;
            let ask = Ask::Receive { channel, zero };
            put(out, Instruction::Part { ask, slot, on })
        }
        _ => perform_one(alloc, out, value, first, Action::Fail),
    }
}

/// The operands that take what this temporary and the next one hold.
fn temporaries(alloc: Global, first: usize) -> Result<Vec<Operand>, NoMemory>
    ensures { IfOk result (λ xs. operands_of xs.items ≡ rules.two (rules.Variable first) (rules.Variable (first + 1))) }
{
    let second = kept_sum(first, 1)?;
    let first = kept(first)?;
    pair(alloc, Operand::Variable(first), Operand::Variable(second))
}

/// Assigns what two temporaries hold.
pub fn assign_pair(
    alloc: Global,
    out: &mut Vec<Instruction>,
    targets: Vec<Option<u32>>,
    first: usize,
    on: u32,
) -> Result<(), NoMemory>
    ensures code { OnOk result (instructions_of out.new.items ≡ instructions_of out.old.items
        ++ spec.Perform (spec.Assigns targets.items on) (rules.two (rules.Variable first) (rules.Variable (first + 1))) ∷ []) }
    ensures grown { OnOk result (vec_len out.new ≡ vec_len out.old + 1) }
{
    match temporaries(alloc, first) {
        Ok(operands) => perform(out, Action::Assign { targets, on }, operands),
        Err(fault) => abandon(targets, fault),
    }
}

fn two_targets(
    alloc: Global,
    value: Option<usize>,
    ok: Option<usize>,
) -> Result<Vec<Option<u32>>, NoMemory>
    ensures { IfOk result (λ xs. xs.items ≡ value ∷ ok ∷ []) }
{
    let mut targets = Vec::new(alloc);
    targets.push(kept_target(value)?)?;
    targets.push(kept_target(ok)?)?;
    Ok(targets)
}

/// A receive of two values, which are assigned by a step of its own.
fn receive_two(
    alloc: Global,
    out: &mut Vec<Instruction>,
    targets: (Option<usize>, Option<usize>),
    channel: &Expr,
    zero: Literal,
    first: usize,
    on: u32,
) -> Result<(), NoMemory>
    ensures code { OnOk result (instructions_of out.new.items ≡ instructions_of out.old.items
        ++ (performed (rules.one (rules.operand_of (expr_of channel.now))) first (vec_len out.old)
        (spec.AssignsReceived (rules.value_of (literal_of zero)) first (first + 1)
        (vec_len out.old + parts_in (rules.one (rules.operand_of (expr_of channel.now))) + 1))
        ++ spec.Perform (spec.Assigns (targets.0 ∷ targets.1 ∷ []) on)
        (rules.two (rules.Variable first) (rules.Variable (first + 1))) ∷ [])) }
    ensures grown { OnOk result (vec_len out.new
        ≡ vec_len out.old + (parts_in (rules.one (rules.operand_of (expr_of channel.now))) + 2)) }
{
    let value = kept(first)?;
    let ok = kept_sum(first, 1)?;
    let next = kept_sum(out.len(), size_of_use(channel)?)?;
    let action = Action::AssignReceived {
        zero,
        value,
        ok,
        on: next,
    };
    perform_one(alloc, out, channel, first, action)?;
    let targets = two_targets(alloc, targets.0, targets.1)?;
    assign_pair(alloc, out, targets, first, on)
}

fn piece(alloc: Global, printed: &Printed) -> Result<Piece, NoMemory>
    ensures { IfOk result (λ p. piece_of p ∷ [] ≡ points.pieces_of (prints_of (printed.now ∷ []))) }
{
    match printed {
        Printed::Value(_) => Ok(Piece::Value),
        Printed::Text(bytes) => Ok(Piece::Text(bytes.iter().copied().collect(alloc)?)),
    }
}

fn pieces(alloc: Global, values: &[Printed]) -> Result<Vec<Piece>, NoMemory>
    ensures { IfOk result (λ ps. pieces_of ps.items ≡ points.pieces_of (prints_of values.now)) }
{
    let mut found = Vec::new(alloc);
    for printed in values {
        let next = piece(alloc, printed)?;
        push(&mut found, next)?;
    }
    Ok(found)
}

/// The parts of what is printed, and what is left of it.
fn lower_printed(
    alloc: Global,
    out: &mut Vec<Instruction>,
    values: &[Printed],
    first: usize,
) -> Result<Vec<Operand>, NoMemory>
    ensures code { OnOk result (instructions_of out.new.items
        ≡ instructions_of out.old.items ++ code_in (points.printed_operands (prints_of values.now)) first (vec_len out.old)) }
    ensures grown { OnOk result (vec_len out.new ≡ vec_len out.old + parts_in (points.printed_operands (prints_of values.now))) }
    ensures value { IfOk result (λ xs. operands_of xs.items ≡ left_in (points.printed_operands (prints_of values.now)) first) }
{
    let begins = out.len();
    let mut operands = Vec::new(alloc);
    for printed in values {
        let next = sum(first, out.len() - begins)?;
        let Printed::Value(value) = printed else {
            continue
        };
        let operand = lower_expr(alloc, out, value, next)?;
        push(&mut operands, operand)?;
    }
    Ok(operands)
}

fn print(
    alloc: Global,
    out: &mut Vec<Instruction>,
    values: &[Printed],
    first: usize,
    on: u32,
) -> Result<(), NoMemory>
    ensures code { OnOk result (instructions_of out.new.items ≡ instructions_of out.old.items
        ++ performed (points.printed_operands (prints_of values.now)) first (vec_len out.old)
        (spec.PrintsLine (points.pieces_of (prints_of values.now)) on)) }
    ensures grown { OnOk result (vec_len out.new
        ≡ vec_len out.old + (parts_in (points.printed_operands (prints_of values.now)) + 1)) }
{
    let pieces = pieces(alloc, values)?;
    match lower_printed(alloc, out, values, first) {
        Ok(operands) => perform(out, Action::Print { pieces, on }, operands),
        Err(fault) => abandon(pieces, fault),
    }
}

/// A jump; one that leads nowhere is in no checked program.
fn go_on(alloc: Global, out: &mut Vec<Instruction>, to: Option<usize>) -> Result<(), NoMemory>
    ensures code { OnOk result (instructions_of out.new.items ≡ instructions_of out.old.items ++ goes to ∷ []) }
    ensures grown { OnOk result (vec_len out.new ≡ vec_len out.old + 1) }
{
    match to {
        Some(on) => perform_none(alloc, out, Action::GoOn { on: kept(on)? }),
        None => perform_none(alloc, out, Action::Fail),
    }
}

/// The code of a statement with no statements in it, before `on`; `first` is the first free temporary.
pub fn lower_act(
    alloc: Global,
    out: &mut Vec<Instruction>,
    act: &Act,
    first: usize,
    on: usize,
    ways: &Ways,
) -> Result<(), NoMemory>
    ensures code { OnOk result (instructions_of out.new.items
        ≡ instructions_of out.old.items ++ act_code (act_of act.now) first (vec_len out.old) on (ways_of ways.now)) }
    ensures grown { OnOk result (vec_len out.new ≡ vec_len out.old + act_size (act_of act.now)) }
{
    let on = kept(on)?;
    match act {
        Act::Assign { targets, values } => {
            let targets = kept_targets(alloc, targets)?;
            perform_all(alloc, out, values, first, Action::Assign { targets, on })
        }
        Act::AssignReceive {
            value,
            ok,
            channel,
            zero,
        } => { receive_two(alloc, out, (*value, *ok), channel, *zero, first, on) }
        Act::Update {
            variable,
            op,
            value,
        } => {
            let (variable, op) = (kept(*variable)?, *op);
            perform_one(
                alloc,
                out,
                value,
                first,
                Action::Update { variable, op, on },
            )
        }
        Act::Eval(value) => whole(alloc, out, value, first, on),
        Act::Close(channel) => perform_one(alloc, out, channel, first, Action::Close { on }),
        Act::Print(values) => print(alloc, out, values, first, on),
        Act::Send { channel, value } => {
            perform_two(alloc, out, channel, value, first, Action::Send { on })
        }
        Act::Go {
            function,
            arguments,
        } => {
            let function = kept(*function)?;
            perform_all(alloc, out, arguments, first, Action::Start { function, on })
        }
        Act::Return(value) => give_back(alloc, out, value, first),
        Act::Break(depth) => go_on(alloc, out, leaving(*depth, ways)),
        Act::Continue(depth) => go_on(alloc, out, turning(*depth, ways)),
    }
}

/// The code of the statement in a heading, if there is one.
pub fn lower_opening(
    alloc: Global,
    out: &mut Vec<Instruction>,
    opening: &Option<Box<Opening>>,
    first: usize,
    on: usize,
    ways: &Ways,
) -> Result<(), NoMemory>
    ensures code { OnOk result (instructions_of out.new.items
        ≡ instructions_of out.old.items
        ++ opening_code (optional opening_of opening.now) first (vec_len out.old) on (ways_of ways.now)) }
    ensures grown { OnOk result (vec_len out.new ≡ vec_len out.old + opening_size (optional opening_of opening.now)) }
{
    match opening {
        Some(opening) => lower_act(alloc, out, &opening.act, first, on, ways),
        None => Ok(()),
    }
}
