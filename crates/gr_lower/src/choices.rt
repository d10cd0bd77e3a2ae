//! The arms of a select.
ghost use Rattle.std.specs.Prelude.{◌≡◌, ◌+◌, ◌-◌, ◌≤◌, ◌++◌, ◌∷◌, ℕ, IfOk, OnOk, vec_len};
ghost use Rattle.gr_program.specs.Programs.{Cases};
ghost use Rattle.gr_program.specs.Views.{case_on, cases_of};
ghost use Rattle.gr_rules.specs.Points.{case_operands};
ghost use Rattle.gr_code.specs.CodeViews.{arm_of, arms_of, instructions_of};
ghost use Rattle.gr_code.specs.Passing.{parts_in};
ghost use Rattle.gr_lower.specs.PartCode.{code_in};
ghost use Rattle.gr_lower.specs.Asked.{clause_sizes, Asking};
ghost use Rattle.gr_lower.specs.StatementCode.{entry as spec_entry, into as spec_into, arms};
ghost use Rattle.gr_lower.specs.TurnHeadings.{select_heading};

use crate::expressions::{lower_expr, put};
use crate::parts::{abandon, kept, kept_sum, push, sum};
use crate::sizes::Sizes;
use crate::sizing::count_cases;
use gr_base::NoMemory;
use gr_code::code::{Arm, Instruction};
use gr_program::program::Case;
use std::alloc::Global;

/// The first of this many instructions, if there are any, and else what follows.
pub fn entry(many: usize, first: usize, on: usize) -> usize
    ensures { result ≡ spec_entry many first on }
{
    if many == 0 { on } else { first }
}

/// Where a clause lays what it receives, if it assigns it.
fn into(targets: &[Option<usize>], first: usize) -> Result<Option<(u32, u32)>, NoMemory>
    ensures { IfOk result (λ x. x ≡ spec_into targets.now first) }
{
    if targets.is_empty() {
        return Ok(None);
    }
    Ok(Some((kept(first)?, kept_sum(first, 1)?)))
}

/// The parts of the operands of a clause, the first with the temporary `next`, and the arm of the clause, which leads to `to`.
fn lower_arm(
    alloc: Global,
    out: &mut Vec<Instruction>,
    case: &Case,
    next: usize,
    first: usize,
    to: usize,
) -> Result<Arm, NoMemory>
    ensures code { OnOk result ((others : Cases)
        → instructions_of out.new.items
        ++ code_in (case_operands others) (next + (vec_len out.new - vec_len out.old)) (vec_len out.new)
        ≡ instructions_of out.old.items ++ code_in (case_operands (case_on case.now others)) next (vec_len out.old)) }
    ensures grown { OnOk result ((others : Cases)
        → vec_len out.new + parts_in (case_operands others)
        ≡ vec_len out.old + parts_in (case_operands (case_on case.now others))) }
    ensures more { OnOk result (vec_len out.old ≤ vec_len out.new) }
    ensures value { IfOk result (λ a. (others : Cases) (n begins on : ℕ)
        → clause_sizes (case_on case.now others) ≡ n ∷ clause_sizes others
        → to ≡ spec_entry n begins on → arms (case_on case.now others) next first begins on
        ≡ arm_of a ∷ arms others (next + (vec_len out.new - vec_len out.old)) first (begins + n) on) }
{
    let to = kept(to)?;
    match case {
        Case::Default(_) => Ok(Arm::Default { on: to }),
        Case::Send { channel, value, .. } => {
            let start = out.len();
            let channel = lower_expr(alloc, out, channel, next)?;
            let next = match sum(next, out.len() - start) {
                Ok(next) => next,
                Err(fault) => return abandon(channel, fault),
            };
            match lower_expr(alloc, out, value, next) {
                Ok(value) => Ok(Arm::Send {
                    channel,
                    value,
                    on: to,
                }),
                Err(fault) => abandon(channel, fault),
            }
        }
        Case::Receive {
            targets,
            channel,
            zero,
            ..
        } => {
            let into = into(targets, first)?;
            let channel = lower_expr(alloc, out, channel, next)?;
            let zero = *zero;
            Ok(Arm::Receive {
                channel,
                zero,
                into,
                on: to,
            })
        }
    }
}

/// The parts of the operands of the clauses of a select, and its arms, whose instructions begin at `begins`.
pub fn lower_arms(
    alloc: Global,
    out: &mut Vec<Instruction>,
    sizes: &mut Sizes,
    cases: &[Case],
    first: usize,
    begins: usize,
    on: usize,
) -> Result<Vec<Arm>, NoMemory>
    ensures code { OnOk result (instructions_of out.new.items
        ≡ instructions_of out.old.items ++ code_in (case_operands (cases_of cases.now)) first (vec_len out.old)) }
    ensures grown { OnOk result (vec_len out.new ≡ vec_len out.old + parts_in (case_operands (cases_of cases.now))) }
    ensures value { IfOk result (λ xs. Asking (λ rest. clause_sizes (cases_of cases.now) ++ rest) sizes.old sizes.new
        (arms_of xs.items ≡ arms (cases_of cases.now) first first begins on)) }
{
    let start = out.len();
    let mut found = Vec::new(alloc);
    let mut place = begins;
    for case in cases {
        let next = sum(first, out.len() - start)?;
        let many = sizes.ask();
        let to = entry(many, place, on);
        let arm = lower_arm(alloc, out, case, next, first, to)?;
        push(&mut found, arm)?;
        let after = sum(place, many)?;
        place = after;
    }
    Ok(found)
}

/// A select before its clauses.
pub fn head_select(
    alloc: Global,
    out: &mut Vec<Instruction>,
    sizes: &mut Sizes,
    cases: &[Case],
    first: usize,
    on: usize,
) -> Result<(), NoMemory>
    ensures code { OnOk result (Asking (λ rest. clause_sizes (cases_of cases.now) ++ rest) sizes.old sizes.new
        (instructions_of out.new.items
        ≡ instructions_of out.old.items ++ select_heading (cases_of cases.now) first (vec_len out.old) on)) }
    ensures grown { OnOk result (vec_len out.new ≡ vec_len out.old + (parts_in (case_operands (cases_of cases.now)) + 1)) }
{
    let begins = sum(sum(out.len(), count_cases(cases)?)?, 1)?;
    let arms = lower_arms(alloc, out, sizes, cases, first, begins, on)?;
    put(out, Instruction::Choose { arms })
}
