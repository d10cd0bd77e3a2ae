//! What the next step of a goroutine asks for.

ghost use Rattle.std.specs.Prelude.{◌≡◌, false, Some, option_copied, IfOk, IfErr, IfSome, MatchOption};
ghost use Rattle.gr_base.specs.declared.values.Value.TheVariants.{Chan};
ghost use Rattle.gr_program.specs.TypeViews.{literal_of};
ghost use Rattle.gr_rules.specs.Outcomes.{gives, wrong};
ghost use Rattle.gr_rules.specs.Operands.{value_of};
ghost use Rattle.gr_rules.specs.Evaluation as rules;
ghost use Rattle.gr_code.specs.Instructions as instructions;
ghost use Rattle.gr_code.specs.CodeFrames as frames;
ghost use Rattle.gr_code.specs.CodeViews.{action_of, arm_of, arms_of, ask_of, instruction_of, operand_of, operands_of};
ghost use Rattle.gr_code.specs.CodeViews.{program_code_of};
ghost use Rattle.gr_eval.specs.Stops.{Stops};
ghost use Rattle.gr_code.specs.Goroutines.{task_of, is_call, is_local_action, is_local_instruction};
ghost use Rattle.gr_goros.specs.Needs.{clause_by, one_channel, is_select_in, AllCanSend, CanSend, NeedIs, SelectsIn, SendsAt};
ghost use Rattle.gr_goros.specs.Needs.{SendsIn, Wanted};
ghost use Rattle.gr_goros.specs.Tasks.{channel_of, performed};
ghost use Rattle.gr_goros.specs.Views.{communication_of, communications_of, outcome_of};

use crate::frame::Frame;
use crate::goroutine::Goroutine;
use crate::tasks::only;
use gr_base::{ChName, Fault, NoMemory, Value};
use gr_code::code::{Action, Arm, Ask, Code, Instruction, Operand};
use gr_eval::{Stop, as_channel, as_int, evaluate, evaluate_all};
use gr_program::program::Literal;
use std::alloc::Global;

/// A clause of a select. A channel that is `None` is nil. A value to send may be a fault, which stops the program only where
/// the clause is chosen.
#[derive(Drop)]
pub enum Clause {
    Default,
    Send {
        channel: Option<ChName>,
        value: Result<Value, Fault>,
    },
    Receive {
        channel: Option<ChName>,
        zero: Value,
    },
}

/// What the next step of a goroutine asks for. A channel that is `None` is nil.
#[derive(Drop)]
pub enum Need {
    /// Nothing beyond the goroutine.
    Local,
    /// To return from the outermost frame.
    Exit,
    Start {
        function: u32,
        arguments: Vec<Value>,
    },
    Make {
        size: i64,
    },
    Len {
        channel: Option<ChName>,
    },
    Cap {
        channel: Option<ChName>,
    },
    Close {
        channel: Option<ChName>,
    },
    Send {
        channel: Option<ChName>,
        value: Value,
    },
    /// A receive, and the value that a closed channel gives.
    Receive {
        channel: Option<ChName>,
        zero: Value,
    },
    Select {
        clauses: Vec<Clause>,
    },
    /// The operands of a step that would not be local stop the program.
    Fault(Fault),
}

/// Whether the instruction of a frame, which has a caller or not, asks for nothing beyond its goroutine.
pub(crate) fn asks_nothing(instruction: &Instruction, has_caller: bool) -> bool
    ensures { result ≡ is_local_instruction has_caller (instruction_of instruction.now) }
{
    match instruction {
        Instruction::Part { ask, .. } => matches!(ask, Ask::Call { .. }),
        Instruction::Decide { .. } => true,
        Instruction::Perform { action, .. } => match action {
            Action::AssignReceived { .. }
            | Action::Close { .. }
            | Action::Send { .. }
            | Action::Start { .. }
            | Action::Turn { .. } => false,
            Action::Return => has_caller,
            _ => true,
        },
        Instruction::Choose { .. } => false,
    }
}

/// The value of a literal.
pub fn value_of_literal(literal: Literal) -> Value
    ensures { result ≡ value_of (literal_of literal) }
{
    match literal {
        Literal::Number(n) => Value::Int(n),
        Literal::Truth(b) => Value::Bool(b),
        Literal::Empty => Value::Unit,
        Literal::Nil => Value::Chan(None),
    }
}

/// The channel that the operand is, where that stands in a cell and is not nil.
fn channel_held<'a>(cells: &'a [Option<Value>], operand: &Operand) -> Option<&'a ChName>
    ensures { IfSome (option_copied result) (λ c. rules.evaluate cells.now (operand_of operand.now) ≡ gives (Chan (Some c))) }
{
    let Operand::Variable(cell) = operand else {
        return None;
    };
    match cells.get(*cell as usize) {
        Some(Some(Value::Chan(Some(name)))) => Some(name),
        _ => None,
    }
}

/// The value of an operand that mostly is a channel in a cell, which is looked for first. Errors: those of `evaluate`.
fn evaluate_channel(
    alloc: Global,
    cells: &[Option<Value>],
    operand: &Operand,
) -> Result<Value, Stop>
    requires { ¬ (rules.evaluate cells.now (operand_of operand.now) ≡ wrong) }
    ensures ok { IfOk result (λ v. rules.evaluate cells.now (operand_of operand.now) ≡ gives v) }
    ensures stop { IfErr result (λ e. Stops e (rules.evaluate cells.now (operand_of operand.now))) }
{
    if let Some(name) = channel_held(cells, operand) {
        return Ok(Value::Chan(Some(name.copy(alloc)?)));
    }
    evaluate(alloc, cells, operand)
}

/// The channel that an operand is.
fn channel(
    alloc: Global,
    cells: &[Option<Value>],
    operand: &Operand,
) -> Result<Option<ChName>, Stop>
    requires { ¬ (one_channel cells.now (operand_of operand.now) ≡ wrong) }
    ensures ok { IfOk result (λ c. one_channel cells.now (operand_of operand.now) ≡ gives c) }
    ensures stop { IfErr result (λ e. Stops e (one_channel cells.now (operand_of operand.now))) }
{
    Ok(as_channel(evaluate_channel(alloc, cells, operand)?))
}

/// The channel that the one operand is.
fn only_channel(
    alloc: Global,
    cells: &[Option<Value>],
    operands: &[Operand],
) -> Result<Option<ChName>, Stop>
    requires { ¬ (channel_of cells.now (operands_of operands.now) ≡ wrong) }
    ensures ok { IfOk result (λ c. channel_of cells.now (operands_of operands.now) ≡ gives c) }
    ensures stop { IfErr result (λ e. Stops e (channel_of cells.now (operands_of operands.now))) }
{
    match operands {
        [operand] => channel(alloc, cells, operand),
        _ => Ok(as_channel(only(alloc, cells, operands)?)),
    }
}

/// The value of a clause that sends, or its fault.
fn sent(
    alloc: Global,
    cells: &[Option<Value>],
    operand: &Operand,
) -> Result<Result<Value, Fault>, NoMemory>
    requires { ¬ (rules.evaluate cells.now (operand_of operand.now) ≡ wrong) }
    ensures { IfOk result (λ r. outcome_of r ≡ rules.evaluate cells.now (operand_of operand.now)) }
{
    match evaluate(alloc, cells, operand) {
        Ok(value) => Ok(Ok(value)),
        Err(Stop::Fault(fault)) => Ok(Err(fault)),
        Err(Stop::NoMemory) => Err(NoMemory),
    }
}

/// A clause of a select.
fn clause_of(alloc: Global, cells: &[Option<Value>], arm: &Arm) -> Result<Clause, Stop>
    requires right { ¬ (clause_by cells.now (arm_of arm.now) ≡ wrong) }
    requires sends { CanSend cells.now (arm_of arm.now) }
    ensures ok { IfOk result (λ c. clause_by cells.now (arm_of arm.now) ≡ gives (communication_of c)) }
    ensures stop { IfErr result (λ e. Stops e (clause_by cells.now (arm_of arm.now))) }
{
    match arm {
        Arm::Default { .. } => Ok(Clause::Default),
        Arm::Send {
            channel: operand,
            value,
            ..
        } => {
            let channel = channel(alloc, cells, operand)?;
            let value = sent(alloc, cells, value)?;
            Ok(Clause::Send { channel, value })
        }
        Arm::Receive {
            channel: operand,
            zero,
            ..
        } => Ok(Clause::Receive {
            channel: channel(alloc, cells, operand)?,
            zero: value_of_literal(*zero),
        }),
    }
}

/// The clauses of a select.
#[tactic(auto, using(crate::proofs::NeedLemmas::begins, crate::proofs::NeedLemmas::right_here, crate::proofs::NeedLemmas::sends_here, crate::proofs::NeedLemmas::stops_here, crate::proofs::NeedLemmas::ends))]
fn clauses_of(alloc: Global, cells: &[Option<Value>], arms: &[Arm]) -> Result<Vec<Clause>, Stop>
    requires right { ¬ (instructions.clauses_of cells.now (arms_of arms.now) ≡ wrong) }
    requires sends { AllCanSend cells.now (arms_of arms.now) }
    ensures ok { IfOk result (λ cs. instructions.clauses_of cells.now (arms_of arms.now) ≡ gives (communications_of cs.items)) }
    ensures stop { IfErr result (λ e. Stops e (instructions.clauses_of cells.now (arms_of arms.now))) }
{
    let Ok(mut clauses) = Vec::with_capacity(alloc, arms.len()) else {
        return Err(Stop::NoMemory);
    };
    for arm in arms {
        clauses.push_reserved(clause_of(alloc, cells, arm)?);
    }
    Ok(clauses)
}

/// What a part asks for beyond the goroutine.
fn need_of_part(alloc: Global, cells: &[Option<Value>], ask: &Ask) -> Result<Need, Stop>
    requires right { ¬ (frames.asked_in cells.now (ask_of ask.now) ≡ wrong) }
    requires beyond { is_call (ask_of ask.now) ≡ false }
    ensures ok { IfOk result (λ n. Wanted n (frames.asked_in cells.now (ask_of ask.now))) }
    ensures stop { IfErr result (λ e. Stops e (frames.asked_in cells.now (ask_of ask.now))) }
{
    match ask {
        Ask::Call { .. } => unreachable!(),
        Ask::Receive {
            channel: operand,
            zero,
        } => Ok(Need::Receive {
            channel: channel(alloc, cells, operand)?,
            zero: value_of_literal(*zero),
        }),
        Ask::Make { size } => Ok(Need::Make {
            size: as_int(evaluate(alloc, cells, size)?),
        }),
        Ask::Len { channel: operand } => Ok(Need::Len {
            channel: channel(alloc, cells, operand)?,
        }),
        Ask::Cap { channel: operand } => Ok(Need::Cap {
            channel: channel(alloc, cells, operand)?,
        }),
    }
}

/// What a send asks for, by all its operands at once.
fn need_of_values(alloc: Global, frame: &Frame, operands: &[Operand], on: u32) -> Result<Need, Stop>
    requires { ¬ (performed frame.now (instructions.Sends on) (operands_of operands.now) ≡ wrong) }
    ensures ok { IfOk result (λ n. Wanted n (performed frame.now (instructions.Sends on) (operands_of operands.now))) }
    ensures stop { IfErr result (λ e. Stops e (performed frame.now (instructions.Sends on) (operands_of operands.now))) }
{
    let mut values = evaluate_all(alloc, frame.cells(), operands)?.into_iter();
    match (values.next(), values.next()) {
        (Some(channel), Some(value)) => Ok(Need::Send {
            channel: as_channel(channel),
            value,
        }),
        _ => unreachable!(),
    }
}

/// What a send asks for.
fn need_of_send(alloc: Global, frame: &Frame, operands: &[Operand], on: u32) -> Result<Need, Stop>
    requires { ¬ (performed frame.now (instructions.Sends on) (operands_of operands.now) ≡ wrong) }
    ensures ok { IfOk result (λ n. Wanted n (performed frame.now (instructions.Sends on) (operands_of operands.now))) }
    ensures stop { IfErr result (λ e. Stops e (performed frame.now (instructions.Sends on) (operands_of operands.now))) }
{
    let [channel, value] = operands else {
        return need_of_values(alloc, frame, operands, on);
    };
    let channel = evaluate_channel(alloc, frame.cells(), channel)?;
    let value = evaluate(alloc, frame.cells(), value)?;
    Ok(Need::Send {
        channel: as_channel(channel),
        value,
    })
}

/// What a statement asks for beyond the goroutine, or to return from the outermost frame.
fn need_of_action(
    alloc: Global,
    frame: &Frame,
    action: &Action,
    operands: &[Operand],
) -> Result<Need, Stop>
    requires right { ¬ (performed frame.now (action_of action.now) (operands_of operands.now) ≡ wrong) }
    requires beyond { is_local_action false (action_of action.now) ≡ false }
    ensures ok { IfOk result (λ n. Wanted n (performed frame.now (action_of action.now) (operands_of operands.now))) }
    ensures stop { IfErr result (λ e. Stops e (performed frame.now (action_of action.now) (operands_of operands.now))) }
{
    match action {
        Action::AssignReceived { zero, .. } => Ok(Need::Receive {
            channel: only_channel(alloc, frame.cells(), operands)?,
            zero: value_of_literal(*zero),
        }),
        Action::Close { .. } => Ok(Need::Close {
            channel: only_channel(alloc, frame.cells(), operands)?,
        }),
        Action::Send { on } => need_of_send(alloc, frame, operands, *on),
        Action::Start { function, .. } => Ok(Need::Start {
            function: *function,
            arguments: evaluate_all(alloc, frame.cells(), operands)?,
        }),
        Action::Turn { .. } => Ok(Need::Receive {
            channel: only_channel(alloc, frame.cells(), operands)?,
            zero: Value::Unit,
        }),
        Action::Return => {
            let _values = evaluate_all(alloc, frame.cells(), operands)?;
            Ok(Need::Exit)
        }
        _ => unreachable!(),
    }
}

/// What an instruction asks for beyond the goroutine, or to return from the outermost frame. Errors: the fault of an operand,
/// and out of memory.
pub(crate) fn need_of(alloc: Global, frame: &Frame, instruction: &Instruction) -> Result<Need, Stop>
    requires right { ¬ (frames.task frame.now (instruction_of instruction.now) ≡ wrong) }
    requires sends { SendsAt frame.now.cells (instruction_of instruction.now) }
    requires beyond { is_local_instruction false (instruction_of instruction.now) ≡ false }
    ensures ok { IfOk result (λ n. Wanted n (frames.task frame.now (instruction_of instruction.now))) }
    ensures stop { IfErr result (λ e. Stops e (frames.task frame.now (instruction_of instruction.now))) }
{
    match instruction {
        Instruction::Part { ask, .. } => need_of_part(alloc, frame.cells(), ask),
        Instruction::Perform { action, operands } => need_of_action(alloc, frame, action, operands),
        Instruction::Choose { arms } => Ok(Need::Select {
            clauses: clauses_of(alloc, frame.cells(), arms)?,
        }),
        Instruction::Decide { .. } => unreachable!(),
    }
}

impl Goroutine {
    /// Whether the next step is that of a select, which leaves a choice.
    pub fn is_select(&self, code: &Code) -> bool
        requires { ¬ (task_of (program_code_of code.now) self.now.content ≡ wrong) }
        ensures { result ≡ is_select_in (program_code_of code.now) self.now.content.frames }
    {
        matches!(self.top.instruction(code), Instruction::Choose { .. })
    }

    /// The clauses of the select at which it stands, if it stands at one.
    pub fn arms<'a>(&self, code: &'a Code) -> Option<&'a [Arm]>
        requires { ¬ (task_of (program_code_of code.now) self.now.content ≡ wrong) }
        ensures { MatchOption result (is_select_in (program_code_of code.now) self.now.content.frames ≡ false)
            (λ arms. SelectsIn (program_code_of code.now) self.now.content.frames (arms_of arms.now)) }
    {
        match self.top.instruction(code) {
            Instruction::Choose { arms } => Some(arms.as_slice()),
            _ => None,
        }
    }

    /// What the next step asks for beyond the goroutine.
    pub fn next_need(&self, alloc: Global, code: &Code) -> Result<Need, NoMemory>
        requires right { ¬ (task_of (program_code_of code.now) self.now.content ≡ wrong) }
        requires sends { SendsIn (program_code_of code.now) self.now.content.frames }
        ensures { IfOk result (λ n. NeedIs n (program_code_of code.now) self.now.content) }
    {
        let instruction = self.top.instruction(code);
        if asks_nothing(instruction, !self.below.is_empty()) {
            return Ok(Need::Local);
        }
        match need_of(alloc, &self.top, instruction) {
            Ok(need) => Ok(need),
            Err(Stop::Fault(fault)) => Ok(Need::Fault(fault)),
            Err(Stop::NoMemory) => Err(NoMemory),
        }
    }
}
