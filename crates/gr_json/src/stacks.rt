//! JSON of goroutines with the lines of their frames.

ghost use Rattle.std.specs.Prelude.{◌≡◌, ◌∷◌, [], codes, IfOk};
ghost use Rattle.serde_json.specs.Data.{string};
ghost use Rattle.serde_json.specs.View.{view};
ghost use Rattle.gr_json.specs.Parts.{count, fields};

use crate::parts::{Told, list};
use crate::replies::name_of_status;
use gr_base::NoMemory;
use gr_queries::{StackFrame, StackShown};
use serde_json::{Value, json};
use std::alloc::{AllocError, Global};

fn frame_value(
    alloc: Global,
    function: Value,
    line: Value,
    variables: Value,
) -> Result<Value, AllocError>
    ensures { IfOk result (λ value. view value ≡ fields (
        (codes "function", view function) ∷ (codes "line", view line) ∷ (codes "variables", view variables) ∷ [])) }
{
    json!(in alloc; {"function": function, "line": line, "variables": variables})
}

impl Told for StackFrame {
    ghost use Rattle.gr_queries.specs.Stacks.{stack_frame_in};
    ghost use Rattle.gr_json.specs.Stacks.{stack_frame_data};

    ghost told = { λ frame. stack_frame_data (stack_frame_in frame) };

    fn value(&self, alloc: Global) -> Result<Value, NoMemory> {
        let function = self.shown.function.value(alloc)?;
        let line = self.line.value(alloc)?;
        let variables = list(alloc, self.shown.variables.as_slice())?;
        let value = frame_value(alloc, function, line, variables)?;
        Ok(value)
    }
}

fn stack_value(
    alloc: Global,
    frames: Value,
    go: Value,
    status: &str,
    steps: u64,
) -> Result<Value, AllocError>
    ensures { IfOk result (λ value. view value ≡ fields (
        (codes "frames", view frames) ∷ (codes "goroutine", view go) ∷ (codes "status", string status.now)
        ∷ (codes "steps", count steps) ∷ [])) }
{
    json!(in alloc; {"frames": frames, "goroutine": go, "status": status, "steps": steps})
}

impl Told for StackShown {
    ghost use Rattle.gr_queries.specs.Stacks.{stack_in};
    ghost use Rattle.gr_json.specs.Stacks.{stack_data};

    ghost told = { λ stack. stack_data (stack_in stack) };

    fn value(&self, alloc: Global) -> Result<Value, NoMemory> {
        let frames = list(alloc, self.frames.as_slice())?;
        let go = self.go.value(alloc)?;
        let status = name_of_status(self.status);
        let value = stack_value(alloc, frames, go, status, self.steps)?;
        Ok(value)
    }
}
