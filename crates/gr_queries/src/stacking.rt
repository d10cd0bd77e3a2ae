//! How a goroutine stands, with the line of each of its frames.

ghost use Rattle.std.specs.Prelude.{◌≡◌, map, option_map, IfOk};
ghost use Rattle.gr_program.specs.Views.{program_of};
ghost use Rattle.gr_code.specs.CodeViews.{program_code_of};
ghost use Rattle.gr_code.specs.Programs.{Stands};
ghost use Rattle.gr_refine.specs.Contents.{goroutine_of};
ghost use Rattle.gr_refine.specs.Standing.{AllStand};
ghost use Rattle.gr_lower.specs.Lowered.{lowered, meaning};
ghost use Rattle.gr_step.specs.Listings.{frame_in};
ghost use Rattle.gr_step.specs.Running.{IsChecked};
ghost use Rattle.gr_step.specs.Stores.{IsRun, program_at, state_at};
ghost use Rattle.gr_queries.specs.Stacks.{code_stack_frame, stack_at, stack_frame_in, stack_in, stack_of};

use crate::showing::{frame_shown, status_shown};
use gr_base::{GoName, NoMemory};
use gr_code::code::Code;
use gr_command::{FrameShown, Status};
use gr_program::program::Program;
use gr_step::{Frame, Goroutine, Store};
use std::alloc::Global;

/// A frame, with the line where it stands.
#[derive(Drop)]
pub struct StackFrame {
    pub shown: FrameShown,
    /// The line on which the statement begins at which it stands, counted from 1. Of a frame with another in it that is the
    /// statement of the call.
    pub line: usize,
}

/// A goroutine with its frames.
#[derive(Drop)]
pub struct StackShown {
    pub go: GoName,
    pub status: Status,
    /// How many steps it took.
    pub steps: u64,
    /// Its frames, the innermost first.
    pub frames: Vec<StackFrame>,
}

/// How a goroutine stands, with its frames and their lines. `None` where there is no such goroutine.
pub fn stack(alloc: Global, store: &Store, go: &GoName) -> Result<Option<StackShown>, NoMemory>
    requires { IsRun store.now }
    ensures { IfOk result (λ stack. option_map stack_in stack
        ≡ stack_at (program_at store.now) go.now ((state_at store.now).goroutines go.now)) }
{
    let Some(goroutine) = store.goroutine(go) else {
        return Ok(None);
    };
    let go = go.copy(alloc)?;
    let stack = stack_shown(alloc, store.program(), store.code(), go, goroutine)?;
    Ok(Some(stack))
}

/// A goroutine of this name, with its frames.
fn stack_shown(
    alloc: Global,
    program: &Program,
    code: &Code,
    go: GoName,
    goroutine: &Goroutine,
) -> Result<StackShown, NoMemory>
    requires checked { IsChecked (program_of program.now) }
    requires coded { program_code_of code.now ≡ lowered (program_of program.now) }
    requires stand { AllStand (meaning (program_of program.now)) (lowered (program_of program.now)) goroutine.now.content.frames }
    ensures { IfOk result (λ stack. stack_in stack
        ≡ stack_of (program_of program.now) go (goroutine_of (frame_in (program_of program.now)) goroutine.now.content)) }
{
    let frames = stack_frames(alloc, program, code, goroutine)?;
    Ok(StackShown {
        go,
        status: status_shown(goroutine.status()),
        steps: goroutine.steps(),
        frames,
    })
}

/// The frames of a goroutine with their lines, the innermost first.
fn stack_frames(
    alloc: Global,
    program: &Program,
    code: &Code,
    goroutine: &Goroutine,
) -> Result<Vec<StackFrame>, NoMemory>
    requires checked { IsChecked (program_of program.now) }
    requires coded { program_code_of code.now ≡ lowered (program_of program.now) }
    requires stand { AllStand (meaning (program_of program.now)) (lowered (program_of program.now)) goroutine.now.content.frames }
    ensures { IfOk result (λ frames. map stack_frame_in frames.items
        ≡ map (code_stack_frame (program_of program.now)) goroutine.now.content.frames) }
{
    let mut frames = Vec::new(alloc);
    while let Some(frame) = goroutine.frame(frames.len()) {
        let shown = stack_frame(alloc, program, code, frame)?;
        frames.push(shown)?;
    }
    Ok(frames)
}

/// A frame, with the line where it stands.
fn stack_frame(
    alloc: Global,
    program: &Program,
    code: &Code,
    frame: &Frame,
) -> Result<StackFrame, NoMemory>
    requires checked { IsChecked (program_of program.now) }
    requires coded { program_code_of code.now ≡ lowered (program_of program.now) }
    requires stands { Stands (meaning (program_of program.now)) (lowered (program_of program.now)) frame.now }
    ensures { IfOk result (λ told. stack_frame_in told ≡ code_stack_frame (program_of program.now) frame.now) }
{
    let shown = frame_shown(alloc, program, frame)?;
    Ok(StackFrame {
        shown,
        line: frame.line(code),
    })
}
