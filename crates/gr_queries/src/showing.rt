//! How goroutines and channels stand, and what a goroutine printed.

ghost use Rattle.std.specs.Prelude.{◌≡◌, map, slice_get, option_and_then, option_copied, IfOk, IfSome};
ghost use Rattle.gr_program.specs.TypeViews.{declared_of};
ghost use Rattle.gr_program.specs.Views.{program_of};
ghost use Rattle.gr_rules.specs.Tells.{holding, shown};
ghost use Rattle.gr_rules.specs.Turns.{line_of as line_of_next};
ghost use Rattle.gr_code.specs.CodeViews.{program_code_of};
ghost use Rattle.gr_code.specs.Goroutines.{line_of};
ghost use Rattle.gr_code.specs.Programs.{Stands};
ghost use Rattle.gr_code.specs.Vectors.{value_at};
ghost use Rattle.gr_refine.specs.Contents.{goroutine_of};
ghost use Rattle.gr_refine.specs.Standing.{AllStand};
ghost use Rattle.gr_step.specs.Views.{lines_of, status_of};
ghost use Rattle.gr_lower.specs.Lowered.{lowered, meaning};
ghost use Rattle.gr_command.specs.Replies.{frame_in as frame_told, goroutine_in, lines_in, said_of, status_in, told, variable_in};
ghost use Rattle.gr_command.specs.Replies.{without_waits};
ghost use Rattle.gr_step.specs.Listings.{frame_in};
ghost use Rattle.gr_step.specs.Running.{IsChecked};
ghost use Rattle.gr_step.specs.Stores.{IsRun, program_at, state_at};
ghost use Rattle.gr_queries.specs.Frames.{code_frame_shown};
ghost use Rattle.gr_queries.specs.Said.{channel_said, goroutine_said, text_said};

use gr_base::{ChName, GoName, NoMemory, Value};
use gr_channels::{Channel, Waiter};
use gr_code::code::Code;
use gr_command::{ChannelShown, FrameShown, GoroutineShown, Refusal, Reply, Status};
use gr_program::program::{Program, Variable};
use gr_step::{Frame, Goroutine, Status as Standing, Store};
use std::alloc::Global;

/// How a goroutine stands: its status, its steps, the line of its next statement and its frames. Refused where there is none.
pub fn show(alloc: Global, store: &Store, go: &GoName) -> Result<Reply, NoMemory>
    requires { IsRun store.now }
    ensures { IfOk result (λ reply. said_of reply
        ≡ goroutine_said (program_at store.now) go.now ((state_at store.now).goroutines go.now)) }
{
    let Some(goroutine) = store.goroutine(go) else {
        return Ok(Reply::Refused(Refusal::NotThere));
    };
    let go = go.copy(alloc)?;
    let shown = goroutine_shown(alloc, store.program(), store.code(), go, goroutine)?;
    Ok(Reply::Shown(shown))
}

/// How a channel stands: its capacity, whether it is closed, its items and who waits on it. Refused where there is none.
pub fn chan(alloc: Global, store: &Store, channel: &ChName) -> Result<Reply, NoMemory>
    ensures { IfOk result (λ reply. said_of reply
        ≡ channel_said (state_at store.now) channel.now ((state_at store.now).gates channel.now)) }
{
    let Some(channel) = store.channel(channel) else {
        return Ok(Reply::Refused(Refusal::NotThere));
    };
    let items = items_shown(alloc, channel)?;
    let senders = senders_shown(alloc, channel)?;
    let receivers = receivers_shown(alloc, channel)?;
    Ok(Reply::Channel(ChannelShown {
        capacity: channel.capacity(),
        closed: channel.is_closed(),
        items,
        senders,
        receivers,
    }))
}

/// The lines that a goroutine printed. Refused where there is none.
pub fn text(alloc: Global, store: &Store, go: &GoName) -> Result<Reply, NoMemory>
    ensures { IfOk result (λ reply. said_of reply ≡ text_said ((state_at store.now).goroutines go.now)) }
{
    let Some(goroutine) = store.goroutine(go) else {
        return Ok(Reply::Refused(Refusal::NotThere));
    };
    let lines = lines_shown(alloc, goroutine.text())?;
    Ok(Reply::Lines(lines))
}

/// The line on which the statement of a goroutine's next step begins. There is none where there is no such goroutine, or it is
/// done.
pub fn next_line(store: &Store, go: &GoName) -> Option<usize>
    requires { IsRun store.now }
    ensures { result ≡ line_of_next ((state_at store.now).goroutines go.now) }
{
    let goroutine = store.goroutine(go)?;
    line_shown(store.code(), goroutine)
}

/// A goroutine of this name, as it is shown.
fn goroutine_shown(
    alloc: Global,
    program: &Program,
    code: &Code,
    go: GoName,
    goroutine: &Goroutine,
) -> Result<GoroutineShown, NoMemory>
    requires checked { IsChecked (program_of program.now) }
    requires coded { program_code_of code.now ≡ lowered (program_of program.now) }
    requires stand { AllStand (meaning (program_of program.now)) (lowered (program_of program.now)) goroutine.now.content.frames }
    ensures named { IfOk result (λ r. r.go ≡ go) }
    ensures shown { IfOk result (λ r. goroutine_in r
        ≡ told (shown (program_of program.now) (goroutine_of (frame_in (program_of program.now)) goroutine.now.content))) }
{
    let frames = frames_shown(alloc, program, goroutine)?;
    Ok(GoroutineShown {
        go,
        status: status_shown(goroutine.status()),
        steps: goroutine.steps(),
        line: line_shown(code, goroutine),
        frames,
    })
}

/// A status, without what is waited for.
pub(crate) fn status_shown(status: &Standing) -> Status
    ensures { status_in result ≡ without_waits (status_of status.now) }
{
    match status {
        Standing::Ready => Status::Ready,
        Standing::Sending(_) | Standing::Receiving(_) | Standing::Waiting(_) => Status::Waiting,
        Standing::Finished => Status::Done,
    }
}

/// The line on which the statement of the next step begins. There is none where there is no frame.
fn line_shown(code: &Code, goroutine: &Goroutine) -> Option<usize>
    requires { IfSome (slice_get goroutine.now.content.frames 0) (λ f. ¬ (line_of (program_code_of code.now) f ≡ None)) }
    ensures { result ≡ option_and_then (line_of (program_code_of code.now)) (slice_get goroutine.now.content.frames 0) }
{
    let frame = goroutine.frame(0)?;
    Some(frame.line(code))
}

/// The frames of a goroutine, the innermost first.
fn frames_shown(
    alloc: Global,
    program: &Program,
    goroutine: &Goroutine,
) -> Result<Vec<FrameShown>, NoMemory>
    requires checked { IsChecked (program_of program.now) }
    requires stand { AllStand (meaning (program_of program.now)) (lowered (program_of program.now)) goroutine.now.content.frames }
    ensures { IfOk result (λ frames. map frame_told frames.items
        ≡ map (code_frame_shown (program_of program.now)) goroutine.now.content.frames) }
{
    let mut frames = Vec::new(alloc);
    while let Some(frame) = goroutine.frame(frames.len()) {
        let shown = frame_shown(alloc, program, frame)?;
        frames.push(shown)?;
    }
    Ok(frames)
}

/// A frame: its function, and its variables that hold values.
pub(crate) fn frame_shown(
    alloc: Global,
    program: &Program,
    frame: &Frame,
) -> Result<FrameShown, NoMemory>
    requires checked { IsChecked (program_of program.now) }
    requires stands { Stands (meaning (program_of program.now)) (lowered (program_of program.now)) frame.now }
    ensures { IfOk result (λ r. frame_told r ≡ code_frame_shown (program_of program.now) frame.now) }
{
    let function = &program.functions[frame.function()];
    let name = Vec::from_slice(alloc, &function.name)?;
    let variables = variables_shown(alloc, &function.variables, frame.cells())?;
    Ok(FrameShown {
        function: name,
        variables,
    })
}

/// The variables that hold values, by name.
fn variables_shown(
    alloc: Global,
    variables: &[Variable],
    cells: &[Option<Value>],
) -> Result<Vec<(Vec<u8>, Value)>, NoMemory>
    ensures { IfOk result (λ shown. map variable_in shown.items ≡ holding (declared_of variables.now) cells.now) }
{
    let mut shown = Vec::new(alloc);
    for (number, variable) in variables.iter().enumerate() {
        let Some(value) = held_at(cells, number) else {
            continue;
        };
        let name = Vec::from_slice(alloc, &variable.name)?;
        let value = value.copy(alloc)?;
        shown.push((name, value))?;
    }
    Ok(shown)
}

/// The value in the cell with a number, if there is one.
fn held_at(cells: &[Option<Value>], number: usize) -> Option<&Value>
    ensures { option_copied result ≡ value_at (slice_get cells.now number) }
{
    let cell = cells.get(number)?;
    cell.as_ref()
}

/// The items in the buffer of a channel, the next to be taken first.
fn items_shown(alloc: Global, channel: &Channel) -> Result<Vec<Value>, NoMemory>
    ensures { IfOk result (λ items. items.items ≡ channel.now.content.items) }
{
    let mut items = Vec::new(alloc);
    while let Some(item) = channel.item(items.len()) {
        let value = item.copy(alloc)?;
        items.push(value)?;
    }
    Ok(items)
}

/// Who waits to send on a channel, the first to be served first.
fn senders_shown(alloc: Global, channel: &Channel) -> Result<Vec<Waiter<Value>>, NoMemory>
    ensures { IfOk result (λ senders. senders.items ≡ channel.now.content.senders) }
{
    let mut senders = Vec::new(alloc);
    while let Some(waiter) = channel.sender(senders.len()) {
        let go = waiter.go.copy(alloc)?;
        let case = waiter.case;
        let value = waiter.value.copy(alloc)?;
        senders.push(Waiter { go, case, value })?;
    }
    Ok(senders)
}

/// Who waits to receive on a channel, the first to be served first.
fn receivers_shown(alloc: Global, channel: &Channel) -> Result<Vec<Waiter<()>>, NoMemory>
    ensures { IfOk result (λ receivers. receivers.items ≡ channel.now.content.receivers) }
{
    let mut receivers = Vec::new(alloc);
    while let Some(waiter) = channel.receiver(receivers.len()) {
        let go = waiter.go.copy(alloc)?;
        let case = waiter.case;
        receivers.push(Waiter {
            go,
            case,
            value: (),
        })?;
    }
    Ok(receivers)
}

/// A copy of the lines.
fn lines_shown(alloc: Global, lines: &[Vec<u8>]) -> Result<Vec<Vec<u8>>, NoMemory>
    ensures { IfOk result (λ copies. lines_in copies.items ≡ lines_of lines.now) }
{
    let mut copies = Vec::with_capacity(alloc, lines.len())?;
    for line in lines {
        let copy = Vec::from_slice(alloc, line)?;
        copies.push_reserved(copy);
    }
    Ok(copies)
}
