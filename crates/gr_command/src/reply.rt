//! What a session answers.

use crate::refusal::Refusal;
use gr_base::{Fault, GoName, Kind, StepId, Value};
use gr_channels::Waiter;

/// Why a run ended.
#[derive(Clone, Copy, PartialEq, Eq)]
pub enum RunEnd {
    /// The program has ended.
    Ended,
    /// A fault stopped the program.
    Fault(Fault),
    /// As many steps were taken as the run asked for.
    Count,
    /// No goroutine is ready.
    Stuck,
    /// The log has as many steps as it may.
    Full,
    /// The next step belongs to a statement that begins on this line, which has a breakpoint.
    Break(u32),
    /// A growth was refused.
    Memory,
}

/// Whether a goroutine can take a step.
#[derive(Clone, Copy, PartialEq, Eq)]
pub enum Status {
    Ready,
    /// It waits on channels.
    Waiting,
    /// It has left its outermost function.
    Done,
}

/// A frame as it is shown.
#[derive(Drop)]
pub struct FrameShown {
    /// The name of its function.
    pub function: Vec<u8>,
    /// The variables that hold values, by name, in the order of their declarations.
    pub variables: Vec<(Vec<u8>, Value)>,
}

/// A goroutine as it is shown.
#[derive(Drop)]
pub struct GoroutineShown {
    pub go: GoName,
    pub status: Status,
    /// How many steps it took.
    pub steps: u64,
    /// The line on which the statement of its next step begins. There is none where it is done.
    pub line: Option<usize>,
    /// Its frames, the innermost first.
    pub frames: Vec<FrameShown>,
}

/// A channel as it is shown.
#[derive(Drop)]
pub struct ChannelShown {
    pub capacity: u32,
    pub closed: bool,
    /// The items in its buffer, the next to be taken first.
    pub items: Vec<Value>,
    /// Who waits to send, the first to be served first.
    pub senders: Vec<Waiter<Value>>,
    /// Who waits to receive, the first to be served first.
    pub receivers: Vec<Waiter<()>>,
}

/// What came of a command, or of a batch.
#[derive(Drop)]
pub enum Reply {
    /// The step was taken, and is of this kind.
    Stepped(StepId, Kind),
    /// This many steps were taken, and this ended them.
    Ran { steps: u64, end: RunEnd },
    /// The step was taken back.
    Undone(StepId),
    Shown(GoroutineShown),
    Channel(ChannelShown),
    /// Lines that were printed, the oldest first.
    Lines(Vec<Vec<u8>>),
    /// The kept steps with their kinds, the oldest first.
    Log(Vec<(StepId, Kind)>),
    /// Steps that were asked for, taken back or taken again, in the order of the log.
    Steps(Vec<StepId>),
    /// A growth was refused. Before that, these steps were taken back or taken again.
    PartlyDone(Vec<StepId>),
    /// These two steps conflict and would change places; the first is the earlier one.
    BreaksDependence { earlier: StepId, later: StepId },
    /// It was done, and there is nothing to tell.
    Acknowledged,
    /// The workers may now take this many steps.
    Granted(u32),
    /// The steps of the batch joined the log: this many.
    Committed(u32),
    /// The steps of the batch were not taken. They are no longer steps of the program, or more than the grant.
    Stale,
    Refused(Refusal),
}
