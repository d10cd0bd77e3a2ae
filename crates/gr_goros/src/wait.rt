//! Whether a goroutine is ready, and what it waits for.

use gr_base::ChName;

/// What a goroutine waits for, with the number of the clause, counted from 1, where it waits in a select.
#[derive(Drop)]
pub enum Wait {
    Send(ChName, Option<u32>),
    Receive(ChName, Option<u32>),
}

/// What a goroutine does next.
#[derive(Drop)]
pub enum Status {
    /// It takes a step.
    Ready,
    /// It waits to send on this channel, and for nothing else, outside a select.
    Sending(ChName),
    /// It waits to receive from this channel, and for nothing else, outside a select.
    Receiving(ChName),
    /// It waits for one of these; forever, where there is none.
    Waiting(Box<Vec<Wait>>),
    /// It has returned from its outermost frame, or ended the program.
    Finished,
}
