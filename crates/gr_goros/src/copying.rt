//! Copies of goroutines.

ghost use Rattle.std.specs.Prelude.{◌≡◌, IfOk};
ghost use Rattle.gr_goros.specs.Views.{lines_of, status_of};

use crate::frame::Frame;
use crate::goroutine::Goroutine;
use crate::wait::{Status, Wait};
use gr_base::{NoMemory, Value};
use std::alloc::Global;

/// What can be copied.
pub(crate) trait Copied: Sized + Drop {
    /// A copy.
    fn copied(&self, alloc: Global) -> Result<Self, NoMemory>
        ensures { IfOk result (λ copy. copy ≡ self.now) };
}

impl Copied for Wait {
    fn copied(&self, alloc: Global) -> Result<Wait, NoMemory> {
        match self {
            Wait::Send(channel, clause) => Ok(Wait::Send(channel.copy(alloc)?, *clause)),
            Wait::Receive(channel, clause) => Ok(Wait::Receive(channel.copy(alloc)?, *clause)),
        }
    }
}

impl Copied for Option<Value> {
    fn copied(&self, alloc: Global) -> Result<Option<Value>, NoMemory> {
        match self {
            Some(value) => Ok(Some(value.copy(alloc)?)),
            None => Ok(None),
        }
    }
}

impl Copied for Frame {
    fn copied(&self, alloc: Global) -> Result<Frame, NoMemory> {
        self.copy(alloc)
    }
}

/// Copies of these.
pub(crate) fn copy_all<T: Copied>(alloc: Global, items: &[T]) -> Result<Vec<T>, NoMemory>
    ensures { IfOk result (λ copies. copies.items ≡ items.now) }
{
    let mut copies = Vec::with_capacity(alloc, items.len())?;
    for item in items {
        copies.push_reserved(item.copied(alloc)?);
    }
    Ok(copies)
}

/// Copies of these lines.
fn copy_lines(alloc: Global, lines: &[Vec<u8>]) -> Result<Vec<Vec<u8>>, NoMemory>
    ensures { IfOk result (λ copies. lines_of copies.items ≡ lines_of lines.now) }
{
    let mut copies = Vec::with_capacity(alloc, lines.len())?;
    for line in lines {
        copies.push_reserved(Vec::from_slice(alloc, line)?);
    }
    Ok(copies)
}

/// A copy of the status.
fn copy_status(alloc: Global, status: &Status) -> Result<Status, NoMemory>
    ensures { IfOk result (λ copy. status_of copy ≡ status_of status.now) }
{
    match status {
        Status::Ready => Ok(Status::Ready),
        Status::Sending(channel) => Ok(Status::Sending(channel.copy(alloc)?)),
        Status::Receiving(channel) => Ok(Status::Receiving(channel.copy(alloc)?)),
        Status::Waiting(waits) => {
            let waits = copy_all(alloc, waits)?;
            Ok(Status::Waiting(Box::new(alloc, waits)?))
        }
        Status::Finished => Ok(Status::Finished),
    }
}

impl Goroutine {
    /// A goroutine with the same content.
    pub fn copy(&self, alloc: Global) -> Result<Goroutine, NoMemory>
        ensures { IfOk result (λ copy. copy.content ≡ self.now.content) }
    {
        let status = copy_status(alloc, &self.status)?;
        let top = self.top.copy(alloc)?;
        let below = copy_all(alloc, &self.below)?;
        let text = copy_lines(alloc, &self.text)?;
        Ok(Goroutine {
            status,
            top,
            below,
            steps: self.steps,
            children: self.children,
            channels: self.channels,
            text,
        })
    }
}
