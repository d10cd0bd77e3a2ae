//! One session.

use gr_base::NoMemory;
use rewind::counted::Counted;
use rewind::debug::{DebugFault, debug};
use rewind::report::report;
use rewind::workers::debug_beside;
use std::alloc::Global;
use std::sync::Wait;
use std::thread::Threads;

/// What the debugger writes for these commands on this source, and after it the line of the fault, if there is one.
pub fn output(
    alloc: Global,
    file: &str,
    source: &[u8],
    script: &[u8],
) -> Result<Vec<u8>, NoMemory> {
    let mut source = Counted::new(source);
    let mut reader = Counted::new(script);
    let mut writer = Counted::new(Vec::new(alloc));
    let ended = debug(alloc, &mut source, &mut reader, &mut writer);
    told(file, writer.into_inner(), ended)
}

/// Serves the commands by a desk of a shared session, without workers.
pub fn output_of_desk<T: Threads + Wait + Sync>(
    rt: &T,
    alloc: Global,
    file: &str,
    source: &[u8],
    script: &[u8],
) -> Result<Vec<u8>, NoMemory> {
    let mut source = Counted::new(source);
    let mut reader = Counted::new(script);
    let mut writer = Counted::new(Vec::new(alloc));
    let ended = debug_beside(rt, alloc, 0, &mut source, &mut reader, &mut writer);
    told(file, writer.into_inner(), ended)
}

/// What was written, and the line of a fault.
fn told(file: &str, mut text: Vec<u8>, ended: Result<(), DebugFault>) -> Result<Vec<u8>, NoMemory> {
    if let Err(fault) = ended {
        let _status = report(&fault, file, &mut text)?;
    }
    Ok(text)
}
