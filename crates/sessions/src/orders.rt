//! The steps that a session keeps, taken once more in fresh sessions.

use crate::examples::{Example, part};
use crate::session::output;
use gr_base::NoMemory;
use std::alloc::Global;
use std::io;

/// What takes the steps of a session once more: in the order of its log, and in two others that respect dependence.
const ORDERS: [&str; 3] = ["again", "other", "another"];

/// What is answered to the queries after these commands.
fn answers(
    alloc: Global,
    source: &[u8],
    commands: &[u8],
    queries: &[u8],
) -> Result<Vec<u8>, NoMemory> {
    let before = output(alloc, "", source, commands)?;
    let mut script = Vec::from_slice(alloc, commands)?;
    script.extend_from_slice(queries)?;
    let all = output(alloc, "", source, script.as_slice())?;
    match all.as_slice().get(before.len()..) {
        Some(answers) => Ok(Vec::from_slice(alloc, answers)?),
        None => Err(NoMemory),
    }
}

/// Whether the steps that a session keeps answer its queries alike in each of these orders. A session without queries has
/// nothing to compare.
pub fn is_replayed(rt: &HostRuntime, name: &str, example: &Example) -> io::Result<bool> {
    let Ok(queries) = part(rt, name, "queries") else {
        return Ok(true);
    };
    let (source, script) = (example.source.as_slice(), example.script.as_slice());
    let Ok(expected) = answers(rt.alloc(), source, script, queries.as_slice()) else {
        return Ok(false);
    };
    for order in ORDERS {
        let steps = part(rt, name, order)?;
        match answers(rt.alloc(), source, steps.as_slice(), queries.as_slice()) {
            Ok(found) if found == expected => {}
            _ => return Ok(false),
        }
    }
    Ok(true)
}
