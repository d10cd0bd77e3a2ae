//! Plays the example sessions of the folder that it is run in: `sessions`.
//!
//! NAME.go is a source, NAME.script its commands, and NAME.expect the output. Without NAME.script there are no commands. The
//! output ends in the line of the fault, where there is one. It has to come from a session of its own, and from a desk of a
//! shared session. Where there is a file NAME.queries, fresh sessions also take the kept steps once more. NAME.again takes them
//! in the order of the log, NAME.other and NAME.another in orders that respect dependence. All have to answer the queries alike.
//!
//! It prints `NAME: differs` for each session that is not as expected, and how many are.
//!
//! Exit status: 0 where all are as expected, else 1.
#![tactic(auto)]

mod examples;
mod orders;
mod session;

use std::io;
use std::process::ExitCode;

fn main(rt: HostRuntime) -> io::Result<ExitCode> {
    let are_expected = examples::are_expected(&rt, &rt)?;
    Ok(ExitCode::from(u8::from(!are_expected)))
}
