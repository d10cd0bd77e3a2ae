//! Has desks and workers race over Go files: `races DESKS WORKERS COMMANDS RACES FILE..`.
//!
//! In each race they share a session, each on a thread of its own. Each desk asks that many commands that change a session: in
//! every other race they are drawn at random, and in the others they come in turn. When all have ended, a fresh session takes
//! the kept steps once more. Both sessions have to answer alike about each goroutine, about what it printed and about each
//! channel.
//!
//! For each file it prints how many races ended as they should, and how many commands got an entry, and what came of each race
//! on standard error.
//!
//! Exit status: 0 where each race ended as it should, else 1.
#![tactic(auto)]

mod chance;
mod files;
mod race;
mod retaken;

use std::process::ExitCode;
use std::sync::Wait;
use std::thread::Threads;
use std::{env, io};

fn run<T: Threads + Wait + Sync>(rt: &HostRuntime, threads: &T) -> io::Result<ExitCode> {
    let words: Vec<String> = env::args(rt)?.collect(rt.alloc())?;
    let [_, given @ ..] = words.as_slice() else {
        return Ok(ExitCode::from(1));
    };
    let are_alike = files::are_alike(rt, threads, given)?;
    Ok(ExitCode::from(u8::from(!are_alike)))
}

fn main(rt: HostRuntime) -> io::Result<ExitCode> {
    run(&rt, &rt)
}
