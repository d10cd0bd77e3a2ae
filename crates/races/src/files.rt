//! Races over Go files, and what is reported of them.

use crate::race::{Load, Raced, race_all};
use crate::retaken::replay;
use gr_share::{Opened, Session};
use std::alloc::Global;
use std::marker::Brand;
use std::sync::Wait;
use std::thread::Threads;
use std::{fs, io};

/// What came of a race, where the session that was shared and a fresh one tell the same.
#[derive(Clone, Copy)]
struct Course {
    /// How many commands got an entry.
    asked: usize,
    /// How many entries are batches and turns of workers.
    worked: usize,
    /// How many steps were kept in the end.
    kept: usize,
    /// How many goroutines they started, with `g0`.
    goroutines: usize,
}

/// Races over a source. `None` where something is not as it should be.
fn course_of<T: Threads + Wait + Sync>(
    rt: &T,
    alloc: Global,
    source: &[u8],
    load: Load,
) -> Option<Course> {
    let session = Session::open(alloc, source).ok()?;
    let opened = Opened::new(alloc, session).ok()?;
    let Raced {
        session,
        asked,
        worked,
    } = race_all::<Brand, T>(rt, alloc, opened, load)?;
    let (kept, goroutines) = replay(alloc, source, session)?;
    Some(Course {
        asked,
        worked,
        kept,
        goroutines,
    })
}

/// Races over a file, and reports on it. Answers how many commands got an entry, where it is as it should be.
fn asked_in<T: Threads + Wait + Sync>(
    rt: &HostRuntime,
    threads: &T,
    file: &str,
    source: &[u8],
    load: Load,
) -> io::Result<Option<usize>> {
    let seed = load.seed;
    let Some(course) = course_of(threads, rt.alloc(), source, load) else {
        eprintln!(rt; "{file}: race {seed} differs")?;
        return Ok(None);
    };
    let Course {
        asked,
        worked,
        kept,
        goroutines,
    } = course;
    eprintln!(rt;
        "{file}: {asked} commands, {worked} batches and turns; {kept} steps kept, {goroutines} goroutines"
    )?;
    Ok(Some(asked))
}

/// Has callers race over a file this often, and reports how often it was as it should be. Answers whether it always was.
fn tell<T: Threads + Wait + Sync>(
    rt: &HostRuntime,
    threads: &T,
    file: &str,
    races: u32,
    load: Load,
) -> io::Result<bool> {
    let source = fs::read(rt, file)?;
    let mut alike = 0u32;
    let mut commands = 0usize;
    for race in 0..races {
        let load = Load {
            seed: race as u64,
            ..load
        };
        if let Some(asked) = asked_in(rt, threads, file, source.as_slice(), load)? {
            alike = alike.saturating_add(1);
            commands = commands.saturating_add(asked);
        }
    }
    println!(rt; "{file}: {alike} of {races} alike, {commands} commands")?;
    Ok(alike == races)
}

/// How many races there are over each file, and the load of the first.
fn settings(desks: &str, workers: &str, commands: &str, races: &str) -> Option<(u32, Load)> {
    let load = Load {
        desks: desks.parse().ok()?,
        workers: workers.parse().ok()?,
        commands: commands.parse().ok()?,
        seed: 0,
    };
    Some((races.parse().ok()?, load))
}

/// Has callers race over each file. Answers whether all was as it should be: with wrong words it is not.
pub fn are_alike<T: Threads + Wait + Sync>(
    rt: &HostRuntime,
    threads: &T,
    words: &[String],
) -> io::Result<bool> {
    let [desks, workers, commands, races, files @ ..] = words else {
        return Ok(false);
    };
    let Some((races, load)) = settings(
        desks.as_str(),
        workers.as_str(),
        commands.as_str(),
        races.as_str(),
    ) else {
        return Ok(false);
    };
    let mut alike = true;
    for file in files {
        if !tell(rt, threads, file.as_str(), races, load)? {
            alike = false;
        }
    }
    Ok(alike)
}
