//! The example sessions of the folder that the program is run in.

use crate::orders::is_replayed;
use crate::session::{output, output_of_desk};
use std::fs::DirEntry;
use std::sync::Wait;
use std::thread::Threads;
use std::{fs, io};

/// A session and what it has to give.
#[derive(Drop)]
pub struct Example {
    pub source: Vec<u8>,
    pub script: Vec<u8>,
    expected: Vec<u8>,
}

/// The file of a session that has this ending.
pub fn part(rt: &HostRuntime, name: &str, ending: &str) -> io::Result<Vec<u8>> {
    let file = format!(in rt.alloc(); "{name}.{ending}")?;
    fs::read(rt, file.as_str())
}

impl Example {
    fn read(rt: &HostRuntime, name: &str) -> io::Result<Example> {
        let source = part(rt, name, "go")?;
        let script = part(rt, name, "script").unwrap_or(Vec::new(rt.alloc()));
        let expected = part(rt, name, "expect")?;
        Ok(Example {
            source,
            script,
            expected,
        })
    }

    /// Whether a session and a desk both give what is expected.
    fn is_given<T: Threads + Wait + Sync>(
        &self,
        rt: &HostRuntime,
        threads: &T,
        file: &str,
    ) -> bool {
        let (source, script) = (self.source.as_slice(), self.script.as_slice());
        let alone = output(rt.alloc(), file, source, script);
        let shared = output_of_desk(threads, rt.alloc(), file, source, script);
        match (alone, shared) {
            (Ok(alone), Ok(shared)) => alone == self.expected && shared == self.expected,
            _ => false,
        }
    }
}

/// Whether the session of this name is as expected.
fn is_expected<T: Threads + Wait + Sync>(
    rt: &HostRuntime,
    threads: &T,
    name: &str,
) -> io::Result<bool> {
    let example = Example::read(rt, name)?;
    let file = format!(in rt.alloc(); "{name}.go")?;
    Ok(example.is_given(rt, threads, file.as_str()) && is_replayed(rt, name, &example)?)
}

/// The name of the session whose source a file of the folder is.
fn name_of(rt: &HostRuntime, file: io::Result<DirEntry>) -> io::Result<Option<String>> {
    match file?.file_name().strip_suffix(".go") {
        Some(name) => Ok(Some(String::from_str(rt.alloc(), name)?)),
        None => Ok(None),
    }
}

/// The names of the sessions, in order.
fn sessions(rt: &HostRuntime) -> io::Result<Vec<String>> {
    let mut names = Vec::new(rt.alloc());
    for file in fs::read_dir(rt, ".")? {
        if let Some(name) = name_of(rt, file)? {
            names.push(name)?;
        }
    }
    names.sort()?;
    Ok(names)
}

/// Plays all sessions, and says which differ and how many are as expected. Answers whether all are.
pub fn are_expected<T: Threads + Wait + Sync>(rt: &HostRuntime, threads: &T) -> io::Result<bool> {
    let names = sessions(rt)?;
    let mut expected = 0usize;
    for name in &names {
        if is_expected(rt, threads, name.as_str())? {
            expected = expected.saturating_add(1);
        } else {
            println!(rt; "{name}: differs")?;
        }
    }
    println!(rt; "{expected} sessions are as expected")?;
    Ok(expected == names.len())
}
