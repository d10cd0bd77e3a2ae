//! Searches of all schedules, and what is said of them.

use crate::fail;
use rewind::counted::Counted;
use rewind::debug::DebugFault;
use rewind::print_step;
use rewind::searching::{
    BadEnd, BadEnds, Blamed, Limit, Limits, Schedule, SearchFault, Span, SurveyFault, Surveyed,
    Unfinished, find_blame, search,
};
use rewind::stream::ServeFault;
use std::fs::File;
use std::io;
use std::io::{BufReader, Read, Write};
use std::process::ExitCode;

/// How many local steps in a row are taken before a state is looked at.
const ALONE: u32 = 10_000;

/// What is searched, and how far.
#[derive(Clone, Copy)]
struct Wanted<'a> {
    file: &'a str,
    /// The name of the script; empty without one.
    script: &'a str,
    /// Which ends are bad.
    bad: BadEnds,
    states: u32,
}

impl Wanted<'_> {
    fn limits(&self) -> Limits {
        Limits {
            alone: ALONE,
            states: self.states as usize,
            turns: u64::MAX,
        }
    }
}

/// Tells why a program was not searched.
fn fail_search(rt: &HostRuntime, wanted: Wanted<'_>, fault: SearchFault) -> ExitCode {
    match fault {
        SearchFault::Source => fail(rt, &DebugFault::Source, wanted.file),
        SearchFault::Script => fail(rt, &DebugFault::Source, wanted.script),
        SearchFault::Survey(SurveyFault::Open(error)) => {
            fail(rt, &DebugFault::Open(error), wanted.file)
        }
        SearchFault::Survey(SurveyFault::Memory) => {
            fail(rt, &DebugFault::Serve(ServeFault::Memory), wanted.file)
        }
        SearchFault::Survey(SurveyFault::Line(line)) => {
            let _ = writeln!(
                rt.stderr(),
                "rewind: the command in line {} of {} is refused",
                line,
                wanted.script
            );
            ExitCode::from(2)
        }
    }
}

/// Tells which limit was met, as the beginning of a line.
fn tell_limit(rt: &HostRuntime, limit: Limit, states: u32) {
    let _ = match limit {
        Limit::States => write!(rt.stderr(), "not finished: {} states seen", states),
        Limit::Steps => write!(
            rt.stderr(),
            "not finished: a schedule is as long as the log may be"
        ),
        Limit::Turns => write!(rt.stderr(), "not finished: as many events tried as may be"),
        Limit::Memory | Limit::Back => {
            write!(rt.stderr(), "not finished: there is no memory for more")
        }
    };
}

/// Tells what is known where a limit was met.
fn tell_unfinished(rt: &HostRuntime, unfinished: Unfinished, states: u32) {
    tell_limit(rt, unfinished.limit, states);
    let _ = writeln!(
        rt.stderr(),
        ", and no schedule ends badly within {} steps",
        unfinished.safe
    );
}

/// The words for a bad end.
fn end_words(end: BadEnd) -> &'static str {
    match end {
        BadEnd::Stuck => "a deadlock",
        BadEnd::Fault(_) => "a panic",
        BadEnd::Leak => "a leak",
    }
}

/// Tells of a schedule that ends badly, and writes its commands.
fn tell_schedule(
    rt: &HostRuntime,
    wanted: Wanted<'_>,
    schedule: Schedule,
    commands: &[u8],
) -> ExitCode {
    if rt.stdout().write_all(commands).is_err() {
        return fail(rt, &DebugFault::Serve(ServeFault::Write), wanted.file);
    }
    let _ = writeln!(
        rt.stderr(),
        "a schedule of {} steps ends in {}",
        schedule.steps,
        end_words(schedule.end)
    );
    ExitCode::from(4)
}

/// Tells what a search found.
fn tell(rt: &HostRuntime, wanted: Wanted<'_>, found: Surveyed, commands: &[u8]) -> ExitCode {
    match found {
        Surveyed::NoneEndsBadly(states) => {
            let _ = write!(rt.stderr(), "no schedule ends badly: ");
            let _ = match states {
                1 => writeln!(rt.stderr(), "its one state seen"),
                _ => writeln!(rt.stderr(), "all {} states seen", states),
            };
            ExitCode::from(0)
        }
        Surveyed::Shortest(schedule) => tell_schedule(rt, wanted, schedule, commands),
        Surveyed::Found(schedule, unfinished) => {
            let code = tell_schedule(rt, wanted, schedule, commands);
            let _ = write!(rt.stderr(), "whether a shorter one does: ");
            tell_unfinished(rt, unfinished, wanted.states);
            code
        }
        Surveyed::Unfinished(unfinished) => {
            tell_unfinished(rt, unfinished, wanted.states);
            ExitCode::from(5)
        }
    }
}

/// Searches the program of a file from where a script leaves it.
fn search_after<R: Read + Drop>(
    rt: &HostRuntime,
    wanted: Wanted<'_>,
    script: R,
) -> io::Result<ExitCode> {
    let Ok(opened) = File::open(rt, wanted.file) else {
        return Ok(fail(rt, &DebugFault::Source, wanted.file));
    };
    let mut source = Counted::new(BufReader::new(rt.alloc(), opened)?);
    let mut script = Counted::new(script);
    let mut commands = Vec::new(rt.alloc());
    let limits = wanted.limits();
    match search(
        rt.alloc(),
        &mut source,
        &mut script,
        wanted.bad,
        &limits,
        &mut commands,
    ) {
        Ok(found) => Ok(tell(rt, wanted, found, commands.as_slice())),
        Err(fault) => Ok(fail_search(rt, wanted, fault)),
    }
}

/// Searches the program of a file, from where the script of a name leaves it. The script `-` is standard input.
pub(crate) fn search_file(
    rt: &HostRuntime,
    file: &str,
    after: Option<&str>,
    leaks: bool,
    states: u32,
) -> io::Result<ExitCode> {
    let script = after.unwrap_or("");
    let wanted = Wanted {
        file,
        script,
        bad: if leaks {
            BadEnds::WithLeaks
        } else {
            BadEnds::WithoutLeaks
        },
        states,
    };
    match after {
        None => search_after(rt, wanted, b"".as_slice()),
        Some("-") => search_after(rt, wanted, rt.stdin()),
        Some(name) => match File::open(rt, name) {
            Ok(opened) => search_after(rt, wanted, opened),
            Err(_) => Ok(fail(rt, &DebugFault::Source, name)),
        },
    }
}

/// Tells between which steps the one to blame lies.
fn tell_span(rt: &HostRuntime, span: Span, states: u32) -> ExitCode {
    tell_limit(rt, span.limit, states);
    if let Some(well) = span.well {
        let _ = write!(
            rt.stderr(),
            ", after {} steps some schedule ends well",
            well
        );
    }
    if let Some(lost) = span.lost {
        let _ = write!(rt.stderr(), ", after {} steps none does", lost);
    }
    let _ = writeln!(rt.stderr(), "");
    ExitCode::from(5)
}

/// Tells which step is to blame: its name alone on standard output, and the words on standard error.
fn tell_blame(rt: &HostRuntime, wanted: Wanted<'_>, blamed: &Blamed) -> ExitCode {
    match blamed {
        Blamed::Nobody => {
            let _ = writeln!(
                rt.stderr(),
                "no step is to blame: some schedule ends well from there"
            );
        }
        Blamed::Beginning => {
            let _ = writeln!(rt.stderr(), "no schedule of the program ends well");
        }
        Blamed::Step(id) => {
            let mut name = Vec::new(rt.alloc());
            if print_step(&mut name, id).is_err() || name.push(b'\n').is_err() {
                return fail(rt, &DebugFault::Serve(ServeFault::Memory), wanted.file);
            }
            if rt.stdout().write_all(name.as_slice()).is_err() {
                return fail(rt, &DebugFault::Serve(ServeFault::Write), wanted.file);
            }
            let _ = writeln!(
                rt.stderr(),
                "before this step some schedule ends well, and after it none does"
            );
        }
        Blamed::Between(span) => return tell_span(rt, *span, wanted.states),
    }
    ExitCode::from(0)
}

/// Finds the step of a script that is to blame.
fn blame_after<R: Read + Drop>(
    rt: &HostRuntime,
    wanted: Wanted<'_>,
    script: R,
) -> io::Result<ExitCode> {
    let Ok(opened) = File::open(rt, wanted.file) else {
        return Ok(fail(rt, &DebugFault::Source, wanted.file));
    };
    let mut source = Counted::new(BufReader::new(rt.alloc(), opened)?);
    let mut script = Counted::new(script);
    let limits = wanted.limits();
    match find_blame(rt.alloc(), &mut source, &mut script, &limits) {
        Ok(blamed) => Ok(tell_blame(rt, wanted, &blamed)),
        Err(fault) => Ok(fail_search(rt, wanted, fault)),
    }
}

/// Finds the step to blame of the script of a name. The script `-` is standard input.
pub(crate) fn blame_file(
    rt: &HostRuntime,
    file: &str,
    script: &str,
    states: u32,
) -> io::Result<ExitCode> {
    let wanted = Wanted {
        file,
        script,
        bad: BadEnds::WithoutLeaks,
        states,
    };
    if script == "-" {
        return blame_after(rt, wanted, rt.stdin());
    }
    match File::open(rt, script) {
        Ok(opened) => blame_after(rt, wanted, opened),
        Err(_) => Ok(fail(rt, &DebugFault::Source, script)),
    }
}
