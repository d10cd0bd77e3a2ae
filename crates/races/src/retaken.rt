//! The steps that a session keeps, taken once more in a fresh session.
ghost use Rattle.std.specs.Prelude.{◌≤◌};

use gr_base::{ChName, GoName, Kind, StepId};
use gr_command::{Command, Reply, write_reply};
use gr_share::{DeskId, Session};
use std::alloc::Global;

/// A session, with one who asks it.
#[derive(Drop)]
struct Asked {
    session: Session,
    desk: DeskId,
    ghost enrolled: { (1 ≤ desk.number) × (desk.number ≤ session.askers) },
}

impl Asked {
    /// `None` where there are too many askers.
    fn new(mut session: Session) -> Option<Asked> {
        let desk = session.enrol().ok()?;
        Some(Asked { session, desk })
    }

    fn ask(&mut self, alloc: Global, command: Command) -> Option<Reply> {
        Some(self.session.ask(alloc, self.desk, command).ok()?.reply)
    }

    /// The steps that are kept.
    fn log(&mut self, alloc: Global) -> Option<Vec<(StepId, Kind)>> {
        match self.ask(alloc, Command::Log)? {
            Reply::Log(steps) => Some(steps),
            _ => None,
        }
    }

    /// The text of the reply.
    fn told(&mut self, alloc: Global, command: Command) -> Option<Vec<u8>> {
        let reply = self.ask(alloc, command)?;
        let mut text = Vec::new(alloc);
        write_reply(&mut text, &reply).ok()?;
        Some(text)
    }
}

/// Takes a step once more. Whether it is the same.
fn take(alloc: Global, fresh: &mut Asked, id: &StepId, kind: Kind) -> Option<bool> {
    let case = match kind {
        Kind::Pick(clause) => Some(clause),
        _ => None,
    };
    let go = id.go.copy(alloc).ok()?;
    match fresh.ask(alloc, Command::Step { go, case })? {
        Reply::Stepped(taken, found) => Some(taken == *id && found == kind),
        _ => Some(false),
    }
}

/// Takes the steps of a log in a session that has taken none. Answers whether all are the same; `None` where memory ran out.
fn take_all(alloc: Global, fresh: &mut Asked, log: &[(StepId, Kind)]) -> Option<bool> {
    for (id, kind) in log {
        if !take(alloc, fresh, id, *kind)? {
            return Some(false);
        }
    }
    Some(true)
}

/// How many steps of this kind a goroutine took.
fn count(log: &[(StepId, Kind)], go: &GoName, kind: Kind) -> u32 {
    let mut found = 0u32;
    for (id, its) in log {
        if *its == kind && id.go == *go {
            found = found.saturating_add(1);
        }
    }
    found
}

/// `g0`, and the goroutines that the steps of a log started.
fn goroutines(alloc: Global, log: &[(StepId, Kind)]) -> Option<Vec<GoName>> {
    let mut names = Vec::new(alloc);
    names.push(GoName::main(alloc).ok()?).ok()?;
    for i in 0..log.len() {
        if i >= names.len() {
            break;
        }
        let go = names[i].copy(alloc).ok()?;
        for n in 0..count(log, &go, Kind::Go) {
            names.push(go.child(alloc, n + 1).ok()?).ok()?;
        }
    }
    Some(names)
}

fn is_told_alike(
    alloc: Global,
    one: &mut Asked,
    other: &mut Asked,
    command: Command,
) -> Option<bool> {
    let again = command.copy(alloc).ok()?;
    let first = one.told(alloc, command)?;
    let second = other.told(alloc, again)?;
    Some(first.as_slice() == second.as_slice())
}

/// Whether two sessions answer alike about a goroutine, what it printed, and this many of the first channels that it made.
fn is_alike(
    alloc: Global,
    one: &mut Asked,
    other: &mut Asked,
    go: &GoName,
    channels: u32,
) -> Option<bool> {
    let shown = Command::Show(go.copy(alloc).ok()?);
    let text = Command::Text(go.copy(alloc).ok()?);
    if !is_told_alike(alloc, one, other, shown)? || !is_told_alike(alloc, one, other, text)? {
        return Some(false);
    }
    for n in 0..channels {
        let go = go.copy(alloc).ok()?;
        let channel = Command::Chan(ChName { go, n: n + 1 });
        if !is_told_alike(alloc, one, other, channel)? {
            return Some(false);
        }
    }
    Some(true)
}

/// How many goroutines the steps of a log know. `None` unless two sessions that took them answer alike about all goroutines and
/// channels.
fn compare(
    alloc: Global,
    one: &mut Asked,
    other: &mut Asked,
    log: &[(StepId, Kind)],
) -> Option<usize> {
    let names = goroutines(alloc, log)?;
    for go in &names {
        let channels = count(log, go, Kind::Make);
        if !is_alike(alloc, one, other, go, channels)? {
            return None;
        }
    }
    Some(names.len())
}

/// A fresh session that took the steps of a log.
fn again(alloc: Global, source: &[u8], log: &[(StepId, Kind)]) -> Option<Asked> {
    let session = Session::open(alloc, source).ok()?;
    let mut fresh = Asked::new(session)?;
    match take_all(alloc, &mut fresh, log) {
        Some(true) => Some(fresh),
        _ => None,
    }
}

fn compare_again(
    alloc: Global,
    source: &[u8],
    shared: &mut Asked,
    log: &[(StepId, Kind)],
) -> Option<usize> {
    let mut fresh = again(alloc, source, log)?;
    compare(alloc, shared, &mut fresh, log)
}

/// How many steps a session of the source keeps, and how many goroutines they know. A fresh session takes the same steps, and
/// has to answer alike about all goroutines and channels. `None` where it does not, or memory ran out.
pub fn replay(alloc: Global, source: &[u8], session: Session) -> Option<(usize, usize)> {
    let mut shared = Asked::new(session)?;
    let log = shared.log(alloc)?;
    let goroutines = compare_again(alloc, source, &mut shared, log.as_slice())?;
    Some((log.len(), goroutines))
}
