//! After which step of a log no schedule ends well any more.

ghost use Rattle.std.specs.Prelude.{◌≡◌, ◌<◌, ◌≤◌, OnOk, OnErr, IfOk, take, length};
ghost use Rattle.gr_program.specs.Programs.{Program};
ghost use Rattle.gr_step.specs.Stores.{program_at};
ghost use Rattle.gr_rollback.specs.Machines.{IsMachine, Stands, store_of};
ghost use Rattle.gr_rollback.specs.Pasts.{Timeline, events_in};
ghost use Rattle.gr_explore.specs.Exploring.{StandsAgain, events_at};
ghost use Rattle.gr_explore.specs.Blaming.{CanEndWell, GoesOn, IsBlame, IsLost, IsOf, IsVerdict, StandsAlong};

use crate::moving::{back_to, events_of, move_to};
use crate::searching::explore_for;
use gr_base::Event;
use gr_rollback::Machine;
use gr_schedules::Aim;
use gr_search::search::{Answer, Limits};
use gr_search::searched::Limit;
use std::alloc::Global;

/// Between which places of a log the step to blame is, where a limit was met.
#[derive(Clone, Copy)]
pub struct Span {
    /// The limit that was met.
    pub limit: Limit,
    /// After so many steps some schedule ends well, if that is known.
    pub well: Option<usize>,
    /// After so many steps none does, if that is known.
    pub lost: Option<usize>,
}

/// Which step is to blame that no schedule ends well any more.
#[derive(Clone, Copy)]
pub enum Blame {
    /// No step: some schedule ends well from where the machine stands.
    Nobody,
    /// No schedule of the program ends well.
    Beginning,
    /// The step that comes after so many others: before it some schedule ends well, and after it none does.
    Step(usize),
    /// A limit was met.
    Between(Span),
}

/// What was found at a place of a log.
#[derive(Clone, Copy)]
enum Verdict {
    /// Some schedule ends well.
    Well,
    /// None does.
    Lost,
    Unknown(Limit),
}

/// Searches from where the machine stands for a schedule that ends well.
fn search_there(alloc: Global, machine: &mut Machine, limits: &Limits) -> Verdict
    requires { IsMachine machine.old }
    ensures on { GoesOn machine.old machine.new }
    ensures verdict { IsVerdict (program_at (store_of machine.old)) (events_at machine.old) (length (events_at machine.old)) result }
{
    match explore_for(alloc, machine, Aim::EndsWell, limits) {
        Answer::Found => Verdict::Well,
        Answer::Nothing(_) => Verdict::Lost,
        Answer::Limited(limit) => Verdict::Unknown(limit),
    }
}

/// Looks whether some schedule ends well after so many of the events. The machine then stands there.
fn look_after(
    alloc: Global,
    machine: &mut Machine,
    events: &[Event],
    place: usize,
    limits: &Limits,
) -> Result<Verdict, Limit>
    requires machine { IsMachine machine.old }
    requires along { StandsAlong events.now machine.old }
    requires within { place ≤ length events.now }
    ensures of { IsOf (program_at (store_of machine.old)) machine.new }
    ensures there { OnOk result (events_at machine.new ≡ take place events.now) }
    ensures verdict { IfOk result (IsVerdict (program_at (store_of machine.old)) events.now place) }
{
    move_to(alloc, machine, events, place)?;
    let verdict = search_there(alloc, machine, limits);
    back_to(alloc, machine, place)?;
    Ok(verdict)
}

/// Narrows the places down to the step to blame. After the first place some schedule ends well, after the other none does.
fn narrow(
    alloc: Global,
    machine: &mut Machine,
    events: &[Event],
    first: usize,
    last: usize,
    limits: &Limits,
) -> Result<Blame, Limit>
    requires machine { IsMachine machine.old }
    requires along { StandsAlong events.now machine.old }
    requires apart { first < last }
    requires within { last ≤ length events.now }
    requires well { CanEndWell (program_at (store_of machine.old)) events.now first }
    requires lost { IsLost (program_at (store_of machine.old)) events.now last }
    ensures of { IsOf (program_at (store_of machine.old)) machine.new }
    ensures along { OnOk result (StandsAlong events.now machine.new) }
    ensures blame { IfOk result (IsBlame (program_at (store_of machine.old)) events.now) }
{
    let mut well = first;
    let mut lost = last;
    while well + 1 < lost {
        let middle = well + (lost - well) / 2;
        match look_after(alloc, machine, events, middle, limits)? {
            Verdict::Well => well = middle,
            Verdict::Lost => lost = middle,
            Verdict::Unknown(limit) => {
                return Ok(Blame::Between(Span {
                    limit,
                    well: Some(well),
                    lost: Some(lost),
                }));
            }
        }
    }
    Ok(Blame::Step(well))
}

/// Finds the step to blame, of a log after whose last step no schedule ends well.
fn blame_within(
    alloc: Global,
    machine: &mut Machine,
    events: &[Event],
    limits: &Limits,
) -> Result<Blame, Limit>
    requires machine { IsMachine machine.old }
    requires along { StandsAlong events.now machine.old }
    requires lost { IsLost (program_at (store_of machine.old)) events.now (length events.now) }
    ensures of { IsOf (program_at (store_of machine.old)) machine.new }
    ensures along { OnOk result (StandsAlong events.now machine.new) }
    ensures blame { IfOk result (IsBlame (program_at (store_of machine.old)) events.now) }
{
    match look_after(alloc, machine, events, 0, limits)? {
        Verdict::Well => narrow(alloc, machine, events, 0, events.len(), limits),
        Verdict::Lost => Ok(Blame::Beginning),
        Verdict::Unknown(limit) => Ok(Blame::Between(Span {
            limit,
            well: None,
            lost: Some(events.len()),
        })),
    }
}

/// Finds the step to blame, along the events of the log.
fn blame_along(
    alloc: Global,
    machine: &mut Machine,
    events: &[Event],
    limits: &Limits,
) -> Result<Blame, Limit>
    requires machine { IsMachine machine.old }
    requires along { StandsAlong events.now machine.old }
    ensures of { IsOf (program_at (store_of machine.old)) machine.new }
    ensures along { OnOk result (StandsAlong events.now machine.new) }
    ensures blame { IfOk result (IsBlame (program_at (store_of machine.old)) events.now) }
{
    match look_after(alloc, machine, events, events.len(), limits)? {
        Verdict::Well => Ok(Blame::Nobody),
        Verdict::Lost => blame_within(alloc, machine, events, limits),
        Verdict::Unknown(limit) => Ok(Blame::Between(Span {
            limit,
            well: None,
            lost: None,
        })),
    }
}

/// Finds the first step of a machine's log after which no schedule of the program ends well any more. It searches after some of the
/// steps, halving their number, and each of these searches has the limits for itself. Steps that were taken back before can't be
/// taken again after it.
///
/// The machine then stands where it stood. With an error the limit was met on the way back or forth, and the machine stands
/// elsewhere in its program.
pub fn find_blame(alloc: Global, machine: &mut Machine, limits: &Limits) -> Result<Blame, Limit>
    requires { IsMachine machine.old }
    ensures blame { (p : Program) (w : Timeline p) → Stands p w machine.old
        → IfOk result (IsBlame p (events_in p w.past.log)) }
    ensures home { (p : Program) (w : Timeline p) → Stands p w machine.old → OnOk result (StandsAgain p w machine.new) }
    ensures err { (p : Program) (w : Timeline p) → Stands p w machine.old → OnErr result (IsOf p machine.new) }
{
    let Ok(events) = events_of(alloc, machine) else {
        return Err(Limit::Memory);
    };
    let blame = blame_along(alloc, machine, events.as_slice(), limits)?;
    move_to(alloc, machine, events.as_slice(), events.len())?;
    Ok(blame)
}
