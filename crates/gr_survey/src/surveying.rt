//! Whether some schedule of a program ends badly, from where a script leaves it.

ghost use Rattle.std.specs.Prelude.{◌≡◌, ◌++◌, IsTrue, IfOk, IfErr, OnOk, OnErr, length};
ghost use Rattle.gr_program.specs.Programs.{Program};
ghost use Rattle.gr_rollback.specs.Machines.{IsMachine, Stands, steps_of};
ghost use Rattle.gr_rollback.specs.Pasts.{Timeline};
ghost use Rattle.gr_schedules.specs.declared.Aim.TheVariants.{EndsBadlyOrLeaks};
ghost use Rattle.gr_schedules.specs.Aims.{IsAim};
ghost use Rattle.gr_explore.specs.Exploring.{events_at, state_seen};
ghost use Rattle.gr_survey.specs.Schedules.{EndsAs, IsFound, IsUnfinished};
ghost use Rattle.gr_survey.specs.StepTexts.{commands_text};
ghost use Rattle.gr_survey.specs.Surveys.{IsSurvey, SaysWhyNot};

use crate::bad_end::{BadEnd, BadEnds, aim_of, bad_end};
use crate::opening::{SurveyFault, open_after};
use crate::writing::put_steps;
use gr_base::NoMemory;
use gr_explore::{Answer, Limit, Limits, Shortest, Unfinished, explore_for, explore_shortest};
use gr_rollback::Machine;
use std::alloc::Global;

/// A schedule that ends badly.
#[derive(Clone, Copy)]
pub struct Schedule {
    /// How many steps it has, those of the script included.
    pub steps: usize,
    pub end: BadEnd,
}

/// What a survey found.
#[derive(Clone, Copy)]
pub enum Surveyed {
    /// No schedule ends badly: all states were seen, so many.
    NoneEndsBadly(usize),
    /// This one does, and none of fewer steps.
    Shortest(Schedule),
    /// This one does. A limit was met where one of fewer steps was looked for.
    Found(Schedule, Unfinished),
    /// A limit was met.
    Unfinished(Unfinished),
}

/// Appends the steps of the schedule in whose bad end the machine stands. An error leaves the text as it was.
fn put_schedule(alloc: Global, machine: &Machine, text: &mut Vec<u8>) -> Result<Schedule, NoMemory>
    requires { IsAim EndsBadlyOrLeaks (state_seen machine.now) }
    ensures text { OnOk result (text.new.items ≡ text.old.items ++ commands_text (events_at machine.now)) }
    ensures count { IfOk result (λ schedule. schedule.steps ≡ length (steps_of machine.now)) }
    ensures ends { IfOk result (λ schedule. EndsAs (state_seen machine.now) schedule.end) }
    ensures err { OnErr result (text.new.items ≡ text.old.items) }
{
    put_steps(alloc, text, machine)?;
    Ok(Schedule {
        steps: machine.log().len(),
        end: bad_end(machine),
    })
}

/// Whether some schedule that ends badly is known, and the machine was brought back after the search.
fn is_known(unfinished: &Unfinished) -> bool
    ensures { IsTrue result → unfinished.now.limit ≡ Limit.Back → ⊥ }
{
    match unfinished.limit {
        Limit::Back => false,
        _ => unfinished.known.is_some(),
    }
}

/// Looks for any schedule that ends badly, where a limit was met in the search for the shortest. An error leaves the text as it was.
fn find_any(
    alloc: Global,
    machine: &mut Machine,
    bad: BadEnds,
    limits: &Limits,
    unfinished: Unfinished,
    text: &mut Vec<u8>,
) -> Result<Surveyed, NoMemory>
    requires { IsMachine machine.old }
    ensures found { (p : Program) (w : Timeline p) → Stands p w machine.old → IsUnfinished p w.past bad limits.now unfinished
        → IfOk result (λ found. IsFound p w.past bad limits.now found text.old.items text.new.items) }
    ensures err { OnErr result (text.new.items ≡ text.old.items) }
{
    match explore_for(alloc, machine, aim_of(bad), limits) {
        Answer::Found => {
            let schedule = put_schedule(alloc, machine, text)?;
            Ok(Surveyed::Found(schedule, unfinished))
        }
        Answer::Nothing(_) | Answer::Limited(_) => Ok(Surveyed::Unfinished(unfinished)),
    }
}

/// Surveys the schedules from where a machine stands. An error leaves the text as it was.
fn survey_from(
    alloc: Global,
    machine: &mut Machine,
    bad: BadEnds,
    limits: &Limits,
    text: &mut Vec<u8>,
) -> Result<Surveyed, NoMemory>
    requires { IsMachine machine.old }
    ensures found { (p : Program) (w : Timeline p) → Stands p w machine.old
        → IfOk result (λ found. IsFound p w.past bad limits.now found text.old.items text.new.items) }
    ensures err { OnErr result (text.new.items ≡ text.old.items) }
{
    match explore_shortest(alloc, machine, aim_of(bad), limits) {
        Shortest::Nothing(states) => Ok(Surveyed::NoneEndsBadly(states)),
        Shortest::Found => {
            let schedule = put_schedule(alloc, machine, text)?;
            Ok(Surveyed::Shortest(schedule))
        }
        Shortest::Limited(unfinished) => {
            if is_known(&unfinished) {
                find_any(alloc, machine, bad, limits, unfinished, text)
            } else {
                Ok(Surveyed::Unfinished(unfinished))
            }
        }
    }
}

/// Surveys the program of a source, from where the commands of a script leave it, up to `quit` or to their end. It explores all
/// schedules from there, of any length and with any choices.
///
/// With `NoneEndsBadly` no schedule from there has one of the bad ends, and so many states were seen. With `Shortest` and `Found` a
/// schedule is appended to the text: all its steps from the start of the program, as commands of a script, a line each. It goes on from where the script leaves
/// the program. With `Shortest` no schedule from there with fewer steps ends badly. With `Found` and `Unfinished` a limit was met; out
/// of memory within the search is one. In all other cases the text stays as it is.
///
/// The search keeps at most as many states as the limits say. It is made for several numbers of steps, and each time the limits are
/// for itself.
pub fn survey(
    alloc: Global,
    source: &[u8],
    script: &[u8],
    bad: BadEnds,
    limits: &Limits,
    text: &mut Vec<u8>,
) -> Result<Surveyed, SurveyFault>
    ensures found { IfOk result (λ found. IsSurvey source.now script.now bad limits.now found text.old.items text.new.items) }
    ensures why { IfErr result (SaysWhyNot source.now script.now) }
    ensures err { OnErr result (text.new.items ≡ text.old.items) }
{
    let mut machine = open_after(alloc, source, script)?;
    match survey_from(alloc, &mut machine, bad, limits, text) {
        Ok(surveyed) => Ok(surveyed),
        Err(NoMemory) => Err(SurveyFault::Memory),
    }
}
