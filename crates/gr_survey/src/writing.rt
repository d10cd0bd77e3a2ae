//! The steps of a log, as commands that take them.

ghost use Rattle.std.specs.Prelude.{◌≡◌, ◌++◌, decimal, map, OnOk, OnErr};
ghost use Rattle.gr_explore.specs.Exploring.{events_at};
ghost use Rattle.gr_base.specs.Names.{go_text};
ghost use Rattle.gr_step.specs.Records.{event_of};
ghost use Rattle.gr_survey.specs.StepTexts.{choice_text, commands_text, command_text, Grows};

use gr_base::{Choice, Event, NoMemory, print_go};
use gr_record::Record;
use gr_rollback::Machine;
use itoa::Buffer;
use std::alloc::Global;

/// Appends the bytes.
#[tactic(auto, using(crate::proofs::Growing::grows_same, crate::proofs::Growing::grows_append))]
fn put(text: &mut Vec<u8>, bytes: &[u8]) -> Result<(), NoMemory>
    ensures ok { OnOk result (text.new.items ≡ text.old.items ++ bytes.now) }
    ensures grows { Grows text.old.items text.new.items }
{
    Ok(text.extend_from_slice(bytes)?)
}

/// Appends the clause that a step picks, if it picks one.
#[tactic(auto, using(crate::proofs::Growing::grows_then, crate::proofs::Growing::grows_same))]
fn put_choice(text: &mut Vec<u8>, choice: Choice) -> Result<(), NoMemory>
    ensures ok { OnOk result (text.new.items ≡ text.old.items ++ choice_text choice) }
    ensures grows { Grows text.old.items text.new.items }
{
    match choice {
        Choice::Pick(clause) => {
            let mut buffer = Buffer::new();
            put(text, b" ")?;
            put(text, buffer.format(clause).as_bytes())
        }
        Choice::Plain | Choice::Default | Choice::Park => Ok(()),
    }
}

/// Appends the name of an event's goroutine, and the clause that its step picks.
#[tactic(auto, using(crate::proofs::Growing::grows_then, crate::proofs::Growing::grows_append, crate::proofs::Growing::grows_same))]
fn put_event(text: &mut Vec<u8>, event: &Event) -> Result<(), NoMemory>
    ensures ok { OnOk result (text.new.items ≡ text.old.items ++ (go_text event.now.go ++ choice_text event.now.choice)) }
    ensures grows { Grows text.old.items text.new.items }
{
    print_go(text, &event.go)?;
    put_choice(text, event.choice)
}

/// Appends the command that takes the step of an event.
#[tactic(auto, using(crate::proofs::Growing::grows_then, crate::proofs::Growing::grows_same))]
fn put_command(text: &mut Vec<u8>, event: &Event) -> Result<(), NoMemory>
    ensures ok { OnOk result (text.new.items ≡ text.old.items ++ command_text event.now) }
    ensures grows { Grows text.old.items text.new.items }
{
    put(text, b"step ")?;
    put_event(text, event)?;
    put(text, b"\n")
}

/// Appends the commands that take these steps, a line each.
#[tactic(auto, using(crate::proofs::Growing::grows_then, crate::proofs::Growing::grows_same))]
fn put_all(alloc: Global, text: &mut Vec<u8>, steps: &[Record]) -> Result<(), NoMemory>
    ensures ok { OnOk result (text.new.items ≡ text.old.items ++ commands_text (map event_of steps.now)) }
    ensures grows { Grows text.old.items text.new.items }
{
    for step in steps {
        let event = step.event(alloc)?;
        put_command(text, &event)?;
    }
    Ok(())
}

/// Appends the commands that take the steps of a machine's log, a line each. An error leaves the text as it was.
#[tactic(auto, using(crate::proofs::Growing::cut_back))]
pub(crate) fn put_steps(
    alloc: Global,
    text: &mut Vec<u8>,
    machine: &Machine,
) -> Result<(), NoMemory>
    ensures ok { OnOk result (text.new.items ≡ text.old.items ++ commands_text (events_at machine.now)) }
    ensures err { OnErr result (text.new.items ≡ text.old.items) }
{
    let before = text.len();
    match put_all(alloc, text, machine.log().as_slice()) {
        Ok(()) => Ok(()),
        Err(NoMemory) => {
            text.truncate(before);
            Err(NoMemory)
        }
    }
}
