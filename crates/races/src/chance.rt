//! Commands that change a session: drawn at random, or of a short list in turn.
ghost use Rattle.std.specs.Prelude.{◌<◌};

use gr_base::{GoName, StepId};
use gr_command::{Command, Target};
use rand_core::utils::NextWord;
use rand_pcg::Pcg32;
use std::alloc::Global;

/// A number below the limit.
fn below(chance: &mut Pcg32, limit: u32) -> u32
    requires { 0 < limit }
    ensures { result < limit }
{
    chance.next_word() % limit
}

/// The goroutine of `main`, or one of the first few that another one started.
fn goroutine(alloc: Global, chance: &mut Pcg32) -> Option<GoName> {
    let mut name = GoName::main(alloc).ok()?;
    for _ in 0..below(chance, 3) {
        name = name.child(alloc, 1 + below(chance, 4)).ok()?;
    }
    Some(name)
}

fn step(alloc: Global, chance: &mut Pcg32) -> Option<StepId> {
    let go = goroutine(alloc, chance)?;
    let n = 1 + below(chance, 400) as u64;
    Some(StepId { go, n })
}

/// A command that changes a session; `None` where memory ran out.
pub fn draw(alloc: Global, chance: &mut Pcg32) -> Option<Command> {
    match below(chance, 20) {
        0 | 1 => Some(Command::Undo),
        2 => Some(Command::Redo),
        3 => Some(Command::Back(Target::Step(step(alloc, chance)?))),
        4 | 5 => Some(Command::Run {
            count: 1 + below(chance, 12),
        }),
        6..=8 => Some(Command::Free(below(chance, 60))),
        _ => Some(Command::Step {
            go: goroutine(alloc, chance)?,
            case: None,
        }),
    }
}

/// The command of this number in a list that begins anew at its end; `None` where memory ran out. Its `back` empties the log
/// under the workers whenever `main` has taken a step.
pub fn in_turn(alloc: Global, number: u32) -> Option<Command> {
    let go = GoName::main(alloc).ok()?;
    Some(match number % 5 {
        0 => Command::Step { go, case: None },
        1 => Command::Back(Target::Step(StepId { go, n: 1 })),
        2 => Command::Undo,
        3 => Command::Free(50),
        _ => Command::Run { count: 3 },
    })
}
