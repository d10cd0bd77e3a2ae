//! Names that a command shares with the program.

ghost use Rattle.std.specs.Prelude.{◌≡◌};

use crate::debuggee::Debuggee;
use gr_base::GoName;
use gr_command::Command;
use std::alloc::Global;

/// The program's own name of a goroutine, in place of one that is equal to it. What keeps it then takes no memory for its counts.
fn shared(alloc: Global, debuggee: &Debuggee, go: GoName) -> GoName
    ensures { result ≡ go }
{
    let Some(known) = debuggee.machine.store().name_of(&go) else {
        return go;
    };
    match known.copy(alloc) {
        Ok(known) => known,
        Err(_) => go,
    }
}

/// The command, with the program's own name of the goroutine that it is about.
pub(crate) fn with_shared_name(alloc: Global, debuggee: &Debuggee, command: Command) -> Command
    ensures { result ≡ command }
{
    match command {
        Command::Step { go, case } => Command::Step {
            go: shared(alloc, debuggee, go),
            case,
        },
        Command::Show(go) => Command::Show(shared(alloc, debuggee, go)),
        Command::Text(go) => Command::Text(shared(alloc, debuggee, go)),
        other => other,
    }
}
