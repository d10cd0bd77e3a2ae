//! A program under the debugger.

ghost use Rattle.std.specs.Prelude.{◌≡◌, IfOk};
ghost use Rattle.gr_program.specs.Views.{program_of};
ghost use Rattle.gr_rollback.specs.Running.{IsChecked};
ghost use Rattle.gr_session.specs.Journal.{first_world};
ghost use Rattle.gr_session.specs.Debuggees.{Stands};

use gr_base::NoMemory;
use gr_program::program::Program;
use gr_rollback::Machine;
use indexmap::IndexMap;
use std::alloc::Global;

/// A program under the debugger: its machine, the lines with a breakpoint, and the grant of the workers.
pub struct Debuggee {
    pub(crate) machine: Machine,
    /// The lines with a breakpoint, each with its number as replies tell it.
    pub(crate) lines: IndexMap<usize, u32>,
    /// The grant: how many steps workers may still take.
    pub(crate) grant: u32,
}

// Written out, so that crates above call it and need not prove it again.
impl Drop for Debuggee {
    fn drop(self) {
        let Debuggee {
            machine: _,
            lines: _,
            grant: _,
        } = self;
    }
}

impl Debuggee {
    /// A checked program before its first step, with no breakpoint and a grant of 0.
    pub(crate) fn start(alloc: Global, program: Program) -> Result<Debuggee, NoMemory>
        requires { IsChecked (program_of program) }
        ensures { IfOk result (Stands (program_of program) (first_world (program_of program))) }
    {
        let machine = Machine::start(alloc, program)?;
        Ok(Debuggee {
            machine,
            lines: IndexMap::new(alloc),
            grant: 0,
        })
    }
    /// The machine.
    pub(crate) fn into_machine(self) -> Machine
        ensures { result ≡ self.machine }
    {
        let Debuggee {
            machine,
            lines: _,
            grant: _,
        } = self;
        machine
    }
}
