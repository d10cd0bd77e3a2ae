//! The course of a program: its state, the records of the steps that led to it, and the goroutines that are ready.

ghost use Rattle.std.specs.Prelude.{◌≡◌, [], IfOk, option_copied};
ghost use Rattle.gr_pool.specs.Goroutines.{next_name};
ghost use Rattle.gr_program.specs.Views.{program_of};
ghost use Rattle.gr_step.specs.Running.{IsChecked};
ghost use Rattle.gr_rollback.specs.Pasts.{first_past};
ghost use Rattle.gr_rollback.specs.Courses.{Holds};

use gr_base::{GoName, NoMemory};
use gr_depend::Log;
use gr_pool::Pool;
use gr_program::program::Program;
use gr_step::Store;
use std::alloc::Global;
use std::sync::Arc;

/// The course of a program: its state, the records of the steps that led to it, and the goroutines that are ready.
#[derive(Drop)]
pub struct Course {
    pub(crate) store: Store,
    pub(crate) log: Log,
    /// The goroutines that are ready.
    pub(crate) pool: Pool,
    /// The name of the goroutine of `main`.
    pub(crate) first: GoName,
}

impl Course {
    /// The course of a checked program before its first step.
    pub(crate) fn start(alloc: Global, program: Program) -> Result<Course, NoMemory>
        requires { IsChecked (program_of program) }
        ensures { IfOk result (Holds (program_of program) (first_past (program_of program))) }
    {
        let program = Arc::new(alloc, program)?;
        let store = Store::start(alloc, program)?;
        let first = GoName::main(alloc)?;
        let mut pool = Pool::new(alloc);
        pool.know(&first)?;
        pool.insert(&first);
        Ok(Course {
            store,
            log: Log::new(alloc),
            pool,
            first,
        })
    }
}
