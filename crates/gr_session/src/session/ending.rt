//! What is left of a session that is asked no more.

ghost use Rattle.gr_program.specs.Views.{program_of};
ghost use Rattle.gr_rollback.specs.Machines as rollback;
ghost use Rattle.gr_session.specs.Journal.{course_of};
ghost use Rattle.gr_session.specs.Entries.{InItsWorld};

use crate::session::Session;
use gr_rollback::Machine;

impl Session {
    /// The machine of the program, which stands where the journal means. The session is asked no more.
    pub fn into_machine(self) -> Machine
        ensures { InItsWorld (program_of self.program) self.journal
            (λ w. rollback.Stands (program_of self.program) (course_of (program_of self.program) w) result) }
    {
        let Session {
            debuggee,
            journal: _,
            askers: _,
        } = self;
        debuggee.into_machine()
    }
}
