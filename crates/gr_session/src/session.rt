//! Sessions: a program under the debugger, asked of under one journal.

mod ending;

ghost use Rattle.std.specs.Prelude.{◌≡◌, ◌↔◌, ◌⊎◌, ◌+◌, ◌≤◌, [], length, vec_len, vec_capacity};
ghost use Rattle.std.specs.Prelude.{IfOk, IfSome, IfNone, OnOk, OnErr, IsErrOf, IsTrue};
ghost use Rattle.std.proofs.Props.{props};
ghost use Rattle.gr_program.specs.Views.{program_of};
ghost use Rattle.gr_rules.specs.Limits.{most_steps};
ghost use Rattle.gr_command.specs.Replies.{said_of};
ghost use Rattle.gr_rollback.specs.Machines as rollback;
ghost use Rattle.gr_rollback.specs.Machines.{store_of, log_of};
ghost use Rattle.gr_rollback.specs.Running.{IsChecked};
ghost use Rattle.gr_rollback.specs.StepLeasing.{IsAsLentIn, loan_of};
ghost use Rattle.gr_rollback.specs.Stores.{contents_at};
ghost use Rattle.gr_session.specs.Journal.{course_of};
ghost use Rattle.gr_session.specs.Entries.{EntersCommand, IsLegal, InItsWorld};
ghost use Rattle.gr_session.specs.Granting.{IsTurnDue, CanLend, IsLoan};
ghost use Rattle.gr_session.specs.Committing.{AnswersBatch};
ghost use Rattle.gr_session.specs.Growing.{Grows, HasRoom};
ghost use Rattle.gr_session.specs.Wants.{KeepsContents, LeavesStore, MayWantMemory};

use crate::carry::carry_out;
use crate::committing::{Origin, Outcome, commit};
use crate::debuggee::Debuggee;
use crate::granting::{can_lend, lend, room, turn_due};
use crate::journal::{AskRefused, Asked, DeskId, EnrolRefused, Entry, Receipt, keep, make_room};
use crate::leasing::{Batch, Lease};
use crate::naming::with_shared_name;
use crate::{ASKER_LIMIT, JOURNAL_LIMIT};
use gr_base::NoMemory;
use gr_command::Command;
use gr_program::program::Program;
use gr_rollback::Machine;
use std::alloc::Global;
use std::marker::Model;

/// A program under the debugger, and the journal of what was asked. The journal is legal, and the program stands where it means.
pub struct Session {
    debuggee: Debuggee,
    journal: Vec<Entry>,
    askers: u32,
    ghost room: { HasRoom (vec_len journal) (vec_capacity journal) } by { Prim.hlevel props },
}

// Written out, so that crates above call it and need not prove it again.
impl Drop for Session {
    fn drop(self) {
        let Session {
            debuggee: _,
            journal: _,
            askers: _,
        } = self;
    }
}

impl Model for Session {
    ghost use Rattle.gr_program.specs.contracts.program.Expr as expr;
    ghost use Rattle.gr_program.specs.contracts.program.Stmt as stmt;
    ghost use Rattle.gr_program.specs.contracts.types.Type as types;
    ghost use Rattle.gr_code.specs.contracts.code.Operand as operands;
    ghost use Rattle.gr_depend.specs.contracts.log.Log as logs;
    ghost use Rattle.gr_rollback.specs.StoreContracts as store;
    ghost use Rattle.std.specs.Coded.{codes};
    ghost use Rattle.gr_session.specs.Debuggees.{store_in, log_in};
    ghost use Rattle.gr_session.specs.Keeps.{Seen, Keeps, program_held};

    ghost Value = { Seen };

    ghost coded = { Prim.hlevel (
      codes,
      store.the_row.coded,
      logs.the_row.coded,
      expr.the_row.coded,
      stmt.the_row.coded,
      types.the_row.coded,
      operands.the_row.coded,
    ) };

    ghost view = { λ s. record {
      program = program_held (store_in s.debuggee);
      store = store_in s.debuggee;
      log = log_in s.debuggee;
      journal = s.journal.items;
      askers = s.askers;
    } };

    ghost invariant = { λ s. Keeps s.debuggee s.journal.items s.askers };
}

impl Session {
    /// A session of a checked program with an empty journal and no asker.
    pub(crate) fn new(alloc: Global, program: Program) -> Result<Session, NoMemory>
        requires { IsChecked (program_of program) }
        ensures program { IfOk result (λ s. program_of s.program ≡ program_of program) }
        ensures journal { IfOk result (λ s. s.journal ≡ []) }
        ensures askers { IfOk result (λ s. s.askers ≡ 0) }
    {
        let debuggee = Debuggee::start(alloc, program)?;
        Ok(Session {
            debuggee,
            journal: Vec::new(alloc),
            askers: 0,
        })
    }

    /// The next asker. There may be 1,000.
    pub fn enrol(&mut self) -> Result<DeskId, EnrolRefused>
        ensures number { IfOk result (λ desk. (desk.number ≡ self.old.askers + 1) × (self.new.askers ≡ desk.number)) }
        ensures full { IsErrOf result EnrolRefused.Full ↔ (self.old.askers ≡ ASKER_LIMIT) }
        // It takes no memory.
        ensures memory { IsErrOf result EnrolRefused.NoMemory → ⊥ }
        ensures others { (self.new.program ≡ self.old.program) × (self.new.journal ≡ self.old.journal) }
        ensures machine { (self.new.store ≡ self.old.store) × (self.new.log ≡ self.old.log) }
        ensures err { OnErr result (self.new ≡ self.old) }
    {
        if self.askers >= ASKER_LIMIT {
            return Err(EnrolRefused::Full);
        }
        self.askers += 1;
        Ok(DeskId {
            number: self.askers,
        })
    }

    /// How many askers there are.
    pub fn askers(&self) -> u32
        ensures { result ≡ self.now.askers }
    {
        self.askers
    }

    /// Asks a command, which the journal keeps with its reply. The asker is one that `enrol` of this session gave. Where the
    /// reply tells of no step, the store contains what it did before.
    pub fn ask(
        &mut self,
        alloc: Global,
        desk: DeskId,
        command: Command,
    ) -> Result<Receipt, AskRefused>
        requires { (1 ≤ desk.number) × (desk.number ≤ self.old.askers) }
        ensures entry { IfOk result (λ receipt. EntersCommand (program_of self.old.program) desk.number command
            self.old.journal self.new.journal receipt.number (said_of receipt.reply)) }
        ensures full { IsErrOf result AskRefused.JournalFull ↔ (length self.old.journal ≡ JOURNAL_LIMIT) }
        ensures memory { IsErrOf result AskRefused.NoMemory → Grows (length self.old.journal) ⊎ MayWantMemory command }
        ensures still { OnOk result (LeavesStore command
            → (self.new.store ≡ self.old.store) × (self.new.log ≡ self.old.log)) }
        ensures contents { IfOk result (λ receipt. KeepsContents (said_of receipt.reply) self.old.store self.new.store) }
        ensures err { OnErr result (self.new ≡ self.old) }
        ensures others { (self.new.program ≡ self.old.program) × (self.new.askers ≡ self.old.askers) }
    {
        if let Err(why) = make_room(&mut self.journal) {
            return Err(why);
        }
        let command = with_shared_name(alloc, &self.debuggee, command);
        match carry_out(alloc, &mut self.debuggee, &command) {
            Err(NoMemory) => {
                drop(command);
                Err(AskRefused::NoMemory)
            }
            Ok((memory, reply)) => {
                let asked = Asked::Command(command);
                Ok(keep(&mut self.journal, desk, asked, memory, reply))
            }
        }
    }

    /// Lends a copy of a goroutine whose next step is local and no fault. It is the one at the place, modulo their number,
    /// among all such goroutines in the order of names. There is none where the grant is 0, the log is full, the program does
    /// not run, or no goroutine is such. It is out of memory only where there is one.
    pub fn lease(&self, alloc: Global, place: u32) -> Result<Option<Lease>, NoMemory>
        ensures place { IfOk result (λ o. IfSome o (λ l. l.place ≡ place)) }
        ensures lent { IfOk result (λ o. IfSome o (λ l. InItsWorld (program_of self.now.program) self.now.journal
            (λ w. IsLoan (program_of self.now.program) w place l.copy))) }
        ensures there { IfOk result (λ o. IfSome o (λ l. IsAsLentIn (loan_of l.copy) (program_of self.now.program)
            (contents_at self.now.store))) }
        ensures none { IfOk result (λ o. IfNone o (InItsWorld (program_of self.now.program) self.now.journal
            (λ w. ¬ CanLend (program_of self.now.program) w))) }
        ensures memory { OnErr result (InItsWorld (program_of self.now.program) self.now.journal
            (CanLend (program_of self.now.program))) }
    {
        match lend(alloc, &self.debuggee, place)? {
            Some(copy) => Ok(Some(Lease { copy, place })),
            None => Ok(None),
        }
    }

    /// Commits a batch, which the journal keeps with its reply. Its steps join the log on three conditions: it is of the same
    /// program, whose run goes on; its goroutine is as it was lent; and the grant and the log have room for them. Where a
    /// growth for them is refused, none of them joins, and the reply is `Committed(0)`. The asker is one that `enrol` of this
    /// session gave.
    pub fn commit(
        &mut self,
        alloc: Global,
        desk: DeskId,
        batch: Batch,
    ) -> Result<Receipt, AskRefused>
        requires { (1 ≤ desk.number) × (desk.number ≤ self.old.askers) }
        ensures { AnswersBatch self.old desk.number batch result self.new }
    {
        self.enter_batch(alloc, desk, batch, Origin::Unknown)
    }

    /// Commits a batch as `commit` does. Its program is known to be that of the session, and is not compared with it.
    pub fn commit_own(
        &mut self,
        alloc: Global,
        desk: DeskId,
        batch: Batch,
    ) -> Result<Receipt, AskRefused>
        requires asker { (1 ≤ desk.number) × (desk.number ≤ self.old.askers) }
        requires own { (loan_of batch).program ≡ program_of self.old.program }
        ensures { AnswersBatch self.old desk.number batch result self.new }
    {
        self.enter_batch(alloc, desk, batch, Origin::Own)
    }

    /// Commits a batch of this origin.
    fn enter_batch(
        &mut self,
        alloc: Global,
        desk: DeskId,
        batch: Batch,
        origin: Origin,
    ) -> Result<Receipt, AskRefused>
        requires asker { (1 ≤ desk.number) × (desk.number ≤ self.old.askers) }
        requires own { (origin ≡ Origin.Own) → ((loan_of batch).program ≡ program_of self.old.program) }
        ensures { AnswersBatch self.old desk.number batch result self.new }
    {
        if let Err(why) = make_room(&mut self.journal) {
            return Err(why);
        }
        let Batch { copy } = batch;
        let Outcome {
            batch,
            stood,
            memory,
            reply,
        } = commit(alloc, &mut self.debuggee, copy, origin);
        let asked = Asked::Batch(batch, stood);
        Ok(keep(&mut self.journal, desk, asked, memory, reply))
    }

    /// The machine of the program: it stands where the journal means.
    pub fn machine(&self) -> &Machine
        ensures stands { InItsWorld (program_of self.now.program) self.now.journal
            (λ w. rollback.Stands (program_of self.now.program) (course_of (program_of self.now.program) w) result.now) }
        ensures store { store_of result.now ≡ self.now.store }
        ensures log { log_of result.now ≡ self.now.log }
    {
        &self.debuggee.machine
    }

    /// The entries so far, the oldest first.
    pub fn journal(&self) -> &[Entry]
        ensures entries { result.now ≡ self.now.journal }
        ensures legal { IsLegal (program_of self.now.program) self.now.askers self.now.journal }
        ensures short { length self.now.journal ≤ JOURNAL_LIMIT }
    {
        self.journal.as_slice()
    }

    /// The grant: how many steps workers may still take, from 0 to what `free` granted last.
    pub fn grant(&self) -> u32
        ensures { InItsWorld (program_of self.now.program) self.now.journal (λ w. result ≡ w.grant) }
    {
        self.debuggee.grant
    }

    /// How many steps the log still takes: 1,000,000 less those that are kept.
    pub fn room(&self) -> usize
        ensures { InItsWorld (program_of self.now.program) self.now.journal (λ w. result + length w.log ≡ most_steps) }
    {
        room(&self.debuggee)
    }

    /// Whether a goroutine can be lent. The grant is then above 0, the log has room, the program runs, and some goroutine's
    /// next step is local and no fault.
    pub fn can_lend(&self) -> bool
        ensures { InItsWorld (program_of self.now.program) self.now.journal (λ w. IsTrue result
            ↔ CanLend (program_of self.now.program) w) }
    {
        can_lend(&self.debuggee)
    }

    /// Whether a worker has to ask for a turn. The program then runs, the grant is above 0, the log has room, some goroutine is
    /// ready, and none can be lent.
    pub fn turn_due(&self) -> bool
        ensures { InItsWorld (program_of self.now.program) self.now.journal (λ w. IsTrue result
            ↔ IsTurnDue (program_of self.now.program) w) }
    {
        turn_due(&self.debuggee)
    }
}
