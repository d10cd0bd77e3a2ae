//! What lies under the lock.
ghost use Rattle.std.specs.Prelude.{◌≡◌, ◌↔◌, ◌⊎◌, ◌+◌, ◌-◌, ◌^◌, ◌<◌, ◌≤◌, ◌++◌, ◌∷◌, [], true, false, min, length};
ghost use Rattle.std.specs.Prelude.{IfOk, IfErr, IfSome, OnErr, IsErrOf, IsTrue};
ghost use mathlib.Core.List.{IsPrefix};
ghost use Rattle.gr_program.specs.Views.{program_of};
ghost use Rattle.gr_command.specs.Replies.{said_of};
ghost use Rattle.gr_session.specs.declared.TheConstants.{ASKER_LIMIT, JOURNAL_LIMIT};
ghost use Rattle.gr_session.specs.Committing.{Decides};
ghost use Rattle.gr_session.specs.Copies.{loan_of};
ghost use Rattle.gr_session.specs.Entries.{InItsWorld};
ghost use Rattle.gr_session.specs.Granting.{CanLend, IsTurnDue};
ghost use Rattle.gr_session.specs.Growing.{Grows};
ghost use Rattle.gr_session.specs.Wants.{MayWantMemory};
ghost use Rattle.gr_share.specs.Calls.{EntersCall, IsTied, is_told};
ghost use Rattle.gr_share.specs.Ties.{asking, told, numbers_of, AllBelow};
ghost use Rattle.gr_share.specs.Works.{Lends};
ghost use Rattle.gr_share.specs.Finding.{Finds, IsClosed, HasReason};

use crate::desk::{Asked, Call, Desk};
use crate::tie::Tie;
use crate::views::{Pass, Room};
use gr_base::{GoName, NoMemory};
use gr_session::laws::law_of_journals;
use gr_session::{AskRefused, Batch, Command, DeskId, EnrolRefused, Lease, Session};
use std::alloc::Global;
use std::marker::{Model, PhantomData};
use std::sync::Wait;

/// What was found for a worker.
#[derive(Drop)]
pub(crate) enum Found {
    /// It took a turn.
    Turned(Call),
    /// It is lent a goroutine, to take at most this many steps.
    Lends(Lease, usize),
    /// The workers are to end.
    Closed,
    /// A growth was refused, or the turn was.
    Refused(AskRefused),
}

/// The session, its seat, which knows the lines of the journal and the number of askers, and what is known of the workers.
#[derive(Drop)]
pub(crate) struct Locked<B: Room> {
    pub(crate) session: Session,
    pub(crate) keeper: Pass,
    /// How many seats are left to be given.
    pub(crate) left: u32,
    /// How many workers there are.
    pub(crate) workers: u32,
    /// Whether they shall end.
    pub(crate) closed: bool,
    pub(crate) room: PhantomData<B>,
}

impl<B: Room> Model for Locked<B> {
    ghost use Rattle.std.specs.Prelude.{◌≡◌, ◌+◌, ◌≤◌};
    ghost use mathlib.Core.List.{IsPrefix};
    ghost use Rattle.gr_program.specs.contracts.program.Expr as expr;
    ghost use Rattle.gr_program.specs.contracts.program.Stmt as stmt;
    ghost use Rattle.gr_program.specs.contracts.types.Type as types;
    ghost use Rattle.gr_code.specs.contracts.code.Operand as operands;
    ghost use Rattle.gr_session.specs.contracts.session.Session as sessions;
    ghost use Rattle.std.specs.Coded.{codes};
    ghost use Rattle.gr_program.specs.Views.{program_of};
    ghost use Rattle.gr_share.specs.Seats.{Held};
    ghost use Rattle.gr_share.specs.Ties.{keeping, Tells};

    ghost Value = { Held };

    ghost coded = { Prim.hlevel (
      codes,
      sessions.the_row.coded,
      expr.the_row.coded,
      stmt.the_row.coded,
      types.the_row.coded,
      operands.the_row.coded,
    ) };

    ghost view = { λ s. record { session = s.session; workers = s.workers; closed = s.closed } };

    ghost invariant = { λ s. (s.keeper.table_id ≡ B.table) × (s.keeper.me.0 ≡ keeping s.keeper.me.0.log s.session.askers)
        × Tells (program_of s.session.program) s.session.journal s.keeper.me.0.log
        × (program_of s.session.program ≡ B.program) × (B.first ≤ s.session.askers)
        × IsPrefix B.before s.session.journal × (s.session.askers + s.left ≡ B.last) };
}

impl<B: Room> Locked<B> {
    /// A further asker, with its seat.
    pub(crate) fn enrol(&mut self, tie: &Tie) -> Result<(DeskId, Pass), EnrolRefused>
        requires { tie.now.table.shared.table_id ≡ B.table }
        ensures desk { IfOk result (λ d. (1 ≤ d.0.number) × (d.1.table_id ≡ B.table) × (d.1.me.0 ≡ asking d.0.number [] false)) }
        ensures after { IfOk result (λ d. B.first < d.0.number) }
        ensures number { IfOk result (λ d. (d.0.number ≡ self.old.session.askers + 1) × (self.new.session.askers ≡ d.0.number)) }
        ensures full { IsErrOf result EnrolRefused.Full
            ↔ ((self.old.session.askers ≡ B.last) ⊎ (self.old.session.askers ≡ ASKER_LIMIT)) }
        ensures memory { IsErrOf result EnrolRefused.NoMemory → ⊥ }
        ensures others { (self.new.session.journal ≡ self.old.session.journal)
            × (self.new.session.program ≡ self.old.session.program)
            × (self.new.workers ≡ self.old.workers) }
        ensures err { OnErr result (self.new ≡ self.old) }
    {
        if self.left == 0 {
            return Err(EnrolRefused::Full);
        }
        match self.session.enrol() {
            Err(why) => Err(why),
            Ok(desk) => {
                self.left -= 1;
                let seat = tie.open(&mut self.keeper);
                Ok((desk, seat))
            }
        }
    }

    /// A further asker for a worker, with its seat and its place among the workers, from 1.
    pub(crate) fn enrol_worker(&mut self, tie: &Tie) -> Result<(DeskId, Pass, u32), EnrolRefused>
        requires { tie.now.table.shared.table_id ≡ B.table }
        ensures desk { IfOk result (λ d. (1 ≤ d.0.number) × (d.1.table_id ≡ B.table) × (d.1.me.0 ≡ asking d.0.number [] false)) }
        ensures after { IfOk result (λ d. B.first < d.0.number) }
        ensures place { IfOk result (λ d. (d.2 ≡ min (self.old.workers + 1) (2 ^ 32 - 1)) × (self.new.workers ≡ d.2)) }
        ensures first { IfOk result (λ d. 1 ≤ d.2) }
        ensures full { IsErrOf result EnrolRefused.Full
            ↔ ((self.old.session.askers ≡ B.last) ⊎ (self.old.session.askers ≡ ASKER_LIMIT)) }
        ensures memory { IsErrOf result EnrolRefused.NoMemory → ⊥ }
        ensures others { (self.new.session.journal ≡ self.old.session.journal)
            × (self.new.session.program ≡ self.old.session.program) }
        ensures err { OnErr result (self.new ≡ self.old) }
    {
        match self.enrol(tie) {
            Err(why) => Err(why),
            Ok((desk, seat)) => {
                self.workers = self.workers.saturating_add(1);
                Ok((desk, seat, self.workers))
            }
        }
    }

    /// Asks a command for an asker, whose seat takes the call. The call keeps a copy of the command.
    pub(crate) fn ask<R: Wait>(
        &mut self,
        rt: &R,
        alloc: Global,
        tie: &Tie,
        seat: &mut Pass,
        number: u32,
        command: Command,
        kept: Command,
    ) -> Result<Call, AskRefused>
        requires kept { kept ≡ command }
        requires tie { tie.now.table.shared.table_id ≡ B.table }
        requires seat { (seat.old.table_id ≡ B.table) × (1 ≤ number)
            × (seat.old.me.0 ≡ asking number seat.old.me.0.calls seat.old.me.0.told_full) }
        ensures table { seat.new.table_id ≡ B.table }
        ensures call { IfOk result (λ c. (c.asked ≡ Asked.Command command)
            × (seat.new.me.0 ≡ asking number (seat.old.me.0.calls ++ told number c ∷ []) seat.old.me.0.told_full)) }
        ensures rises { IfOk result (λ c. AllBelow c.receipt.number (numbers_of seat.old.me.0.calls)) }
        ensures entry { IfOk result (λ c. EntersCall (program_of self.old.session.program) number (Asked.Command command)
            self.old.session.journal self.new.session.journal c.receipt.number (said_of c.receipt.reply)) }
        ensures limit { IsErrOf result AskRefused.JournalFull ↔ (length self.old.session.journal ≡ JOURNAL_LIMIT) }
        ensures memory { IsErrOf result AskRefused.NoMemory → Grows (length self.old.session.journal) ⊎ MayWantMemory command }
        ensures err { IfErr result (λ why.
            (seat.new.me.0 ≡ asking number seat.old.me.0.calls (is_told why seat.old.me.0.told_full)) × (self.new ≡ self.old)) }
    {
        tie.compare(&mut self.keeper, seat);
        match self.session.ask(alloc, DeskId { number }, command) {
            Err(why) => {
                tie.refuse(&mut self.keeper, seat, why);
                Err(why)
            }
            Ok(receipt) => {
                let call = Call {
                    asked: Asked::Command(kept),
                    receipt,
                };
                tie.give(rt, &mut self.keeper, seat, number, &call);
                Ok(call)
            }
        }
    }

    /// Commits a batch for an asker, whose seat takes the call. The call keeps a copy of the goroutine's name.
    pub(crate) fn commit<R: Wait>(
        &mut self,
        rt: &R,
        alloc: Global,
        tie: &Tie,
        seat: &mut Pass,
        number: u32,
        batch: Batch,
        go: GoName,
    ) -> Result<Call, AskRefused>
        requires kept { go ≡ (loan_of batch).name }
        requires own { (loan_of batch).program ≡ B.program }
        requires tie { tie.now.table.shared.table_id ≡ B.table }
        requires seat { (seat.old.table_id ≡ B.table) × (1 ≤ number)
            × (seat.old.me.0 ≡ asking number seat.old.me.0.calls seat.old.me.0.told_full) }
        ensures table { seat.new.table_id ≡ B.table }
        ensures call { IfOk result (λ c. (c.asked ≡ Asked.Batch (loan_of batch).name (loan_of batch).steps)
            × (seat.new.me.0 ≡ asking number (seat.old.me.0.calls ++ told number c ∷ []) seat.old.me.0.told_full)) }
        ensures rises { IfOk result (λ c. AllBelow c.receipt.number (numbers_of seat.old.me.0.calls)) }
        ensures entry { IfOk result (λ c. EntersCall (program_of self.old.session.program) number c.asked
            self.old.session.journal self.new.session.journal c.receipt.number (said_of c.receipt.reply)) }
        ensures decided { IfOk result (λ c. Decides self.old.session batch (said_of c.receipt.reply) self.new.session) }
        ensures limit { IsErrOf result AskRefused.JournalFull ↔ (length self.old.session.journal ≡ JOURNAL_LIMIT) }
        ensures memory { IsErrOf result AskRefused.NoMemory → Grows (length self.old.session.journal) }
        ensures err { IfErr result (λ why.
            (seat.new.me.0 ≡ asking number seat.old.me.0.calls (is_told why seat.old.me.0.told_full)) × (self.new ≡ self.old)) }
    {
        tie.compare(&mut self.keeper, seat);
        let steps = batch.len();
        match self.session.commit_own(alloc, DeskId { number }, batch) {
            Err(why) => {
                tie.refuse(&mut self.keeper, seat, why);
                Err(why)
            }
            Ok(receipt) => {
                let call = Call {
                    asked: Asked::Batch(go, steps),
                    receipt,
                };
                tie.give(rt, &mut self.keeper, seat, number, &call);
                Ok(call)
            }
        }
    }

    /// Lends the goroutine at the place among those that can be lent, to take at most as many steps as the grant and the log have
    /// room for.
    fn lease(&self, alloc: Global, place: u32) -> Result<Option<(Lease, usize)>, NoMemory>
        ensures own { IfOk result (λ o. IfSome o (λ l. (loan_of l.0.copy).program ≡ B.program)) }
        ensures limit { IfOk result (λ o. IfSome o (λ l. Lends B.program self.now.session.journal place l.0 l.1)) }
        ensures memory { OnErr result (InItsWorld (program_of self.now.session.program) self.now.session.journal
            (CanLend (program_of self.now.session.program))) }
    {
        // brings the law to the prover
        law_of_journals();
        match self.session.lease(alloc, place)? {
            Some(lease) => {
                let limit = self.session.room().min(self.session.grant() as usize);
                Ok(Some((lease, limit)))
            }
            None => Ok(None),
        }
    }

    /// What there is to do for a worker, whose seat takes the call of a turn.
    pub(crate) fn find<R: Wait>(
        &mut self,
        rt: &R,
        alloc: Global,
        tie: &Tie,
        seat: &mut Pass,
        number: u32,
        place: u32,
    ) -> Found
        requires tie { tie.now.table.shared.table_id ≡ B.table }
        requires seat { (seat.old.table_id ≡ B.table) × (1 ≤ number)
            × (seat.old.me.0 ≡ asking number seat.old.me.0.calls seat.old.me.0.told_full) }
        ensures table { seat.new.table_id ≡ B.table }
        ensures finds { Finds B.program self.old.session.journal place number seat.old.me.0 result seat.new.me.0 }
        ensures closed { (self.old.closed ≡ true) ↔ IsClosed result }
        ensures refused { HasReason (program_of self.old.session.program) self.old.session.journal result }
    {
        if self.closed {
            return Found::Closed;
        }
        match self.lease(alloc, place) {
            Ok(Some((lease, limit))) => return Found::Lends(lease, limit),
            Ok(None) => {}
            Err(NoMemory) => return Found::Refused(AskRefused::NoMemory),
        }
        match self.ask(rt, alloc, tie, seat, number, Command::Turn, Command::Turn) {
            Ok(call) => Found::Turned(call),
            Err(why) => Found::Refused(why),
        }
    }

    /// The desk's entries are its calls.
    pub(crate) fn settle(&mut self, tie: &Tie, desk: &mut Desk<B>)
        requires { tie.now.table.shared.table_id ≡ B.table }
        ensures same { (self.new ≡ self.old) × (desk.new ≡ desk.old) }
        ensures tied { IsTied self.old.session desk.old }
    {
        // brings its length to the prover
        let _ = self.session.journal();
        tie.compare(&mut self.keeper, &mut desk.seat);
        tie.show_taken(&mut self.keeper, &mut desk.seat);
        tie.settle(&mut desk.seat);
    }

    /// How many askers there are.
    pub(crate) fn askers(&self) -> u32
        ensures count { result ≡ self.now.session.askers }
        ensures few { result ≤ B.last }
    {
        self.session.askers()
    }

    pub(crate) fn into_session(self) -> Session
        ensures session { result ≡ self.session }
        ensures program { program_of result.program ≡ B.program }
        ensures before { IsPrefix B.before result.journal }
    {
        let Locked {
            session,
            keeper: _,
            left: _,
            workers: _,
            closed: _,
            room: _,
        } = self;
        session
    }

    /// Whether a worker has to wait: the workers are not to end, no goroutine can be lent, and no turn is due.
    pub(crate) fn is_idle(&self) -> bool
        ensures { IsTrue result ↔ ((self.now.closed ≡ false)
            × InItsWorld (program_of self.now.session.program) self.now.session.journal
            (λ w. ¬ CanLend (program_of self.now.session.program) w × ¬ IsTurnDue (program_of self.now.session.program) w)) }
    {
        // brings the law to the prover
        law_of_journals();
        if self.closed || self.session.can_lend() {
            return false;
        }
        !self.session.turn_due()
    }
}
