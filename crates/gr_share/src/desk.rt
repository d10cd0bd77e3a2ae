//! Desks and workers: askers of a shared session, with what they asked.
ghost use Rattle.std.specs.Prelude.{◌≡◌, ◌++◌, ◌∷◌, [], IfOk};

use crate::locked::Found;
use crate::shared::Shared;
use crate::views::{Pass, Room};
use gr_base::GoName;
use gr_session::{AskRefused, Batch, Command, Lease, Receipt};
use std::alloc::Global;
use std::marker::{Model, PhantomData};
use std::sync::Wait;

/// What was asked of the session.
#[derive(Drop)]
pub enum Asked {
    Command(Command),
    /// This many steps of a goroutine, which a worker took on a copy, join the log.
    Batch(GoName, usize),
}

/// What was asked, and what came of it.
#[derive(Drop)]
pub struct Call {
    pub asked: Asked,
    pub receipt: Receipt,
}

/// What a worker found to do.
#[derive(Drop)]
pub enum Work {
    /// It took a turn.
    Turned,
    /// It was lent a goroutine, to take at most this many steps.
    Lends(Lease, usize),
    /// The workers are to end.
    Closed,
    /// It was refused.
    Refused(AskRefused),
}

/// An asker of a shared session, with its calls.
#[derive(Drop)]
pub struct Desk<B: Room> {
    pub(crate) number: u32,
    pub(crate) calls: Vec<Call>,
    pub(crate) seat: Pass,
    pub(crate) room: PhantomData<B>,
}

impl<B: Room> Model for Desk<B> {
    ghost use Rattle.std.specs.Prelude.{◌≡◌, ◌≤◌};
    ghost use Rattle.gr_share.specs.Calls.{Asker};
    ghost use Rattle.gr_share.specs.Ties.{asking, calls_of};

    ghost Value = { Asker };

    ghost view = { λ d. record { number = d.number; calls = d.calls.items; told_full = d.seat.me.0.told_full } };

    ghost invariant = { λ d. (d.seat.table_id ≡ B.table) × (1 ≤ d.number)
        × (d.seat.me.0 ≡ asking d.number (calls_of d.number d.calls.items) d.seat.me.0.told_full) };
}

impl<B: Room> Desk<B> {
    ghost use Rattle.std.specs.Prelude.{◌≡◌, ◌++◌, ◌∷◌, [], ◌<◌, length, All, IfOk, IfErr, OnOk};
    ghost use Rattle.std.specs.Borrow.{sem};
    ghost use Rattle.gr_session.specs.Copies.{loan_of};
    ghost use Rattle.gr_share.specs.contracts.desk.Desk.{the_row};
    ghost use Rattle.gr_share.specs.Calls.{EndsAs, Asked as AskedBy, Gains, after_refusal};
    ghost use Rattle.gr_share.specs.Finding.{Looks, LendsOf};

    /// Asks a command, whose receipt is then the last one that is kept.
    pub(crate) fn enter<R: Wait>(
        &mut self,
        rt: &R,
        alloc: Global,
        shared: &Shared<B>,
        command: Command,
    ) -> Result<(), AskRefused>
        ensures call { OnOk result (Gains self.old (Asked.Command command) self.new) }
        ensures err { IfErr result (λ why. self.new ≡ after_refusal why self.old) }
    {
        if self.calls.reserve(1).is_err() {
            return Err(AskRefused::NoMemory);
        }
        let Ok(kept) = command.copy(alloc) else {
            return Err(AskRefused::NoMemory);
        };
        let asked = shared.hold(rt).ask(
            rt,
            alloc,
            &shared.tie,
            &mut self.seat,
            self.number,
            command,
            kept,
        );
        match asked {
            Ok(call) => {
                self.calls.push_reserved(call);
                shared.changed.notify_all();
                Ok(())
            }
            Err(why) => Err(why),
        }
    }

    /// Commits a batch, whose receipt is then the last one that is kept.
    pub(crate) fn commit<R: Wait>(
        &mut self,
        rt: &R,
        alloc: Global,
        shared: &Shared<B>,
        batch: Batch,
    ) -> Result<(), AskRefused>
        requires own { (loan_of batch).program ≡ B.program }
        ensures call { OnOk result (Gains self.old (Asked.Batch (loan_of batch).name (loan_of batch).steps) self.new) }
        ensures err { IfErr result (λ why. self.new ≡ after_refusal why self.old) }
    {
        if self.calls.reserve(1).is_err() {
            return Err(AskRefused::NoMemory);
        }
        let Ok(go) = batch.go().copy(alloc) else {
            return Err(AskRefused::NoMemory);
        };
        let asked = shared.hold(rt).commit(
            rt,
            alloc,
            &shared.tie,
            &mut self.seat,
            self.number,
            batch,
            go,
        );
        match asked {
            Ok(kept) => {
                self.calls.push_reserved(kept);
                shared.changed.notify_all();
                Ok(())
            }
            Err(why) => Err(why),
        }
    }

    /// Waits until there is something to do. In the same hold of the lock it is lent the goroutine at the place, or takes a turn.
    pub(crate) fn look<R: Wait>(
        &mut self,
        rt: &R,
        alloc: Global,
        shared: &Shared<B>,
        place: u32,
    ) -> Work
        ensures looks { Looks self.old result self.new }
        ensures own { LendsOf B.program place result }
    {
        if self.calls.reserve(1).is_err() {
            return Work::Refused(AskRefused::NoMemory);
        }
        let mut locked = shared
            .changed
            .wait_while(rt, shared.hold(rt), |locked| locked.is_idle());
        match locked.find(rt, alloc, &shared.tie, &mut self.seat, self.number, place) {
            Found::Turned(turn) => {
                self.calls.push_reserved(turn);
                shared.changed.notify_all();
                Work::Turned
            }
            Found::Lends(lease, limit) => Work::Lends(lease, limit),
            Found::Closed => Work::Closed,
            Found::Refused(why) => Work::Refused(why),
        }
    }

    /// The last receipt.
    pub(crate) fn last(&self) -> &Receipt
        requires { 0 < length self.now.calls }
        ensures { (before : _) (call : _) → self.now.calls ≡ before ++ call ∷ [] → result.now ≡ call.receipt }
    {
        &self.calls[self.calls.len() - 1].receipt
    }

    /// Asks a command, and shows the receipt, which is kept. A receipt's number is larger than those before, so its reply
    /// has all that this desk has seen.
    ///
    /// It is refused where the session refuses it, or where there is no memory for the call: then it has no call more. A desk that
    /// is told `JournalFull` notes it, and `finish` says that the journal is full.
    pub fn ask<R: Wait>(
        &mut self,
        rt: &R,
        alloc: Global,
        shared: &Shared<B>,
        command: Command,
    ) -> Result<&Receipt, AskRefused>
        ensures* writes_back { sem 𝓛 (EndsAs (the_row B.row B.Room) self.entry
            (λ d. AskedBy self.entry.now (Asked.Command command) result d)) }
    {
        self.enter(rt, alloc, shared, command)?;
        Ok(self.last())
    }

    /// What it asked, the oldest first.
    pub fn calls(&self) -> &[Call]
        ensures { result.now ≡ self.now.calls }
    {
        self.calls.as_slice()
    }

    /// Its number among the askers.
    pub fn number(&self) -> u32
        ensures { result ≡ self.now.number }
    {
        self.number
    }
}

/// A worker's seat.
#[derive(Drop)]
pub struct Worker<B: Room> {
    pub(crate) seat: Desk<B>,
    pub(crate) place: u32,
}

impl<B: Room> Model for Worker<B> {
    ghost use Rattle.gr_share.specs.Calls.{Staff};
    ghost use Rattle.gr_share.specs.Works.{IsAtWork};

    ghost Value = { Staff };

    ghost view = { λ w. record { seat = w.seat; place = w.place } };

    ghost invariant = { λ w. IsAtWork B.program (record { seat = w.seat; place = w.place }) };
}

impl<B: Room> Worker<B> {
    ghost use Rattle.std.specs.Prelude.{◌≡◌};

    /// Its number among the askers.
    pub fn number(&self) -> u32
        ensures { result ≡ self.now.seat.number }
    {
        self.seat.number()
    }

    /// Its place among the workers, from 1.
    pub fn place(&self) -> u32
        ensures { result ≡ self.now.place }
    {
        self.place
    }

    /// What it asked, the oldest first.
    pub fn calls(&self) -> &[Call]
        ensures { result.now ≡ self.now.seat.calls }
    {
        self.seat.calls()
    }
}
