//! A session that desks and workers share.
ghost use Rattle.std.specs.Prelude.{◌≡◌, ◌+◌, ◌<◌, ◌≤◌, [], IfOk, IsErrOf};
ghost use Rattle.gr_program.specs.Views.{program_of};

use crate::desk::{Desk, Worker};
use crate::locked::Locked;
use crate::tie::Tie;
use crate::views::{Pass, Room};
use gr_base::NoMemory;
use gr_session::{EnrolRefused, Session};
use std::alloc::Global;
use std::marker::{Model, PhantomData};
use std::sync::{Condvar, Mutex, MutexGuard, Wait};
use std::thread::yield_now;

// How often a thread gives way to others before it sleeps until the lock is free. A batch joins the log within some 20
// microseconds, and a thread that sleeps wakes later than that.
const TRIES: u32 = 200;

/// A session with the table that is to tie its askers' calls to its journal. The table has no name yet.
#[derive(Drop)]
pub struct Opened {
    tie: Tie,
    keeper: Pass,
    session: Session,
}

impl Model for Opened {
    ghost use Rattle.std.specs.Prelude.{◌≡◌};
    ghost use Rattle.gr_program.specs.contracts.program.Expr as expr;
    ghost use Rattle.gr_program.specs.contracts.program.Stmt as stmt;
    ghost use Rattle.gr_program.specs.contracts.types.Type as types;
    ghost use Rattle.gr_code.specs.contracts.code.Operand as operands;
    ghost use Rattle.gr_session.specs.contracts.session.Session as sessions;
    ghost use Rattle.std.specs.Coded.{codes};
    ghost use Rattle.gr_share.specs.Seats.{Named};
    ghost use Rattle.gr_share.specs.Ties.{keeping, older_lines};

    ghost Value = { Named };

    ghost coded = { Prim.hlevel (
      codes,
      sessions.the_row.coded,
      expr.the_row.coded,
      stmt.the_row.coded,
      types.the_row.coded,
      operands.the_row.coded,
    ) };

    ghost view = { λ o. record { table = o.tie.table.shared.table_id; session = o.session } };

    ghost invariant = { λ o. (o.keeper.table_id ≡ o.tie.table.shared.table_id)
        × (o.keeper.me.0 ≡ keeping (older_lines 1 o.session.journal) o.session.askers) };
}

impl Opened {
    /// Makes the table. The one error is that it is out of memory.
    pub fn new(alloc: Global, session: Session) -> Result<Opened, NoMemory>
        ensures { IfOk result (λ o. o.session ≡ session) }
    {
        let (tie, keeper) = Tie::new(alloc, &session)?;
        Ok(Opened {
            tie,
            keeper,
            session,
        })
    }
}

/// One session under one lock.
#[derive(Drop)]
pub struct Shared<B: Room> {
    pub(crate) tie: Tie,
    pub(crate) lock: Mutex<Locked<B>>,
    pub(crate) changed: Condvar,
    pub(crate) first: u32,
}

impl<B: Room> Model for Shared<B> {
    ghost use Rattle.std.specs.Prelude.{◌≡◌};
    ghost use Rattle.gr_share.specs.Seats.{Sharing};

    ghost Value = { Sharing };

    ghost view = { λ s. record { first = s.first } };

    ghost invariant = { λ s. (s.tie.table.shared.table_id ≡ B.table) × (s.first ≡ B.first) };
}

impl<B: Room> Shared<B> {
    /// Shares the session, which the caller's `B` names. At most so many seats are given.
    pub fn new(opened: Opened, seats: u32) -> Shared<B>
        requires table { opened.table ≡ B.table }
        requires session { (program_of opened.session.program ≡ B.program) × (opened.session.askers ≡ B.first) }
        requires before { opened.session.journal ≡ B.before }
        requires seats { B.last ≡ B.first + seats }
        ensures { result.first ≡ opened.session.askers }
    {
        let Opened {
            tie,
            keeper,
            session,
        } = opened;
        let first = session.askers();
        Shared {
            tie,
            lock: Mutex::new(Locked {
                session,
                keeper,
                left: seats,
                workers: 0,
                closed: false,
                room: PhantomData,
            }),
            changed: Condvar::new(),
            first,
        }
    }

    /// Waits for the lock.
    pub(crate) fn hold<R: Wait>(&self, rt: &R) -> MutexGuard<'_, Locked<B>> {
        for _ in 0..TRIES {
            if let Some(locked) = self.lock.try_lock() {
                return locked;
            }
            yield_now();
        }
        self.lock.lock(rt)
    }

    /// A further desk. It is refused where as many seats are given as may be. It waits for the lock, and takes no memory.
    pub fn desk<R: Wait>(&self, rt: &R, alloc: Global) -> Result<Desk<B>, EnrolRefused>
        ensures desk { IfOk result (λ d. (d.calls ≡ []) × (self.now.first < d.number)) }
        ensures memory { IsErrOf result EnrolRefused.NoMemory → ⊥ }
    {
        let (desk, seat) = self.hold(rt).enrol(&self.tie)?;
        Ok(Desk {
            number: desk.number,
            calls: Vec::new(alloc),
            seat,
            room: PhantomData,
        })
    }

    /// A further worker's seat, which is refused as a desk is. Their places are numbered from 1, in the order in which they are given.
    /// It waits for the lock, and takes no memory.
    pub fn worker_seat<R: Wait>(&self, rt: &R, alloc: Global) -> Result<Worker<B>, EnrolRefused>
        ensures worker { IfOk result (λ w. (w.seat.calls ≡ []) × (self.now.first < w.seat.number) × (1 ≤ w.place)) }
        ensures memory { IsErrOf result EnrolRefused.NoMemory → ⊥ }
    {
        let (desk, seat, place) = self.hold(rt).enrol_worker(&self.tie)?;
        let seat = Desk {
            number: desk.number,
            calls: Vec::new(alloc),
            seat,
            room: PhantomData,
        };
        Ok(Worker { seat, place })
    }

    /// Tells the workers to end. It waits for the lock.
    pub fn close<R: Wait>(&self, rt: &R) {
        self.hold(rt).closed = true;
        self.changed.notify_all();
    }
}
