//! Workers.
ghost use Rattle.std.specs.Prelude.{◌≡◌, ◌↔◌, ◌+◌, ◌≤◌, length, IsTrue};
ghost use Rattle.gr_command.specs.Replies.{said_of};
ghost use Rattle.gr_share.specs.Works.{HasWorked, IsCutTo};

use crate::desk::{Work, Worker};
use crate::shared::Shared;
use crate::views::Room;
use gr_command::Reply;
use gr_session::{Gate, Lease, run_batch};
use std::alloc::Global;
use std::sync::Wait;

/// Whether fewer steps joined the log than a batch had, since a growth for them was refused.
fn is_cut(reply: &Reply, steps: usize) -> bool
    ensures { IsTrue result ↔ IsCutTo steps (said_of reply.now) }
{
    match reply {
        Reply::Committed(joined) => (*joined as usize) < steps,
        _ => false,
    }
}

impl<B: Room> Worker<B> {
    ghost use Rattle.std.specs.Prelude.{◌≡◌, List};
    ghost use Rattle.gr_session.specs.Copies.{loan_of};
    ghost use Rattle.gr_session.specs.declared.journal.Entry.{Entry};
    ghost use Rattle.gr_share.specs.Works.{Lends};
    ghost use Rattle.gr_share.specs.Finding.{WorksOnce};

    /// Takes steps on the copy, without the lock, and commits them. It tells whether it may go on: not when out of memory, and not
    /// behind a batch that was cut.
    fn take_steps<R: Wait, G: Gate>(
        &mut self,
        rt: &R,
        alloc: Global,
        shared: &Shared<B>,
        gate: &G,
        lease: Lease,
        limit: usize,
    ) -> bool
        requires own { (loan_of lease.copy).program ≡ B.program }
        requires lent { (journal : List Entry) × Lends B.program journal self.old.place lease limit }
        ensures works { WorksOnce B.program self.old.place result self.old.seat self.new.seat }
        ensures place { self.new.place ≡ self.old.place }
    {
        let Ok(batch) = run_batch(alloc, lease, limit, gate) else {
            return false;
        };
        let steps = batch.len();
        gate.before_commit(self.place);
        match self.seat.commit(rt, alloc, shared, batch) {
            Ok(()) => {
                let receipt = self.seat.last();
                gate.after_commit(self.place, receipt);
                !is_cut(&receipt.reply, steps)
            }
            Err(_) => false,
        }
    }

    /// Looks for something to do, and does it. It tells whether it may go on.
    fn act<R: Wait, G: Gate>(&mut self, rt: &R, alloc: Global, shared: &Shared<B>, gate: &G) -> bool
        ensures works { WorksOnce B.program self.old.place result self.old.seat self.new.seat }
        ensures place { self.new.place ≡ self.old.place }
    {
        match self.seat.look(rt, alloc, shared, self.place) {
            Work::Turned => true,
            Work::Lends(lease, limit) => self.take_steps(rt, alloc, shared, gate, lease, limit),
            Work::Closed | Work::Refused(_) => false,
        }
    }
}

/// Works as often as the budget allows. Without the lock it takes steps of the goroutine that is lent at its place, and then
/// commits them. They are at most 256, and at most as many as the grant and the log had room for. Where none can be lent, it
/// takes a turn.
///
/// It waits while there is nothing to do. It ends after `close`, behind a batch that was cut, and where it is refused, as in a
/// full journal or when out of memory. The worker's calls grow by those batches and turns. All calls of the gate are made
/// without the lock.
pub fn worker<B: Room, R: Wait, G: Gate>(
    rt: &R,
    alloc: Global,
    shared: &Shared<B>,
    me: &mut Worker<B>,
    gate: &G,
    budget: u64,
)
    ensures works { HasWorked me.old.seat me.new.seat }
    ensures budget { length me.new.seat.calls ≤ length me.old.seat.calls + budget }
    ensures place { me.new.place ≡ me.old.place }
{
    for _ in 0..budget {
        if !me.act(rt, alloc, shared, gate) {
            return;
        }
    }
}
