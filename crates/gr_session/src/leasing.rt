//! Goroutines that are lent to workers, and the steps that they take on the copy, without a session.

ghost use Rattle.std.specs.Prelude.{IfOk};
ghost use Rattle.gr_session.specs.Copies.{IsBatch};

use crate::BATCH_LIMIT;
use crate::journal::Receipt;
use gr_base::{GoName, NoMemory};
use gr_rollback::LentCopy;
use std::alloc::Global;
use std::marker::Model;

/// What a worker is told of its batches. It is called without a session.
pub trait Gate {
    /// After each step of a batch.
    fn in_batch(&self, worker: u32);

    /// Before a batch is committed.
    fn before_commit(&self, worker: u32);

    /// After it was committed.
    fn after_commit(&self, worker: u32, receipt: &Receipt);
}

/// A gate that does nothing.
pub struct Open;

impl Gate for Open {
    fn in_batch(&self, _worker: u32) {}

    fn before_commit(&self, _worker: u32) {}

    fn after_commit(&self, _worker: u32, _receipt: &Receipt) {}
}

/// A copy of a goroutine that a session lends, with no step yet. Its next step is local and no fault.
#[derive(Drop)]
pub struct Lease {
    pub(crate) copy: LentCopy,
    /// The place at which it was lent.
    pub(crate) place: u32,
}

impl Model for Lease {
    ghost use Rattle.std.specs.Prelude.{◌≡◌};
    ghost use Rattle.gr_program.specs.contracts.program.Expr as expr;
    ghost use Rattle.gr_program.specs.contracts.program.Stmt as stmt;
    ghost use Rattle.gr_program.specs.contracts.types.Type as types;
    ghost use Rattle.gr_code.specs.contracts.code.Operand as operands;
    ghost use Rattle.std.specs.Coded.{codes};
    ghost use Rattle.gr_rollback.specs.StepLeasing.{CanLeadOn, IsLease, loan_of};
    ghost use Rattle.gr_session.specs.Copies.{Lent};

    ghost Value = { Lent };

    ghost coded = { Prim.hlevel (codes, expr.the_row.coded, stmt.the_row.coded, types.the_row.coded, operands.the_row.coded) };

    ghost view = { λ l. record { copy = l.copy; place = l.place } };

    ghost invariant = { λ l. IsLease l.copy × ((loan_of l.copy).steps ≡ 0) × CanLeadOn l.copy };
}

/// Steps that a goroutine took on a copy, at least one.
#[derive(Drop)]
pub struct Batch {
    pub(crate) copy: LentCopy,
}

impl Model for Batch {
    ghost use Rattle.gr_program.specs.contracts.program.Expr as expr;
    ghost use Rattle.gr_program.specs.contracts.program.Stmt as stmt;
    ghost use Rattle.gr_program.specs.contracts.types.Type as types;
    ghost use Rattle.gr_code.specs.contracts.code.Operand as operands;
    ghost use Rattle.std.specs.Coded.{codes};
    ghost use Rattle.std.specs.Prelude.{◌<◌};
    ghost use Rattle.gr_rollback.specs.LentCopy.{LentCopy};
    ghost use Rattle.gr_rollback.specs.StepLeasing.{IsLease, loan_of};

    ghost Value = { LentCopy };

    ghost coded = { Prim.hlevel (codes, expr.the_row.coded, stmt.the_row.coded, types.the_row.coded, operands.the_row.coded) };

    ghost view = { λ b. b.copy };

    ghost invariant = { λ b. IsLease b.copy × (0 < (loan_of b.copy).steps) };
}

impl Lease {
    ghost use Rattle.std.specs.Prelude.{◌≡◌};
    ghost use Rattle.gr_rollback.specs.StepLeasing.{loan_of};

    /// The name of its goroutine.
    pub fn go(&self) -> &GoName
        ensures { result.now ≡ (loan_of self.now.copy).name }
    {
        self.copy.go()
    }

    /// The place at which it was lent.
    pub fn place(&self) -> u32
        ensures { result ≡ self.now.place }
    {
        self.place
    }
}

impl Batch {
    ghost use Rattle.std.specs.Prelude.{◌≡◌};
    ghost use Rattle.gr_rollback.specs.StepLeasing.{loan_of};

    /// The name of its goroutine.
    pub fn go(&self) -> &GoName
        ensures { result.now ≡ (loan_of self.now).name }
    {
        self.copy.go()
    }

    /// How many steps it has: at least one.
    pub fn len(&self) -> usize
        ensures { result ≡ (loan_of self.now).steps }
    {
        self.copy.len()
    }
}

/// Takes steps of the goroutine on its copy, each local and no fault, up to the limit or until no such step is next. It takes
/// at least one: a limit of 0 counts as 1, and one of more than 256 as 256. It has no session. The gate is called after each
/// step. Refused, the lease is gone.
pub fn run_batch<G: Gate>(
    alloc: Global,
    lease: Lease,
    limit: usize,
    gate: &G,
) -> Result<Batch, NoMemory>
    ensures { IfOk result (IsBatch limit lease.copy) }
{
    let Lease { copy, place } = lease;
    let mut copy = copy;
    let most = limit.min(BATCH_LIMIT).max(1);
    while copy.len() < most {
        if !copy.step(alloc)? {
            return Ok(Batch { copy });
        }
        gate.in_batch(place);
    }
    Ok(Batch { copy })
}
