//! What holds of journals and of batches: laws, on functions that do nothing.

ghost use Rattle.std.specs.Prelude.{◌≡◌, ◌<◌, ◌≤◌, ℕ, List};
ghost use Rattle.gr_program.specs.Programs.{Program};
ghost use Rattle.gr_command.specs.Replies.{Said};
ghost use Rattle.gr_laws.specs.Reached.{IsRun};
ghost use Rattle.gr_rollback.specs.Contents.{Contents};
ghost use Rattle.gr_rollback.specs.LentCopy.{LentCopy};
ghost use Rattle.gr_rollback.specs.StepLeasing.{IsAsLentIn, loan_of};
ghost use Rattle.gr_session.specs.declared.journal.Asked.{Asked};
ghost use Rattle.gr_session.specs.declared.journal.Memory.{Memory};
ghost use Rattle.gr_session.specs.declared.journal.Entry.{Entry};
ghost use Rattle.gr_session.specs.Journal.{World, first_world};
ghost use Rattle.gr_session.specs.Entries.{Means, Lead, Enters};
ghost use Rattle.gr_session.specs.Copies.{IsBatch};
ghost use Rattle.gr_session.specs.Committing.{MustBeStale};

/// A legal journal has one meaning. In a world of a run, each entry leads to one next world, with one reply: the entry keeps
/// what the rules leave open. That world is again one of a run, whose steps lead from the start of the program to its state. So
/// the journal fixes its world. The journal before an entry and after it fix the entry's number and its reply.
pub fn law_of_journals()
    ensures next { (p : Program) (w u v : World p) (asked : Asked) (memory : Memory) (a b : Said)
        → IsRun p w.log w.state
        → Means p w asked memory u a → Means p w asked memory v b
        → (u ≡ v) × (a ≡ b) }
    ensures runs { (p : Program) (w u : World p) (asked : Asked) (memory : Memory) (a : Said)
        → IsRun p w.log w.state → Means p w asked memory u a
        → IsRun p u.log u.state }
    ensures whole { (p : Program) (journal : List Entry) (u v : World p)
        → Lead p (first_world p) journal u → Lead p (first_world p) journal v
        → u ≡ v }
    ensures receipts { (p : Program) (asker : ℕ) (asked : Asked) (old new : List Entry) (m n : ℕ) (a b : Said)
        → Enters p asker asked old new m a → Enters p asker asked old new n b
        → (m ≡ n) × (a ≡ b) }
    ensures reached { (p : Program) (journal : List Entry) (u : World p)
        → Lead p (first_world p) journal u
        → IsRun p u.log u.state }
{}

/// A batch need not be stale if its goroutine is as it was lent, and its limit is at most what the workers may take. So it need
/// not be stale if nothing happened between lease and commit.
pub fn law_of_batches()
    ensures { (p : Program) (s : Contents) (lent led : LentCopy) (grant limit : ℕ)
        → IsAsLentIn (loan_of lent) p s → 0 < grant → limit ≤ grant → IsBatch limit lent led
        → ¬ MustBeStale p s grant (loan_of led) }
{}
