//! What a session keeps of the commands and batches that were asked, and who asks.

ghost use Rattle.std.specs.Prelude.{◌≡◌, ◌↔◌, ◌+◌, ◌++◌, ◌∷◌, [], ◌<◌, ◌≤◌, length, vec_len, vec_capacity, OnOk, IsErrOf};
ghost use Rattle.gr_session.specs.Growing.{Grows, HasRoom};

use crate::{JOURNAL_GROWTH, JOURNAL_LIMIT};
use gr_command::{Command, Reply};
use gr_rollback::LocalRun;
use thiserror::Error;

/// How far memory allowed what was asked to be carried out.
#[derive(Clone, Copy, PartialEq, Eq)]
pub enum Memory {
    /// To its end.
    Enough,
    /// For this many of its steps; then a growth was refused.
    EnoughFor(u64),
}

/// What is asked of a session.
#[derive(Drop)]
pub enum Asked {
    Command(Command),
    /// The steps of a batch are to join the log. The truth value says whether its goroutine stood as it was lent, in a run of
    /// the same program that went on.
    Batch(LocalRun, bool),
}

/// What the journal keeps of what was asked.
pub struct Entry {
    /// The number of the asker, from 1.
    pub asker: u32,
    pub asked: Asked,
    /// How far memory went.
    pub memory: Memory,
}

// Written out, so that crates above call it and need not prove it again.
impl Drop for Entry {
    fn drop(self) {
        let Entry {
            asker: _,
            asked: _,
            memory: _,
        } = self;
    }
}

/// An asker of a session: a number that `enrol` gave, from 1 to 1,000.
#[derive(Clone, Copy, PartialEq, Eq)]
pub struct DeskId {
    pub number: u32,
}

/// A receipt for what was asked: the journal keeps it.
#[derive(Drop)]
pub struct Receipt {
    /// The number of the entry, from 1.
    pub number: u64,
    pub reply: Reply,
}

/// Why a command or a batch got no entry in the journal.
#[derive(Clone, Copy, Debug, PartialEq, Eq, Error)]
pub enum AskRefused {
    /// Q1: the journal is full.
    #[error("the journal is full")]
    JournalFull,
    /// Q2: there is no memory for the entry, or for the answer to a query.
    #[error("out of memory")]
    NoMemory,
}

/// Why there is no further asker.
#[derive(Clone, Copy, Debug, PartialEq, Eq, Error)]
pub enum EnrolRefused {
    /// E1: there are 1,000 askers.
    #[error("1000 askers")]
    Full,
    /// E2: a growth was refused. No call answers it, since an asker takes no memory.
    #[error("out of memory")]
    NoMemory,
}

/// Makes room for an entry in a journal, which stays as it is. It takes memory only where the journal grows.
pub(crate) fn make_room(journal: &mut Vec<Entry>) -> Result<(), AskRefused>
    requires short { length journal.old.items ≤ JOURNAL_LIMIT }
    requires room { HasRoom (vec_len journal.old) (vec_capacity journal.old) }
    ensures full { IsErrOf result AskRefused.JournalFull ↔ (length journal.old.items ≡ JOURNAL_LIMIT) }
    ensures memory { IsErrOf result AskRefused.NoMemory → Grows (length journal.old.items) }
    ensures less { OnOk result (length journal.old.items < JOURNAL_LIMIT) }
    ensures free { OnOk result (vec_len journal.new < vec_capacity journal.new) }
    ensures room { HasRoom (vec_len journal.new) (vec_capacity journal.new) }
    ensures more { OnOk result (HasRoom (vec_len journal.new + 1) (vec_capacity journal.new)) }
    ensures items { journal.new.items ≡ journal.old.items }
{
    let len = journal.len();
    if len >= JOURNAL_LIMIT {
        return Err(AskRefused::JournalFull);
    }
    if len % JOURNAL_GROWTH != 0 {
        return Ok(());
    }
    if journal.reserve(JOURNAL_GROWTH).is_err() {
        return Err(AskRefused::NoMemory);
    }
    Ok(())
}

/// Lets an entry join a journal, which has room for it.
pub(crate) fn keep(
    journal: &mut Vec<Entry>,
    desk: DeskId,
    asked: Asked,
    memory: Memory,
    reply: Reply,
) -> Receipt
    requires free { vec_len journal.old < vec_capacity journal.old }
    requires room { HasRoom (vec_len journal.old + 1) (vec_capacity journal.old) }
    ensures room { HasRoom (vec_len journal.new) (vec_capacity journal.new) }
    ensures entry { journal.new.items ≡ journal.old.items ++ record { asker = desk.number; asked = asked; memory = memory } ∷ [] }
    ensures number { result.number ≡ length journal.new.items }
    ensures reply { result.reply ≡ reply }
{
    journal.push_reserved(Entry {
        asker: desk.number,
        asked,
        memory,
    });
    Receipt {
        number: journal.len() as u64,
        reply,
    }
}
