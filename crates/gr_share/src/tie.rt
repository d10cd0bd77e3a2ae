//! The one table, and the moves on it.
ghost use Rattle.std.specs.Prelude.{◌≡◌, ℕ, ◌+◌, ◌<◌, ◌≤◌, true, [], ◌∷◌, ◌++◌, length, IfOk};
ghost use mathlib.Core.List.{IsPrefix};
ghost use Rattle.gr_share.specs.Calls.{is_told};
ghost use Rattle.gr_share.specs.Ties.{asked, front, keeping, entering, asking, older_lines, sight, sight_taken, hearing, told, with_asker, newest, IsFull};

use crate::desk::Call;
use crate::views::{
    Claims, Compares, Enters, Hears, Law, Notes, Opens, Pass, Rests, Settles, Shows, ShowsTaken,
    Takes, View,
};
use atomic_table::Table;
use gr_session::{AskRefused, Session};
use std::alloc::{AllocError, Global};
use std::sync::Wait;

/// One word, by which the session's seat and those of its askers stay together.
#[derive(Drop)]
pub(crate) struct Tie {
    table: Table<Call, View, Session, Law, Global>,
    pub ghost one_word: { table.shared.table_id.words ≡ 1 },
}

impl Tie {
    /// A table for a session, with the session's seat.
    pub(crate) fn new(alloc: Global, session: &Session) -> Result<(Tie, Pass), AllocError>
        ensures table { IfOk result (λ t. t.1.table_id ≡ t.0.table.shared.table_id) }
        ensures keeper { IfOk result (λ t. t.1.me.0 ≡ keeping (older_lines 1 session.now.journal) session.now.askers) }
    {
        let _ = session.journal();
        let (table, keeper) = Table::of_words(alloc, &[0], session)?;
        Ok((Tie { table }, keeper))
    }

    /// A seat for the next asker.
    pub(crate) fn open(&self, keeper: &mut Pass) -> Pass
        requires table { keeper.old.table_id ≡ self.now.table.shared.table_id }
        requires keeper { (keeper.old.me.0.keeps ≡ true) × (keeper.old.me.0.rests ≡ true) }
        ensures keeper { (keeper.new.table_id ≡ keeper.old.table_id) × (keeper.new.me.0 ≡ with_asker keeper.old.me.0) }
        ensures desk { (result.table_id ≡ keeper.old.table_id) × (result.me.0 ≡ newest keeper.old.me.0) }
    {
        self.table.shared.split_seat::<Opens>(keeper)
    }

    /// The asker is one of the session's, and its calls are entries.
    pub(crate) fn compare(&self, keeper: &mut Pass, desk: &mut Pass)
        requires tables { (keeper.old.table_id ≡ self.now.table.shared.table_id)
            × (desk.old.table_id ≡ self.now.table.shared.table_id) }
        requires keeper { keeper.old.me.0 ≡ keeping keeper.old.me.0.log keeper.old.me.0.askers }
        requires desk { 0 < desk.old.me.0.asker }
        ensures keeper { (keeper.new.table_id ≡ keeper.old.table_id) × (keeper.new.me.0 ≡ keeper.old.me.0) }
        ensures desk { (desk.new.table_id ≡ desk.old.table_id) × (desk.new.me.0 ≡ desk.old.me.0) }
        ensures known { desk.old.me.0.asker ≤ keeper.old.me.0.askers }
        ensures begins { IsPrefix desk.old.me.0.calls (asked desk.old.me.0.asker keeper.old.me.0.log) }
        ensures full { desk.old.me.0.told_full ≡ true → IsFull keeper.old.me.0.log }
    {
        let note = self.table.shared.split_seat::<Claims>(desk);
        self.table.shared.join_seat::<Hears>(keeper, note);
        self.table.shared.load::<Compares>(keeper, 0);
    }

    /// The session's seat takes an entry.
    pub(crate) fn enter<R: Wait>(&self, rt: &R, keeper: &mut Pass, asker: u32, call: &Call)
        requires table { keeper.old.table_id ≡ self.now.table.shared.table_id }
        requires keeper { keeper.old.me.0.keeps ≡ true }
        requires line { (0 < asker) × (asker ≤ keeper.old.me.0.askers) }
        ensures { (keeper.new.table_id ≡ keeper.old.table_id)
            × (keeper.new.me.0 ≡ entering (keeper.old.me.0.log ++ told asker call.now ∷ []) keeper.old.me.0.askers) }
    {
        let word = u64::from(asker);
        for _ in rt.forever() {
            let found = self
                .table
                .shared
                .compare_exchange_with::<Enters>(keeper, 0, 0, word, call);
            if found == 0 {
                break;
            }
        }
    }

    /// An asker is shown the journal.
    pub(crate) fn show(&self, keeper: &mut Pass, desk: &mut Pass)
        requires tables { (keeper.old.table_id ≡ self.now.table.shared.table_id)
            × (desk.old.table_id ≡ self.now.table.shared.table_id) }
        requires keeper { keeper.old.me.0.keeps ≡ true }
        ensures keeper { (keeper.new.table_id ≡ keeper.old.table_id) × (keeper.new.me.0 ≡ keeper.old.me.0) }
        ensures desk { (desk.new.table_id ≡ desk.old.table_id)
            × (desk.new.me.0 ≡ hearing desk.old.me.0 (sight keeper.old.me.0.log)) }
    {
        let note = self.table.shared.split_seat::<Shows>(keeper);
        self.table.shared.join_seat::<Hears>(desk, note);
    }

    /// An asker is shown the journal, whose lines are all among the calls of their askers.
    pub(crate) fn show_taken(&self, keeper: &mut Pass, desk: &mut Pass)
        requires tables { (keeper.old.table_id ≡ self.now.table.shared.table_id)
            × (desk.old.table_id ≡ self.now.table.shared.table_id) }
        requires keeper { (keeper.old.me.0.keeps ≡ true) × (keeper.old.me.0.rests ≡ true) }
        ensures keeper { (keeper.new.table_id ≡ keeper.old.table_id) × (keeper.new.me.0 ≡ keeper.old.me.0) }
        ensures desk { (desk.new.table_id ≡ desk.old.table_id)
            × (desk.new.me.0 ≡ hearing desk.old.me.0 (sight_taken keeper.old.me.0.log)) }
    {
        let note = self.table.shared.split_seat::<ShowsTaken>(keeper);
        self.table.shared.join_seat::<Hears>(desk, note);
    }

    /// The session's seat waits until the word is 0.
    pub(crate) fn rest<R: Wait>(&self, rt: &R, keeper: &mut Pass)
        requires table { keeper.old.table_id ≡ self.now.table.shared.table_id }
        requires keeper { keeper.old.me.0.keeps ≡ true }
        ensures { (keeper.new.table_id ≡ keeper.old.table_id)
            × (keeper.new.me.0 ≡ keeping keeper.old.me.0.log keeper.old.me.0.askers) }
    {
        for _ in rt.forever() {
            if self.table.shared.load::<Rests>(keeper, 0) == 0 {
                break;
            }
        }
    }

    /// An asker's seat takes its call.
    pub(crate) fn take<R: Wait>(&self, rt: &R, desk: &mut Pass, asker: u32, call: &Call)
        requires table { desk.old.table_id ≡ self.now.table.shared.table_id }
        requires desk { (0 < asker) × (desk.old.me.0.asker ≡ asker) }
        requires shown { desk.old.me.0.seen ≡ front desk.old.me.0.seen ++ told asker call.now ∷ [] }
        requires begins { length desk.old.me.0.calls ≤ length (asked asker (front desk.old.me.0.seen)) }
        ensures { (desk.new.table_id ≡ desk.old.table_id)
            × (desk.new.me.0
            ≡ asking desk.old.me.0.asker (desk.old.me.0.calls ++ told asker call.now ∷ []) desk.old.me.0.told_full) }
    {
        let word = u64::from(asker);
        for _ in rt.forever() {
            let found = self
                .table
                .shared
                .compare_exchange_with::<Takes>(desk, 0, word, 0, call);
            if found == word {
                break;
            }
        }
    }

    /// The asker's lines of the journal that it was shown are calls of it.
    pub(crate) fn settle(&self, desk: &mut Pass)
        requires table { desk.old.table_id ≡ self.now.table.shared.table_id }
        requires desk { 0 < desk.old.me.0.asker }
        ensures desk { (desk.new.table_id ≡ desk.old.table_id)
            × (desk.new.me.0 ≡ asking desk.old.me.0.asker desk.old.me.0.calls desk.old.me.0.told_full) }
        ensures settled { IsPrefix (asked desk.old.me.0.asker desk.old.me.0.taken) desk.old.me.0.calls }
    {
        self.table.shared.load::<Settles>(desk, 0);
    }

    /// An asker's seat that was shown a full journal notes that it is full.
    fn note(&self, desk: &mut Pass)
        requires table { desk.old.table_id ≡ self.now.table.shared.table_id }
        requires desk { 0 < desk.old.me.0.asker }
        requires full { IsFull desk.old.me.0.seen }
        ensures { (desk.new.table_id ≡ desk.old.table_id)
            × (desk.new.me.0 ≡ asking desk.old.me.0.asker desk.old.me.0.calls true) }
    {
        self.table.shared.load::<Notes>(desk, 0);
    }

    /// An asker's seat notes why it was refused.
    pub(crate) fn refuse(&self, keeper: &mut Pass, desk: &mut Pass, why: AskRefused)
        requires tables { (keeper.old.table_id ≡ self.now.table.shared.table_id)
            × (desk.old.table_id ≡ self.now.table.shared.table_id) }
        requires keeper { keeper.old.me.0.keeps ≡ true }
        requires desk { (0 < desk.old.me.0.asker)
            × (desk.old.me.0 ≡ asking desk.old.me.0.asker desk.old.me.0.calls desk.old.me.0.told_full) }
        requires full { why ≡ AskRefused.JournalFull → IsFull keeper.old.me.0.log }
        ensures keeper { (keeper.new.table_id ≡ keeper.old.table_id) × (keeper.new.me.0 ≡ keeper.old.me.0) }
        ensures desk { (desk.new.table_id ≡ desk.old.table_id)
            × (desk.new.me.0 ≡ asking desk.old.me.0.asker desk.old.me.0.calls (is_told why desk.old.me.0.told_full)) }
    {
        match why {
            AskRefused::JournalFull => {
                self.show(keeper, desk);
                self.note(desk);
            }
            AskRefused::NoMemory => {}
        }
    }

    /// Both seats take a line: the session's as an entry, the asker's as a call. Then the word is 0 again.
    pub(crate) fn give<R: Wait>(
        &self,
        rt: &R,
        keeper: &mut Pass,
        desk: &mut Pass,
        asker: u32,
        call: &Call,
    )
        requires tables { (keeper.old.table_id ≡ self.now.table.shared.table_id)
            × (desk.old.table_id ≡ self.now.table.shared.table_id) }
        requires keeper { keeper.old.me.0.keeps ≡ true }
        requires desk { desk.old.me.0.asker ≡ asker }
        requires line { (0 < asker) × (asker ≤ keeper.old.me.0.askers) }
        requires begins { IsPrefix desk.old.me.0.calls (asked asker keeper.old.me.0.log) }
        ensures keeper { (keeper.new.table_id ≡ keeper.old.table_id)
            × (keeper.new.me.0 ≡ keeping (keeper.old.me.0.log ++ told asker call.now ∷ []) keeper.old.me.0.askers) }
        ensures desk { (desk.new.table_id ≡ desk.old.table_id)
            × (desk.new.me.0
            ≡ asking desk.old.me.0.asker (desk.old.me.0.calls ++ told asker call.now ∷ []) desk.old.me.0.told_full) }
    {
        self.enter(rt, keeper, asker, call);
        self.show(keeper, desk);
        self.take(rt, desk, asker, call);
        self.rest(rt, keeper);
    }
}
