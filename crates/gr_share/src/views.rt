//! What the seats of the one table know, and the rule that ties them.

use crate::desk::Call;
use atomic_table::{Join, Play, Split, TableRule};
use gr_session::Session;
use std::collections::LinkedList;
use std::marker::{Brand, Model, PhantomData};

/// An entry as its asker sees it. No value of it is made.
pub struct Line {
    marker: PhantomData<()>,
}

impl Model for Line {
    ghost use Rattle.gr_share.specs.Lines.{Line as Known, no_line};

    ghost Value = { Known };

    ghost view = { λ _. no_line };
}

/// What a seat knows. No value of it is made.
pub struct View {
    /// The session's seat: the lines of the journal, how many askers there are, and whether it found the word 0 since its last
    /// entry.
    pub keeps: bool,
    pub log: LinkedList<Line>,
    pub askers: u64,
    pub rests: bool,
    /// An asker's seat: its number, its calls, and whether it was told that the journal is full.
    pub asker: u64,
    pub calls: LinkedList<Line>,
    pub told_full: bool,
    /// A note of an asker's number and calls, and of whether it was told so.
    pub noted: u64,
    pub claims: LinkedList<Line>,
    pub noted_full: bool,
    /// A note of the journal's lines.
    pub seen: LinkedList<Line>,
    /// A note of the journal's lines, each among the calls of its asker.
    pub taken: LinkedList<Line>,
}

/// Names what a `Shared` was made of: its one table, its session's program, number of askers and journal, and how many askers it may
/// come to have.
pub trait Room {
    ghost use Rattle.std.specs.Prelude.{ℕ, List};
    ghost use Rattle.atomic_table.specs.Seated.{TableId};
    ghost use Rattle.gr_program.specs.Programs.{Program};
    ghost use Rattle.gr_session.specs.declared.journal.Entry.{Entry};

    ghost table: { TableId };

    ghost program: { Program };

    ghost first: { ℕ };

    ghost last: { ℕ };

    ghost before: { List Entry };
}

impl Room for Brand {
    ghost use Rattle.std.specs.Prelude.{[]};
    ghost use Rattle.gr_share.specs.Ties.{no_table, no_program};

    ghost table = { no_table };

    ghost program = { no_program };

    ghost first = { 0 };

    ghost last = { 0 };

    ghost before = { [] };
}

/// The word names the asker whose last entry is not yet among its calls, or is 0.
pub struct Law;

impl TableRule<Call, View, Session> for Law {
    ghost use Rattle.gr_share.specs.Ties.{keeping, older_lines, Kept};

    ghost holds = { λ _ s. Kept s };

    ghost first = { λ s. keeping (older_lines 1 s.journal) s.askers };
}

/// A new asker's seat.
pub struct Opens;

impl Split<View> for Opens {
    ghost use Rattle.gr_share.specs.Ties.{with_asker, newest};

    ghost left = { with_asker };

    ghost right = { newest };
}

/// A note of an asker's calls.
pub struct Claims;

impl Split<View> for Claims {
    ghost use Rattle.gr_share.specs.Ties.{claim};

    ghost left = { λ v. v };

    ghost right = { λ v. claim v.asker v.calls v.told_full };
}

/// A note of the journal.
pub struct Shows;

impl Split<View> for Shows {
    ghost use Rattle.gr_share.specs.Ties.{sight};

    ghost left = { λ v. v };

    ghost right = { λ v. sight v.log };
}

/// A note of the journal, whose lines are all among the calls of their askers.
pub struct ShowsTaken;

impl Split<View> for ShowsTaken {
    ghost use Rattle.gr_share.specs.Ties.{sight_taken};

    ghost left = { λ v. v };

    ghost right = { λ v. sight_taken v.log };
}

/// A note is taken in.
pub struct Hears;

impl Join<View> for Hears {
    ghost use Rattle.gr_share.specs.Ties.{hearing, nobody};

    ghost both = { hearing };

    ghost spent = { nobody };
}

/// The session's seat compares a note with the journal.
pub struct Compares;

impl Play<Call, View> for Compares {
    ghost use Rattle.gr_share.specs.Ties.{Compared};

    ghost then = { λ st m r n. Compared m.0 n.0 };
}

/// The session's seat takes an entry.
pub struct Enters;

impl Play<Call, View> for Enters {
    ghost use Rattle.gr_share.specs.Ties.{Entered};

    ghost then = { λ st m r n. Entered st.first st.second st.said m.0 r n.0 };
}

/// The session's seat looks whether the word is 0.
pub struct Rests;

impl Play<Call, View> for Rests {
    ghost use Rattle.gr_share.specs.Ties.{Rested};

    ghost then = { λ st m r n. Rested m.0 r n.0 };
}

/// An asker's seat takes its call.
pub struct Takes;

impl Play<Call, View> for Takes {
    ghost use Rattle.gr_share.specs.Ties.{Taken};

    ghost then = { λ st m r n. Taken st.first st.said m.0 r n.0 };
}

/// An asker's seat compares its calls with a journal, whose lines are all among the calls of their askers.
pub struct Settles;

impl Play<Call, View> for Settles {
    ghost use Rattle.gr_share.specs.Ties.{Settled};

    ghost then = { λ st m r n. Settled m.0 n.0 };
}

/// An asker's seat that was shown a full journal notes that it is full.
pub struct Notes;

impl Play<Call, View> for Notes {
    ghost use Rattle.gr_share.specs.Ties.{Noted};

    ghost then = { λ st m r n. Noted m.0 n.0 };
}

/// A seat of the one table: the session's, or an asker's.
pub type Pass = atomic_table::Seat<Call, View>;
