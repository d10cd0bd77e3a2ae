//! Goroutines that wait no longer.

ghost use Rattle.std.specs.Prelude.{◌≡◌, [], ◌∷◌, true, IfOk, IfSome, OnOk, OnErr};
ghost use Rattle.gr_base.specs.declared.names.ChName.{ChName};
ghost use Rattle.gr_tables.specs.NamedChannels.{contents_of, rooms_of, withdrawn, ChansFit, HasRooms, GoesBack, TookBack};
ghost use Rattle.gr_tables.specs.NamedChannels.{KeepsRooms, Follows, MoreAtGates, listed, is_at_gate, is_empty};

use crate::channels::Channels;
use gr_base::{ChName, GoName, NoMemory};
use gr_channels::ChanUndo;

/// Whether the change took no waiter out.
fn takes_nothing_back(undo: &ChanUndo) -> bool
    ensures { result ≡ is_empty undo.now }
{
    match undo {
        ChanUndo::Withdrawn { senders, receivers } => senders.is_empty() && receivers.is_empty(),
        _ => false,
    }
}

impl Channels {
    /// Takes a goroutine out of the waiting lists of the channels of these names: of all of them or of none. A name may be
    /// that of no channel, and may come more than once. Refused, no content has changed.
    pub fn withdraw(
        &mut self,
        names: &[ChName],
        go: &GoName,
    ) -> Result<Vec<(ChName, ChanUndo)>, NoMemory>
        ensures contents { OnOk result (contents_of self.new ≡ withdrawn go.now names.now (contents_of self.old)) }
        ensures back { IfOk result (λ undos. GoesBack undos.items self.old self.new) }
        ensures err { OnErr result (contents_of self.new ≡ contents_of self.old) }
        ensures err_rooms { OnErr result (KeepsRooms self.old self.new) }
    {
        let none = Vec::new(self.alloc);
        self.withdraw_after(none, names, go)
    }

    /// Takes a goroutine out of the waiting lists of the channels of these names, after the changes `done` of the same step.
    /// The answer takes back both `done` and what was done here. Refused, all of it is taken back, `done` too.
    pub fn withdraw_after(
        &mut self,
        done: Vec<(ChName, ChanUndo)>,
        names: &[ChName],
        go: &GoName,
    ) -> Result<Vec<(ChName, ChanUndo)>, NoMemory>
        requires fits { ChansFit done.items (contents_of self.old) }
        requires room { HasRooms done.items (rooms_of self.old) }
        ensures contents { OnOk result (contents_of self.new ≡ withdrawn go.now names.now (contents_of self.old)) }
        ensures back { IfOk result (λ undos. Follows done.items undos.items self.old self.new) }
        ensures gates { IfOk result (λ undos. MoreAtGates names.now done.items undos.items) }
        ensures err { OnErr result (TookBack done.items self.old self.new) }
    {
        let mut undos = done;
        if undos.reserve(names.len()).is_err() {
            self.put_all_back(undos);
            return Err(NoMemory);
        }
        for name in names {
            let copied = match name.copy(self.alloc) {
                Ok(copied) => copied,
                Err(error) => {
                    self.put_all_back(undos);
                    return Err(error);
                }
            };
            let change = match self.withdraw_at(name, go) {
                Ok(change) => change,
                Err(error) => {
                    self.put_all_back(undos);
                    return Err(error);
                }
            };
            let Some(undo) = change else {
                continue;
            };
            undos.push((copied, undo)).unwrap();
        }
        Ok(undos)
    }

    /// Takes a goroutine out of the waiting lists of the channel of a name, if there is one, and it waits there.
    fn withdraw_at(&mut self, name: &ChName, go: &GoName) -> Result<Option<ChanUndo>, NoMemory>
        ensures contents { OnOk result (contents_of self.new ≡ withdrawn go.now (name.now ∷ []) (contents_of self.old)) }
        ensures back { IfOk result (λ undo. GoesBack (listed name.now undo) self.old self.new) }
        ensures gate { IfOk result (λ undo. IfSome undo (λ u. is_at_gate u ≡ true)) }
        ensures err { OnErr result (contents_of self.new ≡ contents_of self.old) }
        ensures err_rooms { OnErr result (KeepsRooms self.old self.new) }
    {
        let Some(channel) = self.map.get_mut(name) else {
            return Ok(None);
        };
        let undo = channel.withdraw(go)?;
        if takes_nothing_back(&undo) {
            return Ok(None);
        }
        Ok(Some(undo))
    }
}
