//! Changes of channels taken back.

ghost use Rattle.std.specs.Prelude.{◌≡◌, ◌^◌, ◌-◌, [], ◌∷◌, IsSome, IsOk, IfErr, OnOk, OnErr};
ghost use Rattle.gr_channels.specs.Channels.{Within, each};
ghost use Rattle.gr_tables.specs.NamedChannels.{contents_of, rooms_of, FitsAt, ChansFit, HasRooms, TookBack, KeepsRooms};
ghost use Rattle.gr_tables.specs.Places.{room_of};

use crate::channels::Channels;
use crate::channels::places::{Places, needed_by, room_to_go_back};
use gr_base::{ChName, NoMemory};
use gr_channels::ChanUndo;

impl Channels {
    /// Takes one change back, for which there is room.
    pub fn put_back(&mut self, name: &ChName, undo: ChanUndo)
        requires fits { FitsAt undo (contents_of self.old name.now) }
        requires room { HasRooms ((name.now, undo) ∷ []) (rooms_of self.old) }
        ensures { TookBack ((name.now, undo) ∷ []) self.old self.new }
    {
        self.map.get_mut(name).unwrap().undo(undo).unwrap();
    }

    /// Takes changes back, the last first, for which there is room.
    pub fn put_all_back(&mut self, undos: Vec<(ChName, ChanUndo)>)
        requires fits { ChansFit undos.items (contents_of self.old) }
        requires room { HasRooms undos.items (rooms_of self.old) }
        ensures { TookBack undos.items self.old self.new }
    {
        let mut undos = undos;
        while let Some((name, undo)) = undos.pop() {
            self.put_back(&name, undo);
        }
    }

    /// Makes room for taking these back. No content changes.
    pub fn make_room(&mut self, undos: &[(ChName, ChanUndo)]) -> Result<(), NoMemory>
        requires { ChansFit undos.now (contents_of self.old) }
        ensures contents { contents_of self.new ≡ contents_of self.old }
        ensures ok { OnOk result (HasRooms undos.now (rooms_of self.new)) }
        ensures grows { KeepsRooms self.old self.new }
        ensures succeeds { HasRooms undos.now (rooms_of self.old) → IsOk result }
    {
        let mut place = undos.len();
        while place > 0 {
            place -= 1;
            let (name, _) = &undos[place];
            self.room_is_small(name);
            let Some(room) = room_to_go_back(undos, place, name) else {
                return Err(NoMemory);
            };
            self.reserve(name, room)?;
        }
        Ok(())
    }

    /// Makes room for taking one change back. No content changes.
    pub fn make_room_for(&mut self, name: &ChName, undo: &ChanUndo) -> Result<(), NoMemory>
        requires { FitsAt undo.now (contents_of self.old name.now) }
        ensures contents { contents_of self.new ≡ contents_of self.old }
        ensures ok { OnOk result (HasRooms ((name.now, undo.now) ∷ []) (rooms_of self.new)) }
        ensures grows { KeepsRooms self.old self.new }
        ensures succeeds { HasRooms ((name.now, undo.now) ∷ []) (rooms_of self.old) → IsOk result }
    {
        self.reserve(name, needed_by(undo))
    }

    /// The room at a channel is a number of places in memory.
    fn room_is_small(&self, name: &ChName)
        requires { IsSome (contents_of self.now name.now) }
        ensures { Within (rooms_of self.now name.now) (each (2 ^ 64 - 1)) }
    {
        self.map.get(name).unwrap().room_is_small();
    }

    /// Makes room at one channel. No content changes.
    fn reserve(&mut self, name: &ChName, room: Places) -> Result<(), NoMemory>
        requires { IsSome (contents_of self.old name.now) }
        ensures contents { contents_of self.new ≡ contents_of self.old }
        ensures ok { OnOk result (Within (room_of room) (rooms_of self.new name.now)) }
        ensures succeeds { Within (room_of room) (rooms_of self.old name.now) → IsOk result }
        ensures grows { KeepsRooms self.old self.new }
    {
        self.map
            .get_mut(name)
            .unwrap()
            .make_room(room.items, room.senders, room.receivers)
    }

    /// Takes changes back, the last first. It takes memory only where there is no room; refused, no content has changed,
    /// and the changes are handed back.
    pub fn undo_all(
        &mut self,
        undos: Vec<(ChName, ChanUndo)>,
    ) -> Result<(), (Vec<(ChName, ChanUndo)>, NoMemory)>
        requires { ChansFit undos.items (contents_of self.old) }
        ensures ok { OnOk result (TookBack undos.items self.old self.new) }
        ensures err { OnErr result (contents_of self.new ≡ contents_of self.old) }
        ensures err_rooms { OnErr result (KeepsRooms self.old self.new) }
        ensures returned { IfErr result (λ e. e.0 ≡ undos) }
        ensures succeeds { HasRooms undos.items (rooms_of self.old) → IsOk result }
    {
        if let Err(error) = self.make_room(&undos) {
            return Err((undos, error));
        }
        self.put_all_back(undos);
        Ok(())
    }
}
