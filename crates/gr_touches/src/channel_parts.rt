//! The touches of parts of a channel, added to their lists.

ghost use Rattle.std.specs.Prelude.{◌≡◌, ◌∷◌, [], Some, false};
ghost use Rattle.gr_rules.specs.States.{same};
ghost use Rattle.gr_base.specs.declared.objects.Object.TheVariants as objects;
ghost use Rattle.gr_record.specs.Parts.{parts_before, slot_before};
ghost use Rattle.gr_touches.specs.ObjectRefs.{seen};

use crate::lanes::Lanes;
use crate::object_ref::ObjectRef;
use crate::objects::parts_of;
use crate::touch::Touch;
use gr_base::{ChName, NoMemory};
use gr_record::record::Parts;
use gr_record::slot::SlotPlace;

impl Lanes {
    ghost use Rattle.gr_touches.specs.Room.{NotesFor};

    /// Adds a touch to the lists of parts of a channel. Refused, all lists are as before.
    pub(crate) fn note_parts(
        &mut self,
        channel: &ChName,
        parts: Parts,
        slot: SlotPlace,
        touch: Touch,
    ) -> Result<(), NoMemory>
        ensures { NotesFor result (parts_before parts slot (Some channel.now) []) touch self.old self.new }
    {
        match parts {
            Parts::Nothing => Ok(()),
            Parts::Gate => self.add_to_lane(&ObjectRef::Gate(channel), touch),
            Parts::Entrance => self.note_end(&ObjectRef::Tail(channel), channel, slot, touch),
            Parts::Exit => self.note_end(&ObjectRef::Head(channel), channel, slot, touch),
            Parts::GateAndExit => self.note_gate_and_exit(channel, slot, touch),
            Parts::All => self.note_whole(channel, slot, touch),
        }
    }

    /// Adds a touch to the lists of the head or tail of a channel, and of its slot if there is one. Refused, all lists are as
    /// before.
    #[inline(always)]
    fn note_end(
        &mut self,
        end: &ObjectRef<'_>,
        channel: &ChName,
        slot: SlotPlace,
        touch: Touch,
    ) -> Result<(), NoMemory>
        requires { same objects.Run (seen end.now) ≡ false }
        ensures { NotesFor result (seen end.now ∷ slot_before channel.now slot []) touch self.old self.new }
    {
        self.add_to_lane(end, touch)?;
        let Some(place) = slot.get() else {
            return Ok(());
        };
        let added = self.add_to_lane(&ObjectRef::Slot(channel, place), touch);
        if let Err(error) = added {
            self.take_from_lane(end);
            return Err(error);
        }
        Ok(())
    }

    /// Adds a touch to the lists of the gate, the head and the slot of a channel. Refused, all lists are as before.
    #[inline(never)]
    fn note_gate_and_exit(
        &mut self,
        channel: &ChName,
        slot: SlotPlace,
        touch: Touch,
    ) -> Result<(), NoMemory>
        ensures { NotesFor result (objects.Gate channel.now ∷ objects.Head channel.now
            ∷ slot_before channel.now slot []) touch self.old self.new }
    {
        let gate = ObjectRef::Gate(channel);
        self.add_to_lane(&gate, touch)?;
        let noted = self.note_end(&ObjectRef::Head(channel), channel, slot, touch);
        if let Err(error) = noted {
            self.take_from_lane(&gate);
            return Err(error);
        }
        Ok(())
    }

    /// Adds a touch to the lists of all parts of a channel. Refused, all lists are as before.
    #[inline(never)]
    fn note_whole(
        &mut self,
        channel: &ChName,
        slot: SlotPlace,
        touch: Touch,
    ) -> Result<(), NoMemory>
        ensures { NotesFor result (parts_before Parts.All slot (Some channel.now) []) touch self.old self.new }
    {
        self.note_list(&mut parts_of(channel, Parts::All, slot), touch)
    }
}
