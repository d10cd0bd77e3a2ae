//! What a step reached beyond its goroutine: parts of one channel, or more.

ghost use Rattle.std.specs.Prelude.{◌≡◌, ◌∷◌, if◌then◌else◌};
ghost use Rattle.gr_base.specs.declared.objects.Object.TheVariants as objects;
ghost use Rattle.gr_record.specs.Parts.{reads_in, writes_in};
ghost use Rattle.gr_touches.specs.Room.{NotesFor};
ghost use Rattle.gr_touches.specs.Told.{read_on, seen_in, written_on, written_on_with};

use crate::lanes::Lanes;
use crate::objects::{TouchedObjects, read_beyond, read_in};
use crate::touch::Touch;
use gr_base::{ChName, GoName, NoMemory};
use gr_record::record::{Beyond, Touched};

/// What a step reached beyond its goroutine.
pub(crate) trait Reached {
    ghost use Rattle.std.specs.Prelude.{List};
    ghost use Rattle.gr_base.specs.declared.objects.Object.{Object};

    // The objects that the step read and did not write.
    ghost read: { Self → List Object };

    // The objects that it wrote, except its goroutine.
    ghost written: { Self → List Object };

    /// Adds a touch to the lists of the objects that the step read. Refused, all lists are as before.
    fn note_read(&self, lanes: &mut Lanes, touch: Touch) -> Result<(), NoMemory>
        ensures { NotesFor result (read self.now) touch lanes.old lanes.new };

    /// Adds a touch to the lists of the objects, except its goroutine, that the step wrote. Refused, all lists are as before.
    fn note_written(&self, lanes: &mut Lanes, touch: Touch) -> Result<(), NoMemory>
        ensures { NotesFor result (written self.now) touch lanes.old lanes.new };

    /// The objects that the step read and did not write.
    fn objects_read(&self) -> TouchedObjects<'_>
        ensures { seen_in result ≡ read self.now };
}

/// What a step reached that used one channel, and met no partner: the channel, and what it touched of it.
#[derive(Clone, Copy)]
pub(crate) struct TouchedChannel<'a> {
    pub(crate) channel: &'a ChName,
    pub(crate) touched: Touched,
}

impl Reached for TouchedChannel<'_> {
    ghost use Rattle.std.specs.Prelude.{◌∷◌};
    ghost use Rattle.gr_base.specs.declared.objects.Object.TheVariants as objects;
    ghost use Rattle.gr_touches.specs.Told.{read_on, written_on};

    ghost read = { λ reached. objects.Run ∷ read_on reached.channel.now reached.touched };

    ghost written = { λ reached. written_on reached.channel.now reached.touched };

    #[inline(always)]
    fn note_read(&self, lanes: &mut Lanes, touch: Touch) -> Result<(), NoMemory> {
        lanes.add_to_run(touch)?;
        let noted = lanes.note_parts(self.channel, self.touched.read, self.touched.slot, touch);
        if let Err(error) = noted {
            lanes.take_from_run();
            return Err(error);
        }
        Ok(())
    }

    #[inline(always)]
    fn note_written(&self, lanes: &mut Lanes, touch: Touch) -> Result<(), NoMemory> {
        lanes.note_parts(self.channel, self.touched.written, self.touched.slot, touch)
    }

    fn objects_read(&self) -> TouchedObjects<'_> {
        read_in(self.channel, self.touched)
    }
}

/// What a step reached that used one channel, and met a partner.
#[derive(Clone, Copy)]
pub(crate) struct TouchedPair<'a> {
    pub(crate) used: TouchedChannel<'a>,
    pub(crate) partner: &'a GoName,
}

impl Reached for TouchedPair<'_> {
    ghost use Rattle.std.specs.Prelude.{◌∷◌};
    ghost use Rattle.gr_base.specs.declared.objects.Object.TheVariants as objects;
    ghost use Rattle.gr_touches.specs.Told.{read_on, written_on_with};

    ghost read = { λ reached. objects.Run ∷ read_on reached.used.channel.now reached.used.touched };

    ghost written = { λ reached. written_on_with reached.used.channel.now reached.used.touched reached.partner.now };

    #[inline(always)]
    fn note_read(&self, lanes: &mut Lanes, touch: Touch) -> Result<(), NoMemory> {
        self.used.note_read(lanes, touch)
    }

    #[inline(always)]
    fn note_written(&self, lanes: &mut Lanes, touch: Touch) -> Result<(), NoMemory> {
        lanes.note_pair(self.used.channel, self.used.touched, self.partner, touch)
    }

    fn objects_read(&self) -> TouchedObjects<'_> {
        self.used.objects_read()
    }
}

impl Reached for Beyond {
    ghost use Rattle.std.specs.Prelude.{◌∷◌, if◌then◌else◌};
    ghost use Rattle.gr_base.specs.declared.objects.Object.TheVariants as objects;
    ghost use Rattle.gr_record.specs.Parts.{reads_in, writes_in};

    ghost read = { λ beyond. if beyond.stops then reads_in beyond else objects.Run ∷ reads_in beyond };

    ghost written = { writes_in };

    fn note_read(&self, lanes: &mut Lanes, touch: Touch) -> Result<(), NoMemory> {
        if self.stops {
            return lanes.note_read_beside_run(self, touch);
        }
        lanes.add_to_run(touch)?;
        let noted = lanes.note_read_beside_run(self, touch);
        if let Err(error) = noted {
            lanes.take_from_run();
            return Err(error);
        }
        Ok(())
    }

    fn note_written(&self, lanes: &mut Lanes, touch: Touch) -> Result<(), NoMemory> {
        lanes.note_written_beyond(self, touch)
    }

    fn objects_read(&self) -> TouchedObjects<'_> {
        read_beyond(self)
    }
}
