//! The touches of a step, added to the lists of its objects.

ghost use Rattle.std.specs.Prelude.{◌≡◌, ◌<◌, ◌^◌, ◌∷◌, [], None, Some, option_map};
ghost use Rattle.gr_base.specs.declared.objects.Object.TheVariants as objects;
ghost use Rattle.gr_record.specs.Conflicts.{read_by, written_by};
ghost use Rattle.gr_record.specs.Parts.{channel_in, parts_before, reads_in, writes_in};
ghost use Rattle.gr_record.specs.Effects.{reached_by_exchange};
ghost use Rattle.gr_touches.specs.Told.{read_on, seen_in, written_on, written_on_with};

use crate::lanes::Lanes;
use crate::object_ref::ObjectRef;
use crate::objects::{TouchedObjects, others_read, others_written, parts_of, parts_written};
use crate::reached::{Reached, TouchedChannel, TouchedPair};
use crate::touch::Touch;
use gr_base::{ChName, GoName, NoMemory, Object};
use gr_record::record::{Beyond, Exchange, Form, Parts, Record, Touched};

impl Lanes {
    ghost use Rattle.gr_touches.specs.Room.{NotesFor, NotesStep};

    /// Adds the touches of a step at a place. Refused, all lists are as before.
    #[inline(always)]
    pub fn note(&mut self, place: u32, step: &Record) -> Result<(), NoMemory>
        requires { place < 2 ^ 31 }
        ensures { NotesStep result place step.now self.old self.new }
    {
        match step.change.form() {
            Form::Alone(_, _) => self.note_alone(place, step),
            Form::WaitsToSend(slot, channel, _) => {
                self.note_used(place, step, channel, Touched::to_send(*slot))
            }
            Form::WaitsToReceive(slot, channel, _) => {
                self.note_used(place, step, channel, Touched::to_receive(*slot))
            }
            Form::Passes(_, passage) => {
                let contact = &passage.contact;
                self.note_used(place, step, contact.operation.channel(), contact.touched)
            }
            Form::Exchanges(_, exchange) => self.note_exchange(place, step, exchange),
            Form::Further(_, further) => self.note_beyond(place, step, &further.beyond),
        }
    }

    /// Adds the touches of a step that reached no further than its goroutine. Refused, all lists are as before.
    #[inline(always)]
    fn note_alone(&mut self, place: u32, step: &Record) -> Result<(), NoMemory>
        requires place { place < 2 ^ 31 }
        requires alone { step.now.change.beyond ≡ None }
        ensures { NotesStep result place step.now self.old self.new }
    {
        let read = Touch::new(place, false);
        let written = Touch::new(place, true);
        self.add_to_run(read)?;
        let noted = self.add_to_lane(&step.id.go, written);
        if let Err(error) = noted {
            self.take_from_run();
            return Err(error);
        }
        Ok(())
    }

    /// Adds the touches of a step that used one channel, and met no partner. Refused, all lists are as before.
    #[inline(always)]
    fn note_used(
        &mut self,
        place: u32,
        step: &Record,
        channel: &ChName,
        touched: Touched,
    ) -> Result<(), NoMemory>
        requires place { place < 2 ^ 31 }
        requires read { read_by step.now ≡ objects.Run ∷ read_on channel.now touched }
        requires written { written_by step.now ≡ objects.Go step.now.id.go ∷ written_on channel.now touched }
        ensures { NotesStep result place step.now self.old self.new }
    {
        self.note_reached(place, step, &TouchedChannel { channel, touched })
    }

    /// Adds the touches of a step that used one channel, and met a partner. Refused, all lists are as before.
    #[inline(never)]
    fn note_exchange(
        &mut self,
        place: u32,
        step: &Record,
        exchange: &Exchange,
    ) -> Result<(), NoMemory>
        requires place { place < 2 ^ 31 }
        requires beyond { step.now.change.beyond ≡ Some (reached_by_exchange exchange.now) }
        ensures { NotesStep result place step.now self.old self.new }
    {
        let contact = &exchange.passage.contact;
        let used = TouchedChannel {
            channel: contact.operation.channel(),
            touched: contact.touched,
        };
        let partner = &exchange.met.0;
        self.note_reached(place, step, &TouchedPair { used, partner })
    }

    /// Adds the touches of a step that reached further. Refused, all lists are as before.
    #[inline(always)]
    fn note_reached<R: Reached>(
        &mut self,
        place: u32,
        step: &Record,
        reached: &R,
    ) -> Result<(), NoMemory>
        requires place { place < 2 ^ 31 }
        requires read { read_by step.now ≡ R.read reached.now }
        requires written { written_by step.now ≡ objects.Go step.now.id.go ∷ R.written reached.now }
        ensures { NotesStep result place step.now self.old self.new }
    {
        let read = Touch::new(place, false);
        let written = Touch::new(place, true);
        reached.note_read(self, read)?;
        let noted = self.note_written(&step.id.go, reached, written);
        if let Err(error) = noted {
            self.forget_list(&mut reached.objects_read());
            return Err(error);
        }
        Ok(())
    }

    /// Adds the touches of a step that reached further than one channel. Refused, all lists are as before.
    #[inline(never)]
    fn note_beyond(&mut self, place: u32, step: &Record, beyond: &Beyond) -> Result<(), NoMemory>
        requires place { place < 2 ^ 31 }
        requires beyond { step.now.change.beyond ≡ Some beyond.now }
        ensures { NotesStep result place step.now self.old self.new }
    {
        self.note_reached(place, step, beyond)
    }

    /// Adds a touch to the lists of the goroutine of a step and of the other objects that the step wrote. Refused, all lists
    /// are as before.
    #[inline(always)]
    fn note_written<R: Reached>(
        &mut self,
        go: &GoName,
        reached: &R,
        touch: Touch,
    ) -> Result<(), NoMemory>
        ensures { NotesFor result (objects.Go go.now ∷ R.written reached.now) touch self.old self.new }
    {
        self.add_to_lane(go, touch)?;
        let noted = reached.note_written(self, touch);
        if let Err(error) = noted {
            self.take_from_lane(go);
            return Err(error);
        }
        Ok(())
    }

    /// Adds a touch to the lists of the objects, except `Run`, that a step read. Refused, all lists are as before.
    #[inline(always)]
    pub(crate) fn note_read_beside_run(
        &mut self,
        beyond: &Beyond,
        touch: Touch,
    ) -> Result<(), NoMemory>
        ensures { NotesFor result (reads_in beyond.now) touch self.old self.new }
    {
        self.note_channel(beyond, beyond.touched.read, touch, others_read(beyond))
    }

    /// Adds a touch to the lists of the parts of its channel that a step wrote, of the goroutine that it met, and of others.
    /// Refused, all lists are as before.
    pub(crate) fn note_written_beyond(
        &mut self,
        beyond: &Beyond,
        touch: Touch,
    ) -> Result<(), NoMemory>
        ensures { NotesFor result (writes_in beyond.now) touch self.old self.new }
    {
        let others = others_written(beyond);
        let Some(partner) = &beyond.partner else {
            return self.note_channel(beyond, beyond.touched.written, touch, others);
        };
        self.note_channel(beyond, beyond.touched.written, touch, &[])?;
        let noted = self.note_partner(partner, touch, others);
        if let Err(error) = noted {
            self.forget_list(&mut parts_written(beyond));
            return Err(error);
        }
        Ok(())
    }

    /// Adds a touch to the lists of the parts of a channel that a step wrote, and of the goroutine that it met. Refused, all
    /// lists are as before.
    pub(crate) fn note_pair(
        &mut self,
        channel: &ChName,
        touched: Touched,
        partner: &GoName,
        touch: Touch,
    ) -> Result<(), NoMemory>
        ensures { NotesFor result (written_on_with channel.now touched partner.now) touch self.old self.new }
    {
        self.note_parts(channel, touched.written, touched.slot, touch)?;
        let noted = self.add_to_lane(partner, touch);
        if let Err(error) = noted {
            self.forget_list(&mut parts_of(channel, touched.written, touched.slot));
            return Err(error);
        }
        Ok(())
    }

    /// Adds a touch to the lists of a goroutine and of others. Refused, all lists are as before.
    fn note_partner(&mut self, go: &GoName, touch: Touch, others: &[Object]) -> Result<(), NoMemory>
        ensures { NotesFor result (objects.Go go.now ∷ others.now) touch self.old self.new }
    {
        self.add_to_lane(go, touch)?;
        let noted = self.note_all(others, touch);
        if let Err(error) = noted {
            self.take_from_lane(go);
            return Err(error);
        }
        Ok(())
    }

    /// Adds a touch to the lists of parts of the channel of a step, if it has one, and of others. Refused, all lists are as
    /// before.
    #[inline(always)]
    fn note_channel(
        &mut self,
        beyond: &Beyond,
        parts: Parts,
        touch: Touch,
        others: &[Object],
    ) -> Result<(), NoMemory>
        ensures { NotesFor result
            (parts_before parts beyond.now.touched.slot (option_map channel_in beyond.now.operation) others.now)
            touch self.old self.new }
    {
        let Some(operation) = &beyond.operation else {
            return self.note_all(others, touch);
        };
        let channel = operation.channel();
        let slot = beyond.touched.slot;
        if others.is_empty() {
            return self.note_parts(channel, parts, slot, touch);
        }
        self.note_parts(channel, parts, slot, touch)?;
        let noted = self.note_all(others, touch);
        if let Err(error) = noted {
            self.forget_list(&mut parts_of(channel, parts, slot));
            return Err(error);
        }
        Ok(())
    }

    /// Adds a touch to the lists of these objects. Refused, all lists are as before.
    pub(crate) fn note_list(
        &mut self,
        objects: &mut TouchedObjects<'_>,
        touch: Touch,
    ) -> Result<(), NoMemory>
        ensures { NotesFor result (seen_in objects.old) touch self.old self.new }
    {
        let Some(first) = objects.next() else {
            return self.note_all(objects.others, touch);
        };
        self.add(&first, touch)?;
        let noted = self.note_list(objects, touch);
        if let Err(error) = noted {
            self.retract(&first);
            return Err(error);
        }
        Ok(())
    }

    /// Adds a touch to the lists of a slice of objects. Refused, all lists are as before.
    fn note_all(&mut self, objects: &[Object], touch: Touch) -> Result<(), NoMemory>
        ensures { NotesFor result objects.now touch self.old self.new }
    {
        for i in 0..objects.len() {
            let added = self.add(&ObjectRef::of(&objects[i]), touch);
            if let Err(error) = added {
                self.forget_all(&objects[..i]);
                return Err(error);
            }
        }
        Ok(())
    }
}
