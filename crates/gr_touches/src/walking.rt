//! Marks for the steps that conflict with one.

ghost use Rattle.std.specs.Prelude.{◌≡◌, ◌+◌, length, None};
ghost use Rattle.indexmap.specs.IndexMap.{keys};
ghost use Rattle.gr_base.specs.declared.objects.Object.{Object};
ghost use Rattle.gr_base.specs.declared.objects.Object.TheVariants.{Run, Go};
ghost use Rattle.gr_touches.specs.ObjectRefs.{seen};
ghost use Rattle.gr_touches.specs.Marks.{hits, Marks};
ghost use Rattle.gr_touches.specs.Told.{seen_in};

use crate::lanes::Lanes;
use crate::marks::{Origin, Wanted, mark_list};
use crate::object_ref::ObjectRef;
use crate::objects::{TouchedObjects, reads, writes};
use crate::touch::Touch;
use gr_base::{GoName, Object};
use gr_record::Record;
use gr_record::record::Form;

impl Lanes {
    ghost use Rattle.gr_touches.specs.Lists.{list_of, IsNumbered};
    ghost use Rattle.gr_touches.specs.Walks.{AreInReach, AreWalked, hits_any, meets_step};

    /// Sets the marks of the steps that conflict with this step, on one side of a place. They wrote what it read, or touched
    /// what it wrote.
    pub fn mark_step(
        &self,
        origin: Origin,
        step: &Record,
        read: &mut [bool],
        written: &mut [bool],
        marks: &mut [bool],
    )
        requires reach { AreInReach self.now origin (length marks.old) }
        requires read_count { length read.old ≡ length (keys self.now.map) + 1 }
        requires read_walked { AreWalked self.now origin Wanted.Writes read.old marks.old }
        requires written_count { length written.old ≡ length (keys self.now.map) + 1 }
        requires written_walked { AreWalked self.now origin Wanted.All written.old marks.old }
        ensures marks { Marks origin (meets_step self.now step.now) marks.old marks.new }
        ensures read_walked { AreWalked self.now origin Wanted.Writes read.new marks.new }
        ensures written_walked { AreWalked self.now origin Wanted.All written.new marks.new }
    {
        match step.change.form() {
            Form::Alone(_, _) => self.mark_alone(origin, step, read, written, marks),
            _ => self.mark_beyond(origin, step, read, written, marks),
        }
    }

    /// Sets the marks of the steps that conflict with one that reached no further than its goroutine.
    fn mark_alone(
        &self,
        origin: Origin,
        step: &Record,
        read: &mut [bool],
        written: &mut [bool],
        marks: &mut [bool],
    )
        requires alone { step.now.change.beyond ≡ None }
        requires reach { AreInReach self.now origin (length marks.old) }
        requires read_count { length read.old ≡ length (keys self.now.map) + 1 }
        requires read_walked { AreWalked self.now origin Wanted.Writes read.old marks.old }
        requires written_count { length written.old ≡ length (keys self.now.map) + 1 }
        requires written_walked { AreWalked self.now origin Wanted.All written.old marks.old }
        ensures marks { Marks origin (meets_step self.now step.now) marks.old marks.new }
        ensures read_walked { AreWalked self.now origin Wanted.Writes read.new marks.new }
        ensures written_walked { AreWalked self.now origin Wanted.All written.new marks.new }
    {
        self.mark_run(origin, read, marks);
        self.mark_go(origin, &step.id.go, written, marks);
    }

    /// Sets the marks of the touches of `Run` that wrote it.
    fn mark_run(&self, origin: Origin, walked: &mut [bool], marks: &mut [bool])
        requires reach { AreInReach self.now origin (length marks.old) }
        requires count { length walked.old ≡ length (keys self.now.map) + 1 }
        requires walked { AreWalked self.now origin Wanted.Writes walked.old marks.old }
        ensures marks { Marks origin (hits Wanted.Writes (list_of self.now Run)) marks.old marks.new }
        ensures walked { AreWalked self.now origin Wanted.Writes walked.new marks.new }
    {
        let (number, touches) = self.numbered_run(Wanted::Writes);
        self.mark_numbered(origin, number, touches, Wanted::Writes, walked, marks);
    }

    /// Sets the marks of the touches of a goroutine.
    fn mark_go(&self, origin: Origin, go: &GoName, walked: &mut [bool], marks: &mut [bool])
        requires reach { AreInReach self.now origin (length marks.old) }
        requires count { length walked.old ≡ length (keys self.now.map) + 1 }
        requires walked { AreWalked self.now origin Wanted.All walked.old marks.old }
        ensures marks { Marks origin (hits Wanted.All (list_of self.now (Go go.now))) marks.old marks.new }
        ensures walked { AreWalked self.now origin Wanted.All walked.new marks.new }
    {
        if let Some((number, touches)) = self.numbered_lane(go) {
            self.mark_numbered(origin, number, touches, Wanted::All, walked, marks);
        }
    }

    /// Sets the marks of the wanted touches in a list. A list is walked once.
    fn mark_numbered(
        &self,
        origin: Origin,
        number: usize,
        touches: &[Touch],
        wanted: Wanted,
        walked: &mut [bool],
        marks: &mut [bool],
    )
        requires numbered { (o : Object) × IsNumbered self.now o wanted number touches.now }
        requires reach { AreInReach self.now origin (length marks.old) }
        requires count { length walked.old ≡ length (keys self.now.map) + 1 }
        requires walked { AreWalked self.now origin wanted walked.old marks.old }
        ensures marks { (o : Object) → IsNumbered self.now o wanted number touches.now
            → Marks origin (hits wanted (list_of self.now o)) marks.old marks.new }
        ensures walked { AreWalked self.now origin wanted walked.new marks.new }
    {
        if walked[number] {
            return;
        }
        walked[number] = true;
        mark_list(marks, origin, touches, wanted);
    }

    /// Sets the marks of the steps that conflict with one that reached further than its goroutine.
    fn mark_beyond(
        &self,
        origin: Origin,
        step: &Record,
        read: &mut [bool],
        written: &mut [bool],
        marks: &mut [bool],
    )
        requires reach { AreInReach self.now origin (length marks.old) }
        requires read_count { length read.old ≡ length (keys self.now.map) + 1 }
        requires read_walked { AreWalked self.now origin Wanted.Writes read.old marks.old }
        requires written_count { length written.old ≡ length (keys self.now.map) + 1 }
        requires written_walked { AreWalked self.now origin Wanted.All written.old marks.old }
        ensures marks { Marks origin (meets_step self.now step.now) marks.old marks.new }
        ensures read_walked { AreWalked self.now origin Wanted.Writes read.new marks.new }
        ensures written_walked { AreWalked self.now origin Wanted.All written.new marks.new }
    {
        self.mark_each(origin, &mut reads(step), Wanted::Writes, read, marks);
        self.mark_each(origin, &mut writes(step), Wanted::All, written, marks);
    }

    /// Sets the marks of the wanted touches of these objects.
    fn mark_each(
        &self,
        origin: Origin,
        objects: &mut TouchedObjects<'_>,
        wanted: Wanted,
        walked: &mut [bool],
        marks: &mut [bool],
    )
        requires reach { AreInReach self.now origin (length marks.old) }
        requires count { length walked.old ≡ length (keys self.now.map) + 1 }
        requires walked { AreWalked self.now origin wanted walked.old marks.old }
        ensures marks { Marks origin (hits_any self.now wanted (seen_in objects.old)) marks.old marks.new }
        ensures walked { AreWalked self.now origin wanted walked.new marks.new }
    {
        let Some(first) = objects.next() else {
            return self.mark_all(origin, objects.others, wanted, walked, marks);
        };
        self.mark_object(origin, &first, wanted, walked, marks);
        self.mark_each(origin, objects, wanted, walked, marks);
    }

    /// Sets the marks of the wanted touches of a slice of objects.
    fn mark_all(
        &self,
        origin: Origin,
        objects: &[Object],
        wanted: Wanted,
        walked: &mut [bool],
        marks: &mut [bool],
    )
        requires reach { AreInReach self.now origin (length marks.old) }
        requires count { length walked.old ≡ length (keys self.now.map) + 1 }
        requires walked { AreWalked self.now origin wanted walked.old marks.old }
        ensures marks { Marks origin (hits_any self.now wanted objects.now) marks.old marks.new }
        ensures walked { AreWalked self.now origin wanted walked.new marks.new }
    {
        for i in 0..objects.len() {
            let object = ObjectRef::of(&objects[i]);
            self.mark_object(origin, &object, wanted, walked, marks);
        }
    }

    /// Sets the marks of the wanted touches of an object.
    fn mark_object(
        &self,
        origin: Origin,
        object: &ObjectRef<'_>,
        wanted: Wanted,
        walked: &mut [bool],
        marks: &mut [bool],
    )
        requires reach { AreInReach self.now origin (length marks.old) }
        requires count { length walked.old ≡ length (keys self.now.map) + 1 }
        requires walked { AreWalked self.now origin wanted walked.old marks.old }
        ensures marks { Marks origin (hits wanted (list_of self.now (seen object.now))) marks.old marks.new }
        ensures walked { AreWalked self.now origin wanted walked.new marks.new }
    {
        if let Some((number, touches)) = self.numbered(object, wanted) {
            self.mark_numbered(origin, number, touches, wanted, walked, marks);
        }
    }
}
