//! The touches of a step, taken from the lists of its objects.

ghost use Rattle.std.specs.Prelude.{◌≡◌, ◌++◌, List, ℕ, None};
ghost use Rattle.gr_touches.specs.Told.{seen_in};
ghost use Rattle.gr_touches.specs.Touches.{kept_for};

use crate::lanes::Lanes;
use crate::object_ref::ObjectRef;
use crate::objects::{TouchedObjects, reads, writes};
use gr_base::Object;
use gr_record::Record;
use gr_record::record::Form;

impl Lanes {
    ghost use Rattle.gr_touches.specs.Lists.{list_of, TakesFor};
    ghost use Rattle.gr_touches.specs.Room.{KeepsRoom};
    ghost use Rattle.gr_touches.specs.declared.touch.Touch.{Touch};
    ghost use Rattle.gr_base.specs.declared.objects.Object.{Object};

    /// Takes the touches of the last step from the lists. It takes no memory.
    pub fn forget(&mut self, step: &Record)
        ensures lists { (before : Object → List Touch) (place : ℕ)
            → ((q : Object) → list_of self.old q ≡ before q ++ kept_for q place step.now) → (q : Object)
            → list_of self.new q ≡ before q }
        ensures room { KeepsRoom self.old self.new }
    {
        match step.change.form() {
            Form::Alone(_, _) => self.forget_alone(step),
            _ => self.forget_beyond(step),
        }
    }

    /// Takes the touches of the last step, which reached no further than its goroutine, from the lists.
    fn forget_alone(&mut self, step: &Record)
        requires { step.now.change.beyond ≡ None }
        ensures lists { (before : Object → List Touch) (place : ℕ)
            → ((q : Object) → list_of self.old q ≡ before q ++ kept_for q place step.now) → (q : Object)
            → list_of self.new q ≡ before q }
        ensures room { KeepsRoom self.old self.new }
    {
        self.take_from_lane(&step.id.go);
        self.take_from_run();
    }

    /// Takes the touches of the last step, which reached further than its goroutine, from the lists.
    fn forget_beyond(&mut self, step: &Record)
        ensures lists { (before : Object → List Touch) (place : ℕ)
            → ((q : Object) → list_of self.old q ≡ before q ++ kept_for q place step.now) → (q : Object)
            → list_of self.new q ≡ before q }
        ensures room { KeepsRoom self.old self.new }
    {
        self.forget_list(&mut writes(step));
        self.forget_list(&mut reads(step));
    }

    /// Takes the last touch from the list of each of these objects. It takes no memory.
    pub(crate) fn forget_list(&mut self, objects: &mut TouchedObjects<'_>)
        ensures lists { TakesFor (seen_in objects.old) self.old self.new }
        ensures room { KeepsRoom self.old self.new }
    {
        let Some(first) = objects.next() else {
            return self.forget_all(objects.others);
        };
        self.forget_list(objects);
        self.retract(&first);
    }

    /// Takes the last touch from the list of each object of a slice. It takes no memory.
    pub(crate) fn forget_all(&mut self, objects: &[Object])
        ensures lists { TakesFor objects.now self.old self.new }
        ensures room { KeepsRoom self.old self.new }
    {
        let mut left = objects.len();
        while left > 0 {
            left -= 1;
            self.retract(&ObjectRef::of(&objects[left]));
        }
    }
}
