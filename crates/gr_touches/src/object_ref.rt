//! Objects by names that are borrowed.

ghost use Rattle.std.specs.Prelude.{◌≡◌, IfOk};
ghost use Rattle.gr_rules.specs.States.{same};
ghost use Rattle.gr_touches.specs.ObjectRefs.{seen, tested_as_same};
ghost use Rattle.gr_touches.specs.Hashes.{hashed_as_seen};

use crate::guesses::Guesses;
use gr_base::{ChName, GoName, NoMemory, Object};
use indexmap::Equivalent;
use std::alloc::Global;

/// An object, by references to its names.
#[derive(Clone, Copy, PartialEq, Eq, Hash)]
pub enum ObjectRef<'a> {
    Run,
    Go(&'a GoName),
    Gate(&'a ChName),
    Tail(&'a ChName),
    Head(&'a ChName),
    Slot(&'a ChName, u32),
}

impl<'a> ObjectRef<'a> {
    /// The object.
    pub fn of(object: &'a Object) -> ObjectRef<'a>
        ensures { seen result ≡ object.now }
    {
        match object {
            Object::Run => ObjectRef::Run,
            Object::Go(go) => ObjectRef::Go(go),
            Object::Gate(channel) => ObjectRef::Gate(channel),
            Object::Tail(channel) => ObjectRef::Tail(channel),
            Object::Head(channel) => ObjectRef::Head(channel),
            Object::Slot(channel, place) => ObjectRef::Slot(channel, *place),
        }
    }
}

impl ObjectRef<'_> {
    /// Whether the two are one object.
    pub fn is(&self, other: &ObjectRef<'_>) -> bool
        ensures { result ≡ same (seen self.now) (seen other.now) }
    {
        *self == *other
    }

    /// The object, with names of its own.
    pub(crate) fn to_object(&self, alloc: Global) -> Result<Object, NoMemory>
        ensures { IfOk result (λ object. object ≡ seen self.now) }
    {
        match self {
            ObjectRef::Run => Ok(Object::Run),
            ObjectRef::Go(go) => Ok(Object::Go(go.copy(alloc)?)),
            ObjectRef::Gate(channel) => Ok(Object::Gate(channel.copy(alloc)?)),
            ObjectRef::Tail(channel) => Ok(Object::Tail(channel.copy(alloc)?)),
            ObjectRef::Head(channel) => Ok(Object::Head(channel.copy(alloc)?)),
            ObjectRef::Slot(channel, place) => Ok(Object::Slot(channel.copy(alloc)?, *place)),
        }
    }
}

/// A look-up by borrowed names. It copies no name.
impl Equivalent<Object> for ObjectRef<'_> {
    ghost use Rattle.gr_rules.specs.States.{same};
    ghost use Rattle.gr_touches.specs.ObjectRefs.{seen};

    ghost equivalent = { λ object. same (seen object) };

    ghost respects_hash = { hashed_as_seen };

    ghost respects_eq = { tested_as_same };

    #[inline(always)]
    fn equivalent(&self, key: &Object) -> bool {
        match (self, key) {
            (ObjectRef::Run, Object::Run) => true,
            (ObjectRef::Go(go), Object::Go(own)) => **go == *own,
            (ObjectRef::Gate(channel), Object::Gate(own)) => **channel == *own,
            (ObjectRef::Tail(channel), Object::Tail(own)) => **channel == *own,
            (ObjectRef::Head(channel), Object::Head(own)) => **channel == *own,
            (ObjectRef::Slot(channel, place), Object::Slot(own, slot)) => {
                **channel == *own && *place == *slot
            }
            _ => false,
        }
    }
}

/// What names an object.
pub(crate) trait Named {
    ghost use Rattle.gr_base.specs.declared.objects.Object.{Object};

    ghost object: { Self → Object };

    /// Whether this names the object of a key.
    fn names(&self, key: &Object) -> bool
        ensures { result ≡ same (object self.now) key.now };

    /// A guess of the number of the object's lane.
    fn guess(&self, guesses: &Guesses) -> usize;

    /// The object that this names.
    fn as_ref(&self) -> ObjectRef<'_>
        ensures { seen result ≡ object self.now };
}

impl Named for GoName {
    ghost use Rattle.gr_base.specs.declared.objects.Object.TheVariants.{Go};

    ghost object = { Go };

    #[inline(always)]
    fn names(&self, key: &Object) -> bool {
        match key {
            Object::Go(own) => *self == *own,
            _ => false,
        }
    }

    fn guess(&self, guesses: &Guesses) -> usize {
        guesses.of_go(self)
    }

    fn as_ref(&self) -> ObjectRef<'_> {
        ObjectRef::Go(self)
    }
}

impl Named for ObjectRef<'_> {
    ghost use Rattle.gr_touches.specs.ObjectRefs.{seen};

    ghost object = { seen };

    #[inline(always)]
    fn names(&self, key: &Object) -> bool {
        self.equivalent(key)
    }

    fn guess(&self, guesses: &Guesses) -> usize {
        guesses.of(self)
    }

    fn as_ref(&self) -> ObjectRef<'_> {
        *self
    }
}
