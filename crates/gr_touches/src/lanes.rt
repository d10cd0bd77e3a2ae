//! The touches of each object.

ghost use Rattle.std.specs.Prelude.{◌≡◌, ◌≤◌, ◌+◌, ◌^◌, [], ◌∷◌, ◌++◌, if◌then◌else◌, OnOk, OnErr, IfSome, IfNone, IsOk, IsTrue};
ghost use Rattle.std.specs.Prelude.{Some, None, true, false, Bool, ◌↔◌, cond, position, slice_get, length, filter, ◌<◌};
ghost use Rattle.std.proofs.Props.{props};
ghost use Rattle.gr_rules.specs.States.{same};
ghost use Rattle.gr_touches.specs.ObjectRefs.{seen};
ghost use Rattle.gr_touches.specs.Touches.{own_touches, stretch};
ghost use Rattle.indexmap.specs.IndexMap.{IsUnique, keys, get};

use crate::guesses::Guesses;
use crate::lane::{Lane, extend};
use crate::marks::Wanted;
use crate::object_ref::{Named, ObjectRef};
use crate::touch::Touch;
use gr_base::{GoName, NoMemory, Object};
use indexmap::IndexMap;
use std::alloc::Global;
use std::cell::Cell;

/// The touches of each object, in the order of the log.
pub struct Lanes {
    run: Vec<Touch>,
    /// The touches of `Run` that wrote it.
    stops: Vec<Touch>,
    /// The touches of each other object.
    map: IndexMap<Object, Lane>,
    alloc: Global,
    /// The number of the lane that was asked for last.
    last: Cell<usize>,
    guesses: Guesses,
    ghost unique: { IsUnique same map } by { Prim.hlevel props },
    ghost writers: { stops.items ≡ filter (λ t. t.writes) run.items },
}

// Written out, so that crates above call it and need not prove it again.
impl Drop for Lanes {
    fn drop(self) {
        let Lanes {
            run: _,
            stops: _,
            map: _,
            alloc: _,
            last: _,
            guesses: _,
        } = self;
    }
}

impl Lanes {
    ghost use Rattle.gr_touches.specs.Lists.{list_of, list_numbered, IsNumbered, KeepsLists, TakesFor};
    ghost use Rattle.gr_touches.specs.Room.{capacity_of, Fits, KeepsRoom, NotesFor};
    ghost use Rattle.gr_base.specs.declared.objects.Object.{Object};
    ghost use Rattle.gr_touches.specs.declared.marks.Wanted.{Wanted as WantedSeen};
    ghost use Rattle.gr_base.specs.declared.objects.Object.TheVariants as objects;

    /// No touches. It takes no memory.
    pub fn new(alloc: Global) -> Lanes
        ensures { (o : Object) → list_of result o ≡ [] }
    {
        Lanes {
            run: Vec::new(alloc),
            stops: Vec::new(alloc),
            map: IndexMap::new(alloc),
            alloc,
            last: Cell::new(0),
            guesses: Guesses::new(),
        }
    }

    /// The number of the lane of an object, if it has one, by the guess for objects like this.
    #[inline(always)]
    fn number<N: Named>(&self, object: &N) -> Option<usize>
        ensures named { IfSome result (λ i. slice_get (keys self.now.map) i ≡ Some (N.object object.now)) }
        ensures absent { IfNone result (get same self.now.map (N.object object.now) ≡ None) }
    {
        let guess = object.guess(&self.guesses);
        if self.is_at(object, guess) {
            self.last.set(guess);
            return Some(guess);
        }
        self.look_further(&object.as_ref())
    }

    /// The number of the lane of an object, by a second guess: the lane that came after the previous one the last time.
    fn look_further(&self, object: &ObjectRef<'_>) -> Option<usize>
        ensures named { IfSome result (λ i. slice_get (keys self.now.map) i ≡ Some (seen object.now)) }
        ensures absent { IfNone result (get same self.now.map (seen object.now) ≡ None) }
    {
        let before = self.last.get();
        let next = match self.map.get_index(before) {
            Some((_, lane)) => lane.next(),
            None => 0,
        };
        if self.is_at(object, next) {
            self.guesses.keep(object, next);
            self.last.set(next);
            return Some(next);
        }
        self.look_up(object, before)
    }

    /// Whether the lane with a number is that of an object.
    #[inline(always)]
    fn is_at<N: Named>(&self, object: &N, number: usize) -> bool
        ensures { IsTrue result ↔ (slice_get (keys self.now.map) number ≡ Some (N.object object.now)) }
    {
        match self.map.get_index(number) {
            Some((key, _)) => object.names(key),
            None => false,
        }
    }

    /// The number of the lane of an object, found by its names. It becomes the guess for objects like this, and the guess
    /// after the previous lane.
    fn look_up(&self, object: &ObjectRef<'_>, before: usize) -> Option<usize>
        ensures named { IfSome result (λ i. slice_get (keys self.now.map) i ≡ Some (seen object.now)) }
        ensures absent { IfNone result (get same self.now.map (seen object.now) ≡ None) }
    {
        let number = self.map.get_index_of(*object)?;
        if let Some((_, lane)) = self.map.get_index(before) {
            lane.guess_next(number);
        }
        self.guesses.keep(object, number);
        self.last.set(number);
        Some(number)
    }

    /// The touches of an object.
    pub fn list(&self, object: &ObjectRef<'_>) -> &[Touch]
        ensures { result.now ≡ list_of self.now (seen object.now) }
    {
        match self.numbered(object, Wanted::All) {
            Some((_, touches)) => touches,
            None => &[],
        }
    }

    /// How many lists there are, that of `Run` included.
    pub fn count(&self) -> usize
        ensures { result ≡ length (keys self.now.map) + 1 }
    {
        self.map.len() + 1
    }

    /// The touches in the list with a number: that of a lane, and behind the lanes that of `Run`.
    pub fn list_with(&self, number: usize) -> &[Touch]
        ensures { result.now ≡ list_numbered self.now number }
    {
        match self.map.get_index(number) {
            Some((_, lane)) => lane.as_slice(),
            None => self.run.as_slice(),
        }
    }

    /// The number of the list of an object, and touches that include the wanted ones of that list.
    pub(crate) fn numbered(
        &self,
        object: &ObjectRef<'_>,
        wanted: Wanted,
    ) -> Option<(usize, &[Touch])>
        ensures some { IfSome result (λ list. IsNumbered self.now (seen object.now) wanted list.0 list.1.now) }
        ensures none { IfNone result (list_of self.now (seen object.now) ≡ []) }
    {
        match object {
            ObjectRef::Run => Some(self.numbered_run(wanted)),
            _ => self.numbered_lane(object),
        }
    }

    /// The number of the list of `Run`, and the wanted ones of its touches.
    pub(crate) fn numbered_run(&self, wanted: Wanted) -> (usize, &[Touch])
        ensures { IsNumbered self.now objects.Run wanted result.0 result.1.now }
    {
        match wanted {
            Wanted::All => (self.map.len(), self.run.as_slice()),
            Wanted::Writes => (self.map.len(), self.stops.as_slice()),
        }
    }

    /// The number of the list of an object that is not `Run`, and all its touches.
    pub(crate) fn numbered_lane<N: Named>(&self, object: &N) -> Option<(usize, &[Touch])>
        requires { same objects.Run (N.object object.now) ≡ false }
        ensures some { IfSome result (λ list. (wanted : WantedSeen)
            → IsNumbered self.now (N.object object.now) wanted list.0 list.1.now) }
        ensures none { IfNone result (list_of self.now (N.object object.now) ≡ []) }
    {
        let number = self.number(object)?;
        Some((number, self.list_with(number)))
    }

    /// Adds a touch to the list of an object. Refused, all lists are as before.
    pub(crate) fn add(&mut self, object: &ObjectRef<'_>, touch: Touch) -> Result<(), NoMemory>
        ensures { NotesFor result (seen object.now ∷ []) touch self.old self.new }
    {
        match object {
            ObjectRef::Run => self.add_to_run(touch),
            _ => self.add_to_lane(object, touch),
        }
    }

    /// Adds a touch to the list of `Run`.
    #[inline(always)]
    pub(crate) fn add_to_run(&mut self, touch: Touch) -> Result<(), NoMemory>
        ensures { NotesFor result (objects.Run ∷ []) touch self.old self.new }
    {
        self.run.reserve(1)?;
        if touch.writes() {
            self.stops.push(touch)?;
        }
        self.run.push_reserved(touch);
        Ok(())
    }

    /// Adds a touch to the list of an object that is not `Run`.
    #[inline(always)]
    pub(crate) fn add_to_lane<N: Named>(&mut self, object: &N, touch: Touch) -> Result<(), NoMemory>
        requires { same objects.Run (N.object object.now) ≡ false }
        ensures { NotesFor result (N.object object.now ∷ []) touch self.old self.new }
    {
        match self.number(object) {
            Some(number) => self.map.get_index_mut(number).unwrap().push(touch),
            None => self.add_lane(&object.as_ref(), touch),
        }
    }

    /// Makes a lane for an object that has none, with one touch.
    fn add_lane(&mut self, object: &ObjectRef<'_>, touch: Touch) -> Result<(), NoMemory>
        requires other { same objects.Run (seen object.now) ≡ false }
        requires absent { get same self.old.map (seen object.now) ≡ None }
        ensures { NotesFor result (seen object.now ∷ []) touch self.old self.new }
    {
        let key = object.to_object(self.alloc)?;
        let mut lane = Lane::new(self.alloc);
        lane.push(touch)?;
        self.insert(key, lane)
    }

    /// Adds the touches of `count` consecutive steps of a goroutine that reached no further, the first of them at `place`.
    /// Refused, all lists are as before. It takes no memory where there is room.
    pub fn note_own(&mut self, go: &GoName, place: u32, count: usize) -> Result<(), NoMemory>
        requires places { place + count ≤ 2 ^ 31 }
        requires some { 0 < count }
        ensures ok { OnOk result ((q : Object) → list_of self.new q ≡ list_of self.old q ++ own_touches go.now place count q) }
        ensures err { OnErr result (KeepsLists self.old self.new) }
        ensures succeeds { Fits self.old (λ q. list_of self.old q ++ own_touches go.now place count q) → IsOk result }
    {
        self.run.reserve(count)?;
        self.note_writes(go, place, count)?;
        extend(&mut self.run, place, count, false);
        Ok(())
    }

    /// Adds the touches of `count` consecutive steps to the list of their goroutine.
    fn note_writes(&mut self, go: &GoName, place: u32, count: usize) -> Result<(), NoMemory>
        requires places { place + count ≤ 2 ^ 31 }
        requires some { 0 < count }
        ensures ok { OnOk result ((q : Object)
            → list_of self.new q ≡ (if same (objects.Go go.now) q then list_of self.old q
            ++ stretch true place count else list_of self.old q)) }
        ensures err { OnErr result (KeepsLists self.old self.new) }
        ensures succeeds { length (list_of self.old (objects.Go go.now)) + count ≤ capacity_of self.old (objects.Go go.now)
            → IsOk result }
        ensures run { self.new.run ≡ self.old.run }
    {
        match self.number(go) {
            Some(number) => self.map.get_index_mut(number).unwrap().extend(place, count),
            None => self.note_first_writes(go, place, count),
        }
    }

    /// Makes a lane for a goroutine that has none, with the touches of `count` consecutive steps.
    #[inline(never)]
    fn note_first_writes(&mut self, go: &GoName, place: u32, count: usize) -> Result<(), NoMemory>
        requires places { place + count ≤ 2 ^ 31 }
        requires absent { get same self.old.map (objects.Go go.now) ≡ None }
        ensures ok { OnOk result ((q : Object)
            → list_of self.new q ≡ (if same (objects.Go go.now) q then list_of self.old q
            ++ stretch true place count else list_of self.old q)) }
        ensures err { OnErr result (KeepsLists self.old self.new) }
        ensures run { self.new.run ≡ self.old.run }
    {
        let key = Object::Go(go.copy(self.alloc)?);
        let mut lane = Lane::new(self.alloc);
        lane.extend(place, count)?;
        self.insert(key, lane)
    }

    /// Gives an object a lane.
    fn insert(&mut self, object: Object, lane: Lane) -> Result<(), NoMemory>
        ensures ok { OnOk result ((other : Object)
            → get same self.new.map other ≡ cond (same object other) (Some lane) (get same self.old.map other)) }
        ensures run { self.new.run ≡ self.old.run }
        ensures stops { self.new.stops ≡ self.old.stops }
        ensures err { OnErr result (self.new.map.entries ≡ self.old.map.entries) }
    {
        self.map.insert(object, lane)?;
        Ok(())
    }

    /// Takes the last touch from the list of an object. It takes no memory.
    pub(crate) fn retract(&mut self, object: &ObjectRef<'_>)
        ensures lists { TakesFor (seen object.now ∷ []) self.old self.new }
        ensures room { KeepsRoom self.old self.new }
    {
        match object {
            ObjectRef::Run => self.take_from_run(),
            _ => self.take_from_lane(object),
        }
    }

    /// Takes the last touch from the list of `Run`. It takes no memory.
    #[inline]
    pub(crate) fn take_from_run(&mut self)
        ensures lists { TakesFor (objects.Run ∷ []) self.old self.new }
        ensures room { KeepsRoom self.old self.new }
    {
        if let Some(touch) = self.run.pop() {
            if touch.writes() {
                let _ = self.stops.pop();
            }
        }
    }

    /// Takes the last touch from the list of an object that is not `Run`. It takes no memory.
    #[inline]
    pub(crate) fn take_from_lane<N: Named>(&mut self, object: &N)
        requires { same objects.Run (N.object object.now) ≡ false }
        ensures lists { TakesFor (N.object object.now ∷ []) self.old self.new }
        ensures room { KeepsRoom self.old self.new }
    {
        if let Some(number) = self.number(object) {
            self.map.get_index_mut(number).unwrap().pop();
        }
    }
}
