//! Steps of the log by their names.

ghost use Rattle.std.specs.Prelude.{◌≡◌, ◌==◌, ◌↔◌, ℕ, true, Some, slice_get, IsTrue, IfSome, IfNone};
ghost use Rattle.std.specs.List.{list_any};
ghost use Rattle.gr_depend.specs.Named.{IsNamed, NoneFrom, IsLastOf};

use crate::log::Log;
use gr_base::{GoName, StepId};
use gr_touches::{ObjectRef, Touch};

impl Log {
    ghost use Rattle.gr_depend.specs.Logs.{records_of};
    ghost use Rattle.gr_record.specs.declared.record.Record.{Record};

    /// The place of the step of a name. The time is logarithmic in the steps of its goroutine where that took one of any two
    /// touches of it that follow each other.
    pub fn place_of(&self, id: &StepId) -> Option<usize>
        ensures found { IfSome result (λ place. IsNamed (records_of self.now) place id.now) }
        ensures missing { IfNone result ((place : ℕ) → IsNamed (records_of self.now) place id.now → ⊥) }
    {
        let touches = self.lanes.list(&ObjectRef::Go(&id.go));
        if let Some(place) = self.leap_to(touches, id) {
            return Some(place);
        }
        self.find_named(touches, id)
    }

    /// The place of the step of a name, looked for by leaps: from each step on, over as many touches as steps are left.
    fn leap_to(&self, touches: &[Touch], id: &StepId) -> Option<usize>
        ensures { IfSome result (λ place. IsNamed (records_of self.now) place id.now) }
    {
        let mut at = id.n.saturating_sub(1);
        for _ in 0..touches.len() {
            let place = touches.get(at as usize)?.place() as usize;
            if self.is_named(place, id) {
                return Some(place);
            }
            at = at.saturating_add(self.steps_left(place, id));
        }
        None
    }

    /// How many steps of the goroutine are left from the one at a place to that of the name; 1 where the place has none before
    /// it.
    fn steps_left(&self, place: usize, id: &StepId) -> u64 {
        match self.records.get(place) {
            Some(step) if step.id.go == id.go => id.n.saturating_sub(step.id.n).max(1),
            _ => 1,
        }
    }

    /// The place of the first of these touches whose step has the name.
    fn find_named(&self, touches: &[Touch], id: &StepId) -> Option<usize>
        ensures found { IfSome result (λ place. IsNamed (records_of self.now) place id.now) }
        ensures missing { IfNone result ((place : ℕ) → list_any (λ t. t.place == place) touches.now ≡ true
            → IsNamed (records_of self.now) place id.now → ⊥) }
    {
        for i in 0..touches.len() {
            let place = touches[i].place() as usize;
            if self.is_named(place, id) {
                return Some(place);
            }
        }
        None
    }

    /// Whether the step at a place has the name.
    fn is_named(&self, place: usize, id: &StepId) -> bool
        ensures { IsTrue result ↔ IsNamed (records_of self.now) place id.now }
    {
        match self.records.get(place) {
            Some(step) => same_step(&step.id, id),
            None => false,
        }
    }

    /// The name of the last step of a goroutine. The crates above do not call it: it is for users of the library.
    pub fn last_of(&self, go: &GoName) -> Option<&StepId>
        ensures found { IfSome result (λ id. IsLastOf (records_of self.now) go.now id.now) }
        ensures missing { IfNone result (NoneFrom (records_of self.now) 0 go.now) }
    {
        let touches = self.lanes.list(&ObjectRef::Go(go));
        let mut left = touches.len();
        while left > 0 {
            left -= 1;
            if let Some(id) = self.own_step(touches[left].place() as usize, go) {
                return Some(id);
            }
        }
        None
    }

    /// The name of the step at a place, if it is of the goroutine.
    fn own_step(&self, place: usize, go: &GoName) -> Option<&StepId>
        ensures found { IfSome result (λ id. IsNamed (records_of self.now) place id.now × (id.now.go ≡ go.now)) }
        ensures missing { IfNone result ((r : Record) → slice_get (records_of self.now) place ≡ Some r → r.id.go ≡ go.now → ⊥) }
    {
        let step = self.records.get(place)?;
        if same_go(&step.id.go, go) {
            return Some(&step.id);
        }
        None
    }
}

/// Whether two names of goroutines are one.
fn same_go(own: &GoName, other: &GoName) -> bool
    ensures { IsTrue result ↔ (own.now ≡ other.now) }
{
    own == other
}

/// Whether two names of steps are one.
fn same_step(own: &StepId, other: &StepId) -> bool
    ensures { IsTrue result ↔ (own.now ≡ other.now) }
{
    own == other
}
