//! Touches that another order of the log turns round.

ghost use Rattle.std.specs.Prelude.{◌≡◌, ◌≤◌, nat_lt, min, max, if◌then◌else◌};
ghost use Rattle.gr_depend.specs.Turned.{place_at, TouchesTurnedFrom};
ghost use Rattle.gr_depend.specs.declared.turning.Latest.{Latest};

use gr_touches::Touch;

/// The last places of an order among some touches of an object.
#[derive(Clone, Copy)]
struct Latest {
    touch: usize,
    /// The latest place among the touches that wrote.
    write: usize,
}

impl Latest {
    /// The last place of a touch that conflicts with this one.
    fn in_conflict(self, touch: Touch) -> usize
        ensures { result ≡ (if touch.writes then self.touch else self.write) }
    {
        let wrote = touch.writes();
        if wrote { self.touch } else { self.write }
    }

    /// The last places with one more touch.
    fn with(self, touch: Touch, place: usize) -> Latest
        ensures { result ≡ record {
          touch = max self.touch place;
          write = (if touch.writes then max self.write place else self.write);
        } }
    {
        let write = if touch.writes() {
            self.write.max(place)
        } else {
            self.write
        };
        Latest {
            touch: self.touch.max(place),
            write,
        }
    }
}

/// Where the step at a place of the log comes in the order.
fn target_of(to: &[usize], place: u32) -> usize
    ensures { result ≡ place_at to.now place }
{
    to.get(place as usize).copied().unwrap_or(0)
}

/// The lesser of the two places, where the second comes before a third.
fn if_before(first: usize, place: usize, after: usize) -> usize
    ensures { result ≡ (if nat_lt place after then min first place else first) }
{
    if place < after {
        first.min(place)
    } else {
        first
    }
}

/// The first place of the order whose step comes too early, by these touches of an object: a step that it conflicts with comes
/// later in the order, and earlier in the log. If no place below the bound has such a step, it is the bound.
pub(crate) fn first_turned(touches: &[Touch], to: &[usize], bound: usize) -> usize
    ensures within { result ≤ bound }
    ensures turned { TouchesTurnedFrom result to.now touches.now }
{
    let mut first = bound;
    let mut latest = Latest { touch: 0, write: 0 };
    for i in 0..touches.len() {
        let touch = touches[i];
        let place = target_of(to, touch.place());
        first = if_before(first, place, latest.in_conflict(touch));
        latest = latest.with(touch, place);
    }
    first
}
