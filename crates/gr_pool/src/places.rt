//! Where a name stands, or belongs, in a sorted list of names. The list is kept as places in a list of known names.

ghost use Rattle.std.specs.Prelude.{◌≡◌, ◌<◌, ◌≤◌, length, drop, All, slice_get, IfOk, IfErr, IsTrue, true};
ghost use Rattle.gr_pool.specs.Goroutines.{IsInOrder, names_at, greater, next_name, is_among, StandsAt, BelongsAt, IsKnownAt};

use gr_base::GoName;
use indexmap::IndexSet;
use std::cmp::Ordering;

/// Where the name stands, or else where it belongs. The time is logarithmic in the number of places.
pub fn place_of(known: &[GoName], ready: &[usize], name: &GoName) -> Result<usize, usize>
    requires within { All (λ place. place < length known.now) ready.now }
    requires ordered { IsInOrder (names_at known.now ready.now) }
    ensures found { IfOk result (StandsAt name.now (names_at known.now ready.now)) }
    ensures missing { IfErr result (BelongsAt name.now (names_at known.now ready.now)) }
{
    let mut low = 0usize;
    let mut high = ready.len();
    while low < high {
        let middle = low + (high - low) / 2;
        match known[ready[middle]].cmp(name) {
            Ordering::Equal => return Ok(middle),
            Ordering::Less => low = middle + 1,
            Ordering::Greater => high = middle,
        }
    }
    Err(low)
}

/// Whether the name stands at the place.
pub fn stands_at(known: &[GoName], ready: &[usize], name: &GoName, place: usize) -> bool
    requires within { All (λ place. place < length known.now) ready.now }
    requires ordered { IsInOrder (names_at known.now ready.now) }
    ensures { IsTrue result → StandsAt name.now (names_at known.now ready.now) place }
{
    if place >= ready.len() {
        return false;
    }
    known[ready[place]] == *name
}

/// Where a known name stands among the known ones: at the guess, or else as a search finds it.
pub fn known_place(known: &IndexSet<GoName>, name: &GoName, guess: usize) -> usize
    requires { is_among name.now known.now.keys ≡ true }
    ensures { IsKnownAt known.now.keys name.now result }
{
    if let Some(found) = known.get_index(guess) {
        if found == name {
            return guess;
        }
    }
    known.get_index_of(name).unwrap()
}

/// Where the names after this one begin. The time is constant where the name stands at the guess.
fn place_after(known: &[GoName], ready: &[usize], name: &GoName, guess: usize) -> usize
    requires within { All (λ place. place < length known.now) ready.now }
    requires ordered { IsInOrder (names_at known.now ready.now) }
    ensures within { result ≤ length ready.now }
    ensures after { drop result (names_at known.now ready.now) ≡ greater name.now (names_at known.now ready.now) }
{
    if stands_at(known, ready, name, guess) {
        return guess + 1;
    }
    match place_of(known, ready, name) {
        Ok(place) => place + 1,
        Err(place) => place,
    }
}

/// Where the first name after this one stands, else the first of all. The time is constant where the name stands at the
/// guess, and else logarithmic.
#[inline(always)]
pub fn next_place(known: &[GoName], ready: &[usize], name: &GoName, guess: usize) -> usize
    requires within { All (λ place. place < length known.now) ready.now }
    requires ordered { IsInOrder (names_at known.now ready.now) }
    ensures { slice_get (names_at known.now ready.now) result ≡ next_name name.now (names_at known.now ready.now) }
{
    let place = place_after(known, ready, name, guess);
    if place < ready.len() {
        return place;
    }
    0
}
