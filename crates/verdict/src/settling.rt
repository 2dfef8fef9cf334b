// What the rows that are in do to all others, by the conflicts.
ghost use Rattle.std.specs.Prelude.{◌≡◌, ℕ, ◌<◌, ◌≤◌, true, not, ◌||◌, ◌==◌, ⊤, List, [], length, MatchOption, slice_index_or};
ghost use Rattle.store.specs.Lists.{any, all};
ghost use Rattle.cores.specs.Backing.{one_of, clear_places};
ghost use Rattle.rules.specs.Views.{listed_as};
ghost use Rattle.verdict.specs.Marking.{lists_of, have_bytes, is_in, is_shut, lacks_only, is_left, NoneShut, Shuts};

use crate::marks::{IN, Lack, SHUT, lacking, says};
use rules::Conflict;

// Marks the rows as shut out that lack nothing but themselves of a whole conflict, and tells whether no conflict is whole
// already; if one is, not all rows that are shut out are marked so.
pub fn settle(marks: &mut [u8], conflicts: &[Conflict]) -> bool
    requires room { 256 ≤ length marks.old }
    requires inside { all have_bytes (lists_of conflicts.now) ≡ true }
    requires none { NoneShut marks.old }
    ensures clear { result ≡ clear_places (lists_of conflicts.now) (is_in marks.old) }
    ensures same { (p : ℕ) → is_in marks.new p ≡ is_in marks.old p }
    ensures shuts { Shuts (lists_of conflicts.now) marks.new }
{
    for conflict in conflicts {
        match lacking(marks, conflict.places()) {
            Lack::Nothing => return false,
            Lack::One(place) => marks[place as usize] = SHUT,
            Lack::More => {}
        }
    }
    true
}

// Whether this is one of the places.
pub fn touches(places: &[u16], out: u16) -> bool
    ensures { result ≡ one_of places.now out }
{
    places.iter().any(|place| out == *place)
}

// Whether the row at this place is in some conflict.
pub fn is_bound(conflicts: &[Conflict], out: u16) -> bool
    ensures { result ≡ any (λ c. one_of (listed_as c).places out) conflicts.now }
{
    conflicts
        .iter()
        .any(|conflict| touches(conflict.places(), out))
}

// Whether the rows at these places are in, but for the one at `out`.
fn others_in(marks: &[u8], places: &[u16], out: u16) -> bool
    ensures { result ≡ all (λ p. p == out || is_in marks.now p) places.now }
{
    places
        .iter()
        .all(|place| *place == out || says(marks, *place as usize, IN))
}

// Whether none of the rows at these places is shut out, but for the one at `out`.
fn others_left(marks: &[u8], places: &[u16], out: u16) -> bool
    ensures { result ≡ all (λ p. p == out || not (is_shut marks.now p)) places.now }
{
    places.iter().all(|place| *place == out || !says(marks, *place as usize, SHUT))
}

// Whether the row at `out` is one of the conflict's with these places, and all the others are in.
pub fn is_free(marks: &[u8], places: &[u16], out: u16) -> bool
    ensures { result ≡ lacks_only (is_in marks.now) out places.now }
{
    touches(places, out) && others_in(marks, places, out)
}

// Whether the row at `out` is one of the conflict's with these places, and none of the others is shut out.
fn has_left(marks: &[u8], places: &[u16], out: u16) -> bool
    ensures { result ≡ is_left marks.now out places.now }
{
    touches(places, out) && others_left(marks, places, out)
}

// Whether the row at `out` can still be shut out, as far as one look at each of its conflicts tells.
pub fn is_open(marks: &[u8], conflicts: &[Conflict], out: u16) -> bool
    ensures { result ≡ any (λ c. is_left marks.now out (listed_as c).places) conflicts.now }
{
    conflicts
        .iter()
        .any(|conflict| has_left(marks, conflict.places(), out))
}

// The number of the first conflict that the row at `out` makes with rows that are all in.
pub fn first_free(marks: &[u8], conflicts: &[Conflict], out: u16) -> Option<usize>
    ensures { MatchOption result ⊤ (λ c. (c < length conflicts.now) × (lacks_only (is_in marks.now) out (slice_index_or (lists_of conflicts.now) c []) ≡ true)) }
{
    conflicts
        .iter()
        .position(|conflict| is_free(marks, conflict.places(), out))
}
