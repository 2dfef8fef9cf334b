// Entering an item into an ordered list.
//
// A slice and a count: the memory is the caller's, of any size, and this is promised of any slice; `Few` is built on it.
ghost use Rattle.std.specs.Prelude.{◌≡◌, ◌+◌, ◌<◌, ◌≤◌, length, take, drop, MatchResult};
ghost use Rattle.std.specs.List.{insert};
ghost use Rattle.ordered.specs.Promises.{Enters, Refuses};

use crate::element::Ordered;
use crate::lookup::find;

// The item is not in the list, and there is no place left for it.
#[derive(Clone, Copy)]
pub struct Full;

// Enters `x` at its place among the first `count` items, which ascend, and tells how many they are then.
// Where an equal item stands already, nothing is altered.
pub fn enter<T: Ordered + Copy>(items: &mut [T], count: usize, x: T) -> Result<usize, Full>
    ensures { MatchResult result
        (Enters T.order x (take count items.old) items.old items.new)
        (λ _. Refuses T.order x (take count items.old) items.old items.new) }
{
    let count = count.min(items.len());
    let Err(place) = find(items, count, &x) else {
        return Ok(count);
    };
    if count == items.len() {
        return Err(Full);
    }
    insert(items, count, place, x);
    Ok(count + 1)
}

// Puts `x` in at `place` of the first `count` items; those from there on move up by one.
fn insert<T: Copy>(items: &mut [T], count: usize, place: usize, x: T)
    requires inside { place ≤ count }
    requires room { count < length items.old }
    ensures list { take (count + 1) items.new ≡ insert (take count items.old) place x }
    ensures rest { drop (count + 1) items.new ≡ drop (count + 1) items.old }
{
    items.copy_within(place..count, place + 1);
    items[place] = x;
}
