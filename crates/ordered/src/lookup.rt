// Where an item stands in an ordered list.
//
// A slice and a count, as for entering: the memory is the caller's.
ghost use Rattle.std.specs.Prelude.{take, MatchResult};
ghost use Rattle.ordered.specs.Promises.{Stands, Belongs};

use crate::element::Ordered;
use std::cmp::Ordering;

// Where `x` stands among the first `count` items, which ascend, or else where it belongs.
// By hand: the library's `binary_search` promises nothing of its `Err` unless the items ascend, and `Belongs` holds of any items.
pub fn find<T: Ordered>(items: &[T], count: usize, x: &T) -> Result<usize, usize>
    ensures { MatchResult result
        (Stands T.order (take count items.now) x.now)
        (Belongs T.order (take count items.now) x.now) }
{
    let mut low = 0;
    let mut high = count.min(items.len());
    while low < high {
        let mid = low + (high - low) / 2;
        match items[mid].compare(x) {
            Ordering::Less => low = mid + 1,
            Ordering::Equal => return Ok(mid),
            Ordering::Greater => high = mid,
        }
    }
    Err(low)
}
