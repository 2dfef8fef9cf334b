// The rows of a core.
ghost use Rattle.std.specs.Prelude.{◌≡◌, ◌≤◌, length, take, drop};
ghost use Rattle.rules.specs.Listing.{rows_at};
ghost use Rattle.verdict.specs.Verdicts.{marked_of};

use crate::marks::{IN, says};
use store::{Row, Source};

// Writes the rows that are marked as in to the front of `core`, in the order of their places, and tells how many they are.
pub fn write_core<S: Source>(source: &S, marks: &[u8], core: &mut [Row]) -> usize
    requires few { length (marked_of marks.now (length (S.Source.model source.now).places)) ≤ 12 }
    requires room { 12 ≤ length core.old }
    ensures rows { take result core.new ≡ rows_at (S.Source.model source.now).places (marked_of marks.now (length (S.Source.model source.now).places)) }
    ensures rest { drop result core.new ≡ drop result core.old }
    ensures within { result ≤ length core.new }
{
    let mut count = 0;
    for place in 0..source.places() {
        if says(marks, place, IN) {
            if let Some(row) = source.read(place) {
                core[count] = row;
                count += 1;
            }
        }
    }
    count
}
