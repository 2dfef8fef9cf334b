// The search for the least line from a start on, where lines are arrays of eight columns of which the first so many count.
ghost use Rattle.std.specs.Prelude.{◌≡◌, ◌+◌, ◌-◌, ◌≤◌, [], ◌∷◌, ◌++◌, length, take, drop, filter};
ghost use Rattle.std.specs.Range.Bound.{bound_map};
ghost use Rattle.plan.specs.Leaves.{opens, leaf_lines};
ghost use Rattle.candidates.specs.Seeking.{reaches, line_of, Padded, Least, lesser, on_left, on_right};
ghost use Rattle.candidates.specs.Candidates.{before};
ghost use Rattle.candidates.specs.Wanting.{passes};
ghost use Rattle.ordered.specs.Lists.{items_in};

use crate::leaf::line_of;
use crate::wanted::Wanted;
use plan::PlanLeaf;
use std::ops::Bound;
use store::Row;

// A search among lines of one width; of the start's line, too, so many columns count.
#[derive(Clone, Copy)]
pub struct Search {
    pub start: Bound<[u32; 8]>,
    pub width: usize,
    ghost room: { width ≤ 8 },
}

// The right part of a line that is cut there.
fn tail(line: &[u32; 8], cut: usize) -> [u32; 8]
    requires { cut ≤ 8 }
    ensures { take (8 - cut) result ≡ drop cut line.now }
{
    let mut rest = [0; 8];
    rest[..8 - cut].copy_from_slice(&line[cut..]);
    rest
}

// A product's cut is a number beside the search: a struct for the two would be made anew for each of three calls.
impl Search {
    // Whether one line is before the other.
    pub fn is_before(&self, a: &[u32; 8], b: &[u32; 8]) -> bool
        ensures { result ≡ before (take self.now.width a.now) (take self.now.width b.now) }
    {
        a[..self.width].cmp(&b[..self.width]).is_lt()
    }

    // Whether the search takes the line.
    pub fn reaches(&self, line: &[u32; 8]) -> bool
        ensures { result ≡ reaches (bound_map (take self.now.width) self.now.start) (take self.now.width line.now) }
    {
        match self.start {
            Bound::Unbounded => true,
            Bound::Included(at) => !self.is_before(line, &at),
            Bound::Excluded(at) => self.is_before(&at, line),
        }
    }

    // The start's line, or zeros where there is none.
    pub fn line(&self) -> [u32; 8]
        ensures { result ≡ line_of self.now.start }
    {
        match self.start {
            Bound::Unbounded => [0; 8],
            Bound::Included(at) | Bound::Excluded(at) => at,
        }
    }

    // The lesser of two lines that may be there.
    pub fn lesser(&self, a: Option<[u32; 8]>, b: Option<[u32; 8]>) -> Option<[u32; 8]>
        ensures { result ≡ lesser self.now.width a b }
    {
        match (a, b) {
            (None, other) => other,
            (Some(x), None) => Some(x),
            (Some(x), Some(y)) => Some(if self.is_before(&y, &x) { y } else { x }),
        }
    }

    // The least line of one row at a leaf whose line begins at that column: the row's line, if it has one there that passes and the
    // search takes it.
    pub fn least_of(
        &self,
        leaf: &PlanLeaf,
        row: &Row,
        wanted: &Wanted,
        at: usize,
    ) -> Option<[u32; 8]>
        requires wide { self.now.width ≡ opens leaf.now.fields }
        requires room { at + self.now.width ≤ 8 }
        ensures { Least (filter (passes (items_in wanted.now.comparisons) (take at wanted.now.known)) (leaf_lines leaf.now.relation leaf.now.fields (row.now ∷ []))) (bound_map (take self.now.width) self.now.start) self.now.width result }
    {
        line_of(leaf, row).filter(|line| self.reaches(line) && wanted.passes(at, line, self.width))
    }

    // A line of a product: a left line, as wide as the cut, followed by a right line.
    pub fn joined(&self, left: [u32; 8], right: &[u32; 8], cut: usize) -> [u32; 8]
        requires room { cut ≤ self.now.width }
        requires ends { Padded cut left }
        ensures parts { take self.now.width result ≡ take cut left ++ take (self.now.width - cut) right.now }
        ensures long { length result ≡ 8 }
        ensures padded { Padded self.now.width result }
    {
        let wide = self.width - cut;
        let mut all = left;
        all[cut..self.width].copy_from_slice(&right[..wide]);
        all
    }

    // How a product's search begins on the left, where lines are as wide as the cut: from the start's left part on.
    pub fn on_left(&self, cut: usize) -> Search
        requires { cut ≤ self.now.width }
        ensures start { result.start ≡ on_left self.now.start }
        ensures width { result.width ≡ cut }
    {
        Search {
            start: match self.start {
                Bound::Unbounded => Bound::Unbounded,
                Bound::Included(at) | Bound::Excluded(at) => Bound::Included(at),
            },
            width: cut,
        }
    }

    // How it goes on to the right of a left line that is past the start's left part, or at it: from the start's right part on.
    pub fn on_right(&self, cut: usize, past: bool) -> Search
        requires { cut ≤ self.now.width }
        ensures start { bound_map (take (self.now.width - cut)) result.start ≡ on_right (bound_map (λ at. take (self.now.width - cut) (drop cut at)) self.now.start) past }
        ensures width { result.width ≡ self.now.width - cut }
    {
        // By `Bound::map` the closure would have to say again what `tail` asks and gives.
        Search {
            start: match self.start {
                Bound::Included(at) if !past => Bound::Included(tail(&at, cut)),
                Bound::Excluded(at) if !past => Bound::Excluded(tail(&at, cut)),
                _ => Bound::Unbounded,
            },
            width: self.width - cut,
        }
    }
}
