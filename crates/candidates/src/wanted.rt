// What is wanted of a node's lines beside what the node says: the comparisons of the choices above it.
ghost use Rattle.std.specs.Prelude.{◌≡◌, ◌+◌, ◌<◌, ◌≤◌, true, [], ◌∷◌, ◌++◌, length, take, filter, nat_le};
ghost use Rattle.ordered.specs.Lists.{items_in};
ghost use Rattle.plan.specs.Filling.{inside};
ghost use Rattle.store.specs.Sides.{all_columns, AtColumn};
ghost use Rattle.candidates.specs.Wanting.{meets, passes, shifted_side, shifted};

use ordered::Few;
use plan::{Comparison, Side, is_chosen};

// Comparisons of columns of the plan's whole line, and the columns of it that are chosen already: those before the line that is
// sought. A comparison is tested as soon as the line has all its columns.
#[derive(Clone, Copy)]
pub struct Wanted {
    comparisons: Few<Comparison, 16>,
    known: [u32; 8],
    ghost sized: { length known ≡ 8 },
}

// The side of a comparison of a line that begins at that column.
fn shifted_side(side: Side, at: u8) -> Side
    requires { AtColumn (λ column. at + column < 256) side }
    ensures { result ≡ shifted_side at side }
{
    match side {
        Side::Column(column) => Side::Column(at + column),
        Side::Constant(constant) => Side::Constant(constant),
    }
}

// A comparison of a line that begins at that column and is so wide, as one of the whole line.
fn shifted(comparison: &Comparison, at: usize, width: usize) -> Comparison
    requires room { at + width ≤ 8 }
    requires inside { inside width comparison.now ≡ true }
    ensures { result ≡ shifted at comparison.now }
{
    let at = at as u8;
    Comparison {
        left: shifted_side(comparison.left, at),
        sign: comparison.sign,
        right: shifted_side(comparison.right, at),
    }
}

// Whether the line meets the comparison, as far as it has its columns.
fn meets(line: &[u32], comparison: &Comparison) -> bool
    ensures { result ≡ meets line.now comparison.now }
{
    !comparison.all_columns(|column| (column as usize) < line.len()) || is_chosen(line, comparison)
}

impl Wanted {
    // Nothing is wanted.
    pub fn nothing() -> Wanted
        ensures { items_in result.comparisons ≡ [] }
    {
        Wanted {
            comparisons: Few::new(Comparison::BLANK),
            known: [0; 8],
        }
    }

    // This, too, of a line that begins at that column and is so wide.
    pub fn also(&self, comparison: &Comparison, at: usize, width: usize) -> Wanted
        requires few { length (items_in self.now.comparisons) < 16 }
        requires room { at + width ≤ 8 }
        requires inside { inside width comparison.now ≡ true }
        ensures comparisons { items_in result.comparisons ≡ items_in self.now.comparisons ++ shifted at comparison.now ∷ [] }
        ensures known { result.known ≡ self.now.known }
    {
        let mut comparisons = self.comparisons;
        comparisons.push(shifted(comparison, at, width));
        Wanted {
            comparisons,
            known: self.known,
        }
    }

    // Only what asks of no column before that one.
    pub fn alone(&self, at: usize) -> Wanted
        ensures comparisons { items_in result.comparisons ≡ filter (all_columns (λ column. nat_le at column)) (items_in self.now.comparisons) }
        ensures few { length (items_in result.comparisons) ≤ length (items_in self.now.comparisons) }
        ensures known { result.known ≡ self.now.known }
    {
        let mut comparisons = self.comparisons;
        comparisons.retain(|comparison| comparison.all_columns(|column| at <= column as usize));
        Wanted {
            comparisons,
            known: self.known,
        }
    }

    // The known columns, followed by a line that begins at that column and is so wide.
    fn whole(&self, at: usize, line: &[u32; 8], width: usize) -> [u32; 8]
        requires { at + width ≤ 8 }
        ensures { take (at + width) result ≡ take at self.now.known ++ take width line.now }
    {
        let mut whole = self.known;
        whole[at..at + width].copy_from_slice(&line[..width]);
        whole
    }

    // The same of what comes behind such a line.
    pub fn behind(&self, at: usize, line: &[u32; 8], width: usize) -> Wanted
        requires { at + width ≤ 8 }
        ensures comparisons { items_in result.comparisons ≡ items_in self.now.comparisons }
        ensures known { take (at + width) result.known ≡ take at self.now.known ++ take width line.now }
    {
        Wanted {
            comparisons: self.comparisons,
            known: self.whole(at, line, width),
        }
    }

    // Whether such a line meets all of it, as far as the columns up to its end tell.
    pub fn passes(&self, at: usize, line: &[u32; 8], width: usize) -> bool
        requires { at + width ≤ 8 }
        ensures { result ≡ passes (items_in self.now.comparisons) (take at self.now.known) (take width line.now) }
    {
        let whole = self.whole(at, line, width);
        let columns = &whole[..at + width];
        self.comparisons
            .as_slice()
            .iter()
            .all(|comparison| meets(columns, comparison))
    }
}
