// A rule: the relations of the rows that it forbids together, and what must hold among them.
ghost use Rattle.std.specs.Prelude.{◌≡◌, ◌<◌, true, length};
ghost use Rattle.ordered.specs.Lists.{items_in};
ghost use Rattle.store.specs.Lists.{all};
ghost use Rattle.rules.specs.Comparisons.{within};

use ordered::Few;

pub mod blank;
pub mod check;
pub mod fit;

// A column of the row that is chosen for an atom.
#[derive(Clone, Copy)]
pub struct AtomColumn {
    pub atom: u8,
    pub column: u8,
}

// One side of a comparison: such a column, or a constant.
pub type Side = store::Side<AtomColumn>;

pub type Comparison = store::Comparison<AtomColumn>;

// One to three atoms, each a relation number, and up to six comparisons.
#[derive(Clone, Copy)]
pub struct Rule {
    atoms: Few<u16, 3>,
    comparisons: Few<Comparison, 6>,
    ghost some: { 0 < length (items_in atoms) },
    ghost named: { all (within (length (items_in atoms))) (items_in comparisons) ≡ true },
}
