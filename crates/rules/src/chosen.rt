// The rows that are chosen for the first atoms of a rule, with their places.
ghost use Rattle.std.specs.Prelude.{◌≡◌, nat_eq};
ghost use Rattle.store.specs.Lists.{any};
ghost use Rattle.rules.specs.Beginnings.{places_in};

use ordered::Few;
use store::Row;

// A row that is chosen for an atom, and where it stands.
#[derive(Clone, Copy)]
pub struct Pick {
    pub place: u16,
    pub row: Row,
}

impl Pick {
    // What stands in a choice where no row is chosen yet.
    pub(crate) const NONE: Pick = Pick {
        place: 0,
        row: Row::BLANK,
    };
}

// In the order of the atoms.
pub type Chosen = Few<Pick, 3>;

// Whether the row at a place is chosen.
pub fn has(chosen: &Chosen, place: usize) -> bool
    ensures { result ≡ any (nat_eq place) (places_in chosen.now) }
{
    chosen
        .as_slice()
        .iter()
        .map(|pick| pick.place)
        .any(|other| place == other as usize)
}
