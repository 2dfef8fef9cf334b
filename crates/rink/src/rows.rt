// Rows, written short.
ghost use Rattle.std.specs.Prelude.{◌≡◌, [], ◌∷◌};

use store::Row;

// A row of a relation with two columns.
pub fn row(relation: u16, pad: u32, slot: u32) -> Row
    ensures { result ≡ record { relation = relation; columns = pad ∷ slot ∷ 0 ∷ 0 ∷ [] } }
{
    Row {
        relation,
        columns: [pad, slot, 0, 0],
    }
}

// A party of a club on a pad at a slot.
pub fn party(pad: u32, slot: u32, club: u32) -> Row
    ensures { result ≡ record { relation = 3; columns = pad ∷ slot ∷ club ∷ 0 ∷ [] } }
{
    Row {
        relation: 3,
        columns: [pad, slot, club, 0],
    }
}
