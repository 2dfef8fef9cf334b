// Why a source refuses a row.
ghost use Rattle.std.specs.Prelude.{◌≡◌};
ghost use Rattle.store.specs.Refusals.{notice_of};

use fault::Notice;

#[derive(Clone, Copy, Debug)]
pub enum Refusal {
    // The row's relation is not declared.
    Undeclared,
    // A column from the relation's arity on is not zero.
    Unfit,
    // The row is held already.
    AlreadyHeld,
    // No place is empty.
    NoEmptyPlace,
    // The row to strike is not held.
    NotHeld,
}

// The number, layer and position that a person is told.
impl From<Refusal> for Notice {
    ghost from_gives = { λ refusal notice. notice ≡ notice_of refusal };

    fn from(refusal: Refusal) -> Notice {
        match refusal {
            Refusal::Undeclared => Notice::new(11, 0),
            Refusal::Unfit => Notice::new(12, 0),
            Refusal::AlreadyHeld => Notice::new(13, 0),
            Refusal::NoEmptyPlace => Notice::new(14, 0),
            Refusal::NotHeld => Notice::new(16, 0),
        }
    }
}
