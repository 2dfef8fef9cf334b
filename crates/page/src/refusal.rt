// Why bytes are no page.
ghost use Rattle.std.specs.Prelude.{◌≡◌};
ghost use Rattle.page.specs.Refusals.{notice_of};

use fault::Notice;

#[derive(Clone, Copy, Debug, PartialEq, Eq)]
pub enum Refusal {
    // The bytes are not a whole number of records.
    NotWhole,
    // There are more than 256 records.
    TooLong,
    // The record at this place has neither mark.
    Unmarked(usize),
    // The row at this place does not fit the arities, or the empty record there is not zero after its mark.
    Unfit(usize),
    // The row at this place stands at an earlier place too.
    Repeated(usize),
}

// The number, layer and position that a person is told.
impl From<Refusal> for Notice {
    ghost from_gives = { λ refusal notice. notice ≡ notice_of refusal };

    fn from(refusal: Refusal) -> Notice {
        match refusal {
            Refusal::NotWhole => Notice::new(51, 0),
            Refusal::TooLong => Notice::new(52, 0),
            Refusal::Unmarked(place) => Notice::new(53, place),
            Refusal::Unfit(place) => Notice::new(54, place),
            Refusal::Repeated(place) => Notice::new(55, place),
        }
    }
}
