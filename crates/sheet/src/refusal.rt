// Why there is no sheet.
ghost use Rattle.std.specs.Prelude.{◌≡◌};
ghost use Rattle.sheet.specs.Refusals.{notice_of};
ghost use Rattle.sheet.specs.declared.refusal.Refusal.{Refusal};

use fault::Notice;

#[derive(Clone, Copy, Debug)]
pub enum Refusal {
    // The plan is not one that can be answered here.
    Unanswered(answers::Refusal),
    // There are fewer than 256 mark bytes.
    FewMarks,
    // The sure lines do not fit the caller's memory.
    Full,
}

// The number, layer and position that a person is told.
impl From<Refusal> for Notice {
    ghost from_gives = { λ refusal notice. notice ≡ notice_of refusal };

    fn from(refusal: Refusal) -> Notice {
        match refusal {
            Refusal::Unanswered(refusal) => Notice::from(refusal),
            Refusal::FewMarks => Notice::new(43, 0),
            Refusal::Full => Notice::new(45, 0),
        }
    }
}

impl From<answers::Refusal> for Refusal {
    ghost from_gives = { λ refusal r. r ≡ Refusal.Unanswered refusal };

    fn from(refusal: answers::Refusal) -> Refusal {
        Refusal::Unanswered(refusal)
    }
}
