// Why there is no verdict.
ghost use Rattle.std.specs.Prelude.{◌≡◌};
ghost use Rattle.verdict.specs.Refusals.{notice_of};
ghost use Rattle.verdict.specs.declared.refusal.Refusal.{Refusal};

use fault::Notice;

#[derive(Clone, Copy, Debug)]
pub enum Refusal {
    // The plan or the line is not one that can be answered here.
    Unanswered(answers::Refusal),
    // There are fewer than 256 mark bytes.
    FewMarks,
    // There is room for fewer than twelve rows of a core.
    FewRows,
}

// The number, layer and position that a person is told.
impl From<Refusal> for Notice {
    ghost from_gives = { λ refusal notice. notice ≡ notice_of refusal };

    fn from(refusal: Refusal) -> Notice {
        match refusal {
            Refusal::Unanswered(refusal) => Notice::from(refusal),
            Refusal::FewMarks => Notice::new(43, 0),
            Refusal::FewRows => Notice::new(44, 0),
        }
    }
}

impl From<answers::Refusal> for Refusal {
    ghost from_gives = { λ refusal r. r ≡ Refusal.Unanswered refusal };

    fn from(refusal: answers::Refusal) -> Refusal {
        Refusal::Unanswered(refusal)
    }
}
