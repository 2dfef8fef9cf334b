// Why a book refuses a call; the refusals of the layers below are kept whole.
ghost use Rattle.std.specs.Prelude.{◌≡◌};
ghost use Rattle.book.specs.Refusals.{notice_of};
ghost use Rattle.book.specs.declared.refusal.Refusal.{Refusal};

use fault::Notice;

#[derive(Clone, Copy, Debug)]
pub enum Refusal {
    // The source refuses the row.
    Source(store::Refusal),
    // With the row there would be more than 1,024 conflicts.
    EntryConflicts,
    // There are sixteen rules already.
    TooManyRules,
    // It is no rule over the declared relations.
    Rule(rules::Refusal),
    // With the rule there would be more than 1,024 conflicts.
    RuleConflicts,
    // No conflict has this number.
    NoSuchConflict,
    // The plan or the line is not one that can be answered here.
    Unanswered(answers::Refusal),
    // There is no verdict.
    Verdict(verdict::Refusal),
    // There is no sheet.
    Sheet(sheet::Refusal),
}

// The number, layer and position that the refusing layer tells.
impl From<Refusal> for Notice {
    ghost from_gives = { λ refusal notice. notice ≡ notice_of refusal };

    fn from(refusal: Refusal) -> Notice {
        match refusal {
            Refusal::Source(refusal) => Notice::from(refusal),
            Refusal::EntryConflicts => Notice::new(15, 0),
            Refusal::TooManyRules => Notice::new(21, 0),
            Refusal::Rule(refusal) => Notice::from(refusal),
            Refusal::RuleConflicts => Notice::new(25, 0),
            Refusal::NoSuchConflict => Notice::new(46, 0),
            Refusal::Unanswered(refusal) => Notice::from(refusal),
            Refusal::Verdict(refusal) => Notice::from(refusal),
            Refusal::Sheet(refusal) => Notice::from(refusal),
        }
    }
}

impl From<store::Refusal> for Refusal {
    ghost from_gives = { λ refusal r. r ≡ Refusal.Source refusal };

    fn from(refusal: store::Refusal) -> Refusal {
        Refusal::Source(refusal)
    }
}

impl From<rules::Refusal> for Refusal {
    ghost from_gives = { λ refusal r. r ≡ Refusal.Rule refusal };

    fn from(refusal: rules::Refusal) -> Refusal {
        Refusal::Rule(refusal)
    }
}

impl From<answers::Refusal> for Refusal {
    ghost from_gives = { λ refusal r. r ≡ Refusal.Unanswered refusal };

    fn from(refusal: answers::Refusal) -> Refusal {
        Refusal::Unanswered(refusal)
    }
}

impl From<verdict::Refusal> for Refusal {
    ghost from_gives = { λ refusal r. r ≡ Refusal.Verdict refusal };

    fn from(refusal: verdict::Refusal) -> Refusal {
        Refusal::Verdict(refusal)
    }
}

impl From<sheet::Refusal> for Refusal {
    ghost from_gives = { λ refusal r. r ≡ Refusal.Sheet refusal };

    fn from(refusal: sheet::Refusal) -> Refusal {
        Refusal::Sheet(refusal)
    }
}
