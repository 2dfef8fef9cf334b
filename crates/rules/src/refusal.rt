// Why a rule is refused.
ghost use Rattle.std.specs.Prelude.{◌≡◌};
ghost use Rattle.rules.specs.Refusals.{notice_of};

use fault::Notice;

#[derive(Clone, Copy, Debug)]
pub enum Refusal {
    // It has no atom or more than three, or more than six comparisons.
    Malformed,
    // This atom's relation is not declared.
    UndeclaredAtom(usize),
    // This comparison names an atom that the rule has not, or a column that the atom's relation has not.
    NoSuchColumn(usize),
}

// The number, layer and position that a person is told.
impl From<Refusal> for Notice {
    ghost from_gives = { λ refusal notice. notice ≡ notice_of refusal };

    fn from(refusal: Refusal) -> Notice {
        match refusal {
            Refusal::Malformed => Notice::new(22, 0),
            Refusal::UndeclaredAtom(atom) => Notice::new(23, atom),
            Refusal::NoSuchColumn(comparison) => Notice::new(24, comparison),
        }
    }
}
