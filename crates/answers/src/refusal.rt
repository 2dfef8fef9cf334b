// Why a question about a plan and a line is not answered.
ghost use Rattle.std.specs.Prelude.{◌≡◌};
ghost use Rattle.answers.specs.Refusals.{notice_of};

use fault::Notice;

#[derive(Clone, Copy, Debug)]
pub enum Refusal {
    // The leaf at this node, the first such, has not the arity that the source tells.
    Arity(usize),
    // This column of the line, the first such, is past the plan's width and not zero.
    Column(usize),
}

// The number, layer and position that a person is told.
impl From<Refusal> for Notice {
    ghost from_gives = { λ refusal notice. notice ≡ notice_of refusal };

    fn from(refusal: Refusal) -> Notice {
        match refusal {
            Refusal::Arity(position) => Notice::new(41, position),
            Refusal::Column(position) => Notice::new(42, position),
        }
    }
}
