// Why nodes make no plan.
ghost use Rattle.std.specs.Prelude.{◌≡◌};
ghost use Rattle.plan.specs.Refusals.{notice_of};

use fault::Notice;

// Each has the position of the first node that fails.
#[derive(Clone, Copy)]
pub enum Refusal {
    // There are not 1 to 16 nodes.
    Size,
    // A node names one that is not earlier, or a node but the last is not named exactly once.
    Order(usize),
    // A seventh leaf, or a leaf whose arity is not 1 to 4 or that has no open column.
    Leaves(usize),
    // Sides of unequal width, a compared column that is not there, or a width above 8.
    Widths(usize),
}

// The number, layer and position that a person is told.
impl From<Refusal> for Notice {
    ghost from_gives = { λ refusal notice. notice ≡ notice_of refusal };

    fn from(refusal: Refusal) -> Notice {
        match refusal {
            Refusal::Size => Notice::new(31, 0),
            Refusal::Order(position) => Notice::new(32, position),
            Refusal::Leaves(position) => Notice::new(33, position),
            Refusal::Widths(position) => Notice::new(34, position),
        }
    }
}
