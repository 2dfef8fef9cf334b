// A rule as a line writes it: atoms and comparisons, of which nothing is asked yet.
use ordered::Few;
use rules::Comparison;

pub mod writing;

// As much as a line holds: of its 200 bytes a word takes two with the space before it, and a comparison four.
#[derive(Clone, Copy)]
pub struct RuleText {
    atoms: Few<u16, 100>,
    comparisons: Few<Comparison, 50>,
}
