// One comparison, for one line.
ghost use Rattle.std.specs.Prelude.{◌≡◌, true, length};
ghost use Rattle.plan.specs.Answers.{chosen};
ghost use Rattle.plan.specs.Filling.{inside};

use crate::node::Comparison;

// Whether the comparison holds for this line.
pub fn is_chosen(line: &[u32], comparison: &Comparison) -> bool
    requires { inside (length line.now) comparison.now ≡ true }
    ensures { result ≡ chosen comparison.now line.now }
{
    comparison.holds(|column| line[column as usize])
}
