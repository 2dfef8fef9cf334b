// What stands in an array of rules where no rule does.
ghost use Rattle.std.specs.Prelude.{◌≡◌, [], ◌∷◌};
ghost use Rattle.rules.specs.Rules.{denial};

use super::{Comparison, Rule};
use ordered::Few;

impl Rule {
    // A rule that is never looked at: it fills an array up.
    pub fn blank() -> Rule
        ensures { denial result ≡ record { atoms = 0 ∷ []; comparisons = [] } }
    {
        Rule {
            atoms: Few::of(&[0], 0),
            comparisons: Few::new(Comparison::BLANK),
        }
    }
}
