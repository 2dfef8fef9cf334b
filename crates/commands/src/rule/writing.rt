// What a written rule holds, and how it grows.
ghost use Rattle.std.specs.Prelude.{◌≡◌, ◌<◌, [], ◌∷◌, ◌++◌, length};
ghost use Rattle.commands.specs.Rules.{written};

use super::RuleText;
use ordered::Few;
use rules::Comparison;

impl RuleText {
    // No atoms and no comparisons.
    pub(crate) fn new() -> RuleText
        ensures { written result ≡ record { atoms = []; comparisons = [] } }
    {
        RuleText {
            atoms: Few::new(0),
            comparisons: Few::new(Comparison::BLANK),
        }
    }

    // The relations of its atoms, in order.
    pub fn atoms(&self) -> &[u16]
        ensures { result.now ≡ (written self.now).atoms }
    {
        self.atoms.as_slice()
    }

    // Its comparisons, in order.
    pub fn comparisons(&self) -> &[Comparison]
        ensures { result.now ≡ (written self.now).comparisons }
    {
        self.comparisons.as_slice()
    }

    // One more atom.
    pub(crate) fn add_atom(&mut self, relation: u16)
        requires { length (written self.old).atoms < 100 }
        ensures { written self.new ≡ record { atoms = (written self.old).atoms ++ (relation ∷ []); comparisons = (written self.old).comparisons } }
    {
        self.atoms.push(relation);
    }

    // One more comparison.
    pub(crate) fn add_comparison(&mut self, comparison: Comparison)
        requires { length (written self.old).comparisons < 50 }
        ensures { written self.new ≡ record { atoms = (written self.old).atoms; comparisons = (written self.old).comparisons ++ (comparison ∷ []) } }
    {
        self.comparisons.push(comparison);
    }
}
