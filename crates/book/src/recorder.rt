// Whoever is told what came of each call of a run.
ghost use Rattle.std.specs.Prelude.{List, [], ◌∷◌, ◌++◌};
ghost use Rattle.book.specs.Plain.{Told};
ghost use Rattle.book.specs.Outcomes.{told_of};

use crate::call::Outcome;
use plan::Line;
use store::Row;

pub trait Recorder {
    // The recorder was told these outcomes, in this order.
    ghost told: { Self → List Told → Type 0 };

    // The rows and the lines are the caller's after the call; a core that the outcome tells of is at the front of the rows, and a
    // sheet at the front of the lines.
    fn record(&mut self, outcome: &Outcome, core: &[Row], lines: &[Line])
        ensures { (before : List Told) → told self.old before → told self.new (before ++ (told_of core.now lines.now outcome.now ∷ [])) };
}
