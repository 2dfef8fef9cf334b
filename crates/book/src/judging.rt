// The calls that tell which lines every reading has.
ghost use Rattle.std.specs.Prelude.{◌≡◌, length, replicate};
ghost use Rattle.plan.specs.Plans.{nodes_of};
ghost use Rattle.book.specs.Books.{rules_of};
ghost use Rattle.book.specs.Calls.{JudgingSays, ListingSays, judged_by, listed_by};
ghost use Rattle.book.specs.Plain.{judging, listing};
ghost use Rattle.book.specs.Runs.{LivesOn};

use crate::book::Book;
use crate::refusal::Refusal;
use plan::{Line, Plan};
use sheet::sheet;
use store::{Row, Source};
use verdict::{Verdict, verdict};

impl<S: Source> Book<S> {
    // Whether every reading of the rows held has the line as an answer of the plan; where not, the rows of a core are written
    // to the front of `core`. The mark bytes are zero afterwards, whatever is told.
    pub fn verdict(
        &self,
        plan: &Plan,
        line: &Line,
        marks: &mut [u8],
        core: &mut [Row],
    ) -> Result<Verdict, Refusal>
        ensures clear { marks.new ≡ replicate (length marks.old) 0 }
        ensures says { JudgingSays (S.Source.model self.now.source) (rules_of self.now.log) (nodes_of plan.now) line.now.columns (length marks.old) core.old core.new result }
        ensures law { LivesOn (S.Source.model self.now.source) (rules_of self.now.log) (S.Source.model self.now.source) (rules_of self.now.log) (judging (nodes_of plan.now) line.now.columns (length marks.old) (length core.old)) (judged_by core.new result) }
    {
        Ok(verdict(&self.source, &self.log.conflicts, plan, line, marks, core)?)
    }

    // All lines of the plan that every reading of the rows held has as answers: in ascending order in the front of `lines`, and
    // how many they are. The mark bytes are zero afterwards, whatever is told.
    pub fn sheet(&self, plan: &Plan, marks: &mut [u8], lines: &mut [Line]) -> Result<usize, Refusal>
        ensures clear { marks.new ≡ replicate (length marks.old) 0 }
        ensures says { ListingSays (S.Source.model self.now.source) (rules_of self.now.log) (nodes_of plan.now) (length marks.old) lines.old lines.new result }
        ensures law { LivesOn (S.Source.model self.now.source) (rules_of self.now.log) (S.Source.model self.now.source) (rules_of self.now.log) (listing (nodes_of plan.now) (length marks.old) (length lines.old)) (listed_by lines.new result) }
    {
        Ok(sheet(&self.source, &self.log.conflicts, plan, marks, lines)?)
    }
}
