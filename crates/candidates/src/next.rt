// Candidates one after another.
ghost use Rattle.std.specs.Prelude.{◌≡◌, length, IfSome};
ghost use Rattle.store.specs.Held.{rows_of};
ghost use Rattle.plan.specs.Plans.{nodes_of};
ghost use Rattle.candidates.specs.Candidates.{NextSays};
ghost use Rattle.candidates.specs.Seeking.{past};

use crate::nodes::Candidates;
use crate::wanted::Wanted;
use plan::{Line, Plan};
use std::ops::Bound;
use store::Source;

// Where a search begins that takes the lines past this one, or all.
fn past(after: Option<Line>) -> Bound<[u32; 8]>
    ensures start { result ≡ past after }
    ensures long { IfSome after (λ line. length line.columns ≡ 8) }
{
    // Not by `map_or`: the second clause is known where the line is at hand.
    let Some(line) = after else {
        return Bound::Unbounded;
    };
    Bound::Excluded(line.columns)
}

// The least candidate of the plan over the rows of the source that comes after this line, or after nothing; none if there is no such.
pub fn next_candidate<S: Source>(source: &S, plan: &Plan, after: Option<Line>) -> Option<Line>
    ensures { NextSays (nodes_of plan.now) (rows_of (S.Source.model source.now).places) after result }
{
    let last = plan.steps().len() - 1;
    let columns = Candidates { source, plan }.least(last, past(after), &Wanted::nothing())?;
    Some(Line { columns })
}
