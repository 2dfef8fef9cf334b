// Plain answers: those over all rows held, whether they contradict each other or not.
ghost use Rattle.plan.specs.Plans.{nodes_of};
ghost use Rattle.answers.specs.Plain.{PlainSays};

use crate::asking::{check_leaves, check_line};
use crate::refusal::Refusal;
use plan::{Line, Plan};
use store::Source;

// Whether the line is an answer of the plan over all rows of the source: one look-up a leaf.
pub fn plain<S: Source>(source: &S, plan: &Plan, line: &Line) -> Result<bool, Refusal>
    ensures { PlainSays (S.Source.model source.now) (nodes_of plan.now) line.now.columns result }
{
    check_leaves(source, plan)?;
    check_line(plan, line)?;
    let held = plan.at_leaves(line, |row| source.find(row).is_some());
    Ok(plan.holds(line, &held))
}
