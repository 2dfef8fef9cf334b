// The two questions that come first: does the plan fit the source, and the line the plan?
ghost use Rattle.plan.specs.Answers.{plan_width};
ghost use Rattle.plan.specs.Plans.{nodes_of};
ghost use Rattle.answers.specs.Asking.{leaves_no, line_no, Unless};

use crate::refusal::Refusal;
use plan::{Line, Plan};
use store::Source;

// Whether each leaf has the arity that the source tells for its relation; if not, the first leaf that has not.
pub fn check_leaves<S: Source>(source: &S, plan: &Plan) -> Result<(), Refusal>
    ensures { Unless (leaves_no (S.Source.model source.now).arity (nodes_of plan.now)) result }
{
    plan.leaf_list()
        .iter()
        .find(|leaf| leaf.arity != source.arity(leaf.relation))
        .map_or(Ok(()), |leaf| Err(Refusal::Arity(leaf.node)))
}

// Whether the line is zero from the plan's width on; if not, the first column that is not.
pub fn check_line(plan: &Plan, line: &Line) -> Result<(), Refusal>
    ensures { Unless (line_no (plan_width (nodes_of plan.now)) line.now.columns) result }
{
    plan.past(line)
        .map_or(Ok(()), |column| Err(Refusal::Column(column)))
}
