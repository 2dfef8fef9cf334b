// How a plan is made and filled.
ghost use Rattle.std.specs.Prelude.{◌≡◌, Some, None, MatchResult};
ghost use Rattle.plan.specs.Filling.{fill_refusal};
ghost use Rattle.plan.specs.Plans.{nodes_of, first_nodes, FillSays};

use super::Plan;
use crate::node::Node;
use crate::nodes::Nodes;
use crate::refusal::Refusal;

impl Plan {
    // The plan of these nodes, or why they make none.
    pub fn of(nodes: &[Node]) -> Result<Plan, Refusal>
        ensures { MatchResult result (λ plan. (fill_refusal nodes.now ≡ None) × (nodes_of plan ≡ nodes.now)) (λ e. fill_refusal nodes.now ≡ Some e) }
    {
        let tree = Nodes::new(nodes)?.tree()?;
        let leaves = tree.leaves().map_err(Refusal::Leaves)?;
        let steps = tree.steps().map_err(Refusal::Widths)?;
        Ok(Plan { steps, leaves })
    }

    // A plan is at first one open leaf of relation 0, arity 1.
    pub fn new() -> Plan
        ensures { nodes_of result ≡ first_nodes }
    {
        Plan::of(&[Node::open(0, 1)]).unwrap()
    }

    // Makes these nodes the plan; a refusal leaves it as it was.
    pub fn fill(&mut self, nodes: &[Node]) -> Result<(), Refusal>
        ensures { FillSays nodes.now self.old self.new result }
    {
        *self = Plan::of(nodes)?;
        Ok(())
    }
}
