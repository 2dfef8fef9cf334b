// How wide the nodes are, and whether they fit one another.
ghost use Rattle.std.specs.Prelude.{◌≡◌, ◌≤◌, false, length, Some, MatchResult};
ghost use Rattle.std.specs.List.{All};
ghost use Rattle.ordered.specs.Lists.{items_in};
ghost use Rattle.plan.specs.Answers.{width_of};
ghost use Rattle.plan.specs.Filling.{sides_fit, unfit_at, Spots};
ghost use Rattle.plan.specs.Nodes.{late};
ghost use Rattle.plan.specs.Steps.{widths_in, Begun};

use crate::leaf::PlanLeaf;
use crate::node::{Node, Op};
use crate::step::Step;
use crate::tree::Tree;
use ordered::Few;

// Whether the node that comes after these steps fits the widths of those that it names.
fn sides_fit(node: Node, steps: &[Step]) -> bool
    requires { late (length steps.now) node ≡ false }
    ensures { result ≡ sides_fit (widths_in steps.now) node }
{
    match node {
        Node::Leaf { .. } => true,
        Node::Choice { node, comparison } => {
            let width = steps[node as usize].width;
            comparison.all_columns(|column| column < width)
        }
        Node::Pair { op, left, right } => match op {
            Op::Product => true,
            Op::Union | Op::Difference => steps[left as usize].width == steps[right as usize].width,
        },
    }
}

// The width of the node that comes after these steps, from those of the nodes that it names.
fn width_of(node: Node, steps: &[Step]) -> u8
    requires early { late (length steps.now) node ≡ false }
    requires narrow { All (λ step. step.width ≤ 8) steps.now }
    ensures { result ≡ width_of (widths_in steps.now) node }
{
    match node {
        Node::Leaf {
            relation,
            arity,
            fields,
        } => PlanLeaf::new(steps.len(), relation, arity, fields).width() as u8,
        Node::Choice { node, .. } => steps[node as usize].width,
        Node::Pair { op, left, right } => match op {
            Op::Product => steps[left as usize].width + steps[right as usize].width,
            Op::Union | Op::Difference => steps[left as usize].width,
        },
    }
}

impl Tree<'_> {
    // Each node with its width, or the first that fails; where their lines begin is told later.
    pub fn measure(&self) -> Result<Few<Step, 16>, usize>
        ensures { MatchResult result (λ steps. Begun self.now.nodes.now (items_in steps)) (λ k. Spots (unfit_at self.now.nodes.now) (length self.now.nodes.now) (Some k)) }
    {
        let mut steps = Few::new(Step {
            node: self.nodes[0],
            width: 0,
            start: 0,
        });
        for (k, node) in self.nodes.iter().enumerate() {
            let width = width_of(*node, steps.as_slice());
            if width > 8 || !sides_fit(*node, steps.as_slice()) {
                return Err(k);
            }
            steps.push(Step {
                node: *node,
                width,
                start: 0,
            });
        }
        Ok(steps)
    }
}
