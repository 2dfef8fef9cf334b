// The leaves among the nodes.
ghost use Rattle.std.specs.Prelude.{◌≡◌, ◌≤◌, length, Some, MatchResult};
ghost use Rattle.plan.specs.Filling.{poor_at, Spots};
ghost use Rattle.plan.specs.Gathering.{Gathered};

use crate::leaf::PlanLeaf;
use crate::node::{Field, Node};
use crate::tree::Tree;
use ordered::Few;

impl Tree<'_> {
    // The leaves in order, or the first node that is a leaf and fails.
    pub fn leaves(&self) -> Result<Few<PlanLeaf, 6>, usize>
        ensures { MatchResult result (Gathered self.now.nodes.now) (λ k. Spots (poor_at self.now.nodes.now) (length self.now.nodes.now) (Some k)) }
    {
        let mut leaves = Few::new(PlanLeaf::new(0, 0, 0, [Field::Open; 4]));
        for (k, node) in self.nodes.iter().enumerate() {
            if let Node::Leaf {
                relation,
                arity,
                fields,
            } = *node
            {
                let leaf = PlanLeaf::new(k, relation, arity, fields);
                if leaves.len() >= 6 || arity == 0 || arity > 4 || leaf.width() == 0 {
                    return Err(k);
                }
                leaves.push(leaf);
            }
        }
        Ok(leaves)
    }
}
