// Whether the nodes name one another as they should.
ghost use Rattle.std.specs.Prelude.{◌≡◌, ◌-◌, ◌≤◌, length, sum_by, Some, None, MatchResult};
ghost use Rattle.plan.specs.Filling.{late_at, stray_at, fill_refusal, Spots};
ghost use Rattle.plan.specs.Nodes.{late, namings};

use crate::node::Node;
use crate::nodes::Nodes;
use crate::refusal::Refusal;
use crate::tree::Tree;

// Whether the node, which stands at `k`, names one that is not earlier.
fn names_late(k: usize, node: Node) -> bool
    ensures { result ≡ late k node }
{
    match node {
        Node::Leaf { .. } => false,
        Node::Choice { node, .. } => k <= node as usize,
        Node::Pair { left, right, .. } => k <= left as usize || k <= right as usize,
    }
}

// How often the node names the one at `k`.
fn namings_in(node: Node, k: usize) -> usize
    ensures count { result ≡ namings k node }
    ensures few { result ≤ 2 }
{
    match node {
        Node::Leaf { .. } => 0,
        Node::Choice { node, .. } => usize::from(node as usize == k),
        Node::Pair { left, right, .. } => usize::from(left as usize == k)
            + usize::from(right as usize == k),
    }
}

impl<'a> Nodes<'a> {
    // Whether each node names earlier ones only; if not, the first that does not.
    fn check_earlier(&self) -> Result<(), usize>
        ensures { MatchResult result (λ _. Spots (late_at self.now.nodes.now) (length self.now.nodes.now) None) (λ k. Spots (late_at self.now.nodes.now) (length self.now.nodes.now) (Some k)) }
    {
        self.nodes
            .iter()
            .enumerate()
            .position(|(k, node)| names_late(k, *node))
            .map_or(Ok(()), Err)
    }

    // How often any node names the one at `k`.
    fn times_named(&self, k: usize) -> usize
        ensures { result ≡ sum_by (namings k) self.now.nodes.now }
    {
        self.nodes.iter().map(|node| namings_in(*node, k)).sum()
    }

    // Whether each node but the last is named exactly once; if not, the first that is not.
    fn check_named(&self) -> Result<(), usize>
        ensures { MatchResult result (λ _. Spots (stray_at self.now.nodes.now) (length self.now.nodes.now - 1) None) (λ k. Spots (stray_at self.now.nodes.now) (length self.now.nodes.now - 1) (Some k)) }
    {
        (0..self.nodes.len() - 1)
            .find(|k| self.times_named(*k) != 1)
            .map_or(Ok(()), Err)
    }

    // The nodes as a tree, if they name one another so.
    pub fn tree(&self) -> Result<Tree<'a>, Refusal>
        ensures { MatchResult result (λ tree. tree.nodes.now ≡ self.now.nodes.now) (λ e. fill_refusal self.now.nodes.now ≡ Some e) }
    {
        self.check_earlier().map_err(Refusal::Order)?;
        self.check_named().map_err(Refusal::Order)?;
        Ok(Tree { nodes: self.nodes })
    }
}
