// Nodes that may make a plan.
ghost use Rattle.std.specs.Prelude.{◌≡◌, ◌<◌, ◌≤◌, length, Some, MatchResult};
ghost use Rattle.plan.specs.Filling.{fill_refusal};

use crate::node::Node;
use crate::refusal::Refusal;

// 1 to 16 nodes.
#[derive(Drop)]
pub struct Nodes<'a> {
    pub nodes: &'a [Node],
    ghost some: { 0 < length nodes.now },
    ghost few: { length nodes.now ≤ 16 },
}

impl<'a> Nodes<'a> {
    // These nodes, if they are as many as a plan has.
    pub fn new(nodes: &'a [Node]) -> Result<Nodes<'a>, Refusal>
        ensures { MatchResult result (λ taken. taken.nodes.now ≡ nodes.now) (λ e. fill_refusal nodes.now ≡ Some e) }
    {
        if nodes.is_empty() || nodes.len() > 16 {
            return Err(Refusal::Size);
        }
        Ok(Nodes { nodes })
    }
}
