// Nodes that name one another as those of a plan do.
ghost use Rattle.std.specs.Prelude.{◌≡◌, ℕ, ◌-◌, ◌<◌, ◌≤◌, false, length};
ghost use Rattle.plan.specs.Filling.{Earlier, stray_at};

use crate::node::Node;

// 1 to 16 nodes, each of which names earlier ones only, and each of which but the last is named exactly once.
#[derive(Drop)]
pub struct Tree<'a> {
    pub nodes: &'a [Node],
    ghost some: { 0 < length nodes.now },
    ghost few: { length nodes.now ≤ 16 },
    ghost early: { Earlier nodes.now },
    ghost once: { (c : ℕ) → c < length nodes.now - 1 → stray_at nodes.now c ≡ false },
}
