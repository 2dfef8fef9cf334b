// What a plan keeps of each node.
ghost use Rattle.std.specs.Prelude.{◌≡◌, ◌<◌, length, slice_set};
ghost use Rattle.ordered.specs.Lists.{items_in};
ghost use Rattle.plan.specs.Steps.{nodes_in, widths_in, starts_in};

use crate::node::Node;
use ordered::Few;

// A node, how wide its line is, and where in the plan's line it begins.
#[derive(Clone, Copy)]
pub struct Step {
    pub node: Node,
    pub width: u8,
    pub start: u8,
}

// Tells the step at `k` where its line begins.
pub fn begin_at(steps: &mut Few<Step, 16>, k: usize, start: u8)
    requires { k < length (items_in steps.old) }
    ensures nodes { nodes_in (items_in steps.new) ≡ nodes_in (items_in steps.old) }
    ensures widths { widths_in (items_in steps.new) ≡ widths_in (items_in steps.old) }
    ensures starts { starts_in (items_in steps.new) ≡ slice_set (starts_in (items_in steps.old)) k start }
{
    let step = steps.as_slice()[k];
    steps.set(k, Step { start, ..step });
}
