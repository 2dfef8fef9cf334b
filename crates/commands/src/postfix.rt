// A plan while its words are read.
ghost use Rattle.std.specs.Prelude.{◌≤◌, length};
ghost use Rattle.ordered.specs.Lists.{items_in};

use ordered::Few;
use plan::Node;

pub mod stacking;

// Its nodes so far, and by their positions those that none has taken yet, the last on top. As many as a line holds: of its 200
// bytes a word takes two with the space before it.
#[derive(Drop)]
pub struct Postfix {
    nodes: Few<Node, 100>,
    stack: Few<u8, 100>,
    ghost few: { length (items_in stack) ≤ length (items_in nodes) },
}
