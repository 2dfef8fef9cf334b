// What a line asks of a plan.
use ordered::Few;
use plan::Node;

// The nodes of the plan, of which nothing is asked yet, and the line that may be an answer.
#[derive(Clone, Copy)]
pub struct VerdictText {
    pub nodes: Few<Node, 100>,
    pub columns: [u32; 8],
}
