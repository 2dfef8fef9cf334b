// Plans: what is asked of rows.
//
// A plan is 1 to 16 nodes. Over a list of rows each node has a width and lines (specs/Answers.antt), and the last node's
// lines are the plan's answers. Nothing is projected away, so a line names one row at each leaf, and whether it is an answer
// depends on these rows alone: `Plan::named` tells them, and `Plan::holds` decides from the truth of each, in one pass over
// the nodes, with no recursion and no allocation.
#![tactic(auto)]

mod choice;
mod laws;
mod leaf;
mod leaves;
mod line;
mod node;
mod nodes;
mod offsets;
mod order;
mod plan;
mod refusal;
mod step;
mod tree;
mod widths;

pub use choice::is_chosen;
pub use laws::{by_names, first_fault};
pub use leaf::PlanLeaf;
pub use line::Line;
pub use node::{Comparison, Field, Node, Op, Side};
pub use plan::Plan;
pub use refusal::Refusal;
pub use step::Step;
