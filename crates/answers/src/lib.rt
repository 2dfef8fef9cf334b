// What a plan answers over the rows of a source.
//
// A line names one row at each leaf of a plan, so whether it is an answer takes one look-up for each leaf, and one pass over
// the plan's nodes. Before that the plan has to fit the source, and the line the plan.
#![tactic(auto)]

mod asking;
mod held;
mod refusal;

pub use asking::{check_leaves, check_line};
pub use held::plain;
pub use refusal::Refusal;
