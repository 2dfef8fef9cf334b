// What a line of a script commands.
//
// A line is put four questions in order: is it short enough, is its first word known, has each
// further word a form, are the words in the order and number that the command wants?
#![tactic(auto)]

mod command;
mod laws;
mod parsing;
mod plan_words;
mod postfix;
mod refusal;
mod rule;
mod verb;
mod verdicts;

pub use command::Command;
pub use laws::nodes_in_order;
pub use parsing::{parse, plan_from, verdict_from};
pub use plan_words::PlanWords;
pub use refusal::Refusal;
pub use rule::RuleText;
pub use verdicts::VerdictText;
