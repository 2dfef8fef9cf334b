// What a line commands.
use crate::plan_words::PlanWords;
use crate::rule::RuleText;
use store::Row;

#[derive(Clone, Copy)]
pub enum Command {
    Enter(Row),
    Strike(Row),
    Rule(RuleText),
    // The words of a plan, a slash and columns.
    Verdict(PlanWords),
    // The words of a plan.
    Sheet(PlanWords),
    Conflicts,
}
