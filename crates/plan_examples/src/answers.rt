// Whether a line is an answer over a list of rows.
ghost use Rattle.std.specs.Prelude.{◌≡◌};
ghost use Rattle.plan.specs.Answers.{among, is_answer};
ghost use Rattle.plan.specs.Plans.{nodes_of};

use plan::{Line, Plan};
use store::Row;

// Whether the row is one of these.
fn is_among(rows: &[Row], row: &Row) -> bool
    ensures { result ≡ among rows.now row.now }
{
    rows.iter().any(|other| row == other)
}

// Finds out of each row that the line names whether it is there, and asks the plan.
pub(crate) fn is_answer(plan: &Plan, rows: &[Row], line: &Line) -> bool
    ensures { result ≡ is_answer (nodes_of plan.now) rows.now line.now.columns }
{
    plan.holds(line, &plan.at_leaves(line, |row| is_among(rows, row)))
}
