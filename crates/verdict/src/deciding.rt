// Whether a line is sure.
ghost use Rattle.std.specs.Prelude.{◌≤◌, MatchBool, length};
ghost use Rattle.store.specs.Held.{rows_of};
ghost use Rattle.rules.specs.Entries.{listing};
ghost use Rattle.plan.specs.Plans.{nodes_of};
ghost use Rattle.cores.specs.Backing.{HeldIn};
ghost use Rattle.cores.specs.Settling.{listed_places};
ghost use Rattle.cores.specs.Sure.{Sure};
ghost use Rattle.verdict.specs.Verdicts.{conflicts_of, CoreMarked};

use crate::cases::Cases;
use crate::locating::locate;
use plan::{Line, Plan};
use rules::Conflicts;
use store::Source;

// Whether every reading has the line as an answer, with no question asked before: a line that does not fit the plan is not
// sure. Where it is not sure, the rows of a core are marked.
pub fn is_sure<S: Source>(
    source: &S,
    conflicts: &Conflicts,
    plan: &Plan,
    line: &Line,
    marks: &mut [u8],
) -> bool
    requires held { HeldIn (S.Source.model source.now).places (listed_places (listing conflicts.now)) }
    requires room { 256 ≤ length marks.old }
    ensures { MatchBool result
        (Sure (rows_of (S.Source.model source.now).places) (conflicts_of (S.Source.model source.now) (listing conflicts.now)) (nodes_of plan.now) line.now.columns)
        (CoreMarked (S.Source.model source.now) (listing conflicts.now) (nodes_of plan.now) line.now.columns marks.new) }
{
    let leaves = locate(source, plan, line);
    let cases = Cases {
        conflicts: conflicts.as_slice(),
        plan,
        line,
        leaves: leaves.as_slice(),
    };
    !cases.try_each(marks)
}
