// The verdict.
ghost use Rattle.std.specs.Prelude.{◌≡◌, length, replicate};
ghost use Rattle.rules.specs.Entries.{listing};
ghost use Rattle.plan.specs.Plans.{nodes_of};
ghost use Rattle.cores.specs.Backing.{HeldIn};
ghost use Rattle.cores.specs.Settling.{listed_places};
ghost use Rattle.verdict.specs.Verdicts.{VerdictSays};

use crate::deciding::is_sure;
use crate::guard::Marks;
use crate::outcome::Verdict;
use crate::refusal::Refusal;
use crate::writing::write_core;
use answers::{check_leaves, check_line};
use plan::{Line, Plan};
use rules::Conflicts;
use store::{Row, Source};

// One for each place that a source can have.
pub const MARK_BYTES: usize = 256;

// As many rows as a core can have: of each of six leaves one row that is in, or two others of a conflict.
const CORE_ROWS: usize = 12;

// Whether every reading of the source's rows, by the listed conflicts, has the line as an answer of the plan. The mark bytes
// are the search's while it runs, and zero afterwards; where the line is not sure, the rows of a core are written to `core`.
pub fn verdict<S: Source>(
    source: &S,
    conflicts: &Conflicts,
    plan: &Plan,
    line: &Line,
    marks: &mut [u8],
    core: &mut [Row],
) -> Result<Verdict, Refusal>
    requires held { HeldIn (S.Source.model source.now).places (listed_places (listing conflicts.now)) }
    ensures clear { marks.new ≡ replicate (length marks.old) 0 }
    ensures says { VerdictSays (S.Source.model source.now) (listing conflicts.now) (nodes_of plan.now) line.now.columns (length marks.old) core.old core.new result }
{
    let guard = Marks { bytes: marks };
    check_leaves(source, plan)?;
    check_line(plan, line)?;
    if guard.bytes.len() < MARK_BYTES {
        return Err(Refusal::FewMarks);
    }
    if core.len() < CORE_ROWS {
        return Err(Refusal::FewRows);
    }
    if is_sure(source, conflicts, plan, line, guard.bytes) {
        return Ok(Verdict::Sure);
    }
    Ok(Verdict::Unsure(write_core(source, guard.bytes, core)))
}
