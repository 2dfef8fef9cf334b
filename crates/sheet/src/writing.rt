// The sheet.
ghost use Rattle.std.specs.Prelude.{◌≡◌, length, replicate};
ghost use Rattle.rules.specs.Entries.{listing};
ghost use Rattle.plan.specs.Plans.{nodes_of};
ghost use Rattle.cores.specs.Backing.{HeldIn};
ghost use Rattle.cores.specs.Settling.{listed_places};
ghost use Rattle.sheet.specs.Sheets.{Readable, SheetSays};

use crate::gathering::Gathering;
use crate::refusal::Refusal;
use answers::check_leaves;
use plan::{Line, Plan};
use rules::Conflicts;
use store::Source;
use verdict::{MARK_BYTES, Marks};

// What stands where no line does.
const NO_LINE: Line = Line { columns: [0; 8] };

// All lines of the plan that every reading of the source's rows, by the listed conflicts, has as answers: in ascending order in
// the front of `lines`, and how many they are. The mark bytes are the search's while it runs, and zero afterwards.
pub fn sheet<S: Source>(
    source: &S,
    conflicts: &Conflicts,
    plan: &Plan,
    marks: &mut [u8],
    lines: &mut [Line],
) -> Result<usize, Refusal>
    requires held { HeldIn (S.Source.model source.now).places (listed_places (listing conflicts.now)) }
    requires some { Readable (S.Source.model source.now) (listing conflicts.now) }
    ensures clear { marks.new ≡ replicate (length marks.old) 0 }
    ensures says { SheetSays (S.Source.model source.now) (listing conflicts.now) (nodes_of plan.now) (length marks.old) lines.old lines.new result }
{
    let guard = Marks { bytes: marks };
    check_leaves(source, plan)?;
    if guard.bytes.len() < MARK_BYTES {
        return Err(Refusal::FewMarks);
    }
    let gathering = Gathering {
        source,
        conflicts,
        plan,
    };
    let Ok(count) = gathering.gather(guard.bytes, lines) else {
        lines.fill(NO_LINE);
        return Err(Refusal::Full);
    };
    Ok(count)
}
