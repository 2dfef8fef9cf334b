// Whether a line is lost in some reading, case by case.
ghost use Rattle.std.specs.Prelude.{◌≡◌, ◌≤◌, true, length};
ghost use Rattle.store.specs.Lists.{all};
ghost use Rattle.plan.specs.Truths.{named_rows};
ghost use Rattle.verdict.specs.LeafPlaces.{leaves_have_bytes};
ghost use Rattle.verdict.specs.Marking.{lists_of, have_bytes};

use plan::{Line, Plan};
use rules::Conflict;

pub mod trying;

// A line of a plan, the places of the rows that it names, and the conflicts.
#[derive(Clone, Copy)]
pub struct Cases<'a> {
    pub conflicts: &'a [Conflict],
    pub plan: &'a Plan,
    pub line: &'a Line,
    pub leaves: &'a [Option<u16>],
    ghost inside: { all have_bytes (lists_of conflicts.now) ≡ true },
    ghost six: { length leaves.now ≤ 6 },
    ghost near: { leaves_have_bytes leaves.now ≡ true },
    ghost long: { length leaves.now ≡ length (named_rows plan.now line.now.columns) },
}
