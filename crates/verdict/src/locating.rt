// Where the rows stand that a line names.
ghost use Rattle.std.specs.Prelude.{◌≡◌, ◌≤◌, true, length};
ghost use Rattle.ordered.specs.Lists.{items_in};
ghost use Rattle.plan.specs.Truths.{named_rows};
ghost use Rattle.cores.specs.Settling.{Located};
ghost use Rattle.verdict.specs.LeafPlaces.{leaves_have_bytes};

use ordered::Few;
use plan::{Line, Plan};
use store::Source;

// The place of the row that the line names at each leaf, or nothing where that row is not held.
pub fn locate<S: Source>(source: &S, plan: &Plan, line: &Line) -> Few<Option<u16>, 6>
    ensures located { Located (S.Source.model source.now) (named_rows plan.now line.now.columns) (items_in result) }
    ensures near { leaves_have_bytes (items_in result) ≡ true }
{
    let mut leaves = Few::new(None);
    while let Some(row) = plan.named(leaves.len(), line) {
        // A closure would not know that a place is below 256.
        let place = match source.find(&row) {
            Some(place) => Some(place as u16),
            None => None,
        };
        leaves.push(place);
    }
    leaves
}
