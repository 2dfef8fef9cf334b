// The line that a row gives at a leaf.
ghost use Rattle.std.specs.Prelude.{[], ◌∷◌};
ghost use Rattle.plan.specs.Leaves.{opens, leaf_lines};
ghost use Rattle.candidates.specs.Seeking.{Single};

use ordered::Few;
use plan::{Field, PlanLeaf};
use store::Row;

// The line that a row gives here, if it is of the relation and has the constants: its numbers at the open fields.
pub fn line_of(leaf: &PlanLeaf, row: &Row) -> Option<[u32; 8]>
    ensures { Single (leaf_lines leaf.now.relation leaf.now.fields (row.now ∷ [])) (opens leaf.now.fields) result }
{
    if row.relation != leaf.relation {
        return None;
    }
    // One pass tests the fixed columns and gathers the open ones, and ends where one fails; `all` and then a `filter` would be two,
    // and a `Few` is not collected into.
    let mut open = Few::<u32, 4>::new(0);
    for (field, column) in leaf.fields.iter().zip(&row.columns) {
        match *field {
            Field::Open => open.push(*column),
            Field::Fixed(constant) => {
                if constant != *column {
                    return None;
                }
            }
        }
    }
    let mut line = [0; 8];
    line[..open.len()].copy_from_slice(open.as_slice());
    Some(line)
}
