// One leaf: what it asks of a row's columns, and the row that a line names there.
ghost use Rattle.std.specs.Prelude.{◌≡◌, ◌≤◌, List, ◌∷◌, length};
ghost use Rattle.plan.specs.declared.node.Field.{Field};
ghost use Rattle.plan.specs.Leaves.{fields_of, opens, filled, named};

use crate::node::Field;
use store::Row;

// A leaf of a plan.
#[derive(Clone, Copy)]
pub struct PlanLeaf {
    // where it stands among the nodes
    pub node: usize,
    pub relation: u16,
    pub arity: u8,
    // those from the arity on are fixed at zero
    pub fields: [Field; 4],
}

impl PlanLeaf {
    // The leaf that stands at this place.
    pub fn new(node: usize, relation: u16, arity: u8, fields: [Field; 4]) -> PlanLeaf
        ensures { result ≡ record { node = node; relation = relation; arity = arity; fields = fields_of arity fields } }
    {
        let mut all = fields;
        all[(arity as usize).min(4)..].fill(Field::Fixed(0));
        PlanLeaf {
            node,
            relation,
            arity,
            fields: all,
        }
    }

    // How many columns its lines have: one for each open field.
    pub(crate) fn width(&self) -> usize
        ensures count { result ≡ opens self.now.fields }
        ensures few { result ≤ 4 }
    {
        self.fields
            .iter()
            .filter(|field| matches!(field, Field::Open))
            .count()
    }

    // The row that a line names here: the leaf's constants, and the line's numbers at its open fields.
    pub(crate) fn named(&self, line: &[u32]) -> Row
        requires { length line.now ≡ opens self.now.fields }
        ensures { result ≡ named self.now.relation self.now.fields line.now }
    {
        let mut numbers = line.iter();
        let columns = self.fields.map(
            |field|
                ensures { (fields : List Field) → filled (field ∷ fields) numbers.entry.rest.now ≡ result ∷ filled fields numbers.exit.rest.now }
            {
                match field {
                    Field::Open => *numbers.next().unwrap_or(&0),
                    Field::Fixed(constant) => constant,
                }
            },
        );
        Row {
            relation: self.relation,
            columns,
        }
    }
}
