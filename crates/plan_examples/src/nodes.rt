// Short words for nodes.
ghost use Rattle.std.specs.Prelude.{◌≡◌, [], ◌∷◌};

use plan::{Comparison, Field, Node, Side};
use store::Sign;

pub(crate) fn leaf(relation: u16, arity: u8, fields: [Field; 4]) -> Node
    ensures { result ≡ Node.Leaf relation arity fields }
{
    Node::Leaf {
        relation,
        arity,
        fields,
    }
}

// The rows of a relation of arity 2 with this second column.
pub(crate) fn second(relation: u16, column: u32) -> Node
    ensures { result ≡ Node.Leaf relation 2 (Field.Open ∷ Field.Fixed column ∷ Field.Open ∷ Field.Open ∷ []) }
{
    let fields = [Field::Open, Field::Fixed(column), Field::Open, Field::Open];
    leaf(relation, 2, fields)
}

pub(crate) fn choice(node: u8, left: Side, sign: Sign, right: Side) -> Node {
    Node::Choice {
        node,
        comparison: Comparison { left, sign, right },
    }
}
