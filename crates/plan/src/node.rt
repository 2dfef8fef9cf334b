// The nodes that a plan is made of.
ghost use Rattle.std.specs.Prelude.{◌≡◌, replicate};

// What a leaf asks of a column: nothing, so that it is part of the leaf's lines, or this constant.
#[derive(Clone, Copy)]
pub enum Field {
    Open,
    Fixed(u32),
}

// One side of what a choice compares: a column of the line, or a constant.
pub type Side = store::Side<u8>;

pub type Comparison = store::Comparison<u8>;

// How a pair makes its lines from those of its two nodes.
#[derive(Clone, Copy)]
pub enum Op {
    // each left line followed by each right line
    Product,
    // the lines of either side
    Union,
    // the left lines that are not on the right
    Difference,
}

// A node names others by their positions in the plan.
#[derive(Clone, Copy)]
pub enum Node {
    // the rows of a relation that have the constants; the fields from the arity on are not looked at
    Leaf {
        relation: u16,
        // any number can stand here: `fill` refuses what is no arity
        arity: u8,
        fields: [Field; 4],
    },
    // the lines of a node for which the comparison holds
    Choice {
        node: u8,
        comparison: Comparison,
    },
    Pair {
        op: Op,
        left: u8,
        right: u8,
    },
}

impl Node {
    // A leaf of this arity with every column open.
    pub fn open(relation: u16, arity: u8) -> Node
        ensures { result ≡ Node.Leaf relation arity (replicate 4 Field.Open) }
    {
        Node::Leaf {
            relation,
            arity,
            fields: [Field::Open; 4],
        }
    }

    // The pair of these two nodes.
    pub fn pair(op: Op, left: u8, right: u8) -> Node
        ensures { result ≡ Node.Pair op left right }
    {
        Node::Pair { op, left, right }
    }
}
