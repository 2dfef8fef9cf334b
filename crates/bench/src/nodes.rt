// The nodes of the plans that are measured, written short.
use plan::{Comparison, Field, Node, Op, Side};
use store::Sign;

fn parties_with(fields: [Field; 4]) -> Node {
    Node::Leaf {
        relation: 3,
        arity: 3,
        fields,
    }
}

// The pads and slots that a club has.
fn of_club(club: u32) -> Node {
    parties_with([Field::Open, Field::Open, Field::Fixed(club), Field::Open])
}

// The slots and clubs that have a pad.
fn at_pad(pad: u32) -> Node {
    parties_with([Field::Fixed(pad), Field::Open, Field::Open, Field::Open])
}

// The lines of any of six leaves.
fn union([a, b, c, d, e, f]: [Node; 6]) -> [Node; 11] {
    [
        a,
        b,
        c,
        d,
        e,
        f,
        Node::pair(Op::Union, 0, 1),
        Node::pair(Op::Union, 6, 2),
        Node::pair(Op::Union, 7, 3),
        Node::pair(Op::Union, 8, 4),
        Node::pair(Op::Union, 9, 5),
    ]
}

// Two columns of a node's lines are equal.
fn equal(node: u8, left: u8, right: u8) -> Node {
    Node::Choice {
        node,
        comparison: Comparison {
            left: Side::Column(left),
            sign: Sign::Equal,
            right: Side::Column(right),
        },
    }
}

// The parties.
pub(crate) fn parties() -> [Node; 1] {
    [Node::open(3, 3)]
}

// The pads and slots that one of the first six clubs has.
pub(crate) fn six_clubs() -> [Node; 11] {
    union([0, 1, 2, 3, 4, 5].map(of_club))
}

// The slots and clubs that have one of the first six pads.
pub(crate) fn six_pads() -> [Node; 11] {
    union([0, 1, 2, 3, 4, 5].map(at_pad))
}

// Three slots and clubs: the first have pad 0 or 1, the second 2 or 3, the third 4 or 5.
pub(crate) fn three_pairs() -> [Node; 11] {
    [
        at_pad(0),
        at_pad(1),
        at_pad(2),
        at_pad(3),
        at_pad(4),
        at_pad(5),
        Node::pair(Op::Union, 0, 1),
        Node::pair(Op::Union, 2, 3),
        Node::pair(Op::Union, 4, 5),
        Node::pair(Op::Product, 6, 7),
        Node::pair(Op::Product, 9, 8),
    ]
}

// The pads and slots that are held and not void.
pub(crate) fn held_not_void() -> [Node; 3] {
    [
        Node::open(1, 2),
        Node::open(2, 2),
        Node::pair(Op::Difference, 0, 1),
    ]
}

// The pads and slots that are held or flooded and not void, or that club 0 or 1 has and club 4 has not.
pub(crate) fn mixed() -> [Node; 11] {
    [
        Node::open(1, 2),
        Node::open(4, 2),
        Node::open(2, 2),
        of_club(0),
        of_club(1),
        of_club(4),
        Node::pair(Op::Union, 0, 1),
        Node::pair(Op::Difference, 6, 2),
        Node::pair(Op::Union, 3, 4),
        Node::pair(Op::Difference, 8, 5),
        Node::pair(Op::Union, 7, 9),
    ]
}

// The parties whose pad is held at their slot, each after the held pad and slot.
pub(crate) fn joined() -> [Node; 5] {
    [
        Node::open(1, 2),
        Node::open(3, 3),
        Node::pair(Op::Product, 0, 1),
        equal(2, 0, 2),
        equal(3, 1, 3),
    ]
}
