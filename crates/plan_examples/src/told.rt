// What `fill` says of nodes.
use crate::nodes::*;
use fault::Notice;
use plan::{Field, Node, Op, Plan, Side};
use std::{array, io};
use store::Sign;

// Says how wide the plan of these nodes is, or why they make none.
fn tell(rt: &HostRuntime, name: &str, nodes: &[Node]) -> io::Result<()> {
    match Plan::of(nodes) {
        Ok(plan) => {
            let width = plan.width();
            let leaves = plan.leaves();
            println!(rt; "{name}: width {width}, leaves {leaves}")
        }
        Err(refusal) => {
            let Notice {
                number,
                position,
                ..
            } = Notice::from(refusal);
            println!(rt; "{name}: refused {number} at {position}")
        }
    }
}

// A leaf, and choices one over the other.
fn tower() -> [Node; 16] {
    array::from_fn(|k| match k as u8 {
        0 => Node::open(0, 1),
        k => choice(k - 1, Side::Column(0), Sign::Greater, Side::Constant(0)),
    })
}

// Seven leaves, and the union of them all.
fn seven() -> [Node; 13] {
    array::from_fn(|k| match k as u8 {
        0..=6 => Node::open(0, 1),
        7 => Node::pair(Op::Union, 0, 1),
        k => Node::pair(Op::Union, k - 1, k - 6),
    })
}

// Plans that are accepted.
pub(crate) fn accepted(rt: &HostRuntime) -> io::Result<()> {
    tell(rt, "open leaf of arity 1", &[Node::open(0, 1)])?;
    tell(rt, "open leaf of arity 2", &[Node::open(0, 2)])?;
    tell(rt, "open leaf of arity 3", &[Node::open(0, 3)])?;
    tell(rt, "open leaf of arity 4", &[Node::open(0, 4)])?;
    tell(rt, "a leaf with a constant", &[second(1, 7)])?;
    tell(
        rt,
        "eight columns",
        &[
            Node::open(1, 4),
            Node::open(2, 4),
            Node::pair(Op::Product, 0, 1),
        ],
    )?;
    tell(rt, "sixteen nodes", &tower())?;
    let six = [
        Node::open(0, 1),
        Node::open(0, 1),
        Node::open(0, 1),
        Node::open(0, 1),
        Node::open(0, 1),
        Node::open(0, 1),
        Node::pair(Op::Union, 0, 1),
        Node::pair(Op::Union, 2, 3),
        Node::pair(Op::Difference, 4, 5),
        Node::pair(Op::Product, 6, 7),
        Node::pair(Op::Product, 8, 9),
    ];
    tell(rt, "six leaves", &six)
}

// Refusals 31 and 32: how many nodes there are, and how they name one another.
pub(crate) fn misnamed(rt: &HostRuntime) -> io::Result<()> {
    let column = Side::Column(0);
    let one = Side::Constant(1);
    let over = choice(1, column, Sign::Equal, one);
    tell(rt, "no node", &[])?;
    tell(rt, "seventeen nodes", &[Node::open(0, 1); 17])?;
    tell(rt, "a node that names itself", &[Node::open(0, 1), over])?;
    tell(
        rt,
        "a node that names a later one",
        &[
            Node::open(0, 1),
            Node::pair(Op::Product, 0, 2),
            Node::open(0, 1),
        ],
    )?;
    tell(
        rt,
        "a node that none names",
        &[Node::open(0, 1), Node::open(0, 1), over],
    )?;
    tell(
        rt,
        "a node that is named twice",
        &[
            Node::open(0, 1),
            Node::open(0, 1),
            Node::pair(Op::Product, 0, 1),
            Node::pair(Op::Union, 1, 2),
        ],
    )?;
    tell(
        rt,
        "a late name counts before a stray node",
        &[
            Node::open(0, 1),
            Node::open(0, 1),
            Node::pair(Op::Union, 1, 2),
        ],
    )
}

// Refusal 33: the leaves.
pub(crate) fn poor(rt: &HostRuntime) -> io::Result<()> {
    let shut = leaf(
        0,
        2,
        [Field::Fixed(1), Field::Fixed(2), Field::Open, Field::Open],
    );
    tell(rt, "arity 0", &[Node::open(0, 0)])?;
    tell(
        rt,
        "arity 5",
        &[
            Node::open(0, 1),
            Node::open(0, 5),
            Node::pair(Op::Union, 0, 1),
        ],
    )?;
    tell(
        rt,
        "no open column",
        &[
            Node::open(0, 1),
            Node::open(0, 1),
            shut,
            Node::pair(Op::Union, 0, 1),
            Node::pair(Op::Union, 2, 3),
        ],
    )?;
    tell(rt, "seven leaves", &seven())?;
    tell(
        rt,
        "a leaf counts before a width",
        &[
            Node::open(0, 2),
            Node::open(0, 0),
            Node::pair(Op::Union, 0, 1),
        ],
    )
}

// Refusal 34: the widths.
pub(crate) fn unfit(rt: &HostRuntime) -> io::Result<()> {
    let left = Side::Column(0);
    let right = Side::Column(2);
    let over = choice(0, left, Sign::Less, right);
    tell(
        rt,
        "a compared column that is not there",
        &[Node::open(0, 2), over],
    )?;
    tell(
        rt,
        "a union of unequal widths",
        &[
            Node::open(0, 1),
            Node::open(0, 2),
            Node::pair(Op::Union, 0, 1),
        ],
    )?;
    tell(
        rt,
        "a difference of unequal widths",
        &[
            Node::open(0, 3),
            Node::open(0, 2),
            Node::pair(Op::Difference, 0, 1),
        ],
    )?;
    let nine = [
        Node::open(0, 4),
        Node::open(0, 4),
        Node::pair(Op::Product, 0, 1),
        Node::open(0, 1),
        Node::pair(Op::Product, 2, 3),
    ];
    tell(rt, "nine columns", &nine)?;
    let two = [
        Node::open(0, 1),
        Node::open(0, 2),
        Node::pair(Op::Union, 0, 1),
        Node::open(0, 4),
        Node::pair(Op::Difference, 2, 3),
    ];
    tell(rt, "the first of two that fail", &two)
}
