// Which lines are answers over a few rows.
use crate::answers::is_answer;
use crate::nodes::*;
use plan::{Line, Node, Op, Plan, Side};
use rink::row;
use std::io;
use store::{Row, Sign};

// Relation 1 says who skates in which hall, relation 2 which halls are open; relation 3 has pairs of numbers.
pub(crate) fn rows() -> [Row; 8] {
    [
        row(0, 4, 0),
        row(1, 1, 7),
        row(1, 2, 7),
        row(1, 2, 8),
        row(2, 7, 0),
        row(2, 9, 9),
        row(3, 5, 5),
        row(3, 5, 6),
    ]
}

// Says of two lines whether they are answers of the plan. Each question is a call and no row of a table: a row would
// take as many lines.
fn ask(
    rt: &HostRuntime,
    name: &str,
    nodes: &[Node],
    first: [u32; 8],
    second: [u32; 8],
) -> io::Result<()> {
    let Ok(plan) = Plan::of(nodes) else {
        return println!(rt; "{name}: refused");
    };
    let rows = rows();
    let a = is_answer(&plan, &rows, &Line { columns: first });
    let b = is_answer(&plan, &rows, &Line { columns: second });
    println!(rt; "{name}: {first:?} {a}, {second:?} {b}")
}

// Leaves alone, and each way to compare.
pub(crate) fn leaves_and_choices(rt: &HostRuntime) -> io::Result<()> {
    let zero = Side::Column(0);
    let one = Side::Column(1);
    ask(
        rt,
        "leaf",
        &[Node::open(1, 2)],
        [2, 8, 0, 0, 0, 0, 0, 0],
        [1, 8, 0, 0, 0, 0, 0, 0],
    )?;
    ask(
        rt,
        "a column past the width",
        &[Node::open(1, 2)],
        [2, 8, 0, 0, 0, 0, 0, 0],
        [2, 8, 0, 0, 0, 0, 0, 1],
    )?;
    ask(
        rt,
        "a row with more columns",
        &[Node::open(2, 1)],
        [7, 0, 0, 0, 0, 0, 0, 0],
        [9, 0, 0, 0, 0, 0, 0, 0],
    )?;
    ask(
        rt,
        "constant",
        &[second(1, 8)],
        [2, 0, 0, 0, 0, 0, 0, 0],
        [1, 0, 0, 0, 0, 0, 0, 0],
    )?;
    ask(
        rt,
        "equal columns",
        &[Node::open(3, 2), choice(0, zero, Sign::Equal, one)],
        [5, 5, 0, 0, 0, 0, 0, 0],
        [5, 6, 0, 0, 0, 0, 0, 0],
    )?;
    ask(
        rt,
        "unequal columns",
        &[Node::open(3, 2), choice(0, zero, Sign::Unequal, one)],
        [5, 5, 0, 0, 0, 0, 0, 0],
        [5, 6, 0, 0, 0, 0, 0, 0],
    )?;
    ask(
        rt,
        "column and constant",
        &[
            Node::open(1, 2),
            choice(0, zero, Sign::Greater, Side::Constant(1)),
        ],
        [1, 7, 0, 0, 0, 0, 0, 0],
        [2, 7, 0, 0, 0, 0, 0, 0],
    )?;
    ask(
        rt,
        "two constants",
        &[
            Node::open(1, 2),
            choice(0, Side::Constant(2), Sign::Less, Side::Constant(1)),
        ],
        [1, 7, 0, 0, 0, 0, 0, 0],
        [2, 7, 0, 0, 0, 0, 0, 0],
    )
}

// Pairs, and the leaf that a plan is at first.
pub(crate) fn pairs(rt: &HostRuntime) -> io::Result<()> {
    let same_hall = choice(2, Side::Column(0), Sign::Equal, Side::Column(2));
    let join = [
        Node::open(2, 1),
        Node::open(1, 2),
        Node::pair(Op::Product, 0, 1),
        same_hall,
    ];
    ask(
        rt,
        "skaters in open halls",
        &join,
        [7, 2, 7, 0, 0, 0, 0, 0],
        [7, 2, 8, 0, 0, 0, 0, 0],
    )?;
    let either = [second(1, 7), second(1, 8), Node::pair(Op::Union, 0, 1)];
    ask(
        rt,
        "in hall 7 or 8",
        &either,
        [1, 0, 0, 0, 0, 0, 0, 0],
        [3, 0, 0, 0, 0, 0, 0, 0],
    )?;
    let only = [second(1, 7), second(1, 8), Node::pair(Op::Difference, 0, 1)];
    ask(
        rt,
        "in hall 7 and not in 8",
        &only,
        [1, 0, 0, 0, 0, 0, 0, 0],
        [2, 0, 0, 0, 0, 0, 0, 0],
    )?;
    let plan = Plan::new();
    let first = is_answer(
        &plan,
        &rows(),
        &Line {
            columns: [4, 0, 0, 0, 0, 0, 0, 0],
        },
    );
    println!(rt; "at first: {first}")
}

// The leaves of a plan, and the row that a line names at each.
pub(crate) fn names(rt: &HostRuntime) -> io::Result<()> {
    let line = Line {
        columns: [7, 2, 8, 0, 0, 0, 0, 0],
    };
    let nodes = [
        Node::open(2, 1),
        Node::open(1, 2),
        Node::pair(Op::Product, 0, 1),
    ];
    let Ok(plan) = Plan::of(&nodes) else {
        return println!(rt; "refused");
    };
    for number in 0..3 {
        match (plan.leaf(number), plan.named(number, &line)) {
            (Some(leaf), Some(row)) => {
                let node = leaf.node;
                let relation = row.relation;
                let columns = row.columns;
                println!(rt; "leaf {number}: node {node}, relation {relation}, row {columns:?}")?;
            }
            _ => println!(rt; "leaf {number}: none")?,
        }
    }
    Ok(())
}
