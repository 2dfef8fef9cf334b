// The candidates of a few plans over a table, in ascending order.
use crate::asked::rows;
use crate::nodes::*;
use candidates::next_candidate;
use plan::{Node, Op, Plan, Side};
use std::io;
use store::{Sign, Source, Table};

// Lists the candidates of the plan, a line for each.
fn list(rt: &HostRuntime, table: &Table, name: &str, nodes: &[Node]) -> io::Result<()> {
    let Ok(plan) = Plan::of(nodes) else {
        return println!(rt; "{name}: refused");
    };
    println!(rt; "{name}")?;
    let mut next = next_candidate(table, &plan, None);
    while let Some(line) = next {
        let columns = line.columns;
        println!(rt; "  {columns:?}")?;
        next = next_candidate(table, &plan, Some(line));
    }
    Ok(())
}

// Of leaves, choices and pairs.
pub(crate) fn candidates(rt: &HostRuntime) -> io::Result<()> {
    let mut table = Table::new(&[1, 2, 2, 2]);
    for row in &rows() {
        if table.put(row).is_err() {
            return println!(rt; "refused");
        }
    }
    list(rt, &table, "candidates of a leaf", &[Node::open(1, 2)])?;
    let equal = choice(0, Side::Column(0), Sign::Equal, Side::Column(1));
    list(rt, &table, "of a choice", &[Node::open(3, 2), equal])?;
    let product = [
        Node::open(3, 2),
        Node::open(1, 2),
        Node::pair(Op::Product, 0, 1),
    ];
    list(rt, &table, "of a product", &product)?;
    let same_hall = choice(2, Side::Column(0), Sign::Equal, Side::Column(2));
    let join = [
        Node::open(2, 1),
        Node::open(1, 2),
        Node::pair(Op::Product, 0, 1),
        same_hall,
    ];
    list(rt, &table, "of skaters in open halls", &join)?;
    let either = [second(1, 7), second(1, 8), Node::pair(Op::Union, 0, 1)];
    list(rt, &table, "of those in hall 7 or 8", &either)?;
    let only = [second(1, 7), second(1, 8), Node::pair(Op::Difference, 0, 1)];
    list(rt, &table, "of those in hall 7 and not in 8", &only)?;
    list(rt, &table, "of an empty hall", &[second(1, 9)])
}
