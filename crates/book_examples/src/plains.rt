// Plain answers: what holds over all rows held, whether they contradict each other or not.
ghost use Rattle.std.specs.Prelude.{◌≡◌, None};
ghost use Rattle.plan.specs.Filling.{fill_refusal};
ghost use Rattle.plan.specs.Plans.{nodes_of};

use crate::desk::open_desk;
use crate::telling;
use plan::{Line, Node, Op, Plan};
use rink::row;
use std::io;

// The plan of these nodes, where they make one.
pub(crate) fn plan_of(nodes: &[Node]) -> Plan
    ensures { fill_refusal nodes.now ≡ None → nodes_of result ≡ nodes.now }
{
    Plan::of(nodes).unwrap_or(Plan::new())
}

// Relation 0 at this pad and slot, but not relation 1.
fn ice_not_held() -> Plan {
    plan_of(&[
        Node::open(0, 2),
        Node::open(1, 2),
        Node::pair(Op::Difference, 0, 1),
    ])
}

fn told(rt: &HostRuntime, shown: &str, answer: Result<bool, book::Refusal>) -> io::Result<()> {
    match answer {
        Ok(answer) => println!(rt; "{shown}: {answer}"),
        Err(refusal) => telling::refused(rt, shown, refusal),
    }
}

pub(crate) fn answers(rt: &HostRuntime) -> io::Result<()> {
    let mut desk = open_desk();
    let there = Line {
        columns: [1, 40, 0, 0, 0, 0, 0, 0],
    };
    let ice = desk.entry(&row(0, 1, 40));
    telling::call(rt, "ice on pad 1 at slot 40", ice)?;
    told(
        rt,
        "plainly ice",
        desk.plain(&plan_of(&[Node::open(0, 2)]), &there),
    )?;
    told(
        rt,
        "plainly ice and not held",
        desk.plain(&ice_not_held(), &there),
    )?;
    let held = desk.entry(&row(1, 1, 40));
    telling::call(rt, "pad 1 is held at slot 40", held)?;
    told(
        rt,
        "plainly ice",
        desk.plain(&plan_of(&[Node::open(0, 2)]), &there),
    )?;
    told(
        rt,
        "plainly ice and not held",
        desk.plain(&ice_not_held(), &there),
    )
}

// The source tells arity 2 for relations 0 and 1, 3 for relation 3, and none for relation 9.
pub(crate) fn wrong_arities(rt: &HostRuntime) -> io::Result<()> {
    let desk = open_desk();
    let line = Line { columns: [0; 8] };
    told(rt, "the plan at first", desk.plain(&Plan::new(), &line))?;
    told(
        rt,
        "relation 9",
        desk.plain(&plan_of(&[Node::open(9, 2)]), &line),
    )?;
    let second = plan_of(&[
        Node::open(0, 2),
        Node::open(3, 2),
        Node::pair(Op::Product, 0, 1),
    ]);
    told(
        rt,
        "relation 3 of arity 2, after relation 0",
        desk.plain(&second, &line),
    )
}

// A line of three columns, and then a number that is not zero.
pub(crate) fn wrong_lines(rt: &HostRuntime) -> io::Result<()> {
    let desk = open_desk();
    let plan = plan_of(&[Node::open(3, 3)]);
    for column in 3..8usize {
        let mut columns = [0; 8];
        columns[column] = 1;
        columns[7] = 1;
        print!(rt; "column {column} of a line of three, ")?;
        told(rt, "not zero", desk.plain(&plan, &Line { columns }))?;
    }
    let fits = Line {
        columns: [1, 9, 7, 0, 0, 0, 0, 0],
    };
    told(rt, "a line of three", desk.plain(&plan, &fits))
}
