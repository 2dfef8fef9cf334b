// Examples of a book over a table, a line for each thing that they show.
#![tactic(auto)]

use std::io;

mod counts;
mod desk;
mod lent;
mod limits;
mod plains;
mod refusals;
mod shapes;
mod telling;

fn main(rt: HostRuntime) -> io::Result<()> {
    counts::many_conflicts(&rt)?;
    limits::full_table(&rt)?;
    limits::conflicts_of_a_rule(&rt)?;
    limits::sixteen_rules(&rt)?;
    shapes::three_atoms(&rt)?;
    shapes::one_atom(&rt)?;
    shapes::two_rules(&rt)?;
    refusals::malformed(&rt)?;
    refusals::undeclared_atoms(&rt)?;
    refusals::no_such_atom(&rt)?;
    refusals::no_such_column(&rt)?;
    refusals::no_such_conflict(&rt)?;
    plains::answers(&rt)?;
    plains::wrong_arities(&rt)?;
    plains::wrong_lines(&rt)?;
    lent::verdicts(&rt)?;
    lent::sheets(&rt)
}
