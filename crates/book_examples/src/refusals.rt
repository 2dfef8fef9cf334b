// The rules that are refused for what they say, and the conflicts that are not there.
use crate::desk::open_desk;
use crate::telling;
use rink::{always, both, row};
use rules::Comparison;
use std::io;
use store::Sign;

pub(crate) fn malformed(rt: &HostRuntime) -> io::Result<()> {
    let mut desk = open_desk();
    let none = desk.rule(&[], &[]);
    telling::call(rt, "a rule with no atom", none)?;
    let four = desk.rule(&[3, 3, 3, 3], &[]);
    telling::call(rt, "a rule with four atoms", four)?;
    let seven = desk.rule(&[3], &[always(); 7]);
    telling::call(rt, "a rule with seven comparisons", seven)?;
    let most = desk.rule(&[3, 3, 3], &[always(); 6]);
    telling::call(rt, "a rule with three atoms and six comparisons", most)
}

// Relation 9 is not declared.
pub(crate) fn undeclared_atoms(rt: &HostRuntime) -> io::Result<()> {
    let mut desk = open_desk();
    let first = desk.rule(&[9, 9, 9], &[]);
    telling::call(rt, "a rule with the atoms 9 9 9", first)?;
    let second = desk.rule(&[3, 9, 9], &[]);
    telling::call(rt, "a rule with the atoms 3 9 9", second)?;
    let third = desk.rule(&[3, 3, 9], &[]);
    telling::call(rt, "a rule with the atoms 3 3 9", third)
}

// Two atoms, and a comparison that names a third.
pub(crate) fn no_such_atom(rt: &HostRuntime) -> io::Result<()> {
    let third = both(0, Sign::Less, 2, 0);
    each_of_six(rt, "a0.0<a2.0 with two atoms", &[3, 3], third)
}

// Relation 4 has two columns, and a comparison names a third.
pub(crate) fn no_such_column(rt: &HostRuntime) -> io::Result<()> {
    let third = both(0, Sign::Equal, 1, 2);
    each_of_six(rt, "a0.2=a1.2 with the atoms 3 4", &[3, 4], third)
}

// A rule with a comparison that is refused, in each of six places in turn.
fn each_of_six(
    rt: &HostRuntime,
    shown: &str,
    atoms: &[u16],
    refused: Comparison,
) -> io::Result<()> {
    for place in 0..6usize {
        let mut comparisons = [always(); 6];
        comparisons[place] = refused;
        print!(rt; "comparison {place} of six, ")?;
        telling::call(rt, shown, open_desk().rule(atoms, &comparisons))?;
    }
    Ok(())
}

pub(crate) fn no_such_conflict(rt: &HostRuntime) -> io::Result<()> {
    let mut desk = open_desk();
    let ruled = desk.rule(&[2], &[]);
    telling::call(rt, "no row of relation 2", ruled)?;
    let held = desk.entry(&row(2, 1, 9));
    telling::call(rt, "a row of relation 2", held)?;
    telling::count(rt, "with that row", &desk)?;
    telling::conflict(rt, "conflict 0", &desk, 0)?;
    telling::conflict(rt, "conflict 1", &desk, 1)?;
    telling::conflict(rt, "conflict 1000000", &desk, 1000000)
}
