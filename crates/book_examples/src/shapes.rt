// Rules with three atoms and with one, and two rules that forbid the same rows.
use crate::desk::open_desk;
use crate::telling;
use rink::{both, one_club, party, row, three_flooded, with_number};
use std::io;
use store::Sign;

// No three pads are flooded at one slot. The rows stand in the order in which they came, and not in the order of the atoms.
pub(crate) fn three_atoms(rt: &HostRuntime) -> io::Result<()> {
    let mut desk = open_desk();
    let ruled = desk.rule(&[4, 4, 4], &three_flooded());
    telling::call(rt, "not three pads flooded at one slot", ruled)?;
    let second = desk.entry(&row(4, 2, 9));
    telling::call(rt, "pad 2 is flooded", second)?;
    let third = desk.entry(&row(4, 3, 9));
    telling::call(rt, "pad 3 is flooded", third)?;
    telling::count(rt, "two pads flooded", &desk)?;
    let first = desk.entry(&row(4, 1, 9));
    telling::call(rt, "pad 1 is flooded", first)?;
    telling::count(rt, "three pads flooded", &desk)?;
    telling::conflict(rt, "three rows, in order of place", &desk, 0)
}

pub(crate) fn one_atom(rt: &HostRuntime) -> io::Result<()> {
    let mut desk = open_desk();
    let past_five = [with_number(0, 0, Sign::Greater, 5)];
    let ruled = desk.rule(&[1], &past_five);
    telling::call(rt, "none held on a pad past 5", ruled)?;
    let fifth = desk.entry(&row(1, 5, 9));
    telling::call(rt, "pad 5 is held", fifth)?;
    let sixth = desk.entry(&row(1, 6, 9));
    telling::call(rt, "pad 6 is held", sixth)?;
    telling::count(rt, "pads 5 and 6 held", &desk)?;
    telling::conflict(rt, "a row alone", &desk, 0)
}

// Rule 0 forbids nothing here; rules 1 and 2 forbid the same two parties.
pub(crate) fn two_rules(rt: &HostRuntime) -> io::Result<()> {
    let mut desk = open_desk();
    let apart = desk.rule(&[0, 1], &[both(0, Sign::Equal, 1, 0)]);
    telling::call(rt, "rule 0, of other relations", apart)?;
    let ruled = desk.rule(&[3, 3], &one_club());
    telling::call(rt, "rule 1, one club to a pad and slot", ruled)?;
    let again = desk.rule(&[3, 3], &[both(0, Sign::Equal, 1, 0)]);
    telling::call(rt, "rule 2, one party to a pad", again)?;
    let one = desk.entry(&party(1, 9, 1));
    telling::call(rt, "a party", one)?;
    let other = desk.entry(&party(1, 9, 2));
    telling::call(rt, "another party there", other)?;
    telling::count(rt, "two parties that two rules forbid", &desk)?;
    telling::conflict(rt, "two rows, with the least rule", &desk, 0)
}
