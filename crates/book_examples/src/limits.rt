// The most rows, rules and conflicts.
use crate::desk::{Desk, enter_parties, open_desk};
use crate::telling;
use book::Refusal;
use rink::{always, one_club, party, row};
use std::io;

pub(crate) fn full_table(rt: &HostRuntime) -> io::Result<()> {
    let mut desk = open_desk();
    let entered = enter_parties(&mut desk, 64);
    telling::call(rt, "64 rows", entered)?;
    let refused = desk.entry(&party(1, 9, 64));
    telling::call(rt, "the 65th row", refused)
}

// 46 parties are 1,035 pairs, so the rule is refused, and the rules and the conflicts stay.
pub(crate) fn conflicts_of_a_rule(rt: &HostRuntime) -> io::Result<()> {
    let mut desk = open_desk();
    let entered = enter_parties(&mut desk, 46);
    telling::call(rt, "46 parties, no rule", entered)?;
    let ruled = desk.rule(&[1], &[]);
    telling::call(rt, "no row of relation 1", ruled)?;
    let held = desk.entry(&row(1, 1, 9));
    telling::call(rt, "a row of relation 1", held)?;
    counts(rt, "before the rule", &desk)?;
    let refused = desk.rule(&[3, 3], &one_club());
    telling::call(rt, "one club to a pad and slot, with 46 parties", refused)?;
    counts(rt, "after the rule", &desk)
}

fn counts(rt: &HostRuntime, shown: &str, desk: &Desk) -> io::Result<()> {
    let rules = desk.log.rules.len();
    let conflicts = desk.conflicts();
    println!(rt; "{shown}: rules {rules}, conflicts {conflicts}")
}

pub(crate) fn sixteen_rules(rt: &HostRuntime) -> io::Result<()> {
    let mut desk = open_desk();
    let ruled = sixteen(&mut desk);
    telling::call(rt, "sixteen rules", ruled)?;
    let refused = desk.rule(&[0], &[always()]);
    telling::call(rt, "the seventeenth rule", refused)
}

fn sixteen(desk: &mut Desk) -> Result<(), Refusal> {
    for _ in 0..16 {
        desk.rule(&[0], &[always()])?;
    }
    Ok(())
}
