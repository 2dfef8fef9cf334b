// How many conflicts there are, and the most that there may be.
use crate::desk::{enter_parties, open_desk};
use crate::telling;
use rink::{one_club, party};
use std::io;
use store::Source;

// Each two parties are a conflict: 45 make 990, and 46 would make 1,035, more than 1,024.
pub(crate) fn many_conflicts(rt: &HostRuntime) -> io::Result<()> {
    let mut desk = open_desk();
    let ruled = desk.rule(&[3, 3], &one_club());
    telling::call(rt, "one club to a pad and slot", ruled)?;
    let entered = enter_parties(&mut desk, 45);
    telling::call(rt, "45 parties of 45 clubs on one pad at one slot", entered)?;
    telling::count(rt, "with 45 parties", &desk)?;
    let late = party(1, 9, 45);
    let refused = desk.entry(&late);
    telling::call(rt, "the 46th party", refused)?;
    telling::count(rt, "after the refusal", &desk)?;
    let held = desk.source.find(&late).is_some();
    println!(rt; "the 46th party is held: {held}")?;
    let struck = desk.strike(&party(1, 9, 7));
    telling::call(rt, "one party is struck", struck)?;
    telling::count(rt, "with 44 parties", &desk)
}
