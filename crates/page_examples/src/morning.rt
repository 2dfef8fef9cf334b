// A morning's calls, done on a book over a page.
use crate::keeping::keep;
use crate::minutes::Minutes;
use crate::showing::{show_check, tell_outcome};
use book::Call;
use plan::{Line, Node, Plan};
use rink::{ARITIES, both, party, row};
use std::io;
use store::{Row, Sign};

// Keeps a book over the bytes, where they are a page of the rink's rows, and prints what came of each call.
pub(crate) fn morning(rt: &HostRuntime, bytes: &mut [u8]) -> io::Result<()> {
    let one_slot = [both(0, Sign::Equal, 1, 0), both(0, Sign::Equal, 1, 1)];
    let held_not_void = Call::Rule {
        atoms: &[1, 2],
        comparisons: &one_slot,
    };
    let undeclared = Call::Rule {
        atoms: &[3, 9],
        comparisons: &[],
    };
    let held = Plan::of(&[Node::open(1, 2)]).unwrap_or(Plan::new());
    let is_held = Call::Verdict {
        plan: &held,
        line: Line {
            columns: [1, 40, 0, 0, 0, 0, 0, 0],
        },
        marks: 256,
        core: 12,
    };
    let asked = [
        ("rule 1 2 a0.0=a1.0 a0.1=a1.1", held_not_void),
        ("rule 3 9", undeclared),
        ("enter 1 1 40", Call::Enter(row(1, 1, 40))),
        ("enter 2 1 40", Call::Enter(row(2, 1, 40))),
        ("is 1 1 40 sure", is_held),
        ("enter 3 1 40 7", Call::Enter(party(1, 40, 7))),
        ("enter 3 1 40 9", Call::Enter(party(1, 40, 9))),
        ("enter 0 2 40", Call::Enter(row(0, 2, 40))),
        ("enter 7 2 40", Call::Enter(row(7, 2, 40))),
        ("strike 2 1 40", Call::Strike(row(2, 1, 40))),
        ("is 1 1 40 sure", is_held),
        ("strike 2 1 40", Call::Strike(row(2, 1, 40))),
    ];
    let calls = asked.map(|(_, call)| call);
    let mut minutes = Minutes::new();
    let kept = keep(
        &ARITIES,
        bytes,
        &calls,
        &mut [0; 256],
        &mut [Row::BLANK; 12],
        &mut [],
        &mut minutes,
    );
    if kept.is_err() {
        return show_check(rt, &ARITIES, bytes);
    }
    for ((asked, _), outcome) in asked.iter().zip(minutes.outcomes.as_slice()) {
        tell_outcome(rt, asked, outcome)?;
    }
    Ok(())
}
