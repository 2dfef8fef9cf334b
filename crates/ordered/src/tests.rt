// Lines of eight numbers in order: an example of each function, and how a type is ordered by a key.
ghost use Rattle.std.proofs.Common.{rules};
ghost use Rattle.std.specs.Cmp.Rules.{comparing};
ghost use Rattle.std.specs.Ordering.{nat_cmp, on};

use super::*;
use std::cmp::Ordering;

#[derive(Clone, Copy, PartialEq, Eq, PartialOrd, Ord)]
struct Line {
    columns: [u32; 8],
}

fn line_of(first: u32, last: u32) -> Line {
    Line {
        columns: [first, 0, 0, 0, 0, 0, 0, last],
    }
}

// Ordered by its number alone: two of one number belong at one place, and are not `==` where their notes differ.
#[derive(Clone, Copy, PartialEq, Eq)]
struct Noted {
    number: u32,
    note: u32,
}

impl Ordered for Noted {
    ghost order = { on (λ n. n.number) nat_cmp };

    ghost orderly = { Prim.search (comparing, rules) };

    fn compare(&self, other: &Noted) -> Ordering {
        self.number.cmp(&other.number)
    }
}

#[test]
fn two_places(rt: HostRuntime) {
    let mut lines = [line_of(0, 0); 2];
    assert!(rt; enter(&mut lines, 0, line_of(5, 1)).is_ok());
    assert_eq!(rt; enter(&mut lines, 1, line_of(3, 0)).ok(), Some(2));
    assert_eq!(rt;
        enter(&mut lines, 2, line_of(5, 1)).ok(),
        Some(2),
        "it is in already"
    );
    assert!(rt;
        enter(&mut lines, 2, line_of(4, 0)).is_err(),
        "there is no place left"
    );
    assert_eq!(rt; find(&lines, 2, &line_of(4, 0)), Err(1));
}

#[test]
fn a_key_decides(rt: HostRuntime) {
    let held = Noted { number: 4, note: 0 };
    let again = Noted { number: 4, note: 7 };
    let mut noted = [held; 3];
    assert_eq!(rt;
        enter(&mut noted, 1, again).ok(),
        Some(1),
        "one of its number is in already"
    );
    assert!(rt; noted[0] == held);
    assert!(rt; held != again);
    assert_eq!(rt; find(&noted, 1, &again), Ok(0));
}

#[test]
fn what_passes_stays(rt: HostRuntime) {
    let mut lines = [line_of(3, 0), line_of(5, 0), line_of(4, 1)];
    assert_eq!(rt; retain(&mut lines, 3, |line| line.columns[0] < 5), 2);
    assert_eq!(rt; find(&lines, 2, &line_of(4, 1)), Ok(1));
}

#[test]
fn columns_decide_in_turn(rt: HostRuntime) {
    assert_eq!(rt;
        [1u32, 2].as_slice().cmp(&[1, 3].as_slice()),
        Ordering::Less
    );
    assert_eq!(rt;
        [1u32, 2, 0].as_slice().cmp(&[1u32, 2].as_slice()),
        Ordering::Greater
    );
    assert_eq!(rt; [7u32].as_slice().cmp(&[7].as_slice()), Ordering::Equal);
}
