// The lines that the examples print.
use crate::desk::Desk;
use book::{Forbidden, Refusal};
use fault::Notice;
use std::io;
use store::Row;

// Says how a call went: taken, or refused with its number, layer and position.
pub(crate) fn call<T: Drop>(
    rt: &HostRuntime,
    shown: &str,
    outcome: Result<T, Refusal>,
) -> io::Result<()> {
    match outcome {
        Ok(_) => println!(rt; "{shown}: taken"),
        Err(refusal) => refused(rt, shown, refusal),
    }
}

pub(crate) fn refused(rt: &HostRuntime, shown: &str, refusal: Refusal) -> io::Result<()> {
    let notice = Notice::from(refusal);
    let number = notice.number;
    let layer = notice.layer;
    let position = notice.position;
    println!(rt; "{shown}: refused {number} {layer} {position}")
}

pub(crate) fn count(rt: &HostRuntime, shown: &str, desk: &Desk) -> io::Result<()> {
    let conflicts = desk.conflicts();
    println!(rt; "{shown}: conflicts {conflicts}")
}

// Says a conflict: its rule, and its rows in order of place.
pub(crate) fn conflict(
    rt: &HostRuntime,
    shown: &str,
    desk: &Desk,
    number: usize,
) -> io::Result<()> {
    match desk.conflict(number) {
        Ok(forbidden) => rule_and_rows(rt, shown, &forbidden),
        Err(refusal) => refused(rt, shown, refusal),
    }
}

fn rule_and_rows(rt: &HostRuntime, shown: &str, forbidden: &Forbidden) -> io::Result<()> {
    let rule = forbidden.rule;
    print!(rt; "{shown}: rule {rule} forbids")?;
    rows(rt, forbidden.rows.as_slice())
}

// Ends a line with these rows.
pub(crate) fn rows(rt: &HostRuntime, rows: &[Row]) -> io::Result<()> {
    for row in rows {
        let relation = row.relation;
        let columns = &row.columns;
        print!(rt; " {relation}{columns:?}")?;
    }
    println!(rt; "")
}
