// One round over any source: fill it, take the rule, empty it and fill it again.
use crate::costs::Costs;
use crate::load::Load;
use crate::trouble::Trouble;
use book::{Book, Refusal};
use std::time::Instant;
use store::{Row, Source};

const NANOSECONDS: f64 = 1000000000.0;

// What each call of a round costs; the source comes empty, with relations 3 and 4.
pub(crate) fn round<S: Source + Drop>(
    rt: &HostRuntime,
    source: S,
    load: Load,
    rows: u32,
) -> Result<Costs, Trouble> {
    let mut book = Book::open(source);
    each_row(load, rows, |row| book.entry(&row))?;
    let start = Instant::now(rt)?;
    book.rule(load.atoms(), &load.comparisons())?;
    let rule = start.elapsed(rt)?;
    let start = Instant::now(rt)?;
    each_row(load, rows, |row| book.strike(&row))?;
    let strikes = start.elapsed(rt)?;
    let start = Instant::now(rt)?;
    each_row(load, rows, |row| book.entry(&row))?;
    let entries = start.elapsed(rt)?;
    Ok(Costs {
        entry: entries.as_secs_f64() * NANOSECONDS / f64::from(rows),
        strike: strikes.as_secs_f64() * NANOSECONDS / f64::from(rows),
        rule: rule.as_secs_f64() * NANOSECONDS,
    })
}

// Does a call with each of the first so many rows of a load.
fn each_row<F: FnMut(Row) -> Result<usize, Refusal>>(
    load: Load,
    rows: u32,
    mut call: F,
) -> Result<(), Refusal>
    requires { F.IsAlwaysCallable call }
{
    for number in 0..rows {
        call(load.row(number))?;
    }
    Ok(())
}
