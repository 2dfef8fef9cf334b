// A page in memory: opened as a source, rows put and struck, a book kept over it, and what its bytes came to.
#![tactic(auto)]

mod entering;
mod keeping;
mod minutes;
mod morning;
mod showing;

use entering::{Hindrance, enter};
use morning::morning;
use page::{Page, write_page};
use rink::{ARITIES, party, row};
use showing::{show_bytes, show_check, show_rows, tell};
use std::io;
use store::{Row, Source};

// Puts and strikes rows, and tells what the page answered.
fn change(rt: &HostRuntime, arities: &[u8], bytes: &mut [u8]) -> io::Result<()> {
    let mut page = Page::open(arities, bytes);
    for (asked, row) in [
        ("put 0: 7 258", row(0, 7, 258)),
        ("put 1: 4294967295", row(1, 4294967295, 0)),
        ("put 0: 7 258", row(0, 7, 258)),
        ("put 1: 5 6", row(1, 5, 6)),
        ("put 2: 5 6", row(2, 5, 6)),
    ] {
        tell(rt, asked, page.put(&row).map_err(Hindrance::from))?;
    }
    for row in [row(0, 7, 258); 2] {
        tell(
            rt,
            "strike 0: 7 258",
            page.strike(&row).map_err(Hindrance::from),
        )?;
    }
    Ok(())
}

// Puts rows by a call that takes the bytes.
fn fill(rt: &HostRuntime, arities: &[u8], bytes: &mut [u8]) -> io::Result<()> {
    for (asked, row) in [
        ("enter 0: 1 2", row(0, 1, 2)),
        ("enter 0: 1 2", row(0, 1, 2)),
        ("enter 3: 8 8", row(3, 8, 8)),
        ("enter 0: 1 3", row(0, 1, 3)),
    ] {
        tell(rt, asked, enter(arities, bytes, &row))?;
    }
    Ok(())
}

// Keeps a book over a page of five places, and then over bytes that are no page.
fn keep_books(rt: &HostRuntime) -> io::Result<()> {
    let mut bytes = [0; 100];
    let ice = Some(row(0, 1, 40));
    let taken = Some(party(1, 40, 7));
    let _ = write_page(&[ice, None, taken, None, None], &mut bytes);
    show_bytes(rt, &bytes)?;
    morning(rt, &mut bytes)?;
    show_check(rt, &ARITIES, &bytes)?;
    show_bytes(rt, &bytes)?;
    show_rows(rt, &ARITIES, &mut bytes)?;
    bytes[20] = 0;
    morning(rt, &mut bytes)
}

fn main(rt: HostRuntime) -> io::Result<()> {
    let arities = [2, 1, 0, 4];
    let mut bytes = [0; 100];
    show_check(&rt, &arities, &bytes)?;
    let _ = write_page(&[None; 5], &mut bytes);
    show_check(&rt, &arities, &bytes)?;
    show_bytes(&rt, &bytes)?;
    change(&rt, &arities, &mut bytes)?;
    show_bytes(&rt, &bytes)?;
    fill(&rt, &arities, &mut bytes)?;
    show_check(&rt, &arities, &bytes)?;
    show_bytes(&rt, &bytes)?;
    show_rows(&rt, &arities, &mut bytes)?;
    bytes[41] = 0;
    show_check(&rt, &arities, &bytes)?;
    let told = enter(&arities, &mut bytes, &row(0, 5, 5));
    tell(&rt, "enter 0: 5 5", told)?;
    show_rows(&rt, &arities, &mut bytes)?;
    keep_books(&rt)
}
