// What the calls of a book cost, measured by hand: bench run.
//
// A book is filled and emptied under one rule, at several numbers of rows, and then verdicts and sheets are asked of books whose
// rows make many conflicts. The least time of many rounds or calls is told, since other work on the machine only adds to it.
#![tactic(auto)]

use crate::case::Case;
use crate::ground::Ground;
use crate::load::Load;
use crate::trouble::Trouble;
use std::{env, io};

mod case;
mod checks;
mod costs;
mod ground;
mod judged;
mod least;
mod load;
mod nodes;
mod round;
mod scene;
mod trouble;

const CASES: [Case; 9] = [
    Case::Rival,
    Case::AnyRival,
    Case::Held,
    Case::SixLeaves,
    Case::Joined,
    Case::Two,
    Case::Pairs,
    Case::Three,
    Case::Behind,
];

// What the program is to do.
#[derive(Clone, Copy)]
enum Task {
    Usage,
    Run,
}

fn main(rt: HostRuntime) -> Result<(), Trouble> {
    match asked(&rt)? {
        Task::Usage => usage(&rt)?,
        Task::Run => run(&rt)?,
    }
    Ok(())
}

// What the first word after the program's name asks for.
fn asked(rt: &HostRuntime) -> io::Result<Task> {
    let mut words = env::args(rt)?;
    let _ = words.next();
    Ok(match words.next() {
        Some(word) if word.as_str() == "run" => Task::Run,
        _ => Task::Usage,
    })
}

fn usage(rt: &HostRuntime) -> io::Result<()> {
    println!(rt; "usage: bench run")?;
    println!(rt;
        "Run prints the nanoseconds of an entry, a strike and a rule of a book over a table and over a page,"
    )?;
    println!(rt; "and the microseconds of a page's check, of verdicts and of sheets.")
}

fn run(rt: &HostRuntime) -> Result<(), Trouble> {
    println!(rt; "nanoseconds a call, and in brackets the ratio to the size before")?;
    for ground in [Ground::Table, Ground::Page] {
        for load in [Load::Pairs, Load::Threes, Load::LateThrees] {
            ground.measure(rt, load)?;
        }
    }
    checks::full_page(rt)?;
    println!(rt; "microseconds a call, and in brackets what was told")?;
    for ground in [Ground::Table, Ground::Page] {
        for case in CASES {
            ground.judge(rt, case)?;
        }
    }
    Ok(())
}
