// What a verdict and a sheet have to be lent: 256 mark bytes each, and a verdict room for twelve rows.
use crate::desk::{Desk, open_desk};
use crate::plains::plan_of;
use crate::telling;
use book::Refusal;
use plan::{Line, Node, Plan};
use rink::{one_club, party};
use std::io;
use store::Row;
use verdict::Verdict;

const NO_LINE: Line = Line { columns: [0; 8] };

// The parties.
fn parties() -> Plan {
    plan_of(&[Node::open(3, 3)])
}

// Two clubs have pad 1, where only one may be, and a third club has pad 2.
fn three_parties(rt: &HostRuntime) -> io::Result<Desk> {
    let mut desk = open_desk();
    let ruled = desk.rule(&[3, 3], &one_club());
    telling::call(rt, "one club to a pad and slot", ruled)?;
    let entered = enter_three(&mut desk);
    telling::call(rt, "clubs 5 and 6 on pad 1, club 7 on pad 2", entered)?;
    Ok(desk)
}

fn enter_three(desk: &mut Desk) -> Result<(), Refusal> {
    desk.entry(&party(1, 9, 5))?;
    desk.entry(&party(1, 9, 6))?;
    desk.entry(&party(2, 9, 7))?;
    Ok(())
}

// Asks whether every reading has club 5 on pad 1.
fn judge(
    rt: &HostRuntime,
    shown: &str,
    desk: &Desk,
    marks: &mut [u8],
    core: &mut [Row],
) -> io::Result<()> {
    let line = Line {
        columns: [1, 9, 5, 0, 0, 0, 0, 0],
    };
    match desk.verdict(&parties(), &line, marks, core) {
        Ok(Verdict::Sure) => println!(rt; "{shown}: sure"),
        Ok(Verdict::Unsure(count)) => {
            print!(rt; "{shown}: unsure with")?;
            telling::rows(rt, &core[..count.min(core.len())])
        }
        Err(refusal) => telling::refused(rt, shown, refusal),
    }
}

pub(crate) fn verdicts(rt: &HostRuntime) -> io::Result<()> {
    let desk = three_parties(rt)?;
    let mut core = [Row::BLANK; 12];
    judge(
        rt,
        "a verdict with 255 mark bytes",
        &desk,
        &mut [0; 255],
        &mut core,
    )?;
    judge(
        rt,
        "a verdict with 256 mark bytes",
        &desk,
        &mut [0; 256],
        &mut core,
    )?;
    let mut marks = [0; 256];
    judge(
        rt,
        "a verdict with room for 11 rows",
        &desk,
        &mut marks,
        &mut [Row::BLANK; 11],
    )?;
    judge(
        rt,
        "a verdict with room for 12 rows",
        &desk,
        &mut marks,
        &mut [Row::BLANK; 12],
    )
}

// Asks for the parties that every reading has.
fn list(
    rt: &HostRuntime,
    shown: &str,
    desk: &Desk,
    marks: &mut [u8],
    lines: &mut [Line],
) -> io::Result<()> {
    match desk.sheet(&parties(), marks, lines) {
        Ok(count) => {
            print!(rt; "{shown}: lines {count}")?;
            for line in lines.iter().take(count) {
                let columns = line.columns;
                print!(rt; " {columns:?}")?;
            }
            println!(rt; "")
        }
        Err(refusal) => telling::refused(rt, shown, refusal),
    }
}

pub(crate) fn sheets(rt: &HostRuntime) -> io::Result<()> {
    let desk = three_parties(rt)?;
    let mut lines = [NO_LINE; 2];
    list(
        rt,
        "a sheet with 255 mark bytes",
        &desk,
        &mut [0; 255],
        &mut lines,
    )?;
    list(
        rt,
        "a sheet with 256 mark bytes",
        &desk,
        &mut [0; 256],
        &mut lines,
    )?;
    let mut marks = [0; 256];
    list(
        rt,
        "a sheet with room for no line",
        &desk,
        &mut marks,
        &mut [],
    )?;
    list(
        rt,
        "a sheet with room for one line",
        &desk,
        &mut marks,
        &mut [NO_LINE],
    )
}
