// What a person sees: bytes in hex, one record a line, rows, and what was answered.
use crate::entering::Hindrance;
use book::{Done, Outcome};
use fault::Notice;
use page::{Page, check};
use std::io;
use store::Source;
use verdict::Verdict;

// Prints a record's bytes in hex: its mark, its relation and its four columns.
fn show_record(rt: &HostRuntime, record: &[u8; 20]) -> io::Result<()> {
    for (at, byte) in record.iter().enumerate() {
        if at == 2 || (at > 0 && at % 4 == 0) {
            print!(rt; " ")?;
        }
        print!(rt; "{byte:02X}")?;
    }
    println!(rt; "")
}

// Prints the records of the bytes.
pub(crate) fn show_bytes(rt: &HostRuntime, bytes: &[u8]) -> io::Result<()> {
    let (records, _) = bytes.as_chunks::<20>();
    for record in records {
        show_record(rt, record)?;
    }
    Ok(())
}

// Prints what stands at each place of the source over the bytes.
pub(crate) fn show_rows(rt: &HostRuntime, arities: &[u8], bytes: &mut [u8]) -> io::Result<()> {
    let page = Page::open(arities, bytes);
    let places = page.places();
    println!(rt; "{places} places")?;
    for place in 0..places {
        match page.read(place) {
            Some(row) => {
                let [a, b, c, d] = row.columns;
                println!(rt;
                    "place {place}: relation {}, columns {a} {b} {c} {d}",
                    row.relation
                )?;
            }
            None => println!(rt; "place {place}: empty")?,
        }
    }
    Ok(())
}

// Prints whether the bytes are a page.
pub(crate) fn show_check(rt: &HostRuntime, arities: &[u8], bytes: &[u8]) -> io::Result<()> {
    match check(bytes, arities) {
        Ok(()) => println!(rt; "it is a page"),
        Err(refusal) => {
            let notice = Notice::from(refusal);
            println!(rt;
                "it is no page: refusal {} at record {}",
                notice.number, notice.position
            )
        }
    }
}

// Prints what became of a row.
pub(crate) fn tell(
    rt: &HostRuntime,
    asked: &str,
    told: Result<usize, Hindrance>,
) -> io::Result<()> {
    match told {
        Ok(place) => println!(rt; "{asked}: place {place}"),
        Err(Hindrance::NoPage(refusal)) => println!(rt;
            "{asked}: no page, refusal {}",
            Notice::from(refusal).number
        ),
        Err(Hindrance::NoRow(refusal)) => println!(rt;
            "{asked}: refusal {}",
            Notice::from(refusal).number
        ),
    }
}

// Prints what came of a call of a book.
pub(crate) fn tell_outcome(rt: &HostRuntime, asked: &str, outcome: &Outcome) -> io::Result<()> {
    match *outcome {
        Ok(Done::Taken) => println!(rt; "{asked}: taken"),
        Ok(Done::Ruled(number)) => println!(rt; "{asked}: rule {number}"),
        Ok(Done::Judged(Verdict::Sure)) => println!(rt; "{asked}: sure"),
        Ok(Done::Judged(Verdict::Unsure(rows))) => println!(rt;
            "{asked}: unsure, a core of {rows}"
        ),
        Ok(Done::Listed(lines)) => println!(rt; "{asked}: sure lines {lines}"),
        Err(refusal) => println!(rt; "{asked}: refusal {}", Notice::from(refusal).number),
    }
}
