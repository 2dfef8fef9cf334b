// The counter: a book over a table, what it lends to the book, and how many lines it was told.
use book::Book;
use plan::Line;
use store::{Row, Table};
use verdict::MARK_BYTES;

mod asking;
pub mod telling;

#[derive(Drop)]
pub struct Counter {
    book: Book<Table>,
    // for a verdict or a sheet
    marks: [u8; MARK_BYTES],
    // for a verdict: as many rows as a core may have
    core: [Row; 12],
    // for a sheet: its lines
    sheet: [Line; 256],
    lines: u64,
}
