// A record of a page: 20 bytes that hold a row or nothing.
ghost use Rattle.std.specs.Prelude.{◌≡◌, ◌<◌};
ghost use Rattle.page.specs.Pages.{records_of};
ghost use Rattle.page.specs.Records.{marks_row, is_marked, four_at, place_of};

use std::array;
use store::Row;

pub type Record = [u8; 20];

// A record starts with one of these marks.
pub const ROW: [u8; 2] = [0x49, 0x43];

pub const EMPTY: [u8; 2] = [0x2E, 0x2E];

// The whole records that the bytes have.
pub fn records_in(bytes: &[u8]) -> &[Record]
    ensures { result.now ≡ records_of bytes.now }
{
    let (records, _) = bytes.as_chunks::<20>();
    records
}

// Whether the record is marked as a row.
pub fn is_row(record: &Record) -> bool
    ensures { result ≡ marks_row «record».now }
{
    record.starts_with(&ROW)
}

// Whether the record is marked as a row or as an empty place.
pub fn is_marked(record: &Record) -> bool
    ensures { result ≡ is_marked «record».now }
{
    is_row(record) || record.starts_with(&EMPTY)
}

// The number in the four bytes of a record from here on.
pub fn column_at(record: &Record, start: usize) -> u32
    requires { start < 17 }
    ensures { result ≡ four_at «record».now start }
{
    u32::from_be_bytes([
        record[start],
        record[start + 1],
        record[start + 2],
        record[start + 3],
    ])
}

// What stands at the record's place.
pub fn decode(record: &Record) -> Option<Row>
    ensures { result ≡ place_of «record».now }
{
    if !is_row(record) {
        return None;
    }
    // The first four bytes are the mark and the relation, and each column is four more.
    let (words, _) = record.as_chunks::<4>();
    Some(Row {
        relation: u16::from_be_bytes([record[2], record[3]]),
        columns: array::from_fn(|column| u32::from_be_bytes(words[column + 1])),
    })
}
