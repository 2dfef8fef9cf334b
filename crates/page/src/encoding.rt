// A record of a page, written.
ghost use Rattle.std.specs.Prelude.{◌≡◌, ◌/◌, ◌<◌, length, Some};
ghost use Rattle.page.specs.Pages.{written};
ghost use Rattle.page.specs.Records.{place_of, record_of};

use crate::record::{EMPTY, ROW, Record};
use store::Row;

// The record of a row.
pub fn encode_row(row: &Row) -> Record
    ensures bytes { result ≡ record_of (Some row.now) }
    ensures back { place_of result ≡ Some row.now }
{
    let Row { relation, columns } = *row;
    let mut record = [0; 20];
    record[0..2].copy_from_slice(&ROW);
    record[2..4].copy_from_slice(&relation.to_be_bytes());
    // Column by column: after `columns.map(..)` it is not known that they fit, and the proof of `back` did not close.
    for (column, value) in columns.iter().enumerate() {
        let start = 4 + 4 * column;
        record[start..start + 4].copy_from_slice(&value.to_be_bytes());
    }
    record
}

// The record of what stands at a place.
fn encode(held: Option<Row>) -> Record
    ensures bytes { result ≡ record_of held }
    ensures back { place_of result ≡ held }
{
    match held {
        Some(row) => encode_row(&row),
        None => {
            let mut record = [0; 20];
            record[0..2].copy_from_slice(&EMPTY);
            record
        }
    }
}

// Writes the record of what stands at a place, and no other byte.
pub fn write_place(bytes: &mut [u8], place: usize, held: Option<Row>)
    requires { place < length bytes.old / 20 }
    ensures bytes { bytes.new ≡ written bytes.old place (record_of held) }
    ensures back { place_of (record_of held) ≡ held }
    ensures long { length (record_of held) ≡ 20 }
{
    let start = 20 * place;
    bytes[start..start + 20].copy_from_slice(&encode(held));
}
