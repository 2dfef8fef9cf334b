// Whether bytes are a page.
ghost use Rattle.std.specs.Prelude.{◌≡◌, None};
ghost use Rattle.std.specs.Result.{result_err};
ghost use Rattle.std.specs.Str.{bytes_eq};
ghost use Rattle.store.specs.Lists.{any};
ghost use Rattle.page.specs.Checks.{check_refusal, IsPage};

use crate::fitting::is_fit;
use crate::record::{Record, column_at, is_marked, is_row, records_in};
use crate::refusal::Refusal;

// A page has at most 256 records.
const LONGEST: usize = 5120;

// Whether two records are the same. Most rows differ in some column, and the first column that differs ends it.
fn are_same(one: &Record, other: &Record) -> bool
    ensures { result ≡ bytes_eq one.now other.now }
{
    column_at(one, 4) == column_at(other, 4)
        && column_at(one, 8) == column_at(other, 8)
        && column_at(one, 12) == column_at(other, 12)
        && column_at(one, 16) == column_at(other, 16)
        && one[3] == other[3]
        && one == other
}

// Whether a record is one of these.
fn is_among(record: &Record, records: &[Record]) -> bool
    ensures { result ≡ any (λ r. bytes_eq r «record».now) records.now }
{
    records.iter().any(|other| are_same(other, record))
}

// Tells whether the bytes are a page of rows that fit the arities: whole records, at most 256, each
// marked, each fitting, and no row twice; the first question that is answered No is told, with the
// first record that fails it.
pub fn check(bytes: &[u8], arities: &[u8]) -> Result<(), Refusal>
    ensures says { result_err result ≡ check_refusal bytes.now arities.now }
    ensures page { result_err result ≡ None → IsPage bytes.now arities.now }
{
    if bytes.len() % 20 != 0 {
        return Err(Refusal::NotWhole);
    }
    if bytes.len() > LONGEST {
        return Err(Refusal::TooLong);
    }
    let records = records_in(bytes);
    records
        .iter()
        .position(|record| !is_marked(record))
        .map_or(Ok(()), |place| Err(Refusal::Unmarked(place)))?;
    records
        .iter()
        .position(|record| !is_fit(record, arities))
        .map_or(Ok(()), |place| Err(Refusal::Unfit(place)))?;
    // A row has one record, so the records before a row's are looked through for it.
    records
        .iter()
        .enumerate()
        .position(|(place, record)| is_row(record) && is_among(record, &records[..place]))
        .map_or(Ok(()), |place| Err(Refusal::Repeated(place)))
}
