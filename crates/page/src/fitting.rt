// Whether a record fits the arities.
ghost use Rattle.std.specs.Prelude.{◌≡◌, drop, nat_eq};
ghost use Rattle.store.specs.Lists.{all};
ghost use Rattle.store.specs.Rows.{arity_in};
ghost use Rattle.page.specs.Records.{is_fit};

use crate::record::{Record, decode};
use store::{arity_in, zero_from};

// Whether the record is zero after its mark.
fn is_blank(record: &Record) -> bool
    ensures { result ≡ all (nat_eq 0) (drop 2 «record».now) }
{
    record.iter().skip(2).all(|byte| *byte == 0)
}

// Whether the record is a row that fits the arities, or else is zero after its mark.
pub fn is_fit(record: &Record, arities: &[u8]) -> bool
    ensures { result ≡ is_fit (arity_in arities.now) «record».now }
{
    let Some(row) = decode(record) else {
        return is_blank(record);
    };
    let arity = arity_in(arities, row.relation);
    arity > 0 && zero_from(arity, &row.columns)
}
