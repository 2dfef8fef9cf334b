// Pages: rows kept in bytes that a caller lends, 20 bytes to a record.
//
// `check` tells whether bytes are a page; `Page` is the source over them; `write_page` makes a page
// from places. specs/Records.antt says what a record is, and specs/Checks.antt when bytes are a page.
// The check looks at each record three times and compares a row once with each earlier record, which
// is 32,640 comparisons at most; a source writes one record for a row that is put or struck.
#![tactic(auto)]

mod checking;
mod encoding;
mod face;
mod fitting;
mod record;
mod refusal;
mod source;
mod writing;

pub use checking::check;
pub use face::{Finding, page_check};
pub use refusal::Refusal;
pub use source::Page;
pub use writing::{WrongLength, write_page};
