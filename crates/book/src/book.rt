// A book over any source.
ghost use Rattle.book.specs.Books.{Right, Full, Once};

use crate::log::Log;
use store::Source;

// The source that holds the rows, and what the book keeps beside it. The list of conflicts is exact: each that it has is
// one of the rows and rules, it has each of these, and none twice.
#[derive(Drop)]
pub struct Book<S: Source> {
    pub source: S,
    pub log: Log,
    ghost right: { Right (S.model source) log },
    ghost full: { Full (S.model source) log },
    ghost once: { Once log },
}
