// Rows: a relation, and one to four columns.
ghost use Rattle.std.specs.Prelude.{◌≡◌};
ghost use Rattle.words.specs.Language.{texts};
ghost use Rattle.words.specs.Meaning.{to_come};
ghost use Rattle.commands.specs.Rows.{row_from};

use super::columns::{columns_from, relation_of};
use store::Row;
use words::{Parts, number};

// A row from its words.
pub fn row_from(mut words: Parts<'_>) -> Option<Row>
    ensures { result ≡ row_from (texts (to_come words.entry)) }
{
    let first = words.next()?;
    let relation = relation_of(number(first.text)?)?;
    let columns = columns_from(words)?;
    Some(Row { relation, columns })
}
