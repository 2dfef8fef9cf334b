// Leaves: a relation, a colon, and one to four columns with commas between, as 3:_,_,7.
ghost use Rattle.std.specs.Prelude.{◌≡◌};
ghost use Rattle.words.specs.Language.{is_column, is_columns, is_leaf};

use crate::halves::halves;
use crate::numbers::is_number;
use crate::{Parts, Separator};

const MOST_COLUMNS: usize = 4;

// Whether a text is a column of a leaf: open, or a number.
fn is_column(text: &[u8]) -> bool
    ensures { result ≡ is_column text.now }
{
    matches!(text, b"_") || is_number(text)
}

// Whether a text is one to four columns with commas between.
fn are_columns(text: &[u8]) -> bool
    ensures { result ≡ is_columns text.now }
{
    Parts::new(text, Separator::Comma)
        .enumerate()
        .all(|(i, column)| i < MOST_COLUMNS && is_column(column.text))
}

// Whether a text is a leaf.
pub fn is_leaf(text: &[u8]) -> bool
    ensures { result ≡ is_leaf text.now }
{
    halves(text, Separator::Colon).is_some_and(|(relation, columns)| {
        is_number(relation) && are_columns(columns)
    })
}
