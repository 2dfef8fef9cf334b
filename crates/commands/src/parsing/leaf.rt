// Leaves of a plan, as 3:_,_,7.
ghost use Rattle.std.specs.Prelude.{◌≡◌};
ghost use Rattle.std.specs.Option.{option_map};
ghost use Rattle.words.specs.Language.{texts};
ghost use Rattle.words.specs.Meaning.{to_come};
ghost use Rattle.commands.specs.Leaves.{field_of, fields_from, leaf_with, leaf_of};

use super::columns::{relation_of, values_from};
use plan::{Field, Node};
use words::halves::halves;
use words::{Parts, Separator, number};

// The column that a text is: open, or a number.
fn field_of(text: &[u8]) -> Option<Field>
    ensures { result ≡ field_of text.now }
{
    match text {
        b"_" => Some(Field::Open),
        _ => number(text).map(Field::Fixed),
    }
}

// The leaf of a relation with these columns, at most four.
fn leaf_with(relation: u16, columns: Parts<'_>) -> Option<Node>
    ensures { result ≡ option_map (leaf_with relation) (fields_from (texts (to_come columns.entry))) }
{
    let (arity, fields) = values_from(columns, Field::Fixed(0), field_of)?;
    let arity = arity as u8;
    Some(Node::Leaf {
        relation,
        arity,
        fields,
    })
}

// The leaf that a text is, if its relation can be one's.
pub fn leaf_of(text: &[u8]) -> Option<Node>
    ensures { result ≡ leaf_of text.now }
{
    let (relation, columns) = halves(text, Separator::Colon)?;
    leaf_with(
        relation_of(number(relation)?)?,
        Parts::new(columns, Separator::Comma),
    )
}
