// A desk: a book over a table of the rink's relations.
ghost use Rattle.std.specs.Prelude.{◌≡◌, ℕ, [], replicate, None};
ghost use Rattle.store.specs.Rows.{arity_in};
ghost use Rattle.store.specs.Tables.{table_model};
ghost use Rattle.book.specs.Books.{rules_of};

use book::{Book, Refusal};
use rink::{ARITIES, party};
use store::Table;

pub(crate) type Desk = Book<Table>;

// A desk with no rows and no rules.
pub(crate) fn open_desk() -> Desk
    ensures rows { (table_model result.source).places ≡ replicate 64 None }
    ensures arities { (relation : ℕ) → (table_model result.source).arity relation ≡ arity_in ARITIES relation }
    ensures rules { rules_of result.log ≡ [] }
{
    Book::open(Table::new(&ARITIES))
}

// Enters the parties of the clubs 0 up to this number, all on one pad at one slot.
pub(crate) fn enter_parties(desk: &mut Desk, clubs: u32) -> Result<(), Refusal> {
    for club in 0..clubs {
        desk.entry(&party(1, 9, club))?;
    }
    Ok(())
}
