// A call that knows what became of the caller's bytes once the source over them is gone.
ghost use Rattle.std.specs.Prelude.{◌≡◌};
ghost use Rattle.store.specs.Store.{PutSays};
ghost use Rattle.page_examples.specs.Entering.{EnterSays};
ghost use Rattle.page_examples.specs.declared.entering.Hindrance.TheVariants.{NoPage, NoRow};

use page::{Page, check};
use store::{Row, Source};

// Why no row was put.
#[derive(Clone, Copy)]
pub(crate) enum Hindrance {
    // The bytes are no page.
    NoPage(page::Refusal),
    // The page does not take the row.
    NoRow(store::Refusal),
}

impl From<page::Refusal> for Hindrance {
    ghost from_gives = { λ refusal why. why ≡ NoPage refusal };

    fn from(refusal: page::Refusal) -> Hindrance {
        Hindrance::NoPage(refusal)
    }
}

impl From<store::Refusal> for Hindrance {
    ghost from_gives = { λ refusal why. why ≡ NoRow refusal };

    fn from(refusal: store::Refusal) -> Hindrance {
        Hindrance::NoRow(refusal)
    }
}

// Puts the row into a source of any kind; it stands for code that knows nothing of pages.
fn put_into<S: Source>(source: &mut S, row: &Row) -> Result<usize, store::Refusal>
    ensures anchor { S.Source.anchor source.new ≡ S.Source.anchor source.old }
    ensures says { PutSays (S.Source.model source.old) (S.Source.model source.new) row.now result }
{
    source.put(row)
}

// Puts the row into the page that the bytes are, and tells its place. The bytes are then the page of
// the rows with this one; where nothing is put they stay as they were.
pub(crate) fn enter(arities: &[u8], bytes: &mut [u8], row: &Row) -> Result<usize, Hindrance>
    ensures { EnterSays bytes.old bytes.new arities.now row.now result }
{
    check(bytes, arities)?;
    let mut page = Page::open(arities, bytes);
    let place = put_into(&mut page, row)?;
    Ok(place)
}
