// Whether a source takes a row, and where.
ghost use Rattle.std.specs.Prelude.{◌≡◌, Some, None, MatchResult};
ghost use Rattle.store.specs.Store.{sight_refusal, PlaceSays};

use crate::arity::zero_from;
use crate::refusal::Refusal;
use crate::row::Row;

// The questions that `put` asks of the arity of the row's relation and of the row alone. A source puts them before it looks
// at its places, so that a row that fits nowhere is refused without a look at any.
pub fn admit(arity: u8, row: &Row) -> Result<(), Refusal>
    ensures { MatchResult result (λ _. sight_refusal arity row.now ≡ None) (λ e. sight_refusal arity row.now ≡ Some e) }
{
    if arity == 0 {
        return Err(Refusal::Undeclared);
    }
    if !zero_from(arity, &row.columns) {
        return Err(Refusal::Unfit);
    }
    Ok(())
}

// The place where `put` puts a row, by its questions, which are the same in every source: of the arity of the row's
// relation, of the row, of the place where it stands already, and of a place that is empty.
pub fn place_for(
    arity: u8,
    row: &Row,
    held: Option<usize>,
    vacant: Option<usize>,
) -> Result<usize, Refusal>
    ensures { PlaceSays arity row.now held vacant result }
{
    admit(arity, row)?;
    if held.is_some() {
        return Err(Refusal::AlreadyHeld);
    }
    vacant.ok_or(Refusal::NoEmptyPlace)
}
