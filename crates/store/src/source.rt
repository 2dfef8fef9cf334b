// What a source of rows is, for whoever builds on one.
ghost use Rattle.std.specs.Prelude.{◌≡◌, ℕ, length};
ghost use Rattle.store.specs.Store.{Store, Kept, at, FindSays, PutSays, StrikeSays};

use crate::refusal::Refusal;
use crate::row::Row;

// Arities and the number of places never change. `arity`, `places`, `read` and `find` change
// nothing; `put` and `strike` touch one place, and a refusal touches none.
pub trait Source {
    // The arities and the places that the source stands for.
    ghost model: { Self → Store };

    // What the source lies on: for a source over memory that is lent, the name of that memory.
    ghost anchor: { Self → ℕ };

    // The arity of a relation; 0 means that it is not declared.
    fn arity(&self, relation: u16) -> u8
        ensures { result ≡ (model self.now).arity relation };

    // The number of places.
    fn places(&self) -> usize
        ensures { result ≡ length (model self.now).places };

    // The row at a place, or nothing there or past the last place.
    fn read(&self, place: usize) -> Option<Row>
        ensures { result ≡ at (model self.now) place };

    // The place of a row, or nothing when the row is not held.
    fn find(&self, row: &Row) -> Option<usize>
        ensures { FindSays (model self.now) row.now result };

    // Puts a row at an empty place of the source's choice, and tells the place.
    fn put(&mut self, row: &Row) -> Result<usize, Refusal>
        ensures anchor { anchor self.new ≡ anchor self.old }
        ensures says { PutSays (model self.old) (model self.new) row.now result };

    // Empties the place of a row, and tells the place.
    fn strike(&mut self, row: &Row) -> Result<usize, Refusal>
        ensures anchor { anchor self.new ≡ anchor self.old }
        ensures says { StrikeSays (model self.old) (model self.new) row.now result };

    // Every source keeps what the model says.
    ghost keeps: { (s : Self) → Kept (model s) };
}
