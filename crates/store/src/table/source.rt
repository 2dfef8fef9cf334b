// A table as a source, and how one is made.
ghost use Rattle.std.specs.Prelude.{◌≡◌, ℕ, replicate, None};
ghost use Rattle.store.specs.Keeping.{table_keeps};
ghost use Rattle.store.specs.Rows.{arity_in};
ghost use Rattle.store.specs.Tables.{table_model, VacantSays};

use super::Table;
use crate::admission::{admit, place_for};
use crate::arity::{arity_in, declared};
use crate::refusal::Refusal;
use crate::row::Row;
use crate::source::Source;

impl Table {
    // An empty table with the arities that the bytes give; a byte past the sixteenth is not looked at.
    pub fn new(arities: &[u8]) -> Table
        ensures empty { (table_model result).places ≡ replicate 64 None }
        ensures arities { (relation : ℕ) → (table_model result).arity relation ≡ arity_in arities.now relation }
    {
        Table {
            arities: declared(arities),
            cells: [None; 64],
        }
    }
}

// The first empty place.
fn vacant(cells: &[Option<Row>; 64]) -> Option<usize>
    ensures { VacantSays cells.now result }
{
    cells.iter().position(|cell| cell.is_none())
}

// An empty place for a row, if it is not held; for one that is held none is looked for.
fn vacant_for(cells: &[Option<Row>; 64], held: Option<usize>) -> Option<usize>
    ensures { held ≡ None → VacantSays cells.now result }
{
    if held.is_some() {
        return None;
    }
    vacant(cells)
}

impl Source for Table {
    ghost model = { table_model };

    ghost keeps = { table_keeps };

    ghost anchor = { λ _. 0 };

    fn arity(&self, relation: u16) -> u8 {
        arity_in(&self.arities, relation)
    }

    fn places(&self) -> usize {
        64
    }

    fn read(&self, place: usize) -> Option<Row> {
        *self.cells.get(place)?
    }

    fn find(&self, row: &Row) -> Option<usize> {
        self.cells.iter().position(|cell| *cell == Some(*row))
    }

    // `put` and `strike` each find a place and write it. The write is in each, and no call of `Source`, by which any
    // holder of a source could write past the questions.
    fn put(&mut self, row: &Row) -> Result<usize, Refusal> {
        let arity = self.arity(row.relation);
        admit(arity, row)?;
        let held = self.find(row);
        let place = place_for(arity, row, held, vacant_for(&self.cells, held))?;
        self.cells[place] = Some(*row);
        Ok(place)
    }

    fn strike(&mut self, row: &Row) -> Result<usize, Refusal> {
        let place = self.find(row).ok_or(Refusal::NotHeld)?;
        self.cells[place] = None;
        Ok(place)
    }
}
