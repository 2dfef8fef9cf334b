// A page as a source: its rows are read, put and struck in the bytes that the caller lends.
ghost use Rattle.std.specs.Prelude.{◌≡◌, ◌≤◌, ℕ, ◌<◌, None, false, is_some, length};
ghost use Rattle.store.specs.Places.{OnceIn, FitIn};
ghost use Rattle.store.specs.Rows.{arity_in};
ghost use Rattle.store.specs.Tables.{VacantSays};
ghost use Rattle.page.specs.Checks.{check_refusal};
ghost use Rattle.page.specs.Pages.{store_of, places_of, page_of};

use crate::checking::check;
use crate::encoding::{encode_row, write_place};
use crate::record::{decode, is_row, records_in};
use store::{Refusal, Row, Source, admit, arity_in, declared, place_for};

#[derive(Drop)]
pub struct Page<'a> {
    // the arities of the relations 0 to 15
    arities: [u8; 16],
    bytes: &'a mut [u8],
    ghost passes: { is_some (check_refusal bytes.now arities) ≡ false },
    ghost whole: { page_of (places_of bytes.now) ≡ bytes.now },
    ghost few: { length (places_of bytes.now) ≤ 256 },
    ghost fit: { FitIn arities (places_of bytes.now) },
    ghost once: { OnceIn (places_of bytes.now) },
}

impl<'a> Page<'a> {
    ghost use Rattle.page.specs.Sources.{page_model, opened};

    // The source over the bytes, where they are a page of rows that fit the arities. Over any other
    // bytes it has no places: it then holds none of the bytes, so that it cannot write any.
    pub fn open(arities: &[u8], bytes: &'a mut [u8]) -> Page<'a>
        ensures model { page_model result ≡ store_of (opened bytes.old arities.now) arities.now }
        ensures bytes { result.bytes.now ≡ opened bytes.old arities.now }
        ensures lent { check_refusal bytes.old arities.now ≡ None → result.bytes.ghost_name ≡ bytes.entry.ghost_name }
    {
        let arities = declared(arities);
        if check(bytes, &arities).is_err() {
            let bytes = &mut bytes[0..0];
            return Page { arities, bytes };
        }
        Page { arities, bytes }
    }

    // The first empty place.
    fn vacant(&self) -> Option<usize>
        ensures { VacantSays (page_model self.now).places result }
    {
        records_in(self.bytes)
            .iter()
            .position(|record| !is_row(record))
    }

    // An empty place for a row, if it is not held; for one that is held none is looked for.
    fn vacant_for(&self, held: Option<usize>) -> Option<usize>
        ensures { held ≡ None → VacantSays (page_model self.now).places result }
    {
        if held.is_some() {
            return None;
        }
        self.vacant()
    }
}

impl<'a> Source for Page<'a> {
    ghost use Rattle.page.specs.Sources.{page_model, page_keeps};

    ghost model = { page_model };

    ghost keeps = { page_keeps };

    ghost anchor = { λ p. p.bytes.ghost_name };

    fn arity(&self, relation: u16) -> u8 {
        arity_in(&self.arities, relation)
    }

    fn places(&self) -> usize {
        records_in(self.bytes).len()
    }

    fn read(&self, place: usize) -> Option<Row> {
        decode(records_in(self.bytes).get(place)?)
    }

    // A row has one record, so this looks for its bytes.
    fn find(&self, row: &Row) -> Option<usize> {
        let sought = encode_row(row);
        records_in(self.bytes)
            .iter()
            .position(|record| *record == sought)
    }

    // `put` and `strike` each find a place and write it. The write is in each, and no call of `Source`, by which any
    // holder of a source could write past the questions.
    fn put(&mut self, row: &Row) -> Result<usize, Refusal> {
        let arity = self.arity(row.relation);
        admit(arity, row)?;
        let held = self.find(row);
        let place = place_for(arity, row, held, self.vacant_for(held))?;
        write_place(self.bytes, place, Some(*row));
        Ok(place)
    }

    fn strike(&mut self, row: &Row) -> Result<usize, Refusal> {
        let place = self.find(row).ok_or(Refusal::NotHeld)?;
        write_place(self.bytes, place, None);
        Ok(place)
    }
}
