// What a book is made to hold while its verdicts and sheets are measured: rows, and rules that forbid some of them together.
ghost use Rattle.std.specs.Prelude.{◌≡◌, ◌<◌};
ghost use Rattle.bench.specs.Scenes.{rival_number, crowd_number, backed_number, number_of};

use book::{Book, Refusal};
use rink::{both, one_club, party, row, three_flooded, with_number};
use rules::Comparison;
use store::{Row, Sign, Source};

#[derive(Clone, Copy)]
pub(crate) enum Scene {
    // 45 clubs have one pad and slot.
    Rivals,
    // The same rows, and six of the clubs have that pad at the next slot.
    MoreRivals,
    // Rows of four relations, as many as the source has places, which collide in some places.
    Crowd,
    // Parties on six pads, each of which gives way only to a void row together with ice at its pad. There is not ice at both of the
    // pads 0 and 1, nor of 2 and 3, nor of 4 and 5: so no two of such parties give way together.
    Twos,
    // The same rows, but ice at any two pads, and not at all of the pads 0, 1 and 2.
    Three,
    // The same, but not at all of the pads 1, 2 and 3.
    Behind,
}

// Row after row of the clubs that want one pad.
fn rival(number: u32) -> Row
    ensures { rival_number result ≡ number }
{
    party(1, number / 45, number % 45)
}

// Row after row of four relations. Eight clubs have a pad at a slot, eight pads are flooded at a slot, and each other held pad is void.
fn crowded(number: u32) -> Row
    ensures { crowd_number result ≡ number }
{
    match number % 8 {
        0 | 1 | 4 | 5 => party(number / 16 % 8, number / 128, number % 16),
        2 | 6 => row(4, number % 32, number / 32),
        3 => row(1, number / 8, 0),
        _ => row(2, number / 8, number / 8 % 2),
    }
}

// Parties on six pads, three rows of ice at each of these, and then void rows.
fn backed(number: u32) -> Row
    ensures { backed_number result ≡ number }
{
    match number {
        0..=5 => party(number, 0, 0),
        6..=23 => row(0, number % 6, number),
        _ => row(2, 0, number),
    }
}

// The atom's pad is this one.
fn at_pad(atom: u8, pad: u32) -> Comparison {
    with_number(atom, 0, Sign::Equal, pad)
}

// A party gives way only to ice and a void row, and there is not ice at all three pads from this one on.
fn three_pads<S: Source>(book: &mut Book<S>, first: u32) -> Result<(), Refusal>
    requires { first < 4 }
{
    book.rule(&[3, 0, 2], &[both(0, Sign::Equal, 1, 0)])?;
    let pads = [at_pad(0, first), at_pad(1, first + 1), at_pad(2, first + 2)];
    book.rule(&[0, 0, 0], &pads)?;
    Ok(())
}

impl Scene {
    // Row after row; no two numbers have one row.
    fn row(self, number: u32) -> Row
        ensures { number_of self result ≡ number }
    {
        match self {
            Scene::Rivals | Scene::MoreRivals => rival(number),
            Scene::Crowd => crowded(number),
            Scene::Twos | Scene::Three | Scene::Behind => backed(number),
        }
    }

    // How many rows there are in a source with so many places.
    fn rows(self, places: u32) -> u32 {
        match self {
            Scene::Rivals => 45,
            Scene::MoreRivals => 51,
            Scene::Crowd => places,
            Scene::Twos | Scene::Three | Scene::Behind => 64,
        }
    }

    // Makes a book hold it that is empty.
    pub(crate) fn fill<S: Source>(self, book: &mut Book<S>) -> Result<(), Refusal> {
        self.take_rules(book)?;
        for number in 0..self.rows(book.source.places() as u32) {
            book.entry(&self.row(number))?;
        }
        Ok(())
    }

    fn take_rules<S: Source>(self, book: &mut Book<S>) -> Result<(), Refusal> {
        let same_pad = both(0, Sign::Equal, 1, 0);
        let same_slot = both(0, Sign::Equal, 1, 1);
        match self {
            Scene::Rivals | Scene::MoreRivals => {
                book.rule(&[3, 3], &one_club())?;
            }
            Scene::Crowd => {
                book.rule(&[3, 3], &one_club())?;
                book.rule(&[1, 2], &[same_pad, same_slot])?;
                book.rule(&[4, 4, 4], &three_flooded())?;
                book.rule(&[3, 4], &[same_pad, same_slot])?;
            }
            Scene::Twos => {
                book.rule(&[3, 0, 2], &[same_pad])?;
                for pad in [0, 2, 4] {
                    book.rule(&[0, 0], &[at_pad(0, pad), at_pad(1, pad + 1)])?;
                }
            }
            Scene::Three => three_pads(book, 0)?,
            Scene::Behind => three_pads(book, 1)?,
        }
        Ok(())
    }
}
