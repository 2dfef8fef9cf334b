// How a text is cut: its parts from left to right, each with its place.
ghost use Rattle.std.specs.Prelude.{◌≡◌, length};
ghost use Rattle.std.specs.Iterator.{YieldsFirstBy, item_count};
ghost use Rattle.words.specs.Language.{separates, parts_of};
ghost use Rattle.words.specs.Meaning.{First, shown, to_come};

use super::{Part, Parts};
use crate::Separator;

// Where the first separator of a text stands, if it has one.
fn find(text: &[u8], separator: Separator) -> Option<usize>
    ensures { First (separates separator) text.now result }
{
    text.iter().position(|byte| separator.separates(*byte))
}

impl<'a> Parts<'a> {
    // All parts of a text are to come.
    pub fn new(text: &'a [u8], separator: Separator) -> Parts<'a>
        ensures { to_come result ≡ parts_of separator text.now }
    {
        Parts {
            separator,
            rest: Some(text),
            place: 0,
        }
    }
}

impl<'a> Iterator for Parts<'a> {
    type Item = Part<'a>;

    ghost next_gives = { YieldsFirstBy shown to_come };

    ghost remaining = { item_count to_come };

    // The next part, if one is to come.
    fn next(&mut self) -> Option<Part<'a>> {
        let text = self.rest.take()?;
        let place = self.place;
        let Some(end) = find(text, self.separator) else {
            return Some(Part { text, place });
        };
        self.rest = Some(&text[end + 1..]);
        self.place = place + end + 1;
        Some(Part {
            text: &text[..end],
            place,
        })
    }
}
