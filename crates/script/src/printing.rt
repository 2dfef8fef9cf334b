// What is said of a line, in words.
ghost use Rattle.std.specs.Prelude.{Some};
ghost use Rattle.script.specs.Printing.{said_words};

use crate::listing::Lines;
use crate::reply::{Reply, Said};
use fault::Notice;
use plan::Line;
use std::fmt;

// What is said of a line, with the lines that it may tell of.
#[derive(Clone, Copy)]
pub struct Words<'a> {
    pub said: Said,
    // a sheet's lines are at the front
    pub sheet: &'a [Line],
}

impl fmt::Display for Words<'_> {
    ghost output = { λ words. Some (said_words words) };

    fn fmt<W: fmt::Write>(&self, f: &mut fmt::Formatter<W>) -> fmt::Result {
        match self.said.outcome {
            Ok(Reply::Taken) => f.write_str("taken"),
            Ok(Reply::Sure) => f.write_str("sure"),
            Ok(Reply::Unsure) => f.write_str("unsure"),
            Ok(Reply::Listed { width, count }) => {
                let lines = Lines {
                    lines: self.sheet.get(..count).unwrap_or(self.sheet),
                    width,
                };
                write!(f, "{lines}end {count}")
            }
            Ok(Reply::Conflicts(count)) => write!(f, "conflicts {count}"),
            Err(fault) => {
                let notice = Notice::from(fault);
                let number = notice.number;
                let layer = notice.layer;
                let line = self.said.line;
                write!(f, "refused {number} {layer} line {line}")
            }
        }
    }
}
