// The lines of a sheet as they are printed.
ghost use Rattle.std.specs.Prelude.{Some};
ghost use Rattle.script.specs.Listing.{columns_words, lines_words};

use plan::Line;
use std::fmt;

// Columns, parted by one space each.
#[derive(Clone, Copy)]
struct Columns<'a> {
    columns: &'a [u32],
}

impl fmt::Display for Columns<'_> {
    ghost output = { λ c. Some (columns_words c.columns.now) };

    fn fmt<W: fmt::Write>(&self, f: &mut fmt::Formatter<W>) -> fmt::Result {
        if let [first, others @ ..] = self.columns {
            write!(f, "{first}")?;
            for column in others {
                write!(f, " {column}")?;
            }
        }
        Ok(())
    }
}

// Lines, each up to this width and ended by a newline.
#[derive(Clone, Copy)]
pub(crate) struct Lines<'a> {
    pub(crate) lines: &'a [Line],
    pub(crate) width: usize,
}

impl fmt::Display for Lines<'_> {
    ghost output = { λ l. Some (lines_words l.width l.lines.now) };

    fn fmt<W: fmt::Write>(&self, f: &mut fmt::Formatter<W>) -> fmt::Result {
        for line in self.lines {
            let columns = Columns {
                columns: line.columns.get(..self.width).unwrap_or(&line.columns),
            };
            writeln!(f, "{columns}")?;
        }
        Ok(())
    }
}
