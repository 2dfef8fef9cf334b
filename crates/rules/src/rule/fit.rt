// Which rows a rule forbids together, row by row.
ghost use Rattle.std.specs.Prelude.{◌≡◌, true, length, map};
ghost use Rattle.store.specs.Lists.{all};
ghost use Rattle.rules.specs.Beginnings.{holds_at_last, rows_of_picks};
ghost use Rattle.rules.specs.Comparisons.{column_within, last_atom, side_atom, within};
ghost use Rattle.rules.specs.Rules.{column_of, denial, satisfied};

use super::{AtomColumn, Comparison, Rule, Side};
use crate::chosen::Pick;

impl Rule {
    // The relations of the rows that it takes to break the rule.
    pub(crate) fn atoms(&self) -> &[u16]
        ensures { result.now ≡ (denial self.now).atoms }
    {
        self.atoms.as_slice()
    }

    // Whether the comparisons hold that could not be decided before the last of these rows.
    pub(crate) fn holds_at_last(&self, picks: &[Pick]) -> bool
        ensures { result ≡ all (holds_at_last (rows_of_picks picks.now)) (denial self.now).comparisons }
    {
        self.comparisons
            .as_slice()
            .iter()
            .all(|comparison| holds_if_last(comparison, picks))
    }
}

// Whether a comparison holds, if it waited for the last of these rows.
fn holds_if_last(comparison: &Comparison, picks: &[Pick]) -> bool
    requires { within 3 comparison.now ≡ true }
    ensures { result ≡ holds_at_last (rows_of_picks picks.now) comparison.now }
{
    last_atom(comparison) as usize + 1 != picks.len() || holds(comparison, picks)
}

// The atom that a comparison waits for.
fn last_atom(comparison: &Comparison) -> u8
    ensures { result ≡ last_atom comparison.now }
{
    side_atom(comparison.left).max(side_atom(comparison.right))
}

// The atom of a side's column; a constant's counts as the first.
fn side_atom(side: Side) -> u8
    ensures { result ≡ side_atom side }
{
    match side {
        Side::Column(column) => column.atom,
        Side::Constant(_) => 0,
    }
}

// Whether a comparison holds of rows that it names.
fn holds(comparison: &Comparison, picks: &[Pick]) -> bool
    requires { within (length picks.now) comparison.now ≡ true }
    ensures { result ≡ satisfied (rows_of_picks picks.now) comparison.now }
{
    comparison.holds(|column| column_of(picks, column))
}

// The number in a column of the row for its atom.
fn column_of(picks: &[Pick], column: AtomColumn) -> u32
    requires { column_within (length picks.now) column ≡ true }
    ensures { result ≡ column_of (rows_of_picks picks.now) column }
{
    picks[column.atom as usize].row.columns[column.column as usize]
}
