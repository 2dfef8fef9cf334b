// What a book is made to hold while it is measured: a rule, and rows that it does not forbid.
ghost use Rattle.std.specs.Prelude.{◌≡◌, ◌<◌, ◌+◌, ◌*◌, slice_index};
ghost use Rattle.bench.specs.Loads.{pads};

use rink::{always, one_club, party, row, three_flooded, with_number};
use rules::Comparison;
use store::{Row, Sign};

#[derive(Clone, Copy)]
pub(crate) enum Load {
    // No two clubs have a pad at a slot: 3 3 a0.0=a1.0 a0.1=a1.1 a0.2#a1.2.
    Pairs,
    // No three pads are flooded at a slot: 4 4 4 a0.0<a1.0 a1.0<a2.0 a0.1=a1.1 a1.1=a2.1.
    Threes,
    // A choice fails only with its third row: 4 4 4 a2.1>1000000.
    LateThrees,
}

impl Load {
    pub(crate) fn name(self) -> &'static str {
        match self {
            Load::Pairs => "two atoms, a key",
            Load::Threes => "three atoms, given up early",
            Load::LateThrees => "three atoms, given up late",
        }
    }

    // Row after row: eight pads with a party at each slot, or two pads flooded at each slot. No two numbers have one row.
    pub(crate) fn row(self, number: u32) -> Row
        ensures pad { slice_index result.columns 0 < pads self }
        ensures number { pads self * slice_index result.columns 1 + slice_index result.columns 0 ≡ number }
    {
        match self {
            Load::Pairs => party(number % 8, number / 8, 1),
            Load::Threes | Load::LateThrees => row(4, number % 2, number / 2),
        }
    }

    pub(crate) fn atoms(self) -> &'static [u16] {
        match self {
            Load::Pairs => &[3, 3],
            Load::Threes | Load::LateThrees => &[4, 4, 4],
        }
    }

    // The comparisons of the rule, four, the last of which may be one that always holds.
    pub(crate) fn comparisons(self) -> [Comparison; 4] {
        match self {
            Load::Pairs => {
                let [pad, slot, club] = one_club();
                [pad, slot, club, always()]
            }
            Load::Threes => three_flooded(),
            Load::LateThrees => [with_number(2, 1, Sign::Greater, 1000000); 4],
        }
    }
}
