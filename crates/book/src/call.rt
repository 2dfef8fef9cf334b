// What a book can be asked, as one value, and what came of it.
use crate::refusal::Refusal;
use plan::{Line, Plan};
use rules::Comparison;
use store::Row;
use verdict::Verdict;

#[derive(Clone, Copy)]
pub enum Call<'a> {
    Enter(Row),
    Strike(Row),
    Rule {
        atoms: &'a [u16],
        comparisons: &'a [Comparison],
    },
    // Whether a line of a plan is sure, with so many of the mark bytes and of the rows that the caller lends; where that is
    // more than there are, with all of them.
    Verdict {
        plan: &'a Plan,
        line: Line,
        marks: usize,
        core: usize,
    },
    // All sure lines of a plan, with so many of the mark bytes and of the lines that the caller lends, as for a verdict.
    Sheet {
        plan: &'a Plan,
        marks: usize,
        lines: usize,
    },
}

// What a call did that was not refused.
#[derive(Clone, Copy)]
pub enum Done {
    // A row was entered or struck.
    Taken,
    // A rule was taken, with this number.
    Ruled(usize),
    // A verdict was given; the rows of a core are in the caller's.
    Judged(Verdict),
    // So many lines are sure, and they are at the front of the caller's.
    Listed(usize),
}

pub type Outcome = Result<Done, Refusal>;
