// A line of an answer.

// Eight columns, of which those from its width on are zero. The first column that differs says which of two lines comes first.
#[derive(Clone, Copy, PartialEq, Eq, PartialOrd, Ord)]
pub struct Line {
    pub columns: [u32; 8],
}
