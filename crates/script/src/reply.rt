// What is said of a line.
use crate::faults::Fault;

// What a line that is not refused is answered.
#[derive(Clone, Copy)]
pub enum Reply {
    // The row is entered or struck, or the rule is taken.
    Taken,
    // Every reading has the line.
    Sure,
    // Some reading does not have it.
    Unsure,
    // So many lines are sure, each of this width; the counter holds them.
    Listed { width: usize, count: usize },
    // There are so many conflicts.
    Conflicts(usize),
}

// The outcome of a line, and the line's number from 1.
#[derive(Clone, Copy)]
pub struct Said {
    pub outcome: Result<Reply, Fault>,
    pub line: u64,
}
