// What a verdict is.

// Whether every reading has the line.
#[derive(Clone, Copy, Debug)]
pub enum Verdict {
    // Each has it.
    Sure,
    // Not each: so many rows were written to the front of the caller's, and no reading that has them all has the line.
    Unsure(usize),
}
