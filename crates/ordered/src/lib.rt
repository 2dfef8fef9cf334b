// Lists of a fixed most length, in memory that is there already: nothing is allocated.
//
// A `Few` keeps its items in the value itself. An ordered list keeps them ascending in the first places of a slice that
// the caller owns, who knows how many are in use: finding an item halves what is left, entering one moves those behind it
// up by one place, and taking some out is one pass over the list.
#![tactic(auto)]

mod element;
mod entry;
mod few;
mod lookup;
mod removal;

pub use element::Ordered;
pub use entry::{Full, enter};
pub use few::Few;
pub use lookup::find;
pub use removal::retain;

#[cfg(test)]
mod tests;
