// Sheets: all lines of a plan that every reading of some rows has as answers, in ascending order.
//
// Every answer over some of the rows held is a candidate over all of them, so the candidates are gone through, least first, and each
// is settled as a verdict is: the sure ones are entered into the caller's lines, and nothing is kept of the others. So a sheet
// costs what so many verdicts cost, and the search for each next candidate. Nothing is allocated.
#![tactic(auto)]

mod gathering;
mod laws;
mod refusal;
mod writing;

pub use laws::readable;
pub use refusal::Refusal;
pub use writing::sheet;
