// The candidates of a plan over the rows of a source, in ascending order.
//
// A leaf's candidates are its lines, a choice's those for which the comparison holds, a product's each left one followed by each right
// one, a union's those of both, a difference's those of the left: whatever rows go away, no answer is outside them. They are streamed:
// the least candidate after a line is sought anew by going down the plan's nodes, and nothing is kept between two calls.
//
// A choice does not go through the lines below it: its comparison goes down with the search, as what is wanted of the plan's whole line
// (`Wanted`), and is tested as soon as its columns are there. A product goes through its left lines, least first, and asks its right
// side for a line behind each; a leaf scans the source's places once, and takes no line that fails a comparison. A right side that has
// no line for itself, whatever stands on the left, ends the search at once.
#![tactic(auto)]

mod laws;
mod leaf;
mod next;
mod nodes;
mod search;
mod wanted;

pub use laws::all_candidates;
pub use next::next_candidate;
