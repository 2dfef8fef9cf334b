// Rules that forbid some rows together, the conflicts that they make, and the list of them.
//
// A conflict is a set of rows that some choice of one row for each atom of a rule puts together. The list has each conflict
// once, by the ascending places of its rows, with the least rule that they break. It is not made anew when a row or a rule
// comes: only the choices are gone through that the row or the rule is part of, atom by atom, and a choice is given up at
// the first row that does not fit. Under a rule of two atoms a row that comes costs two passes over the places.
#![tactic(auto)]

mod chosen;
mod conflict;
pub mod laws;
mod list;
mod refusal;
mod rule;
mod search;
mod upkeep;

pub use conflict::Conflict;
pub use list::Conflicts;
pub use ordered::Full;
pub use refusal::Refusal;
pub use rule::check::check_rule;
pub use rule::{AtomColumn, Comparison, Rule, Side};
pub use upkeep::{add_place, add_rule, remove_place};
