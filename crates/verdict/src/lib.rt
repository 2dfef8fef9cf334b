// Verdicts: whether every reading has a line of a plan as an answer.
//
// A line names one row at each leaf of a plan, at most six. The ways to be in a reading or out of it are gone through for
// these rows: at most 64. A way that would make the line no answer can be where each row that is out, and held, has a conflict
// whose other rows can all be in, together with the rows that are in and without a whole conflict; all of these rows are then
// a core. So the rows that are out are gone through, and for each its conflicts, and the rows that have to be in are marked.
// Four things cut the search. A row that is to be out and is in no conflict ends it before it begins. A choice after which a whole conflict is marked is given up at once. A row that has a conflict
// whose other rows are all marked already is given that one alone, since no other asks less. And a choice that leaves no
// conflict to some later row that is out is given up before the rows between are looked at. Before the search each row that is
// to be out is tried as the first, and, unless no choice has to be taken back, each three of them are searched alone: so two or
// three rows that cannot be out together are found wherever they stand.
// Nothing is allocated, and nothing calls itself: six choices are all there can be.
#![tactic(auto)]

mod cases;
mod deciding;
mod guard;
mod judging;
mod locating;
mod marks;
mod outcome;
mod refusal;
mod search;
mod settling;
mod sides;
mod writing;

pub use deciding::is_sure;
pub use guard::Marks;
pub use judging::{MARK_BYTES, verdict};
pub use outcome::Verdict;
pub use refusal::Refusal;
