// The book: rows, rules and the list of conflicts, over any source.
//
// The source holds the rows; the book holds the rules and, always exact, the list of the sets of rows
// that they forbid together. What a book does over whole runs is held to the plain book of
// specs/Plain.antt: each call says that every lawful life so far goes on with it.
#![tactic(auto)]

mod book;
mod call;
mod entries;
mod forbidden;
mod judging;
mod log;
mod queries;
mod recorder;
mod refusal;
mod runs;

pub use book::Book;
pub use call::{Call, Done, Outcome};
pub use forbidden::Forbidden;
pub use log::Log;
pub use recorder::Recorder;
pub use refusal::Refusal;
pub use runs::session;
