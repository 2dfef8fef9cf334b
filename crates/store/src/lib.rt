// Rows and the sources that hold them.
//
// A source has places, and at each place a row or nothing. What every source means is said once,
// by the trait `Source` over the model in specs/Store.antt; each source is proved against it.
#![tactic(auto)]

mod admission;
mod arity;
mod comparison;
mod refusal;
mod row;
mod sign;
mod source;
mod table;

pub use admission::{admit, place_for};
pub use arity::{arity_in, declared, zero_from};
pub use comparison::{Comparison, Side};
pub use refusal::Refusal;
pub use row::Row;
pub use sign::Sign;
pub use source::Source;
pub use table::Table;
