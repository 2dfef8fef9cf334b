// The words of a script. A line is cut into parts at its spaces, and each part is read as a number, a leaf, a comparison,
// a sign of a plan or a slash, or has no form. specs/Language.antt is the language, rule by rule.
//
// A text may hold any bytes and be of any length. It is read from left to right, a fixed number of times; nothing is
// copied or allocated, and whatever is handed out borrows the text and knows its place in it.
#![tactic(auto)]

mod comparisons;
pub mod halves;
mod leaves;
mod numbers;
mod parts;
mod separators;
mod tokens;
mod words;

pub use comparisons::is_comparison;
pub use leaves::is_leaf;
pub use numbers::number;
pub use parts::{Part, Parts};
pub use separators::Separator;
pub use tokens::{Token, Word};
pub use words::word;
