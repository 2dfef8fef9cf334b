// The rink: its relations, and rows and rules of it written short, for the counter, the examples and the measurements.
#![tactic(auto)]

mod comparisons;
mod rows;

pub use comparisons::{always, both, one_club, three_flooded, with_number};
pub use rows::{party, row};

// Ice (0), Held (1), Void (2) and Flood (4) have a pad and a slot; Party (3) has a club too.
pub const ARITIES: [u8; 5] = [2, 2, 2, 3, 2];
