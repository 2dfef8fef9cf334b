// What a person is told of a refusal, the same in every layer.
#![tactic(auto)]

mod layer;
mod notice;

pub use layer::{Layer, layer_of};
pub use notice::Notice;
