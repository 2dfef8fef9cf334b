// A refusal as it is told: its number, its layer and a position.
ghost use Rattle.std.specs.Prelude.{◌≡◌};
ghost use Rattle.fault.specs.Notices.{notice};

use crate::layer::{Layer, layer_of};

// A number, since this is what a person is told: inside the engine a refusal is an enum of its layer.
// The position is the first atom, comparison, node, column or record that fails, where the
// refusal is about one of these, and otherwise 0.
#[derive(Clone, Copy)]
pub struct Notice {
    pub number: u8,
    pub layer: Layer,
    pub position: usize,
}

impl Notice {
    // The notice of the refusal with this number at this position; the number tells the layer.
    pub fn new(number: u8, position: usize) -> Notice
        ensures { result ≡ notice number position }
    {
        Notice {
            number,
            layer: layer_of(number),
            position,
        }
    }
}
