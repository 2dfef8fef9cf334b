// A table: a source with 64 places of its own.
ghost use Rattle.std.specs.Prelude.{◌≡◌, length};
ghost use Rattle.store.specs.Places.{OnceIn, FitIn};

use crate::row::Row;

pub mod source;

#[derive(Drop)]
pub struct Table {
    // the arities of the relations 0 to 15
    arities: [u8; 16],
    cells: [Option<Row>; 64],
    ghost sized: { length cells ≡ 64 },
    ghost fit: { FitIn arities cells },
    ghost once: { OnceIn cells },
}
