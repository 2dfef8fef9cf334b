// A conflict as it is told: its rows, in order of place, and its rule.
use ordered::Few;
use store::Row;

#[derive(Clone, Copy)]
pub struct Forbidden {
    pub rows: Few<Row, 3>,
    pub rule: u8,
}
