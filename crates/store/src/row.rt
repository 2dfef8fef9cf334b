// A row: a relation number and four columns.

#[derive(Clone, Copy, PartialEq, Eq)]
pub struct Row {
    pub relation: u16,
    pub columns: [u32; 4],
}

impl Row {
    // What stands in a list where no row does.
    pub const BLANK: Row = Row {
        relation: 0,
        columns: [0; 4],
    };
}
