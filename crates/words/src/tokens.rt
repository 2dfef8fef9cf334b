// Tokens: the words that have a form, each borrowing its bytes.

// A word of a line by its form. A sign is one of * + -.
#[derive(Clone, Copy)]
pub enum Token<'a> {
    Number(&'a [u8]),
    Leaf(&'a [u8]),
    Comparison(&'a [u8]),
    Sign(&'a [u8]),
    Slash,
}

// A token and its place, the offset of its first byte in the line.
#[derive(Clone, Copy)]
pub struct Word<'a> {
    pub token: Token<'a>,
    pub place: usize,
}
