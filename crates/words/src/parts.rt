// The parts of a text, and an iterator over them.
ghost use Rattle.std.specs.Prelude.{◌+◌, ◌^◌, ◌<◌, length};
ghost use Rattle.std.specs.Option.{option_map, unwrap_or};

use super::Separator;

mod cutting;

// A stretch of a text between two separators, and its place: the offset of its first byte.
#[derive(Clone, Copy)]
pub struct Part<'a> {
    pub text: &'a [u8],
    pub place: usize,
}

// The parts of a text that are still to come, from left to right: those of `rest`, which begins at `place`.
// The library's `split` does not tell where a part stands.
#[derive(Drop)]
pub struct Parts<'a> {
    separator: Separator,
    rest: Option<&'a [u8]>,
    place: usize,
    // So no place wraps.
    ghost fits: { place + unwrap_or (option_map (λ text. length text.now) rest) 0 < 2 ^ 64 },
}
