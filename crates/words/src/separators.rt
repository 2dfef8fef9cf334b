// The bytes at which a text is cut.
ghost use Rattle.std.specs.Prelude.{◌≡◌};
ghost use Rattle.words.specs.Language.{separates};

// A space parts the words of a line, a colon a leaf's relation from its columns, a comma the columns, and one of = # < >
// the sides of a comparison.
#[derive(Clone, Copy)]
pub enum Separator {
    Space,
    Colon,
    Comma,
    Sign,
}

impl Separator {
    // Whether a byte is this separator.
    pub fn separates(self, byte: u8) -> bool
        ensures { result ≡ separates self byte }
    {
        match self {
            Separator::Space => byte == b' ',
            Separator::Colon => byte == b':',
            Separator::Comma => byte == b',',
            Separator::Sign => matches!(byte, b'=' | b'#' | b'<' | b'>'),
        }
    }
}
