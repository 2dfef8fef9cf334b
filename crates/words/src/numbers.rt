// Numbers: 1 to 10 decimal digits with a value below 2^32.
ghost use Rattle.std.specs.Prelude.{◌≡◌};
ghost use Rattle.words.specs.Language.{is_number, number_of};

const MOST_DIGITS: usize = 10;

// A number is below this.
const LIMIT: u64 = 1 << 32;

// The value of a number, or None where the text is none. By hand, in one pass: `parse` wants a text that is known to be digits, since
// it takes a plus sign too, so it made three of it, in more than twice the time. Every number of a line is read here.
pub fn number(text: &[u8]) -> Option<u32>
    ensures { result ≡ number_of text.now }
{
    if text.is_empty() || text.len() > MOST_DIGITS {
        return None;
    }
    // Ten digits fit: they write less than 10^10.
    let mut value = 0u64;
    for byte in text {
        if !byte.is_ascii_digit() {
            return None;
        }
        value = 10 * value + (*byte - b'0') as u64;
    }
    if value < LIMIT {
        Some(value as u32)
    } else {
        None
    }
}

// Whether a text is a number.
pub fn is_number(text: &[u8]) -> bool
    ensures { result ≡ is_number text.now }
{
    number(text).is_some()
}
