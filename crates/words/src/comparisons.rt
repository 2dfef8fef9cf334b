// Comparisons: two sides around one of the signs = # < >, as a0.1#a1.1, a0.0<5, c0<5 and 7=7.
ghost use Rattle.std.specs.Prelude.{◌≡◌};
ghost use Rattle.words.specs.Language.{is_atom_column, is_line_column, is_side, mixed, comparable, is_comparison};

use crate::Separator;
use crate::halves::halves;
use crate::numbers::is_number;

// Whether a text is a column of an atom, as a0.1.
fn is_atom_column(text: &[u8]) -> bool
    ensures { result ≡ is_atom_column text.now }
{
    matches!(text, [b'a', b'0'..=b'9', b'.', b'0'..=b'9'])
}

// Whether a text is a column of a line, as c0.
fn is_line_column(text: &[u8]) -> bool
    ensures { result ≡ is_line_column text.now }
{
    matches!(text, [b'c', b'0'..=b'9'])
}

// Whether a text is a side of a comparison.
fn is_side(text: &[u8]) -> bool
    ensures { result ≡ is_side text.now }
{
    is_atom_column(text) || is_line_column(text) || is_number(text)
}

// Whether one of two texts is a column of an atom, and the other a column of a line.
fn are_mixed(left: &[u8], right: &[u8]) -> bool
    ensures { result ≡ mixed left.now right.now }
{
    is_atom_column(left) && is_line_column(right) || is_line_column(left) && is_atom_column(right)
}

// Whether two texts are sides that may be compared.
fn are_comparable(left: &[u8], right: &[u8]) -> bool
    ensures { result ≡ comparable left.now right.now }
{
    is_side(left) && is_side(right) && !are_mixed(left, right)
}

// Whether a text is a comparison.
pub fn is_comparison(text: &[u8]) -> bool
    ensures { result ≡ is_comparison text.now }
{
    halves(text, Separator::Sign).is_some_and(|(left, right)| are_comparable(left, right))
}
