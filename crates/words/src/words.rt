// How a part of a line is read as a word.
ghost use Rattle.std.specs.Prelude.{◌≡◌};
ghost use Rattle.std.specs.Option.{option_map};
ghost use Rattle.words.specs.Language.{form_of, word_of};
ghost use Rattle.words.specs.Meaning.{shown, seen, read};

use crate::comparisons::is_comparison;
use crate::leaves::is_leaf;
use crate::numbers::is_number;
use crate::{Part, Token, Word};

// The token of a text, or None where it has no form.
fn token_of<'a>(text: &'a [u8]) -> Option<Token<'a>>
    ensures { option_map seen result ≡ form_of text.now }
{
    match text {
        _ if is_number(text) => Some(Token::Number(text)),
        _ if is_leaf(text) => Some(Token::Leaf(text)),
        _ if is_comparison(text) => Some(Token::Comparison(text)),
        [b'*' | b'+' | b'-'] => Some(Token::Sign(text)),
        b"/" => Some(Token::Slash),
        _ => None,
    }
}

// The word that a part of a line is, or None where it has no form.
pub fn word(part: Part<'_>) -> Option<Word<'_>>
    ensures { option_map read result ≡ word_of (shown part.entry) }
{
    token_of(part.text).map(|token| Word {
        token,
        place: part.place,
    })
}
