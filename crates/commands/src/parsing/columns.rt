// Words that are numbers: a relation, and columns.
ghost use Rattle.std.specs.Prelude.{◌≡◌, ℕ, ◌≤◌, List, Option, MatchOption, ⊤};
ghost use Rattle.std.specs.Fn.{FnReturnsAt};
ghost use Rattle.std.specs.Option.{option_map};
ghost use Rattle.words.specs.Language.{texts};
ghost use Rattle.words.specs.Meaning.{to_come};
ghost use Rattle.commands.specs.Numbers.{as_relation, filled, values_from, columns_from};

use words::{Parts, number};

// The relation with a number, if it can be one's.
pub fn relation_of(value: u32) -> Option<u16>
    ensures { result ≡ as_relation value }
{
    u16::try_from(value).ok()
}

// What up to N words stand for, with fillers behind, and how many they are.
pub fn values_from<T: Copy, const N: usize, F: Fn(&[u8]) -> Option<T>>(
    mut words: Parts<'_>,
    filler: T,
    value: F,
) -> Option<(usize, [T; N])>
    requires { F.IsAlwaysCallable value }
    ensures few { MatchOption result ⊤ (λ read. read.0 ≤ N) }
    ensures reads { (of : List ℕ → Option T) → ((t : List ℕ) (x : Option T) → FnReturnsAt F.Fn value t x → x ≡ of t) → result ≡ option_map (filled N filler) (values_from N of (texts (to_come words.entry))) }
{
    let mut values = [filler; N];
    for (i, place) in values.iter_mut().enumerate() {
        let Some(part) = words.next() else {
            return Some((i, values));
        };
        *place = value(part.text)?;
    }
    words.next().is_none().then_some((N, values))
}

// One column or more, but no more than N, the rest zero.
pub fn columns_from<const N: usize>(words: Parts<'_>) -> Option<[u32; N]>
    ensures { result ≡ columns_from N (texts (to_come words.entry)) }
{
    let (count, columns) = values_from(words, 0, |text: &[u8]| number(text))?;
    (count > 0).then_some(columns)
}
