// The two halves of a text that has exactly one separator.
ghost use Rattle.std.specs.Prelude.{◌≡◌};
ghost use Rattle.std.specs.Option.{option_map};
ghost use Rattle.words.specs.Language.{halves_of};

use crate::{Parts, Separator};

// What stands before and behind the separator, or None where there is not exactly one.
pub fn halves<'a>(text: &'a [u8], separator: Separator) -> Option<(&'a [u8], &'a [u8])>
    ensures { option_map (λ h. (h.0.now, h.1.now)) result ≡ halves_of separator text.now }
{
    let mut parts = Parts::new(text, separator);
    let before = parts.next()?;
    let behind = parts.next()?;
    parts.next().is_none().then_some((before.text, behind.text))
}
