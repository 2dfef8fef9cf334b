// Comparisons: of a rule, as a0.1#a1.1, a0.0<5 and 7=7, and of a plan, as c0<5 and c0=c1.
ghost use Rattle.std.specs.Prelude.{◌≡◌, ℕ, List, Option};
ghost use Rattle.std.specs.Fn.{FnReturnsAt};
ghost use Rattle.std.specs.Option.{option_map};
ghost use Rattle.store.specs.declared.comparison.Side.{Side};
ghost use Rattle.commands.specs.Choices.{line_side, choice_of};
ghost use Rattle.commands.specs.Comparisons.{sign_of, compared, between, atom_side, comparison_of};

use rules::AtomColumn;
use store::{Comparison, Side, Sign};
use words::halves::halves;
use words::{Separator, number};

// The sign that a byte is, if it is one. An `Option`: a `TryFrom` would have an error only for its caller's `.ok()?` to drop.
fn sign_of(byte: u8) -> Option<Sign>
    ensures { result ≡ sign_of byte }
{
    match byte {
        b'=' => Some(Sign::Equal),
        b'#' => Some(Sign::Unequal),
        b'<' => Some(Sign::Less),
        b'>' => Some(Sign::Greater),
        _ => None,
    }
}

// The column of an atom that a text names, or the constant that it is.
fn atom_side(text: &[u8]) -> Option<Side<AtomColumn>>
    ensures { result ≡ atom_side text.now }
{
    match text {
        [b'a', atom @ b'0'..=b'9', b'.', column @ b'0'..=b'9'] => Some(Side::Column(AtomColumn {
            atom: *atom - b'0',
            column: *column - b'0',
        })),
        _ => number(text).map(Side::Constant),
    }
}

// The column of a line that a text names, or the constant that it is.
fn line_side(text: &[u8]) -> Option<Side<u8>>
    ensures { result ≡ line_side text.now }
{
    match text {
        [b'c', column @ b'0'..=b'9'] => Some(Side::Column(*column - b'0')),
        _ => number(text).map(Side::Constant),
    }
}

// The comparison that a text is, where `side` reads both of its sides.
fn compared<C: Copy, F: Fn(&[u8]) -> Option<Side<C>>>(text: &[u8], side: F) -> Option<Comparison<C>>
    requires { F.IsAlwaysCallable side }
    ensures { (of : List ℕ → Option (Side C)) → ((t : List ℕ) (s : Option (Side C)) → FnReturnsAt F.Fn side t s → s ≡ of t) → result ≡ option_map between (compared of text.now) }
{
    let (left, right) = halves(text, Separator::Sign)?;
    Some(Comparison {
        left: side(left)?,
        sign: sign_of(text[left.len()])?,
        right: side(right)?,
    })
}

// The comparison that a text is, if it is one of a rule.
pub fn comparison_of(text: &[u8]) -> Option<Comparison<AtomColumn>>
    ensures { result ≡ comparison_of text.now }
{
    compared(text, atom_side)
}

// The comparison that a text is, if it is one of a plan.
pub fn choice_of(text: &[u8]) -> Option<Comparison<u8>>
    ensures { result ≡ choice_of text.now }
{
    compared(text, line_side)
}
