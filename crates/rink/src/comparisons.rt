// Comparisons, written short, and the rules that are made of them.
ghost use Rattle.std.specs.Prelude.{◌≡◌, [], ◌∷◌};
ghost use Rattle.rink.specs.Comparisons.{always, both, column_of, with_number};

use rules::{AtomColumn, Comparison, Side};
use store::Sign;

// A column of the row that is chosen for an atom.
fn column_of(atom: u8, column: u8) -> Side
    ensures { result ≡ column_of atom column }
{
    Side::Column(AtomColumn { atom, column })
}

// The same column of two atoms, compared.
pub fn both(left: u8, sign: Sign, right: u8, column: u8) -> Comparison
    ensures { result ≡ both left sign right column }
{
    Comparison {
        left: column_of(left, column),
        sign,
        right: column_of(right, column),
    }
}

// A column of an atom, compared with a number.
pub fn with_number(atom: u8, column: u8, sign: Sign, number: u32) -> Comparison
    ensures { result ≡ with_number atom column sign number }
{
    Comparison {
        left: column_of(atom, column),
        sign,
        right: Side::Constant(number),
    }
}

// A comparison that always holds, 1=1.
pub fn always() -> Comparison
    ensures { result ≡ always }
{
    Comparison {
        left: Side::Constant(1),
        sign: Sign::Equal,
        right: Side::Constant(1),
    }
}

// With the atoms 3 3: no two clubs have a pad at a slot, a0.0=a1.0 a0.1=a1.1 a0.2#a1.2.
pub fn one_club() -> [Comparison; 3]
    ensures { result ≡ both 0 Sign.Equal 1 0 ∷ both 0 Sign.Equal 1 1 ∷ both 0 Sign.Unequal 1 2 ∷ [] }
{
    [
        both(0, Sign::Equal, 1, 0),
        both(0, Sign::Equal, 1, 1),
        both(0, Sign::Unequal, 1, 2),
    ]
}

// With the atoms 4 4 4: no three pads are flooded at a slot, a0.0<a1.0 a1.0<a2.0 a0.1=a1.1 a1.1=a2.1. Ascending pads
// have each three told once.
pub fn three_flooded() -> [Comparison; 4]
    ensures { result ≡ both 0 Sign.Less 1 0 ∷ both 1 Sign.Less 2 0 ∷ both 0 Sign.Equal 1 1 ∷ both 1 Sign.Equal 2 1 ∷ [] }
{
    [
        both(0, Sign::Less, 1, 0),
        both(1, Sign::Less, 2, 0),
        both(0, Sign::Equal, 1, 1),
        both(1, Sign::Equal, 2, 1),
    ]
}
