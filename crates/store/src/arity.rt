// Arities as they are given: one byte for each of the relations 0 to 15.
ghost use Rattle.std.specs.Prelude.{◌≡◌, ℕ};
ghost use Rattle.store.specs.Rows.{arity_in, zero_from};

use std::array;

// Only relations below this may be declared.
const RELATIONS: u16 = 16;

const MOST_ARITY: u8 = 4;

// The arity that the bytes give a relation: 0, which means undeclared, where its byte is missing
// or above 4, and for every relation past 15.
pub fn arity_in(arities: &[u8], relation: u16) -> u8
    ensures { result ≡ arity_in arities.now relation }
{
    match arities.get(relation as usize) {
        Some(&arity) if relation < RELATIONS && arity <= MOST_ARITY => arity,
        _ => 0,
    }
}

// The arities that the bytes give the relations 0 to 15, as bytes that give the same.
pub fn declared(arities: &[u8]) -> [u8; 16]
    ensures { (relation : ℕ) → arity_in result relation ≡ arity_in arities.now relation }
{
    array::from_fn(|relation| arity_in(arities, relation as u16))
}

// Whether the columns from the arity on are zero.
pub fn zero_from(arity: u8, columns: &[u32; 4]) -> bool
    ensures { result ≡ zero_from arity columns.now }
{
    columns
        .iter()
        .skip(arity as usize)
        .all(|column| *column == 0)
}
