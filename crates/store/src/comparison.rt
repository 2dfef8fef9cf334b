// Comparisons of columns and constants. How a column is named is for the caller to say: a plan's line has columns by number,
// and a rule's a column of one of its atoms.
ghost use Rattle.std.specs.Prelude.{◌≡◌, ℕ, Bool};
ghost use Rattle.store.specs.Sides.{side_value, side_passes, holds_by, all_columns, AtColumn, AtColumns};

use crate::sign::Sign;

// One side of a comparison.
#[derive(Clone, Copy)]
pub enum Side<C> {
    Column(C),
    Constant(u32),
}

impl<C: Copy> Side<C> {
    // The number that it stands for, where `value` tells that of its column.
    fn value<F: Fn(C) -> u32>(self, value: &F) -> u32
        requires { AtColumn (F.pre value.now) self }
        ensures { (of : C → ℕ) → AtColumn (λ column. (n : ℕ) → F.post value.now column n → n ≡ of column) self → result ≡ side_value of self }
    {
        match self {
            Side::Column(column) => value(column),
            Side::Constant(constant) => constant,
        }
    }

    // Whether it is a constant, or a column that passes.
    fn passes<F: Fn(C) -> bool>(self, test: &F) -> bool
        requires { AtColumn (F.pre test.now) self }
        ensures { (of : C → Bool) → AtColumn (λ column. (b : Bool) → F.post test.now column b → b ≡ of column) self → result ≡ side_passes of self }
    {
        match self {
            Side::Column(column) => test(column),
            Side::Constant(_) => true,
        }
    }
}

#[derive(Clone, Copy)]
pub struct Comparison<C> {
    pub left: Side<C>,
    pub sign: Sign,
    pub right: Side<C>,
}

impl<C> Comparison<C> {
    // What stands in an array of comparisons where none does.
    pub const BLANK: Comparison<C> = Comparison {
        left: Side::Constant(0),
        sign: Sign::Equal,
        right: Side::Constant(0),
    };
}

impl<C: Copy> Comparison<C> {
    // Whether it holds, where `value` tells the number of each column.
    pub fn holds<F: Fn(C) -> u32>(&self, value: F) -> bool
        requires { AtColumns (F.pre value) self.now }
        ensures { (of : C → ℕ) → AtColumns (λ column. (n : ℕ) → F.post value column n → n ≡ of column) self.now → result ≡ holds_by of self.now }
    {
        self.sign
            .holds(self.left.value(&value), self.right.value(&value))
    }

    // Whether each side is a constant, or a column that passes.
    pub fn all_columns<F: Fn(C) -> bool>(&self, test: F) -> bool
        requires { AtColumns (F.pre test) self.now }
        ensures { (of : C → Bool) → AtColumns (λ column. (b : Bool) → F.post test column b → b ≡ of column) self.now → result ≡ all_columns of self.now }
    {
        self.left.passes(&test) && self.right.passes(&test)
    }
}
