// How two columns are compared.
ghost use Rattle.std.specs.Prelude.{◌≡◌};
ghost use Rattle.store.specs.Signs.{compares};

// Written = # < > in scripts, where # means unequal.
#[derive(Clone, Copy)]
pub enum Sign {
    Equal,
    Unequal,
    Less,
    Greater,
}

impl Sign {
    // Whether the comparison with this sign holds between two values.
    pub fn holds(self, left: u32, right: u32) -> bool
        ensures { result ≡ compares self left right }
    {
        match self {
            Sign::Equal => left == right,
            Sign::Unequal => left != right,
            Sign::Less => left < right,
            Sign::Greater => left > right,
        }
    }
}
