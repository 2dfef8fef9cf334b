// What a conflict tells, and which of two comes first.
ghost use Rattle.std.specs.Prelude.{◌≡◌, ◌==◌, nat_eq};
ghost use Rattle.std.proofs.Common.{rules};
ghost use Rattle.std.specs.Cmp.{partial_order_from_own_ties};
ghost use Rattle.std.specs.Cmp.Lexicographic.{pointwise, slice_cmp};
ghost use Rattle.std.specs.Cmp.Rules.{comparing};
ghost use Rattle.std.specs.Ordering.{as_partial_cmp, nat_cmp, on};
ghost use Rattle.rules.specs.Listing.{touches};
ghost use Rattle.rules.specs.Views.{listed_as};

use super::Conflict;
use std::cmp::Ordering;

impl Conflict {
    // What stands in a list where no conflict does.
    pub(crate) const NONE: Conflict = Conflict {
        places: [0; 3],
        size: 0,
        rule: 0,
    };

    // The places of its rows, ascending.
    pub fn places(&self) -> &[u16]
        ensures { result.now ≡ (listed_as self.now).places }
    {
        &self.places[0..self.size as usize]
    }

    // The number of the least rule that its rows break.
    pub fn rule(&self) -> u8
        ensures { result ≡ (listed_as self.now).rule }
    {
        self.rule
    }

    // Whether the row at a place is one of its rows.
    pub(crate) fn touches(&self, place: usize) -> bool
        ensures { result ≡ touches place (listed_as self.now) }
    {
        self.places().iter().any(|other| place == *other as usize)
    }
}

// Conflicts are compared by their places alone: a derive would compare the rule too, and the places that are not in use.
impl Ord for Conflict {
    ghost cmp = { on (λ c. (listed_as c).places) (slice_cmp nat_cmp) };

    ghost total = { Prim.search (comparing, rules) };

    ghost matches_partial_cmp = { Prim.search (comparing, rules) };

    ghost matches_eq = { Prim.search (comparing, rules) };

    fn cmp(&self, other: &Conflict) -> Ordering {
        self.places().cmp(other.places())
    }
}

impl PartialOrd for Conflict {
    ghost partial_cmp = { as_partial_cmp (on (λ c. (listed_as c).places) (slice_cmp nat_cmp)) };

    ghost laws = { partial_order_from_own_ties (Prim.search (comparing, rules)) (Prim.search (comparing, rules)) };

    fn partial_cmp(&self, other: &Conflict) -> Option<Ordering> {
        Some(self.cmp(other))
    }
}

impl Eq for Conflict {
    ghost laws = { Prim.search (comparing, rules) };
}

impl PartialEq for Conflict {
    ghost eq = { on (λ c. (listed_as c).places) (pointwise ◌==◌) };

    ghost laws = { Prim.search (comparing, rules) };

    fn eq(&self, other: &Conflict) -> bool {
        self.places() == other.places()
    }
}
