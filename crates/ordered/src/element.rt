// What an item of an ordered list can do: compare itself with another.
ghost use Rattle.std.specs.Prelude.{◌≡◌};
ghost use Rattle.std.specs.declared.cmp.Ordering.{Ordering};
ghost use Rattle.std.specs.Cmp.{IsTotalOrder};

use std::cmp::Ordering;

// An order for a list, and no more: what is equal in it need not be equal by `==`, so that a type may be ordered by a key.
pub trait Ordered: Sized {
    // What `compare` answers. `Equal` says that the two belong at one place, not that they are the same.
    ghost order: { Self → Self → Ordering };

    fn compare(&self, other: &Self) -> Ordering
        ensures { result ≡ order self.now other.now };

    // It is total.
    ghost orderly: { IsTotalOrder order };
}

// What is `Ord` stands in its own order.
impl<T: Ord> Ordered for T {
    ghost order = { T.cmp };

    ghost orderly = { T.total };

    fn compare(&self, other: &T) -> Ordering {
        self.cmp(other)
    }
}
