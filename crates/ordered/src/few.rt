// A list of a few items, kept in the value itself.
ghost use Rattle.std.specs.Prelude.{◌≡◌, ◌≤◌, ⊤, length};

use crate::element::Ordered;
use crate::entry::{Full, enter};
use crate::removal::retain;
use std::alloc::AllocError;

// Up to N items, in the first places of an array; what stands in the others is not looked at. The kit's `ArrayVec` is not `Copy`
// and wants a `Default` of its items: this one list serves values that are copied and values that are not.
pub struct Few<T, const N: usize> {
    items: [T; N],
    count: usize,
    ghost sized: { length items ≡ N },
    ghost within: { count ≤ N },
}

// By hand: a derive over `T` would be for items that are not `Copy` too, and `Clone` alone cannot be derived over ghost fields.
impl<T: Copy, const N: usize> Copy for Few<T, N> {}

impl<T: Copy, const N: usize> Clone for Few<T, N> {
    ghost is_infallible = { λ _. ⊤ };

    ghost is_clone = { λ before after. after ≡ before };

    fn clone(&self) -> Result<Few<T, N>, AllocError> {
        Ok(*self)
    }
}

impl<T: Copy, const N: usize> Few<T, N> {
    ghost use Rattle.std.specs.Prelude.{◌≡◌, ◌<◌, ◌≤◌, Bool, [], ◌∷◌, ◌++◌, length, filter, slice_set};
    ghost use Rattle.std.specs.Fn.{FnReturnsAt};
    ghost use Rattle.ordered.specs.Lists.{items_in};

    // No items; the filler stands in the places that are not in use.
    pub fn new(filler: T) -> Few<T, N>
        ensures { items_in result ≡ [] }
    {
        Few {
            items: [filler; N],
            count: 0,
        }
    }

    // These items, in their order.
    pub fn of(items: &[T], filler: T) -> Few<T, N>
        requires { length items.now ≤ N }
        ensures { items_in result ≡ items.now }
    {
        let mut all = [filler; N];
        all[..items.len()].copy_from_slice(items);
        Few {
            items: all,
            count: items.len(),
        }
    }

    // How many there are.
    pub fn len(&self) -> usize
        ensures length { result ≡ length (items_in self.now) }
        ensures within { result ≤ N }
    {
        self.as_slice().len()
    }

    // The items.
    pub fn as_slice(&self) -> &[T]
        ensures items { result.now ≡ items_in self.now }
        ensures within { length result.now ≤ N }
    {
        &self.items[..self.count]
    }

    // One more item at the end.
    pub fn push(&mut self, item: T)
        requires { length (items_in self.old) < N }
        ensures { items_in self.new ≡ items_in self.old ++ item ∷ [] }
    {
        self.items[self.count] = item;
        self.count += 1;
    }

    // This item at a place that is in use, where another stood.
    pub fn set(&mut self, place: usize, item: T)
        requires { place < length (items_in self.old) }
        ensures { items_in self.new ≡ slice_set (items_in self.old) place item }
    {
        self.items[place] = item;
    }

    // No items any more.
    pub fn clear(&mut self)
        ensures { items_in self.new ≡ [] }
    {
        self.count = 0;
    }

    // Keeps the items that pass, in their order.
    pub fn retain<F: Fn(&T) -> bool>(&mut self, keep: F)
        requires { F.IsAlwaysCallable keep }
        ensures { (passes : T → Bool) → ((x : T) (b : Bool) → FnReturnsAt F.Fn keep x b → b ≡ passes x) → items_in self.new ≡ filter passes (items_in self.old) }
    {
        self.count = retain(&mut self.items, self.count, keep);
    }
}

impl<T: Ordered + Copy, const N: usize> Few<T, N> {
    ghost use Rattle.std.specs.Prelude.{MatchResult};
    ghost use Rattle.ordered.specs.Lists.{items_in, Takes, Bars};

    // Enters an item at its place among these, which ascend; where an equal one stands already, they stay.
    pub fn enter(&mut self, x: T) -> Result<(), Full>
        ensures { MatchResult result
            (λ _. Takes T.order x (items_in self.old) (items_in self.new))
            (λ _. Bars T.order x (items_in self.old) (items_in self.new) N) }
    {
        self.count = enter(&mut self.items, self.count, x)?;
        Ok(())
    }
}
