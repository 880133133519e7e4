//! Short lists that lie in the value itself.
ghost use Rattle.std.specs.Prelude.{◌≡◌, ◌<◌, ◌≤◌, ◌∷◌, ◌++◌, [], length, take, ⊤};
ghost use Rattle.std.specs.Cmp.Lexicographic.{pointwise, lists_per, lists_equiv};

use crate::blank::Blank;
use std::alloc::AllocError;
use std::marker::Model;

/// At most `N` items. What stands in the places behind them is always the same, so that a value is
/// its list of items and nothing more.
#[derive(Copy)]
pub struct Few<T: Blank, const N: usize> {
    items: [T; N],
    len: usize,
}

impl<T: Blank, const N: usize> Model for Few<T, N> {
    ghost use Rattle.std.specs.Prelude.{◌-◌, ◌++◌, List, length, take, replicate};
    ghost use Rattle.entries.specs.Few.{Padded, as_many, filled_up};

    ghost Value = { List T };

    ghost view = { λ f. take f.len f.items };

    ghost invariant = { λ f. Padded N T.blank f.len f.items };

    ghost inverse = { λ xs. record { items = xs ++ replicate (N - length xs) T.blank; len = length xs } };

    ghost inverse_ok = { λ f h i. record {
      items = filled_up N T.blank f.len f.items h i;
      len = as_many N T.blank f.len f.items h i;
    } };
}

impl<T: Blank, const N: usize> Clone for Few<T, N> {
    ghost is_clone = { λ x y. y ≡ x };

    ghost is_infallible = { λ _. ⊤ };

    fn clone(&self) -> Result<Few<T, N>, AllocError> {
        Ok(*self)
    }
}

/// A derived `==` would compare the places behind the items, too.
impl<T: Blank + PartialEq, const N: usize> PartialEq for Few<T, N> {
    ghost eq = { pointwise T.eq };

    ghost laws = { lists_per T.laws };

    fn eq(&self, other: &Few<T, N>) -> bool {
        self.as_slice() == other.as_slice()
    }
}

impl<T: Blank + Eq, const N: usize> Eq for Few<T, N> {
    ghost laws = { lists_equiv T.Eq.laws };
}

impl<T: Blank, const N: usize> Few<T, N> {
    /// No items.
    pub fn empty() -> Few<T, N>
        ensures { result ≡ [] }
    {
        Few {
            items: [T::blank(); N],
            len: 0,
        }
    }

    /// The first `N` of `items`.
    pub fn new(items: &[T]) -> Few<T, N>
        ensures { result ≡ take N items.now }
    {
        let len = items.len().min(N);
        let mut places = [T::blank(); N];
        // At once and not item by item, since each look-up of a word makes one.
        let front = &mut places[..len];
        front.copy_from_slice(&items[..len]);
        Few { items: places, len }
    }

    /// The items.
    pub fn as_slice(&self) -> &[T]
        ensures items { result.now ≡ self.now }
        ensures few { length self.now ≤ N }
    {
        let places = &self.items[..];
        &places[..self.len]
    }

    /// Puts `item` at the end.
    pub fn push(&mut self, item: T)
        requires { length self.old < N }
        ensures { self.new ≡ self.old ++ item ∷ [] }
    {
        self.items[self.len] = item;
        self.len += 1;
    }
}
