//! Lists in the order of their elements, each of them once.
ghost use Rattle.std.specs.Prelude.{◌≡◌, Bool};
ghost use Rattle.std.specs.List.{list_any};
ghost use Rattle.std.specs.List.Sorted.{IsStrictlySortedBy};
ghost use Rattle.std.specs.Ordering.{is_eq};

use std::cmp::Ordering;
use std::marker::Model;

/// A list in the order of its elements, which may be searched. Contracts see the list.
pub(crate) struct SortedList<T: Ord> {
    items: Vec<T>,
}

impl<T: Ord + Drop> Drop for SortedList<T> {
    fn drop(self) {
        let SortedList { items: _ } = self;
    }
}

impl<T: Ord> Model for SortedList<T> {
    ghost use Rattle.std.specs.Prelude.{List};
    ghost use Rattle.std.specs.Coded.{coded_list};
    ghost use Rattle.std.specs.List.Sorted.{IsStrictlySortedBy};

    ghost Value = { List T };

    ghost coded = { coded_list T.code };

    ghost view = { λ s. s.items.items };

    ghost invariant = { λ s. IsStrictlySortedBy T.cmp s.items.items };
}

impl<T: Ord + Drop> SortedList<T> {
    /// The elements in their order, of which equal ones are one.
    pub(crate) fn new(mut items: Vec<T>) -> SortedList<T>
        ensures { (p : T → Bool) → ((a b : T) → T.cmp a b ≡ Ordering.Equal → p a ≡ p b) → list_any p result ≡ list_any p items.items }
    {
        items.sort_unstable();
        items.dedup();
        SortedList { items }
    }

    /// Whether an element is equal to this one.
    pub(crate) fn contains(&self, x: &T) -> bool
        ensures { result ≡ list_any (λ y. is_eq (T.cmp y x.now)) self.now }
    {
        self.items.as_slice().binary_search(x).is_ok()
    }

    /// The elements, lent.
    pub(crate) fn as_slice(&self) -> &[T]
        ensures list { result.now ≡ self.now }
        ensures sorted { IsStrictlySortedBy T.cmp result.now }
    {
        self.items.as_slice()
    }
}
