//! The items of a list by value.
ghost use Rattle.std.specs.Prelude.{◌≡◌};
ghost use Rattle.std.specs.Iterator.{YieldsFirst, item_count};

use crate::Vec;
use std::alloc::Allocator;
use std::marker::Model;

/// The items of a list by value, seen as the list of those that are left.
///
/// `next` gives the first of them, and `None` exactly where none is left. Dropping it ends the
/// rest.
pub struct IntoIter<T, A: Allocator> {
    inner: std::vec::IntoIter<T, A>,
}

impl<T, A: Allocator> Model for IntoIter<T, A> {
    ghost use Rattle.std.specs.Prelude.{List};
    ghost use Rattle.std.specs.Vec.Iter.{into_iter_items};

    ghost Value = { List T };

    ghost view = { λ it. into_iter_items it.inner };
}

impl<T: Drop, A: Allocator> Drop for IntoIter<T, A> {
    fn drop(self) {
        let IntoIter { inner } = self;
        drop(inner);
    }
}

impl<T: Drop, A: Allocator> Iterator for IntoIter<T, A> {
    type Item = T;

    ghost next_gives = { YieldsFirst (λ left. left) };

    ghost remaining = { item_count (λ left. left) };

    fn next(&mut self) -> Option<T> {
        self.inner.next()
    }
}

impl<T: Drop, A: Allocator> IntoIterator for Vec<T, A> {
    type Item = T;

    type IntoIter = IntoIter<T, A>;

    ghost into_iter_gives = { λ list it. it ≡ list.items };

    fn into_iter(self) -> IntoIter<T, A> {
        IntoIter {
            inner: self.into_inner().into_iter(),
        }
    }
}
