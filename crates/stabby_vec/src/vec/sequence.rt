//! The list with a capacity, and what can be read of it.
ghost use Rattle.std.specs.Prelude.{◌≡◌, ◌==◌, ◌≤◌, [], IsTrue, ◌↔◌, vec_capacity};
ghost use Rattle.std.specs.Borrow.{sem};
ghost use Rattle.stabby_vec.specs.Sequence.{sequence_len, spare, empty_with, GREATEST_CAPACITY};

use std::alloc::Allocator;
use std::marker::Model;

/// A list with a capacity, over an allocator that is handed in.
///
/// Contracts see it as a `Sequence`: its `items` in order and its `capacity`. The capacity is
/// at least the number of items and at most `usize::MAX - 1`, and it changes only as the calls
/// that grow the list say.
pub struct Vec<T, A: Allocator> {
    pub(crate) inner: std::vec::Vec<T, A>,
}

impl<T, A: Allocator> Model for Vec<T, A> {
    ghost use Rattle.std.specs.Prelude.{vec_capacity};
    ghost use Rattle.stabby_vec.specs.Sequence.{Sequence, sequence_code};

    ghost Value = { Sequence T };

    ghost coded = { sequence_code T.code };

    ghost view = { λ v. record { items = v.inner.items; capacity = vec_capacity v.inner } };
}

impl<T: Drop, A: Allocator> Drop for Vec<T, A> {
    fn drop(self) {
        let Vec { inner } = self;
        drop(inner);
    }
}

impl<T, A: Allocator> Vec<T, A> {
    ghost use Rattle.stabby_vec.specs.Lends.{lends_slice};

    /// The empty list, with capacity 0. It takes no memory.
    pub fn new_in(alloc: A) -> Self
        ensures { result ≡ empty_with 0 }
    {
        Vec {
            inner: std::vec::Vec::new(alloc),
        }
    }

    // The list of std that has these items and this capacity.
    pub(crate) fn into_inner(self) -> std::vec::Vec<T, A>
        ensures items { result.items ≡ self.items }
        ensures capacity { vec_capacity result ≡ self.capacity }
    {
        let Vec { inner } = self;
        inner
    }

    /// The number of items.
    pub fn len(&self) -> usize
        ensures value { result ≡ sequence_len self.now }
        ensures within { result ≤ self.now.capacity }
    {
        self.inner.len()
    }

    /// Whether there are no items.
    pub fn is_empty(&self) -> bool
        ensures { IsTrue result ↔ (self.now.items ≡ []) }
    {
        self.inner.is_empty()
    }

    /// How many items the list can have before it has to grow.
    pub fn capacity(&self) -> usize
        ensures value { result ≡ self.now.capacity }
        ensures bound { result ≤ GREATEST_CAPACITY }
        ensures holds_items { sequence_len self.now ≤ result }
    {
        self.inner.capacity()
    }

    /// How many more items fit before the list has to grow.
    pub fn remaining_capacity(&self) -> usize
        ensures { result ≡ spare self.now }
    {
        self.inner.capacity() - self.inner.len()
    }

    /// The allocator that the list was made with.
    pub fn allocator(&self) -> &A {
        self.inner.allocator()
    }

    /// The items.
    pub fn as_slice(&self) -> &[T]
        ensures { result.now ≡ self.now.items }
    {
        self.inner.as_slice()
    }

    /// The items, to be changed in place.
    pub fn as_slice_mut(&mut self) -> &mut [T]
        ensures* writes_back { sem 𝓛 (lends_slice T.row A.row A.Allocator self.entry result) }
        ensures value { result.now ≡ self.old.items }
    {
        self.inner.as_mut_slice()
    }
}
