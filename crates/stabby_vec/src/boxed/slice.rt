//! A list that does not grow.
ghost use Rattle.std.specs.Prelude.{◌≡◌, ◌<◌, ◌≤◌, ◌↔◌, [], length, IsTrue, IsOk, IsErr, IfOk, IfErr, OnOk, OnErr, IsErrOf};
ghost use Rattle.std.specs.Borrow.{sem};
ghost use Rattle.std.specs.Iterator.{IsFinite};
ghost use Rattle.stabby_layout.specs.declared.error.AllocationError.TheVariants.{Range};
ghost use Rattle.stabby_vec.specs.Sequence.{sequence_len, empty_with, with_last, IsFull, GREATEST_CAPACITY};
ghost use Rattle.stabby_vec.specs.Pushes.{PushedAll, RefusesFrom};

use crate::{IntoIter, Vec};
use stabby_layout::AllocationError;
use std::alloc::Allocator;
use std::marker::Model;

/// A list with a capacity that never changes. Contracts see it as the `Sequence` of its `Vec`.
#[derive(Drop)]
pub struct BoxedSlice<T, A: Allocator> {
    pub(crate) list: Vec<T, A>,
}

impl<T, A: Allocator> Model for BoxedSlice<T, A> {
    ghost use Rattle.stabby_vec.specs.Sequence.{Sequence, sequence_code};

    ghost Value = { Sequence T };

    ghost coded = { sequence_code T.code };

    ghost view = { λ b. b.list };
}

impl<T, A: Allocator> BoxedSlice<T, A> {
    ghost use Rattle.stabby_vec.specs.BoxedSliceLends.{boxed_lends_slice};

    /// An empty list with room for exactly `capacity` items.
    ///
    /// Room for no items takes no memory. `Range` comes exactly at `usize::MAX`, which no capacity
    /// can be.
    pub fn with_capacity_in(alloc: A, capacity: usize) -> Result<Self, AllocationError>
        ensures ok { IfOk result (λ list. list ≡ empty_with capacity) }
        ensures range { IsErrOf result Range ↔ (GREATEST_CAPACITY < capacity) }
        ensures empty { capacity ≡ 0 → IsOk result }
    {
        let list = Vec::try_with_capacity_in(alloc, capacity)?;
        Ok(BoxedSlice { list })
    }

    /// The items of `value`, with their number as the capacity. No items take no memory.
    pub fn from_slice(alloc: A, value: &[T]) -> Result<Self, AllocationError>
    where
        T: Copy,
        ensures ok { IfOk result (λ list. list ≡ record { items = value.now; capacity = length value.now }) }
        ensures range { IsErrOf result Range ↔ (GREATEST_CAPACITY < length value.now) }
        ensures empty { value.now ≡ [] → IsOk result }
    {
        let list = Vec::from_slice(alloc, value)?;
        Ok(BoxedSlice { list })
    }

    /// The items of `iter`, pushed one by one onto an empty `Vec`.
    pub fn try_from_iter<I: Iterator<Item = T>>(alloc: A, iter: I) -> Result<Self, AllocationError>
    where
        T: Drop,
        I: Drop,
        requires can_next { I.can_next iter }
        requires ends { IsFinite (I.remaining iter) }
        ensures ok { IfOk result (λ list. PushedAll I.next_gives iter (empty_with 0) list) }
        ensures err { IfErr result (λ error. RefusesFrom I.next_gives iter (empty_with 0) error) }
    {
        let list = Vec::try_from_iter(alloc, iter)?;
        Ok(BoxedSlice { list })
    }

    /// The items and the capacity of `value`, which takes no memory.
    pub fn from_vec(value: Vec<T, A>) -> Self
        ensures { result ≡ value }
    {
        BoxedSlice { list: value }
    }

    /// The items and the capacity as a `Vec`, which takes no memory.
    pub fn into_vec(self) -> Vec<T, A>
        ensures { result ≡ self }
    {
        let BoxedSlice { list } = self;
        list
    }

    /// Appends `value`. It is handed back exactly where the list is full, which then stays.
    pub fn try_push(&mut self, value: T) -> Result<(), T>
        ensures full { IsErr result ↔ IsFull self.old }
        ensures ok { OnOk result (self.new ≡ with_last self.old value) }
        ensures unchanged { OnErr result (self.new ≡ self.old) }
        ensures value_back { IfErr result (λ refused. refused ≡ value) }
    {
        if self.list.len() == self.list.capacity() {
            return Err(value);
        }
        self.list.push_within(value);
        Ok(())
    }

    /// The number of items.
    pub fn len(&self) -> usize
        ensures value { result ≡ sequence_len self.now }
        ensures within { result ≤ self.now.capacity }
    {
        self.list.len()
    }

    /// Whether there are no items.
    pub fn is_empty(&self) -> bool
        ensures { IsTrue result ↔ (self.now.items ≡ []) }
    {
        self.list.is_empty()
    }

    /// How many items the list can have.
    pub fn capacity(&self) -> usize
        ensures value { result ≡ self.now.capacity }
        ensures bound { result ≤ GREATEST_CAPACITY }
    {
        self.list.capacity()
    }

    /// The items.
    pub fn as_slice(&self) -> &[T]
        ensures { result.now ≡ self.now.items }
    {
        self.list.as_slice()
    }

    /// The items, to be changed in place.
    pub fn as_slice_mut(&mut self) -> &mut [T]
        ensures* writes_back { sem 𝓛 (boxed_lends_slice T.row A.row A.Allocator self.entry result) }
        ensures value { result.now ≡ self.old.items }
    {
        self.list.as_slice_mut()
    }
}

impl<T: Drop, A: Allocator> IntoIterator for BoxedSlice<T, A> {
    type Item = T;

    type IntoIter = IntoIter<T, A>;

    ghost into_iter_gives = { λ list it. it ≡ list.items };

    fn into_iter(self) -> IntoIter<T, A> {
        self.into_vec().into_iter()
    }
}
