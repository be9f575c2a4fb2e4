//! Room for more items, and pushing one.
ghost use Rattle.std.specs.Prelude.{◌≡◌, ◌<◌, ◌↔◌, IsOk, IsErr, IfOk, IfErr, OnOk, OnErr, IsErrOf};
ghost use Rattle.stabby_layout.specs.declared.error.AllocationError.TheVariants.{Memory, Range};
ghost use Rattle.stabby_vec.specs.Sequence.{empty_with, HasRoomFor, IsFull, AsksPastBound, with_room, with_last, with_pushed, PushPastBound, GREATEST_CAPACITY};

use crate::Vec;
use stabby_layout::{AllocationError, NonMaxUsize};
use std::alloc::Allocator;

impl<T, A: Allocator> Vec<T, A> {
    /// An empty list with room for exactly `capacity` items.
    ///
    /// Room for no items takes no memory. `Range` comes exactly at `usize::MAX`, which no capacity
    /// can be.
    pub fn try_with_capacity_in(alloc: A, capacity: usize) -> Result<Self, AllocationError>
        ensures ok { IfOk result (λ list. list ≡ empty_with capacity) }
        ensures range { IsErrOf result Range ↔ (GREATEST_CAPACITY < capacity) }
        ensures empty { capacity ≡ 0 → IsOk result }
    {
        if capacity == usize::MAX {
            return Err(AllocationError::Range);
        }
        match std::vec::Vec::with_capacity(alloc, capacity) {
            Ok(inner) => Ok(Vec { inner }),
            Err(_) => Err(AllocationError::Memory),
        }
    }

    /// As `try_with_capacity_in`.
    pub fn with_capacity_in(alloc: A, capacity: usize) -> Result<Self, AllocationError>
        ensures ok { IfOk result (λ list. list ≡ empty_with capacity) }
        ensures range { IsErrOf result Range ↔ (GREATEST_CAPACITY < capacity) }
        ensures empty { capacity ≡ 0 → IsOk result }
    {
        Vec::try_with_capacity_in(alloc, capacity)
    }

    /// Makes room for `additional` more items, and answers the capacity.
    ///
    /// Where they fit already nothing changes. Otherwise the capacity is exactly the number of
    /// items and `additional` together; where that passes `usize::MAX - 1` the answer is `Range`.
    /// A refusal leaves the list as it was.
    pub fn try_reserve(&mut self, additional: usize) -> Result<NonMaxUsize, AllocationError>
        ensures ok { OnOk result (self.new ≡ with_room self.old additional) }
        ensures capacity { IfOk result (λ capacity. capacity ≡ self.new.capacity) }
        ensures unchanged { OnErr result (self.new ≡ self.old) }
        ensures range { IsErrOf result Range ↔ AsksPastBound self.old additional }
        ensures room { HasRoomFor self.old additional → IsOk result }
    {
        let len = self.inner.len();
        if additional > self.inner.capacity() - len {
            if additional >= usize::MAX - len {
                return Err(AllocationError::Range);
            }
            if self.inner.try_reserve_exact(additional).is_err() {
                return Err(AllocationError::Memory);
            }
        }
        match NonMaxUsize::new(self.inner.capacity()) {
            Some(capacity) => Ok(capacity),
            None => unreachable!(),
        }
    }

    /// As `try_reserve`, without the capacity.
    pub fn reserve(&mut self, additional: usize) -> Result<(), AllocationError>
        ensures ok { OnOk result (self.new ≡ with_room self.old additional) }
        ensures unchanged { OnErr result (self.new ≡ self.old) }
        ensures range { IsErrOf result Range ↔ AsksPastBound self.old additional }
        ensures room { HasRoomFor self.old additional → IsOk result }
    {
        self.try_reserve(additional)?;
        Ok(())
    }

    /// Appends `value`.
    ///
    /// A full list first makes room: for 8 items at capacity 0, else for half of its capacity,
    /// rounded down, and at least one. A refusal hands `value` back and leaves the list as it
    /// was; `Range` comes exactly where the new capacity would pass `usize::MAX - 1`. Within the
    /// spare the call takes no memory, and is `Ok`.
    pub fn try_push(&mut self, value: T) -> Result<(), (T, AllocationError)>
        ensures ok { OnOk result (self.new ≡ with_pushed self.old value) }
        ensures unchanged { OnErr result (self.new ≡ self.old) }
        ensures value_back { IfErr result (λ refusal. refusal.0 ≡ value) }
        ensures range { IfErr result (λ refusal. refusal.1 ≡ Range ↔ PushPastBound self.old) }
        ensures refused { PushPastBound self.old → IsErr result }
        ensures only_full { IsErr result → IsFull self.old }
        ensures spare { HasRoomFor self.old 1 → IsOk result }
    {
        let capacity = self.inner.capacity();
        if self.inner.len() == capacity {
            let additional = if capacity == 0 {
                8
            } else {
                (capacity / 2).max(1)
            };
            if let Err(error) = self.try_reserve(additional) {
                return Err((value, error));
            }
        }
        self.inner.push_reserved(value);
        Ok(())
    }

    /// As `try_push`; a refused `value` is dropped.
    pub fn push(&mut self, value: T) -> Result<(), AllocationError>
    where
        T: Drop,
        ensures ok { OnOk result (self.new ≡ with_pushed self.old value) }
        ensures unchanged { OnErr result (self.new ≡ self.old) }
        ensures range { IsErrOf result Range ↔ PushPastBound self.old }
        ensures only_full { IsErr result → IsFull self.old }
        ensures spare { HasRoomFor self.old 1 → IsOk result }
    {
        match self.try_push(value) {
            Ok(()) => Ok(()),
            Err((_refused, error)) => Err(error),
        }
    }

    // Appends within the spare.
    pub(crate) fn push_within(&mut self, value: T)
        requires { HasRoomFor self.old 1 }
        ensures { self.new ≡ with_last self.old value }
    {
        self.inner.push_reserved(value);
    }
}
