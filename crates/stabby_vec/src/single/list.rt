//! A list whose one item can lie in the value itself.
ghost use Rattle.std.specs.Prelude.{◌≡◌, ◌<◌, ◌↔◌, [], length, IsTrue, IsOk, IsErr, IfOk, IfErr, OnOk, OnErr, IsErrOf, true, false};
ghost use Rattle.std.specs.Borrow.{sem};
ghost use Rattle.std.specs.Iterator.{IsFinite};
ghost use Rattle.stabby_layout.specs.declared.error.AllocationError.TheVariants.{Memory, Range};
ghost use Rattle.stabby_vec.specs.Sequence.{empty_with, spare, push_room, HasRoomFor, IsFull, AsksPastBound, GREATEST_CAPACITY};
ghost use Rattle.stabby_vec.specs.Singles.{listed, sequence_of, single_pushed, single_with_room, single_truncated, single_copied, single_as_vec, SinglePushedAll, SinglePushedUntil};

use crate::Vec;
use crate::single::parts::{Parts, Slot};
use stabby_layout::{AllocationError, NonMaxUsize};
use std::alloc::Allocator;
use std::marker::Model;

/// A list that is inline, with one item in the value itself, or a `Vec`.
///
/// Contracts see it as a `Single`: its `items`, its `capacity`, and whether it is `inline`. An
/// inline one has capacity 1 and no spare, and takes no memory.
#[derive(Drop)]
pub struct SingleOrVec<T, A: Allocator> {
    pub(crate) parts: Parts<T, A>,
}

impl<T, A: Allocator> Model for SingleOrVec<T, A> {
    ghost use Rattle.stabby_vec.specs.Singles.{Single, single_code};
    ghost use Rattle.stabby_vec.specs.Inside.SingleForm.{single_view, IsSound};

    ghost Value = { Single T };

    ghost coded = { single_code T.code };

    ghost view = { λ s. single_view s.parts.slot s.parts.list };

    ghost invariant = { λ s. IsSound s.parts.slot s.parts.list };
}

impl<T, A: Allocator> SingleOrVec<T, A> {
    ghost use Rattle.stabby_vec.specs.SingleLends.{single_lends_slice};

    /// The empty list: a `Vec` of capacity 0. It takes no memory.
    pub fn new_in(alloc: A) -> Self
        ensures { result ≡ listed (empty_with 0) }
    {
        SingleOrVec::from_vec(Vec::new_in(alloc))
    }

    /// An empty `Vec` form with room for exactly `capacity` items.
    ///
    /// Room for no items takes no memory. `Range` comes exactly at `usize::MAX`, which no capacity
    /// can be.
    pub fn try_with_capacity_in(alloc: A, capacity: usize) -> Result<Self, AllocationError>
        ensures ok { IfOk result (λ list. list ≡ listed (empty_with capacity)) }
        ensures range { IsErrOf result Range ↔ (GREATEST_CAPACITY < capacity) }
        ensures empty { capacity ≡ 0 → IsOk result }
    {
        let list = Vec::try_with_capacity_in(alloc, capacity)?;
        Ok(SingleOrVec::from_vec(list))
    }

    /// As `try_with_capacity_in`.
    pub fn with_capacity_in(alloc: A, capacity: usize) -> Result<Self, AllocationError>
        ensures ok { IfOk result (λ list. list ≡ listed (empty_with capacity)) }
        ensures range { IsErrOf result Range ↔ (GREATEST_CAPACITY < capacity) }
        ensures empty { capacity ≡ 0 → IsOk result }
    {
        SingleOrVec::try_with_capacity_in(alloc, capacity)
    }

    /// The `Vec` form of `value`. It takes no memory.
    pub fn from_vec(value: Vec<T, A>) -> Self
        ensures { result ≡ listed value }
    {
        SingleOrVec {
            parts: Parts {
                slot: Slot::Vacant,
                list: value,
            },
        }
    }

    /// Whether the one item lies in the value itself.
    pub fn is_inline(&self) -> bool
        ensures { IsTrue result ↔ (self.now.inline ≡ true) }
    {
        self.parts.slot.is_filled()
    }

    /// The number of items.
    pub fn len(&self) -> usize
        ensures { result ≡ length self.now.items }
    {
        match &self.parts.slot {
            Slot::Filled(_) => 1,
            Slot::Vacant => self.parts.list.len(),
        }
    }

    /// Whether there are no items.
    pub fn is_empty(&self) -> bool
        ensures { IsTrue result ↔ (self.now.items ≡ []) }
    {
        match &self.parts.slot {
            Slot::Filled(_) => false,
            Slot::Vacant => self.parts.list.is_empty(),
        }
    }

    /// How many items the list can have before it has to grow.
    pub fn capacity(&self) -> usize
        ensures { result ≡ self.now.capacity }
    {
        match &self.parts.slot {
            Slot::Filled(_) => 1,
            Slot::Vacant => self.parts.list.capacity(),
        }
    }

    /// How many more items fit before the list has to grow.
    pub fn remaining_capacity(&self) -> usize
        ensures { result ≡ spare (sequence_of self.now) }
    {
        match &self.parts.slot {
            Slot::Filled(_) => 0,
            Slot::Vacant => self.parts.list.remaining_capacity(),
        }
    }

    /// The items.
    pub fn as_slice(&self) -> &[T]
        ensures { result.now ≡ self.now.items }
    {
        match &self.parts.slot {
            Slot::Filled(one) => one.as_slice(),
            Slot::Vacant => self.parts.list.as_slice(),
        }
    }

    /// The items, to be changed in place.
    pub fn as_slice_mut(&mut self) -> &mut [T]
        ensures* writes_back { sem 𝓛 (single_lends_slice T.row A.row A.Allocator self.entry result) }
        ensures value { result.now ≡ self.old.items }
    {
        self.parts.as_slice_mut()
    }
}
