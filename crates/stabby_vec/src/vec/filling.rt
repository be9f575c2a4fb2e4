//! Adding many items, and making a list of them.
ghost use Rattle.std.specs.Prelude.{◌≡◌, ◌<◌, ◌↔◌, [], length, IsOk, IfOk, IfErr, OnOk, OnErr, IsErrOf};
ghost use Rattle.std.specs.Iterator.{IsFinite};
ghost use Rattle.stabby_layout.specs.declared.error.AllocationError.TheVariants.{Memory, Range};
ghost use Rattle.stabby_vec.specs.Sequence.{ClonesAlways, sequence_len, empty_with, HasRoomFor, AsksPastBound, with_extended, GREATEST_CAPACITY};
ghost use Rattle.stabby_vec.specs.Pushes.{PushedAll, PushedUntil, RefusesFrom};

use crate::Vec;
use stabby_layout::AllocationError;
use std::alloc::Allocator;

impl<T, A: Allocator> Vec<T, A> {
    /// Pushes each item of `iter`, as `push` does.
    ///
    /// The first refused item ends the call: the items before it stay, and it is dropped with
    /// what `iter` still had.
    #[tactic(auto, using(crate::proofs::Pushing::pushed_more, crate::proofs::Pushing::pushed_none))]
    pub fn extend<I: Iterator<Item = T>>(&mut self, iter: I) -> Result<(), AllocationError>
    where
        T: Drop,
        I: Drop,
        requires can_next { I.can_next iter }
        requires ends { IsFinite (I.remaining iter) }
        ensures ok { OnOk result (PushedAll I.next_gives iter self.old self.new) }
        ensures err { IfErr result (λ error. PushedUntil I.next_gives iter self.old self.new error) }
    {
        for item in iter {
            self.push(item)?;
        }
        Ok(())
    }

    /// The items of `iter`, pushed one by one onto an empty list.
    pub fn try_from_iter<I: Iterator<Item = T>>(alloc: A, iter: I) -> Result<Self, AllocationError>
    where
        T: Drop,
        I: Drop,
        requires can_next { I.can_next iter }
        requires ends { IsFinite (I.remaining iter) }
        ensures ok { IfOk result (λ list. PushedAll I.next_gives iter (empty_with 0) list) }
        ensures err { IfErr result (λ error. RefusesFrom I.next_gives iter (empty_with 0) error) }
    {
        let mut list = Vec::new_in(alloc);
        list.extend(iter)?;
        Ok(list)
    }

    /// Makes room for the items of `slice`, as `try_reserve` does, and appends them.
    pub fn try_copy_extend(&mut self, slice: &[T]) -> Result<(), AllocationError>
    where
        T: Copy,
        ensures ok { OnOk result (self.new ≡ with_extended self.old slice.now) }
        ensures unchanged { OnErr result (self.new ≡ self.old) }
        ensures range { IsErrOf result Range ↔ AsksPastBound self.old (length slice.now) }
        ensures room { HasRoomFor self.old (length slice.now) → IsOk result }
    {
        self.try_reserve(slice.len())?;
        for item in slice {
            self.push_within(*item);
        }
        Ok(())
    }

    /// As `try_copy_extend`.
    pub fn copy_extend(&mut self, slice: &[T]) -> Result<(), AllocationError>
    where
        T: Copy,
        ensures ok { OnOk result (self.new ≡ with_extended self.old slice.now) }
        ensures unchanged { OnErr result (self.new ≡ self.old) }
        ensures range { IsErrOf result Range ↔ AsksPastBound self.old (length slice.now) }
        ensures room { HasRoomFor self.old (length slice.now) → IsOk result }
    {
        self.try_copy_extend(slice)
    }

    /// The items of `value`, with their number as the capacity. No items take no memory.
    pub fn from_slice(alloc: A, value: &[T]) -> Result<Self, AllocationError>
    where
        T: Copy,
        ensures ok { IfOk result (λ list. list ≡ record { items = value.now; capacity = length value.now }) }
        ensures range { IsErrOf result Range ↔ (GREATEST_CAPACITY < length value.now) }
        ensures empty { value.now ≡ [] → IsOk result }
    {
        let mut list = Vec::try_with_capacity_in(alloc, value.len())?;
        for item in value {
            list.push_within(*item);
        }
        Ok(list)
    }

    /// A list with clones of the items, and their number as its capacity.
    ///
    /// The only error is `Memory`, also where a clone of an item or of the allocator is refused.
    /// No items take no memory but what a clone of the allocator takes.
    pub fn copy(&self) -> Result<Self, AllocationError>
    where
        T: Clone + Drop,
        A: Clone,
        requires clones_are_equal { (x y : T) → T.is_clone x y → y ≡ x }
        ensures ok { IfOk result (λ list. list ≡ record { items = self.now.items; capacity = sequence_len self.now }) }
        ensures memory { IfErr result (λ error. error ≡ Memory) }
        ensures empty { self.now.items ≡ [] → ClonesAlways A.is_infallible → IsOk result }
    {
        let Ok(alloc) = self.inner.allocator().clone() else {
            return Err(AllocationError::Memory);
        };
        let mut list = Vec::try_with_capacity_in(alloc, self.len())?;
        for item in self.as_slice() {
            let Ok(clone) = item.clone() else {
                return Err(AllocationError::Memory);
            };
            list.push_within(clone);
        }
        Ok(list)
    }
}
