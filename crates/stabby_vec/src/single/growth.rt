//! Pushing onto a `SingleOrVec`, making room in it, and turning it into a `Vec`.
ghost use Rattle.std.specs.Prelude.{◌≡◌, ◌<◌, ◌↔◌, [], ◌∷◌, length, IsOk, IsErr, IfOk, IfErr, OnOk, OnErr, IsErrOf, true, false};
ghost use Rattle.std.specs.Iterator.{IsFinite};
ghost use Rattle.stabby_layout.specs.declared.error.AllocationError.TheVariants.{Memory, Range};
ghost use Rattle.stabby_vec.specs.Sequence.{ClonesAlways, HasRoomFor, IsFull, AsksPastBound, PushPastBound};
ghost use Rattle.stabby_vec.specs.Singles.{sequence_of, single_pushed, single_with_room, single_truncated, single_copied, single_as_vec, SinglePushedAll, SinglePushedUntil};

use crate::single::parts::{Parts, Slot};
use crate::{SingleOrVec, Vec};
use arrayvec::ArrayVec;
use stabby_layout::{AllocationError, NonMaxUsize};
use std::alloc::Allocator;

impl<T, A: Allocator> SingleOrVec<T, A> {
    /// Appends `item`.
    ///
    /// A `Vec` form of capacity 0 becomes inline, which takes no memory; an inline one becomes a
    /// `Vec` of capacity 8 with both items; any other grows as `Vec::try_push` says. A refusal
    /// hands `item` back and leaves the list as it was, an inline item too.
    pub fn try_push(&mut self, item: T) -> Result<(), (T, AllocationError)>
    where
        T: Drop,
        ensures ok { OnOk result (self.new ≡ single_pushed self.old item) }
        ensures unchanged { OnErr result (self.new ≡ self.old) }
        ensures value_back { IfErr result (λ refusal. refusal.0 ≡ item) }
        ensures range { IfErr result (λ refusal. refusal.1 ≡ Range ↔ PushPastBound (sequence_of self.old)) }
        ensures refused { PushPastBound (sequence_of self.old) → IsErr result }
        ensures only_full { IsErr result → IsFull (sequence_of self.old) }
        ensures above_zero { IsErr result → 0 < self.old.capacity }
        ensures spare { HasRoomFor (sequence_of self.old) 1 → IsOk result }
        ensures inline { self.old.capacity ≡ 0 → IsOk result }
    {
        match &self.parts.slot {
            Slot::Vacant => {
                if self.parts.list.capacity() > 0 {
                    return self.parts.list.try_push(item);
                }
                self.parts.slot = Slot::Filled(ArrayVec::from_array_in((), [item]));
                Ok(())
            }
            Slot::Filled(_) => self.push_second(item),
        }
    }

    // Appends behind an inline item.
    fn push_second(&mut self, item: T) -> Result<(), (T, AllocationError)>
    where
        T: Drop,
        requires { self.old.inline ≡ true }
        ensures ok { OnOk result (self.new ≡ single_pushed self.old item) }
        ensures unchanged { OnErr result (self.new ≡ self.old) }
        ensures value_back { IfErr result (λ refusal. refusal.0 ≡ item) }
        ensures memory { IfErr result (λ refusal. refusal.1 ≡ Memory) }
    {
        match self.parts.take_slot() {
            Slot::Vacant => unreachable!(),
            Slot::Filled(one) => {
                if self.parts.list.try_reserve(8).is_err() {
                    self.parts.slot = Slot::Filled(one);
                    return Err((item, AllocationError::Memory));
                }
                self.parts.list.push_within(only(one));
                self.parts.list.push_within(item);
                Ok(())
            }
        }
    }

    /// As `try_push`; a refused `value` is dropped.
    pub fn push(&mut self, value: T) -> Result<(), AllocationError>
    where
        T: Drop,
        ensures ok { OnOk result (self.new ≡ single_pushed self.old value) }
        ensures unchanged { OnErr result (self.new ≡ self.old) }
        ensures range { IsErrOf result Range ↔ PushPastBound (sequence_of self.old) }
        ensures only_full { IsErr result → IsFull (sequence_of self.old) }
        ensures above_zero { IsErr result → 0 < self.old.capacity }
        ensures spare { HasRoomFor (sequence_of self.old) 1 → IsOk result }
        ensures inline { self.old.capacity ≡ 0 → IsOk result }
    {
        match self.try_push(value) {
            Ok(()) => Ok(()),
            Err((_refused, error)) => Err(error),
        }
    }

    /// Makes room for `additional` more items, and answers the capacity.
    ///
    /// An inline list becomes a `Vec` of capacity `additional + 1`; any other goes as
    /// `Vec::try_reserve` says. `Range` comes exactly where the capacity would pass
    /// `usize::MAX - 1`. A refusal leaves the list as it was, an inline item too.
    pub fn try_reserve(&mut self, additional: usize) -> Result<NonMaxUsize, AllocationError>
    where
        T: Drop,
        ensures ok { OnOk result (self.new ≡ single_with_room self.old additional) }
        ensures capacity { IfOk result (λ capacity. capacity ≡ self.new.capacity) }
        ensures unchanged { OnErr result (self.new ≡ self.old) }
        ensures range { IsErrOf result Range ↔ AsksPastBound (sequence_of self.old) additional }
        ensures room { self.old.inline ≡ false → HasRoomFor (sequence_of self.old) additional → IsOk result }
    {
        match self.parts.take_slot() {
            Slot::Vacant => self.parts.list.try_reserve(additional),
            Slot::Filled(one) => {
                if additional >= usize::MAX - 1 {
                    self.parts.slot = Slot::Filled(one);
                    return Err(AllocationError::Range);
                }
                match self.parts.list.try_reserve(additional + 1) {
                    Ok(capacity) => {
                        self.parts.list.push_within(only(one));
                        Ok(capacity)
                    }
                    Err(error) => {
                        self.parts.slot = Slot::Filled(one);
                        Err(error)
                    }
                }
            }
        }
    }

    /// As `try_reserve`, without the capacity.
    pub fn reserve(&mut self, additional: usize) -> Result<(), AllocationError>
    where
        T: Drop,
        ensures ok { OnOk result (self.new ≡ single_with_room self.old additional) }
        ensures unchanged { OnErr result (self.new ≡ self.old) }
        ensures range { IsErrOf result Range ↔ AsksPastBound (sequence_of self.old) additional }
        ensures room { self.old.inline ≡ false → HasRoomFor (sequence_of self.old) additional → IsOk result }
    {
        self.try_reserve(additional)?;
        Ok(())
    }

    /// Keeps the first `len` items and drops the others. An inline list that is cut to nothing is
    /// a `Vec` of capacity 0; otherwise form and capacity stay.
    pub fn truncate(&mut self, len: usize)
    where
        T: Drop,
        ensures { self.new ≡ single_truncated self.old len }
    {
        if !self.parts.slot.is_filled() {
            self.parts.list.truncate(len);
        } else if len == 0 {
            self.parts.slot = Slot::Vacant;
        }
    }

    /// Pushes each item of `iter`, as `push` does.
    ///
    /// The first refused item ends the call: the items before it stay, and it is dropped with
    /// what `iter` still had. The first item of a list of capacity 0 is never refused.
    #[tactic(auto, using(crate::proofs::Pushing::single_pushed_more, crate::proofs::Pushing::single_pushed_none))]
    pub fn extend<I: Iterator<Item = T>>(&mut self, iter: I) -> Result<(), AllocationError>
    where
        T: Drop,
        I: Drop,
        requires can_next { I.can_next iter }
        requires ends { IsFinite (I.remaining iter) }
        ensures ok { OnOk result (SinglePushedAll I.next_gives iter self.old self.new) }
        ensures err { IfErr result (λ error. SinglePushedUntil I.next_gives iter self.old self.new error) }
    {
        for item in iter {
            self.push(item)?;
        }
        Ok(())
    }

    /// A list of the same form with clones of the items; as a `Vec` its capacity is their number.
    ///
    /// The only error is `Memory`, also where a clone of an item or of the allocator is refused.
    /// No items, and a lone inline one, take no memory but what those clones take.
    pub fn copy(&self) -> Result<Self, AllocationError>
    where
        T: Clone + Drop,
        A: Clone,
        requires clones_are_equal { (x y : T) → T.is_clone x y → y ≡ x }
        ensures ok { IfOk result (λ list. list ≡ single_copied self.now) }
        ensures memory { IfErr result (λ error. error ≡ Memory) }
        ensures empty { self.now.items ≡ [] → ClonesAlways A.is_infallible → IsOk result }
        ensures inline { self.now.inline ≡ true → ClonesAlways T.is_infallible → ClonesAlways A.is_infallible → IsOk result }
    {
        let list = self.parts.list.copy()?;
        let slot = match &self.parts.slot {
            Slot::Filled(one) => Slot::Filled(copy_of(one)?),
            Slot::Vacant => Slot::Vacant,
        };
        Ok(SingleOrVec {
            parts: Parts { slot, list },
        })
    }

    /// The items as a `Vec`.
    ///
    /// An inline item goes into a `Vec` of capacity 8; a `Vec` form is handed out as it is, and
    /// takes no memory. A refusal hands the list back, and is always `Memory`.
    pub fn into_vec(self) -> Result<Vec<T, A>, (Self, AllocationError)>
    where
        T: Drop,
        ensures ok { IfOk result (λ list. list ≡ single_as_vec self) }
        ensures value_back { IfErr result (λ refusal. refusal.0 ≡ self) }
        ensures memory { IfErr result (λ refusal. refusal.1 ≡ Memory) }
        ensures listed { self.inline ≡ false → IsOk result }
    {
        let SingleOrVec {
            parts: Parts { slot, mut list },
        } = self;
        match slot {
            Slot::Vacant => Ok(list),
            Slot::Filled(one) => {
                if list.try_reserve(8).is_err() {
                    let slot = Slot::Filled(one);
                    let back = SingleOrVec {
                        parts: Parts { slot, list },
                    };
                    return Err((back, AllocationError::Memory));
                }
                list.push_within(only(one));
                Ok(list)
            }
        }
    }
}

// The item of an array of one place.
fn only<T: Drop>(one: ArrayVec<T, 1>) -> T
    requires { length one.items ≡ 1 }
    ensures { one.items ≡ result ∷ [] }
{
    let array = match one.into_inner() {
        Ok(array) => array,
        Err(_rest) => unreachable!(),
    };
    let [item] = array;
    item
}

// A clone of an array of one place.
fn copy_of<T: Clone + Drop>(one: &ArrayVec<T, 1>) -> Result<ArrayVec<T, 1>, AllocationError>
    requires clones_are_equal { (x y : T) → T.is_clone x y → y ≡ x }
    requires full { length one.now.items ≡ 1 }
    ensures ok { IfOk result (λ copy. copy.items ≡ one.now.items) }
    ensures memory { IfErr result (λ error. error ≡ Memory) }
    ensures infallible { ClonesAlways T.is_infallible → IsOk result }
{
    let Ok(item) = one.as_slice()[0].clone() else {
        return Err(AllocationError::Memory);
    };
    Ok(ArrayVec::from_array_in((), [item]))
}
