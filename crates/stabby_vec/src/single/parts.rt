//! Where a `SingleOrVec` keeps its items.
ghost use Rattle.std.specs.Prelude.{◌≡◌, true, IsTrue};
ghost use Rattle.std.specs.Borrow.{sem};

use crate::Vec;
use arrayvec::ArrayVec;
use std::alloc::Allocator;
use std::mem;

#[derive(Drop)]
pub(crate) enum Slot<T> {
    Filled(ArrayVec<T, 1>),
    Vacant,
}

impl<T> Slot<T> {
    ghost use Rattle.stabby_vec.specs.Inside.SingleForm.{is_filled, single_view};
    ghost use Rattle.stabby_vec.specs.Inside.SingleParts.{slot_lends};
    ghost use Rattle.stabby_vec.specs.Sequence.{empty_with};

    pub(crate) fn is_filled(&self) -> bool
        ensures { result ≡ is_filled self.now }
    {
        matches!(self, Slot::Filled(_))
    }

    fn as_slice_mut(&mut self) -> &mut [T]
        requires { is_filled self.old ≡ true }
        ensures* writes_back { sem 𝓛 (slot_lends T.row self.entry result) }
        ensures value { result.now ≡ (single_view self.old (empty_with 0)).items }
    {
        match self {
            Slot::Filled(one) => one.as_mut_slice(),
            Slot::Vacant => unreachable!(),
        }
    }
}

#[derive(Drop)]
pub(crate) struct Parts<T, A: Allocator> {
    // Where the slot is filled, the list is empty, has no room, and keeps the allocator.
    pub(crate) slot: Slot<T>,
    pub(crate) list: Vec<T, A>,
}

impl<T, A: Allocator> Parts<T, A> {
    ghost use Rattle.stabby_vec.specs.Inside.SingleForm.{single_view};
    ghost use Rattle.stabby_vec.specs.Inside.SingleParts.{parts_lend};
    ghost use Rattle.stabby_vec.specs.declared.single.parts.Slot.TheVariants.{Vacant};

    // What the slot held, which is left vacant.
    pub(crate) fn take_slot(&mut self) -> Slot<T>
        ensures slot { result ≡ self.old.slot }
        ensures after { self.new ≡ record self.old { slot = Vacant } }
    {
        mem::replace(&mut self.slot, Slot::Vacant)
    }

    pub(crate) fn as_slice_mut(&mut self) -> &mut [T]
        ensures* writes_back { sem 𝓛 (parts_lend T.row A.row A.Allocator self.entry result) }
        ensures value { result.now ≡ (single_view self.old.slot self.old.list).items }
    {
        if self.slot.is_filled() {
            return self.slot.as_slice_mut();
        }
        self.list.as_slice_mut()
    }
}
