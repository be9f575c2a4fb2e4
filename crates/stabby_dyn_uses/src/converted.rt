//! What stays of an erased slot that is converted, and who is woken.
ghost use Rattle.std.specs.Prelude.{◌≡◌};

use crate::slot::Slot;
use stabby_dyn::{AnyVt, Dyn, IterVt, StableWaker, VTable, VtSend, Wake};
use stabby_text::Box;
use std::alloc::Global;

/// A slot in a box that other threads may get.
pub type Sendable = Dyn<Box<Slot, Global>, VtSend<VTable<AnyVt>>>;

/// The same slot, with the iterator's entry taken off its table: the slot, what is left of the table, and its drop entry
/// are as before.
pub fn forget_iterator(
    erased: Dyn<Box<Slot, Global>, VTable<IterVt, VtSend<VTable<AnyVt>>>>,
) -> Sendable
    ensures pointer { result.ptr ≡ erased.ptr }
    ensures rest { result.vtable ≡ erased.vtable.tail }
    ensures drop_entry { result.vtable.0.tail ≡ erased.vtable.tail.0.tail }
{
    erased.into_super()
}

/// Wakes the first of two.
pub fn wake_first<W: Wake>(first: &W, second: &W)
    ensures { W.woken first.now }
{
    let _asleep = second;
    StableWaker::new(first).wake_by_ref();
}
