//! An erased slot on one thread: asked for its content, changed, and converted.
ghost use Rattle.std.specs.Prelude.{◌≡◌, IfErr, IfOk, IsTrue, Some, None, false};
ghost use Rattle.stabby_count.specs.Shared.{arc_value, arc_record, IsSole};
ghost use Rattle.stabby_count.specs.Records.{ReadsAlone};
ghost use Rattle.stabby_layout.specs.declared.error.AllocationError.TheVariants.{Memory};
ghost use Rattle.stabby_dyn_uses.specs.Slots.{IsNumber, TellsByte, TellsNumber, slot_with_number};

use crate::slot::{Content, Slot};
use stabby_count::Arc;
use stabby_dyn::{
    AnyVt, Dyn, H, HasDropVt, IPtr, IPtrOwned, IPtrTryAsMut, IterVt, T, TransitiveDeref, VTable,
    VtDrop, VtSend, VtSync,
};
use stabby_layout::AllocationError;
use stabby_text::Box;
use std::alloc::Global;

/// The table of a value that other threads may get and read.
pub type Marked = VtSync<VtSend<VTable<AnyVt>>>;

/// The content, where it is a number and the report is that of numbers.
pub fn number_in<
    P: IPtr<Target = Slot> + IPtrOwned,
    Vt: HasDropVt + TransitiveDeref<AnyVt, Path>,
    Path,
>(erased: &Dyn<P, Vt>) -> Option<u64>
    ensures { TellsNumber (P.pointee erased.now.ptr) result }
{
    match erased.stable_downcast_ref::<u64, Path>() {
        Some(number) => Some(*number),
        None => None,
    }
}

/// The content, where it is a byte and the report is that of bytes.
pub fn byte_in<
    P: IPtr<Target = Slot> + IPtrOwned,
    Vt: HasDropVt + TransitiveDeref<AnyVt, Path>,
    Path,
>(erased: &Dyn<P, Vt>) -> Option<u8>
    ensures { TellsByte (P.pointee erased.now.ptr) result }
{
    match erased.stable_downcast_ref::<u8, Path>() {
        Some(byte) => Some(*byte),
        None => None,
    }
}

/// Shares a slot behind one handle, with a table that lets threads have it.
///
/// # Errors
/// The slot comes back with `Memory`.
pub fn share(alloc: Global, slot: Slot) -> Result<Dyn<Arc<Slot>, Marked>, (Slot, AllocationError)>
    ensures value { IfOk result (λ erased. arc_value erased.ptr ≡ slot) }
    ensures sole { IfOk result (λ erased. IsSole erased.ptr) }
    ensures value_back { IfErr result (λ back. back ≡ (slot, Memory)) }
{
    let table = VtSync(VtSend(VTable {
        tail: VtDrop { word: 3 },
        head: AnyVt { word: 9 },
    }));
    match Arc::try_new_in(alloc, slot) {
        Ok(handle) => Ok(Dyn::from_ptr(handle, table)),
        Err(back) => Err(back),
    }
}

// Puts a number in the place of the one that the slot holds.
fn put_in(slot: &mut Slot, number: u64)
    ensures { slot.new ≡ slot_with_number slot.old number }
{
    if let Content::Number(place) = &mut slot.content {
        *place = number;
    }
}

/// Puts a number in the place of the one that the slot holds, where the handle is the only one, and answers whether it
/// was.
pub fn put_where_alone<Vt: HasDropVt>(erased: &mut Dyn<Arc<Slot>, Vt>, number: u64) -> bool
    ensures written { IsTrue result
        → arc_value erased.new.ptr ≡ slot_with_number (arc_value erased.old.ptr) number }
    ensures unchanged { result ≡ false → arc_value erased.new.ptr ≡ arc_value erased.old.ptr }
    ensures read { ReadsAlone (arc_record erased.old.ptr) (arc_record erased.new.ptr) result }
    ensures sole { IsSole erased.old.ptr → IsTrue result }
    ensures table_kept { erased.new.vtable ≡ erased.old.vtable }
{
    match erased.ptr_mut().try_as_mut() {
        Some(slot) => {
            put_in(slot, number);
            true
        }
        None => false,
    }
}

/// Puts a number in the place of the one that an erased slot in a box holds, takes the iterator's entry and the marker
/// off its table, and asks it for its number.
///
/// # Errors
/// The slot comes back with `Memory`.
pub fn put_convert_and_read(
    alloc: Global,
    slot: Slot,
    number: u64,
) -> Result<Option<u64>, (Slot, AllocationError)>
    ensures number { IsNumber slot → IfOk result (λ read. read ≡ Some number) }
    ensures unlike { ¬ IsNumber slot → IfOk result (λ read. read ≡ None) }
    ensures value_back { IfErr result (λ back. back ≡ (slot, Memory)) }
{
    let table: VTable<IterVt, VtSend<VTable<AnyVt>>> = VTable {
        tail: VtSend(VTable {
            tail: VtDrop { word: 3 },
            head: AnyVt { word: 9 },
        }),
        head: IterVt { word: 2 },
    };
    let boxed = match Box::try_new_in(alloc, slot) {
        Ok(boxed) => boxed,
        Err(back) => return Err(back),
    };
    let mut erased = Dyn::from_ptr(boxed, table);
    if let Some(held) = erased.stable_downcast_mut::<u64, T<H>>() {
        *held = number;
    }
    let sendable: Dyn<Box<Slot, Global>, VtSend<VTable<AnyVt>>> = erased.into_super();
    let plain: Dyn<Box<Slot, Global>, VTable<AnyVt>> = sendable.into_super();
    Ok(number_in::<_, _, H>(&plain))
}
