//! Erased slots in two threads.
ghost use Rattle.std.specs.Prelude.{◌≡◌, IfErr, IfOk, Some, None};
ghost use Rattle.stabby_count.specs.Shared.{arc_value};
ghost use Rattle.stabby_layout.specs.declared.error.AllocationError.TheVariants.{Memory};
ghost use Rattle.stabby_dyn_uses.specs.Slots.{IsNumber, TellsByte, TellsNumber};

use crate::one_thread::{Marked, byte_in, number_in, put_where_alone, share};
use crate::slot::Slot;
use stabby_count::Arc;
use stabby_dyn::{AnyVt, Dyn, H, VTable, VtSend};
use stabby_layout::AllocationError;
use std::alloc::Global;
use std::thread::{Threads, join};

/// What a shared slot told.
#[derive(Drop)]
pub struct Answers {
    /// In the first thread, asked for a number.
    pub number: Option<u64>,
    /// In the second thread, asked for a byte.
    pub byte: Option<u8>,
    /// Afterwards, with the markers taken off.
    pub converted: Option<u64>,
}

/// Asks one erased slot in two threads, which both borrow it: for a number and for a byte.
pub fn ask_in_two_threads<R: Threads>(
    rt: &R,
    erased: &Dyn<Arc<Slot>, Marked>,
) -> (Option<u64>, Option<u8>)
    ensures number { TellsNumber (arc_value erased.now.ptr) result.0 }
    ensures byte { TellsByte (arc_value erased.now.ptr) result.1 }
{
    join(
        rt,
        || -> Option<u64>
            ensures { TellsNumber (arc_value erased.entry.now.ptr) result }
        { number_in::<_, _, H>(erased) },
        || -> Option<u8>
            ensures { TellsByte (arc_value erased.entry.now.ptr) result }
        { byte_in::<_, _, H>(erased) },
    )
}

/// Gives two erased slots to two threads, which ask each for a number and end it.
pub fn ask_by_two_handles<R: Threads>(
    rt: &R,
    first: Dyn<Arc<Slot>, Marked>,
    second: Dyn<Arc<Slot>, Marked>,
) -> (Option<u64>, Option<u64>)
    ensures first { TellsNumber (arc_value first.ptr) result.0 }
    ensures second { TellsNumber (arc_value second.ptr) result.1 }
{
    join(
        rt,
        move || -> Option<u64>
            ensures { TellsNumber (arc_value first.ptr) result }
        {
            let answer = number_in::<_, _, H>(&first);
            first.end();
            answer
        },
        move || -> Option<u64>
            ensures { TellsNumber (arc_value second.ptr) result }
        {
            let answer = number_in::<_, _, H>(&second);
            second.end();
            answer
        },
    )
}

/// Shares a slot, puts a number in the place of the one that it holds, asks it in two threads, takes both markers off
/// its table, and asks it again.
///
/// # Errors
/// The slot comes back with `Memory`.
pub fn put_share_and_read<R: Threads>(
    rt: &R,
    alloc: Global,
    slot: Slot,
    number: u64,
) -> Result<Answers, (Slot, AllocationError)>
    ensures right { IsNumber slot → IfOk result (λ answers. answers.number ≡ Some number) }
    ensures wrong { IsNumber slot → IfOk result (λ answers. answers.byte ≡ None) }
    ensures converted { IsNumber slot → IfOk result (λ answers. answers.converted ≡ Some number) }
    ensures unlike { ¬ IsNumber slot
        → IfOk result (λ answers. (answers.number ≡ None) × (answers.converted ≡ None)) }
    ensures value_back { IfErr result (λ back. back ≡ (slot, Memory)) }
{
    let mut shared = match share(alloc, slot) {
        Ok(shared) => shared,
        Err(back) => return Err(back),
    };
    put_where_alone(&mut shared, number);
    let (number, byte) = ask_in_two_threads(rt, &shared);
    let sendable: Dyn<Arc<Slot>, VtSend<VTable<AnyVt>>> = shared.into_super();
    let plain: Dyn<Arc<Slot>, VTable<AnyVt>> = sendable.into_super();
    let converted = number_in::<_, _, H>(&plain);
    Ok(Answers {
        number,
        byte,
        converted,
    })
}
