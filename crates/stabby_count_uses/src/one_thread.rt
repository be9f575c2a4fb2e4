//! Calls on one handle.
ghost use Rattle.std.specs.Prelude.{◌≡◌, ◌<◌, IfOk, IfErr, IsTrue, false};
ghost use Rattle.stabby_count.specs.Shared.{arc_value, arc_record, IsSole};
ghost use Rattle.stabby_count.specs.SharedSlices.{slice_value, slice_record, IsSoleSlice};
ghost use Rattle.stabby_count.specs.Records.{ReadsAlone};
ghost use Rattle.stabby_vec.specs.Sequence.{sequence_len, with_item};
ghost use Rattle.stabby_layout.specs.declared.error.AllocationError.TheVariants.{Memory};

use stabby_count::{Arc, ArcSlice};
use stabby_layout::AllocationError;
use std::alloc::Global;
use std::sync::Wait;

/// Shares a value and ends its one handle, which gives the value.
///
/// # Errors
///
/// The value comes back with `AllocationError::Memory` where there is no memory to share it.
pub fn share_and_end<T: Drop>(alloc: Global, value: T) -> Result<T, (T, AllocationError)>
    ensures value { IfOk result (λ back. back ≡ value) }
    ensures value_back { IfErr result (λ back. back ≡ (value, Memory)) }
{
    let handle = match Arc::try_new_in(alloc, value) {
        Ok(handle) => handle,
        Err(back) => return Err(back),
    };
    match handle.end() {
        Ok(value) => Ok(value),
        Err(_spent) => unreachable!(),
    }
}

/// Writes a number where this is the only handle, and answers whether it was.
pub fn set_where_alone(handle: &mut Arc<u64>, number: u64) -> bool
    ensures written { IsTrue result → arc_value handle.new ≡ number }
    ensures unchanged { result ≡ false → arc_value handle.new ≡ arc_value handle.old }
    ensures read { ReadsAlone (arc_record handle.old) (arc_record handle.new) result }
    ensures sole { IsSole handle.old → IsTrue result }
{
    match handle.get_mut() {
        Some(place) => {
            *place = number;
            true
        }
        None => false,
    }
}

/// Writes a number in the place of the first item where this is the only handle, and answers whether it was.
pub fn set_first_where_alone(handle: &mut ArcSlice<u64>, number: u64) -> bool
    requires { 0 < sequence_len (slice_value handle.old) }
    ensures written { IsTrue result → slice_value handle.new ≡ with_item (slice_value handle.old) 0 number }
    ensures unchanged { result ≡ false → slice_value handle.new ≡ slice_value handle.old }
    ensures read { ReadsAlone (slice_record handle.old) (slice_record handle.new) result }
    ensures sole { IsSoleSlice handle.old → IsTrue result }
{
    let Some(list) = handle.get_mut() else {
        return false;
    };
    list.as_slice_mut()[0] = number;
    true
}

/// Waits until this is the only handle, and takes the value.
pub fn take_back<T, H: Wait>(rt: &H, handle: Arc<T>) -> T
    ensures { result ≡ arc_value handle }
{
    let mut kept = handle;
    for _ in rt.forever() {
        match kept.try_into_inner() {
            Ok(value) => return value,
            Err(back) => kept = back,
        }
    }
    unreachable!()
}
