//! The value of an older stamp, read under the turn.
ghost use Rattle.std.specs.Prelude.{◌≡◌, IfOk, IfErr};
ghost use Rattle.stabby_cell.specs.Turns.{IsTurn, cell_of, pass_of};
ghost use Rattle.stabby_cell.specs.Values.{AnyNext};
ghost use Rattle.stabby_cell.specs.Passes.{front_of, stamp_of};
ghost use Rattle.stabby_cell.specs.Shared.{Answers};

use crate::atomic::Kept;
use crate::chronicle::Chronicle;
use crate::turn::Turn;
use stabby_layout::AllocationError;
use std::alloc::Global;
use std::sync::Arc;

// What the turn's cell answers for that stamp.
pub(crate) fn kept_at<T: Drop>(
    turn: &Turn<'_, Option<Arc<T, Global>>>,
    stamp: u64,
    alloc: Global,
) -> Result<Kept<T>, AllocationError>
    requires { IsTurn AnyNext turn.now }
    ensures answer { IfOk result (Answers (cell_of turn.now) (front_of (pass_of turn.now)) (stamp_of (pass_of turn.now)) stamp) }
    ensures memory { IfErr result (λ error. error ≡ AllocationError.Memory) }
{
    match turn.at(stamp) {
        None => Ok(Kept::NotKept {
            oldest: turn.oldest(),
            stamp: turn.stamp(),
        }),
        Some(version) => match version.copy(alloc) {
            Ok(value) => Ok(Kept::Version(value)),
            Err(_) => Err(AllocationError::Memory),
        },
    }
}
