//! A copy of an older version, made under the turn.
ghost use Rattle.std.specs.Prelude.{◌≡◌, ◌↔◌, IfOk, IfErr, IfSome, IsSome};
ghost use Rattle.stabby_cell.specs.Turns.{IsTurn, KeepsStamp};
ghost use Rattle.stabby_cell.specs.Visits.{contents_then};

use crate::replaced::Replaced;
use crate::turn::Turn;
use stabby_layout::AllocationError;
use std::alloc::Global;

// A copy of the version of that stamp, where the turn has it.
pub(crate) fn copy_at<V: Replaced + Drop>(
    turn: &Turn<'_, V>,
    stamp: u64,
    alloc: Global,
) -> Result<Option<V>, AllocationError>
    requires turn { IsTurn V.Chronicle.next turn.now }
    requires copies { (v : V) → V.Chronicle.can_copy v }
    ensures kept { IfOk result (λ found. IsSome found ↔ KeepsStamp turn.now stamp) }
    ensures contents { IfOk result (λ found. IfSome found (λ v. v ≡ contents_then turn.now stamp)) }
    ensures memory { IfErr result (λ error. error ≡ AllocationError.Memory) }
{
    match turn.at(stamp) {
        None => Ok(None),
        Some(version) => match version.copy(alloc) {
            Ok(copy) => Ok(Some(copy)),
            Err(_) => Err(AllocationError::Memory),
        },
    }
}
