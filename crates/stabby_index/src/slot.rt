//! What a version has at a key.
ghost use Rattle.std.specs.Prelude.{◌≡◌, Some, None, IfOk, IfErr};
ghost use Rattle.std.specs.Option.{option_copied};
ghost use Rattle.std.specs.Arc.{arc_value};

use crate::row::Row;
use stabby_layout::AllocationError;
use std::alloc::{AllocError, Global};
use std::marker::Model;
use std::sync::Arc;

/// The row of a key, or the mark that it left.
#[derive(Drop)]
pub(crate) struct Slot {
    row: Option<Arc<Row, Global>>,
}

impl Model for Slot {
    ghost use Rattle.std.specs.Prelude.{Option};
    ghost use Rattle.stabby_index.specs.declared.row.Row.{Row};
    ghost use Rattle.stabby_index.specs.Slots.{row_in};

    ghost Value = { Option Row };

    ghost view = { λ slot. row_in slot.row };
}

impl Slot {
    // The slot with this row, which it shares.
    pub(crate) fn of(row: &Arc<Row, Global>) -> Result<Slot, AllocationError>
        ensures ok { IfOk result (λ slot. slot ≡ Some (arc_value row.now)) }
        ensures memory { IfErr result (λ error. error ≡ AllocationError.Memory) }
    {
        let row = Arc::try_clone(row)?;
        Ok(Slot { row: Some(row) })
    }

    // The mark.
    pub(crate) fn left() -> Slot
        ensures { result ≡ None }
    {
        Slot { row: None }
    }

    pub(crate) fn row(&self) -> Option<&Row>
        ensures { option_copied result ≡ self.now }
    {
        match &self.row {
            None => None,
            Some(row) => Some(row),
        }
    }
}

impl Clone for Slot {
    ghost is_clone = { λ x y. y ≡ x };

    fn clone(&self) -> Result<Slot, AllocError> {
        match &self.row {
            None => Ok(Slot { row: None }),
            Some(row) => Ok(Slot {
                row: Some(Arc::try_clone(row)?),
            }),
        }
    }
}
