//! A shared value as a version: its entry is the value, and any value may follow.
use crate::chronicle::Chronicle;
use stabby_layout::AllocationError;
use std::alloc::Global;
use std::sync::Arc;

impl<T> Chronicle for Option<Arc<T, Global>> {
    ghost use Rattle.std.specs.Prelude.{◌≡◌};
    ghost use Rattle.stabby_cell.specs.Values.{value_of, AnyNext};

    type Entry = Option<T>;

    ghost entry_of = { value_of };

    ghost next = { AnyNext };

    ghost same = { λ one other. value_of other ≡ value_of one };

    ghost can_copy = { λ _. Unit {0} };

    fn copy(&self, _alloc: Global) -> Result<Option<Arc<T, Global>>, AllocationError> {
        match self {
            None => Ok(None),
            Some(handle) => match Arc::try_clone(handle) {
                Ok(copy) => Ok(Some(copy)),
                Err(_) => Err(AllocationError::Memory),
            },
        }
    }
}
