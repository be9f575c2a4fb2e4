//! A number that each version raises by one.
use stabby_cell::{AllocationError, Chronicle};
use std::alloc::Global;

/// A version: the number after so many commits. A commit's entry is the new number.
#[derive(Drop)]
pub struct Counter {
    /// How far it has counted.
    pub number: u64,
}

impl Chronicle for Counter {
    ghost use Rattle.std.specs.Prelude.{◌≡◌};
    ghost use Rattle.stabby_cell_uses.specs.Counting.{RaisesByOne};

    type Entry = u64;

    ghost entry_of = { λ v. v.number };

    ghost next = { λ old e new. RaisesByOne old.number e new.number };

    ghost same = { λ a b. a ≡ b };

    ghost can_copy = { λ _. Unit {0} };

    fn copy(&self, _alloc: Global) -> Result<Counter, AllocationError> {
        Ok(Counter {
            number: self.number,
        })
    }
}
