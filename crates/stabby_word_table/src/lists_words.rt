//! Values that list words, as trait tables do.

ghost use Rattle.std.specs.Prelude.{◌≡◌, ℕ, List, IfOk, IfErr};

use crate::table::WordTable;
use stabby_layout::AllocationError;
use std::alloc::Global;

/// A value that stands for a list of words.
pub trait ListsWords {
    // The listed words.
    ghost listed_words: { Self → List ℕ };

    /// The table of exactly the listed words.
    ///
    /// # Errors
    /// `Memory`, where the table finds none.
    fn list_words(&self, alloc: Global) -> Result<WordTable, AllocationError>
        ensures ok { IfOk result (λ table. table ≡ listed_words self.now) }
        ensures memory { IfErr result (λ error. error ≡ AllocationError.Memory) };
}

/// A table lists its own words.
impl ListsWords for WordTable {
    ghost listed_words = { λ t. t };

    fn list_words(&self, _alloc: Global) -> Result<WordTable, AllocationError> {
        self.copy()
    }
}
