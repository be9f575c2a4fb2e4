//! The words that tables list: a table lists its tail's, and then its head's.
ghost use Rattle.std.specs.Prelude.{◌++◌, [], ◌∷◌};

use crate::table::{AnyVt, IterVt, VTable, VtDrop, VtSend, VtSync};
use stabby_layout::AllocationError;
use stabby_registry::{ListsWords, WordTable};
use std::alloc::Global;

/// Lists its word.
impl ListsWords for VtDrop {
    ghost listed_words = { λ table. table.word ∷ [] };

    fn list_words(&self, alloc: Global) -> Result<WordTable, AllocationError> {
        WordTable::from_words(alloc, &[self.word])
    }
}

/// Lists its word.
impl ListsWords for AnyVt {
    ghost listed_words = { λ table. table.word ∷ [] };

    fn list_words(&self, alloc: Global) -> Result<WordTable, AllocationError> {
        WordTable::from_words(alloc, &[self.word])
    }
}

/// Lists its word.
impl ListsWords for IterVt {
    ghost listed_words = { λ table. table.word ∷ [] };

    fn list_words(&self, alloc: Global) -> Result<WordTable, AllocationError> {
        WordTable::from_words(alloc, &[self.word])
    }
}

/// Lists the tail's words, and then the head's.
impl<Head: ListsWords, Tail: ListsWords> ListsWords for VTable<Head, Tail> {
    ghost listed_words = { λ table. Tail.listed_words table.tail ++ Head.listed_words table.head };

    fn list_words(&self, alloc: Global) -> Result<WordTable, AllocationError> {
        let tail = self.tail.list_words(alloc)?;
        let head = self.head.list_words(alloc)?;
        let mut words = tail.words().to_vec(alloc)?;
        words.extend_from_slice(head.words())?;
        Ok(WordTable::from_vec(words))
    }
}

/// Lists the words inside the marker.
impl<V: ListsWords> ListsWords for VtSend<V> {
    ghost listed_words = { λ table. V.listed_words table.0 };

    fn list_words(&self, alloc: Global) -> Result<WordTable, AllocationError> {
        self.0.list_words(alloc)
    }
}

/// Lists the words inside the marker.
impl<V: ListsWords> ListsWords for VtSync<V> {
    ghost listed_words = { λ table. V.listed_words table.0 };

    fn list_words(&self, alloc: Global) -> Result<WordTable, AllocationError> {
        self.0.list_words(alloc)
    }
}
