//! Tables with their numbers.

ghost use Rattle.std.specs.Prelude.{◌≡◌, IfOk};

use crate::table::WordTable;
use stabby_tree::Keyed;
use std::alloc::{AllocError, Global};
use std::cmp::Ordering;
use std::marker::Model;
use std::sync::Arc;

/// A shared table with its number, keyed by the table.
#[derive(Drop)]
pub struct Numbered {
    first: u64,
    table: Arc<WordTable, Global>,
    number: u64,
}

impl Model for Numbered {
    ghost use Rattle.std.specs.Prelude.{◌≡◌, List, ℕ, slice_index};
    ghost use Rattle.std.specs.Arc.{arc_value};

    ghost Value = { List ℕ × ℕ };

    ghost view = { λ n. (arc_value n.table, n.number) };

    // `first` is the table's first word, or 0: most comparisons end with it, and read no table.
    ghost invariant = { λ n. n.first ≡ slice_index (arc_value n.table) 0 };
}

impl Numbered {
    /// A table with this number.
    pub fn new(table: Arc<WordTable, Global>, number: u64) -> Numbered
        ensures { result ≡ (table.value, number) }
    {
        Numbered {
            first: table.first(),
            table,
            number,
        }
    }

    /// The table.
    pub fn table(&self) -> &WordTable
        ensures { result.now ≡ self.now.0 }
    {
        &self.table
    }

    /// A further handle of the table.
    ///
    /// # Errors
    /// `AllocError`, where the handle finds none.
    pub fn handle(&self) -> Result<Arc<WordTable, Global>, AllocError>
        ensures { IfOk result (λ handle. handle.value ≡ self.now.0) }
    {
        Arc::try_clone(&self.table)
    }

    /// The table's number: in a registry, its place in the list, counted from 0.
    pub fn number(&self) -> u64
        ensures { result ≡ self.now.1 }
    {
        self.number
    }
}

impl Clone for Numbered {
    ghost is_clone = { λ x y. y ≡ x };

    fn clone(&self) -> Result<Numbered, AllocError> {
        Ok(Numbered {
            first: self.first,
            table: Arc::try_clone(&self.table)?,
            number: self.number,
        })
    }
}

impl Keyed for Numbered {
    type Key = WordTable;

    ghost key_of = { λ n. n.0 };

    fn key(&self) -> &WordTable {
        &self.table
    }

    #[inline(always)]
    fn compare(&self, key: &WordTable) -> Ordering {
        match self.first.cmp(&key.first()) {
            Ordering::Equal => self.table.words().cmp(&key.words()),
            unequal => unequal,
        }
    }
}
