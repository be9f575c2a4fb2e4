//! Tables of words.

ghost use Rattle.std.specs.Prelude.{◌≡◌, IfOk, IfErr, Some, nat_eq, slice_index};
ghost use Rattle.std.proofs.Common.{refl, rules};
ghost use Rattle.std.specs.Hash as fed;
ghost use Rattle.std.specs.Ordering.{nat_cmp};
ghost use Rattle.std.specs.Cmp.Lexicographic.{pointwise, slice_cmp, nat_list_eq_equiv, nat_list_cmp_total, texts_ties, texts_po};
ghost use Rattle.std.specs.Cmp.{on_equiv, on_total, on_po, on_per, partial_equiv_from_equiv};
ghost use Rattle.std.specs.Cmp.Rules.{hashing};

use crate::words::Words;
use stabby_layout::AllocationError;
use stabby_tree::Keyed;
use std::alloc::Global;
use std::cmp::Ordering;
use std::fmt;
use std::hash::{Hash, Hasher};
use std::marker::Model;

/// A list of words: the content of a trait table, ordered as slices are.
#[derive(Drop)]
pub struct WordTable {
    words: Words,
}

impl Model for WordTable {
    ghost use Rattle.std.specs.Prelude.{List, ℕ};
    ghost use Rattle.stabby_word_table.specs.Words.{words_in};

    ghost Value = { List ℕ };

    ghost view = { λ t. words_in t.words };
}

impl WordTable {
    /// The table of these words.
    ///
    /// # Errors
    /// `Memory`, where their copy finds none.
    pub fn from_words(alloc: Global, words: &[u64]) -> Result<WordTable, AllocationError>
        ensures ok { IfOk result (λ table. table ≡ words.now) }
        ensures memory { IfErr result (λ error. error ≡ AllocationError.Memory) }
    {
        Ok(WordTable {
            words: Words::from_slice(alloc, words)?,
        })
    }

    /// The table of these words, which are moved and not copied.
    pub fn from_vec(words: Vec<u64>) -> WordTable
        ensures { result ≡ words.items }
    {
        WordTable {
            words: Words::from_vec(words),
        }
    }

    // The first word, or 0.
    #[inline(always)]
    pub(crate) fn first(&self) -> u64
        ensures { result ≡ slice_index self.now 0 }
    {
        self.words.first()
    }

    /// The words in order.
    #[inline(always)]
    pub fn words(&self) -> &[u64]
        ensures { result.now ≡ self.now }
    {
        self.words.as_slice()
    }

    /// An equal table.
    ///
    /// # Errors
    /// `Memory`, where the copy finds none.
    pub fn copy(&self) -> Result<WordTable, AllocationError>
        ensures ok { IfOk result (λ table. table ≡ self.now) }
        ensures memory { IfErr result (λ error. error ≡ AllocationError.Memory) }
    {
        Ok(WordTable {
            words: self.words.copy()?,
        })
    }
}

impl PartialEq for WordTable {
    ghost eq = { λ a b. pointwise nat_eq a b };

    ghost laws = { on_per (λ x. x) (partial_equiv_from_equiv nat_list_eq_equiv) };

    fn eq(&self, other: &WordTable) -> bool {
        self.words.as_slice() == other.words.as_slice()
    }
}

impl Eq for WordTable {
    ghost laws = { on_equiv (λ x. x) nat_list_eq_equiv };
}

impl PartialOrd for WordTable {
    ghost partial_cmp = { λ a b. Some (slice_cmp nat_cmp a b) };

    ghost laws = { on_po (λ x. x) texts_po };

    fn partial_cmp(&self, other: &WordTable) -> Option<Ordering> {
        Some(self.cmp(other))
    }
}

impl Ord for WordTable {
    ghost cmp = { slice_cmp nat_cmp };

    ghost total = { on_total (λ x. x) nat_list_cmp_total };

    ghost matches_partial_cmp = { λ a b. refl };

    ghost matches_eq = { λ a b. texts_ties a b };

    #[inline(always)]
    fn cmp(&self, other: &WordTable) -> Ordering {
        match self.words.first().cmp(&other.words.first()) {
            Ordering::Equal => self.words.as_slice().cmp(&other.words.as_slice()),
            unequal => unequal,
        }
    }
}

impl Hash for WordTable {
    ghost hash_input = { λ t. fed.slice fed.u64 t };

    ghost respects_eq = { Prim.search (hashing, rules) };

    fn hash<H: Hasher>(&self, state: &mut H) {
        self.words.as_slice().hash(state);
    }
}

impl fmt::Debug for WordTable {
    fn fmt<W: fmt::Write>(&self, f: &mut fmt::Formatter<W>) -> fmt::Result {
        self.words.as_slice().fmt(f)
    }
}

/// A table is its own key.
impl Keyed for WordTable {
    type Key = WordTable;

    ghost key_of = { λ t. t };

    fn key(&self) -> &WordTable {
        self
    }
}
