//! The registry that needs no turn: a row of atomic words.

ghost use Rattle.std.specs.Prelude.{◌≡◌, ◌≢◌, ◌+◌, ◌<◌, ◌≤◌, ◌^◌, ℕ, List, true, length, IfOk, IfErr, IfSome, IfNone, OnOk};
ghost use mathlib.Core.List.{IsPrefix};
ghost use Rattle.stabby_tables.specs.Lists.{has, IsDistinct};
ghost use Rattle.stabby_registry.specs.Inserts.{IsNumber};
ghost use Rattle.stabby_registry.specs.Rows.{words_of, IsPassOf, IsOpening, SplitOff, Joined, front_of, weight_of, walked_of, ends_of};
ghost use Rattle.stabby_registry.specs.Rows.{MadeNoClaim, ClaimsAtMostOnce, IsRowFull, WalksOnly, InsertsInRow, IsRowFault};

use crate::fault::RegistryFault;
use crate::vtable_registry::VTableRegistry;
use stabby_layout::AllocationError;
use stabby_row::{RowFull, RowPass, WordRow};
use stabby_word_table::{ListsWords, WordTable};
use std::alloc::Global;
use std::sync::Wait;

/// A registry: a list of distinct tables, which changes only by appending an absent one, in a row of so many words.
///
/// No call waits for another thread. A table takes 2 words of the row and its own, which are never used again.
#[derive(Drop)]
pub struct VtVec {
    pub(crate) row: WordRow,
}

impl VtVec {
    /// The empty registry of so many words, and its whole pass. It takes twice the row's memory while it is made.
    ///
    /// # Errors
    /// `Memory`, where the row finds none.
    pub fn new(alloc: Global, words: u64) -> Result<(VtVec, RowPass), AllocationError>
        requires { (1 ≤ words) × (words ≤ 2 ^ 28) }
        ensures ok { IfOk result (λ made. IsOpening words made.0 made.1) }
        ensures memory { IfErr result (λ error. error ≡ AllocationError.Memory) }
    {
        let (row, pass) = WordRow::new(alloc, words)?;
        Ok((VtVec { row }, pass))
    }

    /// Cuts this weight off the pass, for a further caller with the same front.
    pub fn split(&self, pass: &mut RowPass, weight: u64) -> RowPass
        requires own { IsPassOf self.now pass.old }
        requires light { (1 ≤ weight) × (weight < weight_of pass.old) }
        ensures pass { IsPassOf self.now pass.new }
        ensures new_pass { IsPassOf self.now result }
        ensures split { SplitOff pass.old pass.new result weight }
    {
        self.row.split(pass, weight)
    }

    /// Puts the other pass into this one. Both fronts are prefixes of the new one.
    pub fn join(&self, pass: &mut RowPass, other: RowPass)
        requires own { IsPassOf self.now pass.old }
        requires other { IsPassOf self.now other }
        ensures pass { IsPassOf self.now pass.new }
        ensures joined { Joined pass.old other pass.new }
        ensures first { IsPrefix (front_of pass.old) (front_of pass.new) }
        ensures second { IsPrefix (front_of other) (front_of pass.new) }
        ensures distinct { IsDistinct (front_of pass.new) }
    {
        self.row.join(pass, other)
    }

    /// The number of this table. An absent one is added at the end of the registry's list.
    ///
    /// It takes no memory, claims words at most once, and never for a table that this pass has seen. It returns
    /// whatever other threads do.
    ///
    /// # Errors
    /// `RowFull`, where the table is absent and the row has too few words left for it.
    pub fn insert_row(&self, pass: &mut RowPass, table: &WordTable) -> Result<u64, RowFull>
        requires { IsPassOf self.now pass.old }
        ensures pass { IsPassOf self.now pass.new }
        ensures weight { weight_of pass.new ≡ weight_of pass.old }
        ensures front { IsPrefix (front_of pass.old) (front_of pass.new) }
        ensures distinct { IsDistinct (front_of pass.new) }
        ensures number { IfOk result (IsNumber (front_of pass.new) table.now) }
        ensures walked { IfOk result (λ n. walked_of pass.new ≤ walked_of pass.old + (n + 1)) }
        ensures claims { ClaimsAtMostOnce pass.old pass.new table.now }
        ensures known { has (front_of pass.old) table.now ≡ true → MadeNoClaim pass.old pass.new }
        ensures full { IfErr result (IsRowFull (words_of self.now) pass.old pass.new table.now) }
    {
        self.row.insert_row(pass, table.words())
    }

    /// The table with this number; `None` exactly where the number isn't below the length of the front after the call.
    ///
    /// It walks to that table or to the end, and claims nothing.
    ///
    /// # Errors
    /// `Memory`, where the copy finds none.
    pub fn entry(
        &self,
        alloc: Global,
        pass: &mut RowPass,
        number: u64,
    ) -> Result<Option<WordTable>, AllocationError>
        requires { IsPassOf self.now pass.old }
        ensures pass { IsPassOf self.now pass.new }
        ensures weight { weight_of pass.new ≡ weight_of pass.old }
        ensures front { IsPrefix (front_of pass.old) (front_of pass.new) }
        ensures distinct { IsDistinct (front_of pass.new) }
        ensures walked { walked_of pass.new ≤ walked_of pass.old + (number + 1) }
        ensures no_claim { MadeNoClaim pass.old pass.new }
        ensures table { IfOk result (λ found. IfSome found (λ t. IsNumber (front_of pass.new) t number)) }
        ensures none { IfOk result (λ found. IfNone found (length (front_of pass.new) ≤ number)) }
        ensures end { IfOk result (λ found. IfNone found (ends_of pass.old < ends_of pass.new)) }
        ensures memory { IfErr result (λ error. error ≡ AllocationError.Memory) }
    {
        match self.row.entry(alloc, pass, number)? {
            Some(words) => Ok(Some(WordTable::from_vec(words))),
            None => Ok(None),
        }
    }
}

impl From<RowFull> for RegistryFault {
    ghost use Rattle.std.specs.Prelude.{◌≡◌};
    ghost use Rattle.stabby_registry.specs.Rows.{fault_of};

    ghost from_gives = { λ full fault. fault ≡ fault_of full };

    fn from(full: RowFull) -> RegistryFault {
        RegistryFault::RowFull {
            claimed: full.claimed,
            needed: full.needed,
        }
    }
}

/// `Full` never; `RowFull` as `VtVec::insert_row` says. `insert` calls that alone: it neither waits nor takes memory.
impl VTableRegistry for VtVec {
    type Pass = RowPass;

    ghost belongs = { λ registry p. IsPassOf registry p };

    ghost front = { λ p. front_of p };

    ghost looked = { λ p q. WalksOnly p q };

    ghost inserts = { λ p q t n. InsertsInRow p q t n };

    ghost refuses = { λ p q t fault. IsRowFault p q t fault };

    fn insert<H: Wait>(
        &self,
        _rt: &H,
        _alloc: Global,
        pass: &mut RowPass,
        table: &WordTable,
    ) -> Result<u64, RegistryFault>
        requires { IsPassOf self.now pass.old }
        ensures pass { IsPassOf self.now pass.new }
        ensures front { IsPrefix (front_of pass.old) (front_of pass.new) }
        ensures number { IfOk result (λ n. IsNumber (front_of pass.new) table.now n) }
        ensures inserts { IfOk result (InsertsInRow pass.old pass.new table.now) }
        ensures distinct { OnOk result (IsDistinct (front_of pass.new)) }
        ensures known { has (front_of pass.old) table.now ≡ true → OnOk result (WalksOnly pass.old pass.new) }
        ensures refused { IfErr result (IsRowFault pass.old pass.new table.now) }
        ensures no_memory { IfErr result (λ fault. fault ≢ RegistryFault.Memory) }
    {
        Ok(self.insert_row(pass, table)?)
    }

    fn insert_typed<Vt: ListsWords, H: Wait>(
        &self,
        _rt: &H,
        alloc: Global,
        pass: &mut RowPass,
        vtable: &Vt,
    ) -> Result<u64, RegistryFault> {
        let table = vtable.list_words(alloc)?;
        Ok(self.insert_row(pass, &table)?)
    }
}
