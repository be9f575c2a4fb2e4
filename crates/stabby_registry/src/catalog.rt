//! A registry's version: a list of distinct tables, kept as a set of numbered tables.

ghost use Rattle.std.specs.Prelude.{◌≡◌, ◌<◌, ◌++◌, ◌∷◌, ◌^◌, [], false, length, ◌+◌, ◌-◌, ◌*◌, ◌≤◌, ℕ, List, All, MatchOption, IfOk, IfErr, OnOk, OnErr, Some, None, if◌then◌else◌};
ghost use Rattle.stabby_tables.specs.Lists.{has, place, ordered, IsDistinct};
ghost use Rattle.stabby_tree.specs.Sets.{IsLimit};
ghost use Rattle.stabby_registry.specs.Interned.{CanRank};

use stabby_cell::Chronicle;
use stabby_layout::AllocationError;
use stabby_tree::{ArcBTreeSet, Probe};
use stabby_word_table::{Numbered, WordTable};
use std::alloc::Global;
use std::marker::Model;
use std::sync::Arc;

// The length of a list that can't be counted further.
pub(crate) const LAST_STAMP: u64 = (1 << 63) - 1;

// What a version has of a table.
#[derive(Drop)]
pub(crate) enum Found<const SIZE: usize> {
    // Its number.
    Known(u64),
    // It is absent: the version.
    Absent(Catalog<SIZE>),
    // It is absent, and the registry is full.
    Full,
}

/// A list of distinct tables, each of which has its place as its number.
#[derive(Drop)]
pub struct Catalog<const SIZE: usize> {
    entries: ArcBTreeSet<Numbered, Global, 0, SIZE>,
}

impl<const SIZE: usize> Model for Catalog<SIZE> {
    ghost use Rattle.std.specs.Prelude.{List, ℕ};
    ghost use Rattle.stabby_registry.specs.Catalog.{listed, IsCatalog};

    ghost Value = { List (List ℕ) };

    ghost view = { λ c. listed c.entries.items };

    ghost invariant = { λ c. IsCatalog c.entries.items };
}

/// A version's entry is its last table; the next version has one absent table more.
impl<const SIZE: usize> Chronicle for Catalog<SIZE> {
    ghost use Rattle.std.specs.Prelude.{◌≡◌};
    ghost use Rattle.stabby_registry.specs.Catalog.{last_table, AppendsTable};

    type Entry = WordTable;

    ghost entry_of = { λ c. last_table c };

    ghost next = { λ old table new. AppendsTable old table new };

    ghost same = { λ one other. other ≡ one };

    ghost can_copy = { λ _. Unit {0} };

    fn copy(&self, _alloc: Global) -> Result<Catalog<SIZE>, AllocationError> {
        self.duplicate()
    }
}

impl<const SIZE: usize> Catalog<SIZE> {
    ghost use Rattle.stabby_registry.specs.Visits.{HasFound};
    ghost use Rattle.stabby_registry.specs.Inserts.{IsNumber};
    ghost use Rattle.stabby_registry.specs.Counted.{number_in, CountsOnePath};

    pub(crate) fn new(alloc: Global) -> Catalog<SIZE>
        requires { IsLimit SIZE }
        ensures { result ≡ [] }
    {
        Catalog {
            entries: ArcBTreeSet::from_alloc(alloc),
        }
    }

    /// The tables with their numbers, in strictly increasing order of tables.
    ///
    /// # Errors
    /// `Memory`, where the list or a further handle of a table finds none.
    pub fn entries(&self, alloc: Global) -> Result<Vec<Numbered>, AllocationError>
        ensures ok { IfOk result (λ entries. entries.items ≡ ordered self.now) }
        ensures can_rank { IfOk result (λ entries. (numbers : List ℕ) → All (λ n. n < length entries.items) numbers
            → CanRank entries.items numbers) }
        ensures memory { IfErr result (λ error. error ≡ AllocationError.Memory) }
    {
        let list = self.entries.to_list(alloc)?;
        let mut entries = Vec::with_capacity(alloc, list.len())?;
        for entry in &list {
            entries.push((*entry).clone()?)?;
        }
        Ok(entries)
    }

    /// How many tables there are.
    pub fn len(&self) -> u64
        ensures count { result ≡ length self.now }
        ensures limit { result < 2 ^ 63 }
    {
        self.entries.len() as u64
    }

    /// The number of a table; `None` exactly where it is absent.
    pub fn number_of(&self, table: &WordTable) -> Option<u64>
        ensures number { result ≡ (if has self.now table.now then Some (place self.now table.now) else None) }
        ensures distinct { IsDistinct self.now }
    {
        match self.entries.get(table) {
            Some(entry) => Some(entry.number()),
            None => None,
        }
    }

    /// The number of the probe's table; `None` exactly where it is absent. One path of the tree is compared.
    pub(crate) fn number_counted<P: Probe<Numbered>>(&self, probe: &mut P) -> Option<u64>
        requires room { P.count probe.old + 64 * (SIZE - 1) < 18446744073709551615 }
        ensures number { result ≡ number_in self.now (P.sought probe.old) }
        ensures key { P.sought probe.new ≡ P.sought probe.old }
        ensures count { CountsOnePath SIZE self.now (P.count probe.old) (P.count probe.new) }
    {
        if self.entries.height() == 0 {
            return None;
        }
        match self.entries.get_counted(probe) {
            Some(entry) => Some(entry.number()),
            None => None,
        }
    }

    /// The handle of the table with this number; `None` exactly where the number isn't below the length.
    pub(crate) fn handle_of(
        &self,
        number: u64,
    ) -> Result<Option<Arc<WordTable, Global>>, AllocationError>
        ensures ok { IfOk result (λ handle. MatchOption handle (length self.now ≤ number)
            (λ table. IsNumber self.now table.value number)) }
        ensures memory { IfErr result (λ error. error ≡ AllocationError.Memory) }
    {
        match self.entries.find(|entry| entry.number() == number) {
            Some(entry) => Ok(Some(entry.handle()?)),
            None => Ok(None),
        }
    }

    // An equal catalog.
    pub(crate) fn duplicate(&self) -> Result<Catalog<SIZE>, AllocationError>
        ensures ok { IfOk result (λ copy. copy ≡ self.now) }
        ensures memory { IfErr result (λ error. error ≡ AllocationError.Memory) }
    {
        Ok(Catalog {
            entries: self.entries.clone()?,
        })
    }

    // Looks a table up, and gives the version back where it is absent.
    pub(crate) fn find(self, table: &WordTable) -> Found<SIZE>
        ensures { HasFound self.entry table.now result }
    {
        if let Some(number) = self.number_of(table) {
            return Found::Known(number);
        }
        if self.len() == LAST_STAMP {
            return Found::Full;
        }
        Found::Absent(self)
    }

    // The list with a copy of an absent table at its end.
    pub(crate) fn with(
        self,
        alloc: Global,
        table: &WordTable,
    ) -> Result<Catalog<SIZE>, AllocationError>
        requires absent { has self table.now ≡ false }
        requires room { length self < 2 ^ 63 - 1 }
        ensures ok { IfOk result (λ longer. longer ≡ self.entry ++ table.now ∷ []) }
        ensures memory { IfErr result (λ error. error ≡ AllocationError.Memory) }
    {
        let mut longer = self;
        longer.append(Arc::new(alloc, table.copy()?)?)?;
        Ok(longer)
    }

    // Puts an absent table at the end.
    fn append(&mut self, table: Arc<WordTable, Global>) -> Result<(), AllocationError>
        requires absent { has self.old table.value ≡ false }
        requires room { length self.old < 2 ^ 63 - 1 }
        ensures ok { OnOk result (self.new ≡ self.old ++ table.value ∷ []) }
        ensures unchanged { OnErr result (self.new ≡ self.old) }
        ensures memory { IfErr result (λ error. error ≡ AllocationError.Memory) }
    {
        let number = self.entries.len() as u64;
        match self.entries.insert(Numbered::new(table, number)) {
            Ok(None) => Ok(()),
            Ok(Some(_)) => Ok(()),
            Err((_, error)) => Err(error),
        }
    }
}
