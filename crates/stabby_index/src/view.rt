//! One version's rows.
ghost use Rattle.std.specs.Prelude.{◌≡◌, [], length, map, IfOk, IfErr};
ghost use Rattle.std.specs.Option.{option_copied};
ghost use Rattle.stabby_index.specs.Groups.{only, picked, IsRisingKeys};
ghost use Rattle.stabby_index.specs.Rows.{row_at, IsRisingRows, in_group, IsGroupCount};

use crate::keys::Keys;
use crate::row::Row;
use crate::slot::Slot;
use stabby_layout::AllocationError;
use stabby_tree::ArcBTreeMap;
use std::alloc::Global;
use std::marker::Model;

/// The rows of one version, which stay as they are under all later calls of the index.
#[derive(Drop)]
pub struct View {
    // What is at each key that has or had a row.
    pub(crate) rows: ArcBTreeMap<u64, Slot, Global, 5>,
    // The keys that each group has or had.
    pub(crate) groups: ArcBTreeMap<u64, Keys, Global, 5>,
    pub(crate) count: u64,
}

impl Model for View {
    ghost use Rattle.std.specs.Prelude.{List};
    ghost use Rattle.stabby_tree.specs.Maps.{entries_of};
    ghost use Rattle.stabby_index.specs.declared.row.Row.{Row};
    ghost use Rattle.stabby_index.specs.Slots.{live, IsVersionOfRows};

    ghost Value = { List Row };

    ghost view = { λ v. live (entries_of v.rows) };

    ghost invariant = { λ v. IsVersionOfRows (entries_of v.rows) (entries_of v.groups) v.count };
}

impl View {
    pub(crate) fn empty(alloc: Global) -> View
        ensures { result ≡ [] }
    {
        View {
            rows: ArcBTreeMap::new_in(alloc),
            groups: ArcBTreeMap::new_in(alloc),
            count: 0,
        }
    }

    /// How many rows there are.
    pub fn len(&self) -> u64
        ensures { result ≡ length self.now }
    {
        self.count
    }

    /// The row of this key; `None` exactly where there is none.
    pub fn get(&self, key: u64) -> Option<&Row>
        ensures { option_copied result ≡ row_at self.now key }
    {
        match self.rows.get(&key) {
            None => None,
            Some(slot) => slot.row(),
        }
    }

    /// All rows, in increasing order of their keys.
    ///
    /// # Errors
    /// `Memory`, where the list finds none.
    pub fn rows(&self, alloc: Global) -> Result<Vec<&Row>, AllocationError>
        ensures ok { IfOk result (λ rows. map (λ r. r.now) rows.items ≡ self.now) }
        ensures rising { IsRisingRows self.now }
        ensures memory { IfErr result (λ error. error ≡ AllocationError.Memory) }
    {
        let list = self.rows.to_list(alloc)?;
        let mut rows = Vec::new(alloc);
        for entry in &list {
            if let Some(row) = entry.value().row() {
                rows.push(row)?;
            }
        }
        Ok(rows)
    }

    /// The rows of this group, in increasing order of their keys.
    ///
    /// # Errors
    /// `Memory`, where the list finds none.
    pub fn group(&self, alloc: Global, group: u64) -> Result<Vec<&Row>, AllocationError>
        ensures ok { IfOk result (λ rows. map (λ r. r.now) rows.items ≡ in_group self.now group) }
        ensures memory { IfErr result (λ error. error ≡ AllocationError.Memory) }
    {
        match self.groups.get(&group) {
            None => Ok(Vec::new(alloc)),
            Some(keys) => self.those(alloc, group, keys),
        }
    }

    // Of the rows of these keys, those of this group.
    fn those(&self, alloc: Global, group: u64, keys: &Keys) -> Result<Vec<&Row>, AllocationError>
        ensures ok { IfOk result (λ rows. map (λ r. r.now) rows.items ≡ picked self.now group keys.now) }
        ensures rising { IsRisingKeys keys.now }
        ensures memory { IfErr result (λ error. error ≡ AllocationError.Memory) }
    {
        let list = keys.list(alloc)?;
        let mut rows = Vec::new(alloc);
        for key in &list {
            if let Some(row) = self.pick(group, key) {
                rows.push(row)?;
            }
        }
        Ok(rows)
    }

    // The row of this key, where it is one of this group.
    fn pick(&self, group: u64, key: &&u64) -> Option<&Row>
        ensures { option_copied result ≡ only group (row_at self.now key.now.now) }
    {
        match self.get(**key) {
            None => None,
            Some(row) => { if row.group == group { Some(row) } else { None } }
        }
    }

    /// Each group that has a row, with their number, in increasing order of the groups.
    ///
    /// # Errors
    /// `Memory`, where the lists find none.
    pub fn groups(&self, alloc: Global) -> Result<Vec<(u64, u64)>, AllocationError>
        ensures ok { IfOk result (λ counts. IsGroupCount self.now counts.items) }
        ensures memory { IfErr result (λ error. error ≡ AllocationError.Memory) }
    {
        let list = self.groups.to_list(alloc)?;
        let mut counts = Vec::new(alloc);
        for entry in &list {
            let group = *entry.key();
            let count = self.group(alloc, group)?.len() as u64;
            if count > 0 {
                counts.push((group, count))?;
            }
        }
        Ok(counts)
    }

    // An equal view.
    pub(crate) fn copy(&self) -> Result<View, AllocationError>
        ensures ok { IfOk result (λ view. view ≡ self.now) }
        ensures memory { IfErr result (λ error. error ≡ AllocationError.Memory) }
    {
        Ok(View {
            rows: self.rows.clone()?,
            groups: self.groups.clone()?,
            count: self.count,
        })
    }
}
