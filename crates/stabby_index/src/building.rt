//! The rows that changes make.
ghost use Rattle.std.specs.Prelude.{◌≡◌, length, Some, IfOk, IfErr, IfSome, IfNone};
ghost use Rattle.std.specs.Option.{option_copied};
ghost use Rattle.std.specs.Ordering.{nat_cmp};
ghost use Rattle.stabby_tree.specs.Maps.{entries_of, entry_of, with_entry, IsRisingMap};
ghost use Rattle.stabby_index.specs.Groups.{with_key, keys_in, IsWithKey};
ghost use Rattle.stabby_index.specs.Rows.{with_row, without_row, changed, changed_by};

use crate::changes::{KeptChange, Shared};
use crate::keys::Keys;
use crate::row::Row;
use crate::slot::Slot;
use crate::view::View;
use stabby_layout::AllocationError;
use stabby_tree::ArcBTreeMap;
use std::alloc::Global;

impl View {
    // The rows after these changes.
    pub(crate) fn with_all(
        self,
        alloc: Global,
        changes: &[KeptChange],
    ) -> Result<View, AllocationError>
        ensures ok { IfOk result (λ view. view ≡ changed_by self changes.now) }
        ensures memory { IfErr result (λ error. error ≡ AllocationError.Memory) }
    {
        let mut view = self;
        let mut rest = changes;
        while let Some((change, others)) = rest.split_first() {
            view = view.after(alloc, change)?;
            rest = others;
        }
        Ok(view)
    }

    // The rows after this change.
    fn after(self, alloc: Global, change: &KeptChange) -> Result<View, AllocationError>
        ensures ok { IfOk result (λ view. view ≡ changed self change.now) }
        ensures memory { IfErr result (λ error. error ≡ AllocationError.Memory) }
    {
        match &change.shared {
            Shared::Put(row) => {
                let slot = Slot::of(row)?;
                self.with(alloc, row, slot)
            }
            Shared::Delete(key) => self.without(*key),
        }
    }

    // The rows with this one, whose slot it is, in the place of its key's row where there is one.
    fn with(self, alloc: Global, row: &Row, slot: Slot) -> Result<View, AllocationError>
        requires { slot ≡ Some row.now }
        ensures ok { IfOk result (λ view. view ≡ with_row self row.now) }
        ensures memory { IfErr result (λ error. error ≡ AllocationError.Memory) }
    {
        let count = self.count_with(row)?;
        let View {
            rows,
            groups,
            count: _,
        } = self;
        let key = row.key;
        let groups = with_key_of(groups, alloc, row.group, key)?;
        let rows = with_slot(rows, key, slot)?;
        Ok(View {
            rows,
            groups,
            count,
        })
    }

    // How many rows there are with this one.
    fn count_with(&self, row: &Row) -> Result<u64, AllocationError>
        ensures ok { IfOk result (λ count. count ≡ length (with_row self.now row.now)) }
        ensures memory { IfErr result (λ error. error ≡ AllocationError.Memory) }
    {
        match self.get(row.key) {
            Some(_) => Ok(self.count),
            None => match self.count.checked_add(1) {
                Some(count) => Ok(count),
                None => Err(AllocationError::Memory),
            },
        }
    }

    // The rows without that of this key.
    fn without(self, key: u64) -> Result<View, AllocationError>
        ensures ok { IfOk result (λ view. view ≡ without_row self key) }
        ensures memory { IfErr result (λ error. error ≡ AllocationError.Memory) }
    {
        let Some(count) = self.count_without(key) else {
            return Ok(self);
        };
        let View {
            rows,
            groups,
            count: _,
        } = self;
        let rows = with_slot(rows, key, Slot::left())?;
        Ok(View {
            rows,
            groups,
            count,
        })
    }

    // How many rows there are without that of this key; `None` where there is no such row.
    fn count_without(&self, key: u64) -> Option<u64>
        ensures some { IfSome result (λ count. count ≡ length (without_row self.now key)) }
        ensures none { IfNone result (without_row self.now key ≡ self.now) }
    {
        match self.get(key) {
            None => None,
            Some(_) => Some(self.count - 1),
        }
    }
}

// These slots with this one at its key.
fn with_slot(
    rows: ArcBTreeMap<u64, Slot, Global, 5>,
    key: u64,
    slot: Slot,
) -> Result<ArcBTreeMap<u64, Slot, Global, 5>, AllocationError>
    ensures entries { IfOk result (λ m. entries_of m ≡ with_entry nat_cmp (entries_of rows) (entry_of key slot)) }
    ensures rising { IfOk result (λ new. IsRisingMap nat_cmp (entries_of new)) }
    ensures memory { IfErr result (λ error. error ≡ AllocationError.Memory) }
{
    let mut rows = rows;
    match rows.insert(key, slot) {
        Ok(_) => Ok(rows),
        Err((_, _, error)) => Err(error),
    }
}

// These groups with this key in this group.
fn with_key_of(
    groups: ArcBTreeMap<u64, Keys, Global, 5>,
    alloc: Global,
    group: u64,
    key: u64,
) -> Result<ArcBTreeMap<u64, Keys, Global, 5>, AllocationError>
    ensures lookups { IfOk result (λ new. IsWithKey (entries_of groups) group key (entries_of new)) }
    ensures memory { IfErr result (λ error. error ≡ AllocationError.Memory) }
{
    let mut groups = groups;
    let keys = keys_with(groups.get(&group), alloc, key)?;
    match groups.insert(group, keys) {
        Ok(_) => Ok(groups),
        Err((_, _, error)) => Err(error),
    }
}

// These keys, or none, and this one.
fn keys_with(keys: Option<&Keys>, alloc: Global, key: u64) -> Result<Keys, AllocationError>
    ensures ok { IfOk result (λ new. new ≡ with_key (keys_in (option_copied keys.entry)) key) }
    ensures memory { IfErr result (λ error. error ≡ AllocationError.Memory) }
{
    match keys {
        Some(keys) => keys.with(key),
        None => Keys::none(alloc).with(key),
    }
}
