//! What a commit of an index changes.
ghost use Rattle.std.specs.Prelude.{◌≡◌, [], IfOk, IfErr};

use crate::row::{Change, Row};
use stabby_layout::AllocationError;
use std::alloc::Global;
use std::marker::Model;
use std::sync::Arc;

/// A change whose row the versions share.
#[derive(Drop)]
pub(crate) enum Shared {
    Put(Arc<Row, Global>),
    Delete(u64),
}

/// A change, as versions keep it.
#[derive(Drop)]
pub(crate) struct KeptChange {
    pub(crate) shared: Shared,
}

impl Model for KeptChange {
    ghost use Rattle.stabby_index.specs.declared.row.Change.{Change};
    ghost use Rattle.stabby_index.specs.Slots.{change_of};

    ghost Value = { Change };

    ghost view = { λ c. change_of c.shared };
}

impl KeptChange {
    // This change, with one copy of its row's text.
    fn of(alloc: Global, change: &Change) -> Result<KeptChange, AllocationError>
        ensures ok { IfOk result (λ kept. kept ≡ change.now) }
        ensures memory { IfErr result (λ error. error ≡ AllocationError.Memory) }
    {
        let shared = match change {
            Change::Put(row) => Shared::Put(Arc::new(alloc, row.copy()?)?),
            Change::Delete(key) => Shared::Delete(*key),
        };
        Ok(KeptChange { shared })
    }

    // The same change, with the same row.
    fn share(&self) -> Result<KeptChange, AllocationError>
        ensures ok { IfOk result (λ kept. kept ≡ self.now) }
        ensures memory { IfErr result (λ error. error ≡ AllocationError.Memory) }
    {
        let shared = match &self.shared {
            Shared::Put(row) => Shared::Put(Arc::try_clone(row)?),
            Shared::Delete(key) => Shared::Delete(*key),
        };
        Ok(KeptChange { shared })
    }
}

/// The changes of one commit, in order.
#[derive(Drop)]
pub struct Changes {
    list: Vec<KeptChange>,
}

impl Model for Changes {
    ghost use Rattle.std.specs.Prelude.{List};
    ghost use Rattle.stabby_index.specs.declared.row.Change.{Change};

    ghost Value = { List Change };

    ghost view = { λ c. c.list.items };
}

impl Changes {
    pub(crate) fn none(alloc: Global) -> Changes
        ensures { result ≡ [] }
    {
        Changes {
            list: Vec::new(alloc),
        }
    }

    // These changes, each with one copy of its row's text.
    pub(crate) fn of(alloc: Global, changes: &[Change]) -> Result<Changes, AllocationError>
        ensures ok { IfOk result (λ kept. kept ≡ changes.now) }
        ensures memory { IfErr result (λ error. error ≡ AllocationError.Memory) }
    {
        let mut list = Vec::with_capacity(alloc, changes.len())?;
        for change in changes {
            list.push(KeptChange::of(alloc, change)?)?;
        }
        Ok(Changes { list })
    }

    // The same changes, with the same rows.
    pub(crate) fn share(&self, alloc: Global) -> Result<Changes, AllocationError>
        ensures ok { IfOk result (λ kept. kept ≡ self.now) }
        ensures memory { IfErr result (λ error. error ≡ AllocationError.Memory) }
    {
        Ok(Changes {
            list: share_all(alloc, &self.list)?,
        })
    }

    pub(crate) fn list(&self) -> &[KeptChange]
        ensures { result.now ≡ self.now }
    {
        &self.list
    }
}

// The same changes, with the same rows.
fn share_all(alloc: Global, changes: &[KeptChange]) -> Result<Vec<KeptChange>, AllocationError>
    ensures ok { IfOk result (λ list. list.items ≡ changes.now) }
    ensures memory { IfErr result (λ error. error ≡ AllocationError.Memory) }
{
    let mut list = Vec::with_capacity(alloc, changes.len())?;
    for change in changes {
        list.push(change.share()?)?;
    }
    Ok(list)
}
