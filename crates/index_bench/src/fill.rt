//! An index with so many rows.
ghost use Rattle.std.specs.Prelude.{IfSome};
ghost use Rattle.stabby_index.specs.Passes.{IsPassOf};

use stabby_index::{AllocationError, Change, Index, IndexPass, Row, Text};
use std::alloc::Global;
use std::sync::Wait;

/// Puts a row of this key, in one of so many groups.
pub(crate) fn put_of(alloc: Global, key: u64, groups: u64) -> Result<Change, AllocationError> {
    Ok(Change::Put(Row {
        key,
        group: key.checked_rem(groups).unwrap_or(0),
        text: Text::from_str(alloc, "text")?,
    }))
}

/// Puts of so many keys from `first` on, modulo `rows`.
pub(crate) fn puts(
    alloc: Global,
    first: u64,
    count: u64,
    rows: u64,
    groups: u64,
) -> Result<Vec<Change>, AllocationError> {
    let mut changes = Vec::new(alloc);
    for i in 0..count {
        let key = first.wrapping_add(i).checked_rem(rows).unwrap_or(0);
        changes.push(put_of(alloc, key, groups)?)?;
    }
    Ok(changes)
}

/// An index that keeps one version, with the rows 0, 1, .. in one commit, and its whole pass.
pub(crate) fn filled<H: Wait>(
    rt: &H,
    alloc: Global,
    rows: u64,
    groups: u64,
) -> Option<(Index, IndexPass)>
    ensures pass { IfSome result (λ made. IsPassOf made.0 made.1) }
{
    let Ok((index, mut pass)) = Index::new(alloc, 1) else {
        return None;
    };
    let Ok(changes) = puts(alloc, 0, rows, rows, groups) else {
        return None;
    };
    match index.apply(rt, alloc, &mut pass, &changes, None) {
        Ok(_) => Some((index, pass)),
        Err(_) => None,
    }
}
