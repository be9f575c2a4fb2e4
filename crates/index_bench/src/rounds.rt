//! Reads and commits, one after another.
ghost use Rattle.stabby_index.specs.Passes.{IsPassOf};

use crate::fill::{filled, puts};
use stabby_index::{Index, IndexPass, View};
use std::alloc::Global;
use std::sync::Wait;

/// How a group's rows are found.
#[derive(Clone, Copy)]
pub(crate) enum Rounds {
    /// By `group`.
    Group,
    /// Out of all rows.
    Filter,
}

fn by_group(alloc: Global, view: &View, group: u64) -> Option<u64> {
    match view.group(alloc, group) {
        Ok(rows) => Some(rows.len() as u64),
        Err(_) => None,
    }
}

fn by_filter(alloc: Global, view: &View, group: u64) -> Option<u64> {
    let Ok(all) = view.rows(alloc) else {
        return None;
    };
    let mut rows = Vec::new(alloc);
    for row in &all {
        if row.group == group && rows.push(*row).is_err() {
            return None;
        }
    }
    Some(rows.len() as u64)
}

/// The rows of one group after another, so often: how many they were in all.
pub(crate) fn read_rounds<H: Wait>(
    rt: &H,
    alloc: Global,
    rounds: Rounds,
    rows: u64,
    groups: u64,
    count: u64,
) -> Option<u64> {
    let (index, mut pass) = filled(rt, alloc, rows, groups)?;
    let Ok((view, _)) = index.now(rt, &mut pass) else {
        return None;
    };
    let mut sum = 0u64;
    for i in 0..count {
        let group = i.checked_rem(groups).unwrap_or(0);
        let found = match rounds {
            Rounds::Group => by_group(alloc, &view, group)?,
            Rounds::Filter => by_filter(alloc, &view, group)?,
        };
        sum = sum.wrapping_add(found);
    }
    Some(sum)
}

fn apply_one<H: Wait>(
    rt: &H,
    alloc: Global,
    index: &Index,
    pass: &mut IndexPass,
    first: u64,
    changes: u64,
    rows: u64,
) -> Option<u64>
    requires { IsPassOf index.now pass.old }
    ensures { IsPassOf index.now pass.new }
{
    let Ok(list) = puts(alloc, first, changes, rows, 1000) else {
        return None;
    };
    match index.apply(rt, alloc, pass, &list, None) {
        Ok(stamp) => Some(stamp),
        Err(_) => None,
    }
}

/// So many commits of so many changes each: the last stamp.
pub(crate) fn apply_rounds<H: Wait>(
    rt: &H,
    alloc: Global,
    rows: u64,
    changes: u64,
    count: u64,
) -> Option<u64> {
    let (index, mut pass) = filled(rt, alloc, rows, 1000)?;
    let mut first = 0u64;
    for _ in 0..count {
        let _stamp = apply_one(rt, alloc, &index, &mut pass, first, changes, rows)?;
        first = first.wrapping_add(changes.wrapping_mul(7919));
    }
    Some(pass.seen())
}
