//! Each call once, with expected values worked out by hand.
ghost use Rattle.stabby_index.specs.Passes.{IsPassOf};

use stabby_index::{AllocationError, ApplyFault, Change, Index, IndexPass, Row, Text, View};
use std::alloc::Global;
use std::sync::Wait;
use std::test::Fail;

fn row(alloc: Global, key: u64, group: u64, text: &str) -> Result<Row, AllocationError> {
    Ok(Row {
        key,
        group,
        text: Text::from_str(alloc, text)?,
    })
}

// Two rows of the group 10.
fn two_rows(alloc: Global) -> Result<Vec<Change>, AllocationError> {
    let mut changes = Vec::new(alloc);
    changes.push(Change::Put(row(alloc, 1, 10, "a")?))?;
    changes.push(Change::Put(row(alloc, 2, 10, "b")?))?;
    Ok(changes)
}

// The first of them goes to the group 11, and the second leaves.
fn one_row(alloc: Global) -> Result<Vec<Change>, AllocationError> {
    let mut changes = Vec::new(alloc);
    changes.push(Change::Put(row(alloc, 1, 11, "a")?))?;
    changes.push(Change::Delete(2))?;
    Ok(changes)
}

// The view has the second version's rows.
fn is_newest(alloc: Global, view: &View) -> Result<bool, AllocationError> {
    let rows = view.rows(alloc)?;
    let left = view.group(alloc, 10)?;
    let groups = view.groups(alloc)?;
    Ok(
        rows.len() == 1
            && rows[0].key == 1
            && rows[0].group == 11
            && left.is_empty()
            && groups.as_slice() == &[(11u64, 1u64)][..],
    )
}

// The view has the first version's rows.
fn is_first(alloc: Global, view: &View) -> Result<bool, AllocationError> {
    let rows = view.group(alloc, 10)?;
    let groups = view.groups(alloc)?;
    Ok(
        rows.len() == 2
            && rows[0].key == 1
            && rows[1].key == 2
            && groups.as_slice() == &[(10u64, 2u64)][..],
    )
}

// Commits the two versions, and then nothing on the first one's stamp.
fn commit_two<H: Wait>(
    rt: &H,
    alloc: Global,
    index: &Index,
    pass: &mut IndexPass,
    one: &[Change],
    two: &[Change],
) -> bool
    requires { IsPassOf index.now pass.old }
    ensures { IsPassOf index.now pass.new }
{
    let first = index.apply(rt, alloc, pass, one, None);
    let second = index.apply(rt, alloc, pass, two, Some(1));
    let third = index.apply(rt, alloc, pass, &[], Some(1));
    matches!(first, Ok(1))
        && matches!(second, Ok(2))
        && matches!(
            third,
            Err(ApplyFault::Stale {
                expected: 1,
                stamp: 2
            })
        )
}

// Whether the newest version after the two commits is the second.
fn has_newest<H: Wait>(
    rt: &H,
    alloc: Global,
    index: &Index,
    pass: &mut IndexPass,
) -> Result<bool, AllocationError>
    requires { IsPassOf index.now pass.old }
    ensures { IsPassOf index.now pass.new }
{
    let (now, stamp) = index.now(rt, pass)?;
    Ok(stamp == 2 && now.len() == 1 && is_newest(alloc, &now)?)
}

// Whether the version of stamp 1 is still the first.
fn has_first<H: Wait>(
    rt: &H,
    alloc: Global,
    index: &Index,
    pass: &mut IndexPass,
) -> Result<bool, AllocationError>
    requires { IsPassOf index.now pass.old }
    ensures { IsPassOf index.now pass.new }
{
    match index.at(rt, pass, 1)? {
        None => Ok(false),
        Some(before) => is_first(alloc, &before),
    }
}

fn is_gone<H: Wait>(rt: &H, index: &Index, pass: &mut IndexPass, stamp: u64) -> bool
    requires { IsPassOf index.now pass.old }
    ensures { IsPassOf index.now pass.new }
{
    matches!(index.at(rt, pass, stamp), Ok(None))
}

fn commit_both<H: Wait>(
    rt: &H,
    alloc: Global,
    index: &Index,
    pass: &mut IndexPass,
) -> Result<bool, AllocationError>
    requires { IsPassOf index.now pass.old }
    ensures { IsPassOf index.now pass.new }
{
    let one = two_rows(alloc)?;
    let two = one_row(alloc)?;
    Ok(commit_two(rt, alloc, index, pass, &one, &two))
}

#[test]
fn versions_are_kept(rt: HostRuntime) -> Result<(), Fail> {
    let alloc = rt.alloc();
    let Ok((index, mut pass)) = Index::new(alloc, 2) else {
        return Err("memory")?;
    };
    let committed = commit_both(&rt, alloc, &index, &mut pass);
    assert!(rt; matches!(committed, Ok(true)));
    let newest = has_newest(&rt, alloc, &index, &mut pass);
    assert!(rt; matches!(newest, Ok(true)));
    let first = has_first(&rt, alloc, &index, &mut pass);
    assert!(rt; matches!(first, Ok(true)));
    assert!(rt; is_gone(&rt, &index, &mut pass, 0));
    assert!(rt; is_gone(&rt, &index, &mut pass, 3));
    Ok(())
}

// Takes out a key that has no row, and looks it up.
fn delete_absent<H: Wait>(
    rt: &H,
    alloc: Global,
    index: &Index,
    pass: &mut IndexPass,
) -> Result<bool, AllocationError>
    requires { IsPassOf index.now pass.old }
    ensures { IsPassOf index.now pass.new }
{
    let change = [Change::Delete(7)];
    let applied = index.apply(rt, alloc, pass, &change, None);
    let (now, _) = index.now(rt, pass)?;
    Ok(matches!(applied, Ok(1)) && now.get(7).is_none())
}

#[test]
fn absent_key_is_deleted(rt: HostRuntime) -> Result<(), Fail> {
    let alloc = rt.alloc();
    let Ok((index, mut pass)) = Index::new(alloc, 1) else {
        return Err("memory")?;
    };
    let deleted = delete_absent(&rt, alloc, &index, &mut pass);
    assert!(rt; matches!(deleted, Ok(true)));
    Ok(())
}
