//! Shared sets, run.
ghost use Rattle.std.specs.Prelude.{◌≡◌, ◌<◌};
ghost use Rattle.stabby_cell.specs.Replaced.{IsPassOf};

use stabby_cell::{AllocationError, AtomicArcBTreeSet, EditFault, Edited, Set, SetPass};
use std::alloc::Global;
use std::sync::Wait;
use std::test::Fail;

fn with_number(
    contents: &Set<u64, 0, 5>,
    number: u64,
) -> Result<Option<Set<u64, 0, 5>>, AllocationError> {
    let mut next = contents.clone()?;
    match next.insert(number) {
        Ok(_) => Ok(Some(next)),
        Err((_, error)) => Err(error),
    }
}

#[test]
fn edit_kept_and_refused(rt: HostRuntime) -> Result<(), Fail> {
    let alloc = rt.alloc();
    let Ok((set, mut pass)) = AtomicArcBTreeSet::<u64, 0, 5>::new(alloc) else {
        return Err("no memory")?;
    };
    let first = set.edit(
        &rt,
        alloc,
        &mut pass,
        1_000,
        |contents| with_number(contents, 1),
    );
    assert!(rt; first == Ok(Edited::Committed { stamp: 1 }));
    let second = set.edit(&rt, alloc, &mut pass, 1_000, |_contents| Ok(None));
    assert!(rt; second == Ok(Edited::Kept { stamp: 1 }));
    let third = set.edit(
        &rt,
        alloc,
        &mut pass,
        1_000,
        |_contents| Err(AllocationError::Range),
    );
    assert!(rt; third == Err(EditFault::Refused(AllocationError::Range)));
    assert!(rt; set.get(&rt, &mut pass, &1, |found| found.is_some()) == Ok(true));
    let Ok(copy) = set.snapshot(&rt, &mut pass) else {
        return Err("no memory")?;
    };
    assert!(rt; copy.len() == 1 && copy.get(&1).is_some());
    let Ok(again) = set.try_snapshot(&mut pass) else {
        return Err("no memory, or held")?;
    };
    assert!(rt; again.len() == 1);
    assert!(rt; (pass.seen(), pass.added(), pass.is_whole()) == (1, 1, true));
    Ok(())
}

// Edits with the first pass, and in the first call of its closure with the second one: so the closure is called outside the
// turn, and what it answers first is outrun. Answers how often the closure was called, too.
fn edit_outrun<H: Wait>(
    rt: &H,
    alloc: Global,
    set: &AtomicArcBTreeSet<u64, 0, 5>,
    first: &mut SetPass<u64, 0, 5>,
    second: &mut SetPass<u64, 0, 5>,
    tries: u64,
) -> (Result<Edited, EditFault>, u64)
    requires first { IsPassOf set.now first.old }
    requires second { IsPassOf set.now second.old }
    requires some { 0 < tries }
    ensures first { IsPassOf set.now first.new }
{
    let mut calls = 0u64;
    let edited = set.edit(
        rt,
        alloc,
        first,
        tries,
        |contents| -> Result<Option<Set<u64, 0, 5>>, AllocationError>
            requires { IsPassOf set.now second.now }
            ensures { IsPassOf set.exit.now second.exit.now }
        {
            if calls == 0 {
                let _ = set.edit(rt, alloc, second, 1, |inner| with_number(inner, 7));
            }
            calls = calls.saturating_add(1);
            with_number(contents, 8)
        },
    );
    (edited, calls)
}

#[test]
fn edit_loses_once(rt: HostRuntime) -> Result<(), Fail> {
    let alloc = rt.alloc();
    let Ok((set, mut first)) = AtomicArcBTreeSet::<u64, 0, 5>::new(alloc) else {
        return Err("no memory")?;
    };
    let mut second = set.split(&mut first, 1);
    let (edited, calls) = edit_outrun(&rt, alloc, &set, &mut first, &mut second, 1);
    assert!(rt; edited == Err(EditFault::Lost { tried: 0, stamp: 1 }));
    assert!(rt; calls == 1);
    assert!(rt; first.added() == 0);
    Ok(())
}

#[test]
fn edit_tries_again(rt: HostRuntime) -> Result<(), Fail> {
    let alloc = rt.alloc();
    let Ok((set, mut first)) = AtomicArcBTreeSet::<u64, 0, 5>::new(alloc) else {
        return Err("no memory")?;
    };
    let mut second = set.split(&mut first, 1);
    let (edited, calls) = edit_outrun(&rt, alloc, &set, &mut first, &mut second, 2);
    assert!(rt; edited == Ok(Edited::Committed { stamp: 2 }));
    assert!(rt; calls == 2);
    assert!(rt; set.get(&rt, &mut first, &7, |found| found.is_some()) == Ok(true));
    Ok(())
}

#[test]
fn edit_alone_commits(rt: HostRuntime) -> Result<(), Fail> {
    let alloc = rt.alloc();
    let Ok((set, mut pass)) = AtomicArcBTreeSet::<u64, 0, 5>::new(alloc) else {
        return Err("no memory")?;
    };
    let edited = set.edit(
        &rt,
        alloc,
        &mut pass,
        1,
        |contents| with_number(contents, 1),
    );
    assert!(rt; edited == Ok(Edited::Committed { stamp: 1 }));
    Ok(())
}

#[test]
fn snapshot_at(rt: HostRuntime) -> Result<(), Fail> {
    let alloc = rt.alloc();
    let Ok((set, mut pass)) = AtomicArcBTreeSet::<u64, 0, 5>::new_keeping(alloc, 2) else {
        return Err("no memory")?;
    };
    for number in 1..4u64 {
        let edited = set.edit(
            &rt,
            alloc,
            &mut pass,
            1,
            |contents| with_number(contents, number),
        );
        assert!(rt; edited == Ok(Edited::Committed { stamp: number }));
    }
    let Ok(gone) = set.snapshot_at(&rt, &mut pass, 1) else {
        return Err("no memory")?;
    };
    assert!(rt; gone.is_none());
    let Ok(Some(kept)) = set.snapshot_at(&rt, &mut pass, 2) else {
        return Err("two versions are kept")?;
    };
    assert!(rt; kept.get(&1).is_some() && kept.get(&2).is_some() && kept.len() == 2);
    Ok(())
}
