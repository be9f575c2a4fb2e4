//! Two threads that commit to one index: how many commits there are at the end, and the joined history beside a plain list.
ghost use Rattle.std.specs.Prelude.{◌<◌};
ghost use Rattle.std.specs.Thread.{IsSync};
ghost use Rattle.stabby_cell.specs.Passes.{weight_of};
ghost use Rattle.stabby_index.specs.Passes.{IsPassOf};

use crate::plain::{Plain, change_in, change_plain, has_rows, next, no_rows};
use crate::two_threads::put_in_two_threads;
use stabby_index::{AllocationError, Index, IndexPass};
use std::alloc::Global;
use std::marker::Sync;
use std::sync::Wait;
use std::test::Fail;
use std::thread::{Threads, join};

fn has_so_many<H: Wait>(rt: &H, index: &Index, pass: &mut IndexPass, stamp: u64, count: u64) -> bool
    requires { IsPassOf index.now pass.old }
    ensures { IsPassOf index.now pass.new }
{
    match index.at(rt, pass, stamp) {
        Ok(Some(view)) => view.len() == count,
        _ => false,
    }
}

#[test]
fn two_threads_apply(rt: HostRuntime) -> Result<(), Fail> {
    let alloc = rt.alloc();
    let Ok((index, pass)) = Index::new(alloc, 2) else {
        return Err("memory")?;
    };
    let mut pass = put_in_two_threads(&rt, alloc, &index, pass);
    assert!(rt; pass.is_whole());
    assert!(rt; (pass.seen(), pass.added()) == (100, 100));
    assert!(rt; has_so_many(&rt, &index, &mut pass, 100, 100));
    assert!(rt; has_so_many(&rt, &index, &mut pass, 99, 99));
    Ok(())
}

// Commits one change, and notes its number at the place of its stamp.
fn apply_noted<H: Wait>(
    rt: &H,
    alloc: Global,
    index: &Index,
    pass: &mut IndexPass,
    history: &mut Plain,
    x: u64,
)
    requires { IsPassOf index.now pass.old }
    ensures { IsPassOf index.now pass.new }
{
    if let Ok(change) = change_in(alloc, x) {
        let changes = [change];
        if let Ok(stamp) = index.apply(rt, alloc, pass, &changes, None) {
            if let Some(place) = history.get_mut(stamp as usize) {
                *place = Some(x);
            }
        }
    }
}

const COMMITS: u64 = 100;

fn apply_each<H: Wait>(
    rt: &H,
    alloc: Global,
    index: &Index,
    mut pass: IndexPass,
    mut history: Plain,
    seed: u64,
) -> (IndexPass, Plain)
    requires { IsPassOf index.now pass }
    ensures { IsPassOf index.now result.0 }
{
    let mut x = seed;
    for _ in 0..COMMITS {
        x = next(x);
        apply_noted(rt, alloc, index, &mut pass, &mut history, x);
    }
    (pass, history)
}

fn no_history(alloc: Global) -> Result<Plain, &'static str> {
    let mut history = Vec::new(alloc);
    for _ in 0..2 * COMMITS + 1 {
        history.push(None).map_err(|_| "memory")?;
    }
    Ok(history)
}

// Two threads' commits, each noted by one of them at its stamp.
fn apply_in_two_threads<H: Threads + Wait + Sync>(
    rt: &H,
    alloc: Global,
    index: &Index,
    mut pass: IndexPass,
    one: Plain,
    other: Plain,
) -> (IndexPass, Plain, Plain)
    requires own { IsPassOf index.now pass }
    requires heavy { 1 < weight_of pass }
    ensures { IsPassOf index.now result.0 }
{
    let second = index.split(&mut pass, 1);
    let ((mut first, one), (second, other)) = join(
        rt,
        || -> (IndexPass, Plain)
            requires { IsSync H.row × IsPassOf index.now pass }
            ensures { IsPassOf index.entry.now result.0 }
        { apply_each(rt, alloc, index, pass, one, 1) },
        || -> (IndexPass, Plain)
            requires { IsSync H.row × IsPassOf index.now second }
            ensures { IsPassOf index.entry.now result.0 }
        { apply_each(rt, alloc, index, second, other, 2) },
    );
    index.join(&mut first, second);
    (first, one, other)
}

// Makes the change of this stamp in the plain list. Exactly one of the two threads noted one.
fn replay_one(plain: &mut Plain, one: Option<u64>, other: Option<u64>) -> bool {
    match (one, other) {
        (Some(x), None) | (None, Some(x)) => {
            change_plain(plain, x);
            true
        }
        _ => false,
    }
}

// Whether the version of this stamp has the rows after as many of the noted changes.
fn is_replayed_at<H: Wait>(
    rt: &H,
    alloc: Global,
    index: &Index,
    pass: &mut IndexPass,
    plain: &[Option<u64>],
    stamp: u64,
) -> Result<bool, AllocationError>
    requires { IsPassOf index.now pass.old }
    ensures { IsPassOf index.now pass.new }
{
    match index.at(rt, pass, stamp)? {
        Some(view) => has_rows(alloc, &view, plain),
        None => Ok(false),
    }
}

fn noted_at(history: &[Option<u64>], stamp: u64) -> Option<u64> {
    match history.get(stamp as usize) {
        Some(noted) => *noted,
        None => None,
    }
}

// Whether each stamp after the first was noted by one thread, and its version has the rows of the plain list.
fn is_replayed<H: Wait>(
    rt: &H,
    alloc: Global,
    index: &Index,
    pass: &mut IndexPass,
    plain: &mut Plain,
    one: &[Option<u64>],
    other: &[Option<u64>],
) -> bool
    requires { IsPassOf index.now pass.old }
    ensures { IsPassOf index.now pass.new }
{
    for stamp in 1..2 * COMMITS + 1 {
        if !replay_one(plain, noted_at(one, stamp), noted_at(other, stamp)) {
            return false;
        }
        let same = is_replayed_at(rt, alloc, index, pass, plain, stamp);
        if !matches!(same, Ok(true)) {
            return false;
        }
    }
    true
}

#[test]
fn two_threads_replayed(rt: HostRuntime) -> Result<(), Fail> {
    let alloc = rt.alloc();
    let one = no_history(alloc)?;
    let other = no_history(alloc)?;
    let mut plain = no_rows(alloc)?;
    let Ok((index, pass)) = Index::new(alloc, 1_024) else {
        return Err("memory")?;
    };
    let (mut pass, one, other) = apply_in_two_threads(&rt, alloc, &index, pass, one, other);
    assert!(rt; pass.is_whole() && pass.seen() == 2 * COMMITS);
    assert!(rt; is_replayed(&rt, alloc, &index, &mut pass, &mut plain, &one, &other));
    Ok(())
}
