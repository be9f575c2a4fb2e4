//! Random lists of changes, one after another, beside a plain list.
ghost use Rattle.stabby_index.specs.Passes.{IsPassOf};

use crate::plain::{Plain, change_in, change_plain, has_rows, next, no_rows};
use stabby_index::{AllocationError, Change, Index, IndexPass};
use std::alloc::Global;
use std::sync::Wait;
use std::test::Fail;

// A random list of up to four changes, made in the plain list too.
fn random_list(
    alloc: Global,
    plain: &mut Plain,
    seed: u64,
) -> Result<Vec<Change>, AllocationError> {
    let mut changes = Vec::new(alloc);
    let mut x = seed;
    for _ in 0..(seed >> 60) % 5 {
        x = next(x);
        changes.push(change_in(alloc, x)?)?;
        change_plain(plain, x);
    }
    Ok(changes)
}

// Whether the index has the rows of the plain list, and still the rows of the one before.
fn has_versions<H: Wait>(
    rt: &H,
    alloc: Global,
    index: &Index,
    pass: &mut IndexPass,
    before: &[Option<u64>],
    plain: &[Option<u64>],
) -> Result<bool, AllocationError>
    requires { IsPassOf index.now pass.old }
    ensures { IsPassOf index.now pass.new }
{
    let (now, stamp) = index.now(rt, pass)?;
    let older = index.at(rt, pass, stamp.saturating_sub(1))?;
    match older {
        None => Ok(false),
        Some(older) => Ok(has_rows(alloc, &now, plain)? && has_rows(alloc, &older, before)?),
    }
}

// Commits a random list.
fn apply_random<H: Wait>(
    rt: &H,
    alloc: Global,
    index: &Index,
    pass: &mut IndexPass,
    plain: &mut Plain,
    seed: u64,
) -> Result<bool, AllocationError>
    requires { IsPassOf index.now pass.old }
    ensures { IsPassOf index.now pass.new }
{
    let before = plain.clone()?;
    let changes = random_list(alloc, plain, seed)?;
    let seen = pass.seen();
    match index.apply(rt, alloc, pass, &changes, Some(seen)) {
        Ok(_) => has_versions(rt, alloc, index, pass, &before, plain),
        Err(_) => Ok(false),
    }
}

const LISTS: u64 = 10_000;

// Commits so many random lists, each beside the plain list.
fn apply_lists<H: Wait>(
    rt: &H,
    alloc: Global,
    index: &Index,
    pass: &mut IndexPass,
    plain: &mut Plain,
) -> bool
    requires { IsPassOf index.now pass.old }
    ensures { IsPassOf index.now pass.new }
{
    let mut seed = 1u64;
    for _ in 0..LISTS {
        seed = next(seed);
        let same = apply_random(rt, alloc, index, pass, plain, seed);
        if !matches!(same, Ok(true)) {
            return false;
        }
    }
    true
}

#[test]
fn random_lists(rt: HostRuntime) -> Result<(), Fail> {
    let alloc = rt.alloc();
    let mut plain = no_rows(alloc)?;
    let Ok((index, mut pass)) = Index::new(alloc, 2) else {
        return Err("memory")?;
    };
    assert!(rt; apply_lists(&rt, alloc, &index, &mut pass, &mut plain));
    assert!(rt; pass.seen() == LISTS);
    Ok(())
}
