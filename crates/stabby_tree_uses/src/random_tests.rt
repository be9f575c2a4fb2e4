//! Random inserts beside std's map, with clones taken on the way.

ghost use Rattle.stabby_tree.specs.Sets.{IsLimit};

use stabby_tree::ArcBTreeSet;
use std::alloc::Global;
use std::collections::BTreeMap;
use std::test::Fail;

const INSERTS: u64 = 100_000;

const BETWEEN_CLONES: u64 = 10_000;

type Set<const LIMIT: usize> = ArcBTreeSet<u64, Global, 0, LIMIT>;

fn next(x: u64) -> u64 {
    x.wrapping_mul(6364136223846793005)
        .wrapping_add(1442695040888963407)
}

fn key_of(x: u64) -> u64 {
    (x >> 33) % 60_000
}

// Whether the set has the map's keys, in order.
fn has_keys<const LIMIT: usize>(
    alloc: Global,
    set: &Set<LIMIT>,
    keys: &BTreeMap<u64, u64>,
) -> Result<bool, &'static str> {
    let list = set.to_list(alloc).map_err(|_| "memory")?;
    if list.len() != keys.len() || set.len() != keys.len() {
        return Ok(false);
    }
    for (i, pair) in keys.iter().enumerate() {
        if *list[i] != *pair.0 || set.get(pair.0).is_none() {
            return Ok(false);
        }
    }
    Ok(true)
}

// Inserts one key into both, and answers whether they told the same.
fn insert_both<const LIMIT: usize>(
    set: &mut Set<LIMIT>,
    keys: &mut BTreeMap<u64, u64>,
    key: u64,
) -> Result<bool, &'static str> {
    let Ok(back) = set.insert(key) else {
        return Err("memory");
    };
    let known = keys.insert(key, key).map_err(|_| "memory")?;
    Ok(back.is_some() == known.is_some())
}

// The sets after each so many inserts.
fn versions<const LIMIT: usize>(alloc: Global, seed: u64) -> Result<Vec<Set<LIMIT>>, &'static str>
    requires { IsLimit LIMIT }
{
    let mut set = Set::<LIMIT>::from_alloc(alloc);
    let mut keys = BTreeMap::<u64, u64>::new(alloc);
    let mut versions = Vec::new(alloc);
    let mut x = seed;
    for i in 0..INSERTS {
        x = next(x);
        if !insert_both(&mut set, &mut keys, key_of(x))? {
            return Err("what came back");
        }
        if (i + 1) % BETWEEN_CLONES == 0 {
            let copy = set.clone().map_err(|_| "memory")?;
            versions.push(copy).map_err(|_| "memory")?;
        }
    }
    Ok(versions)
}

// Each version has what was inserted before it.
fn replay<const LIMIT: usize>(alloc: Global, seed: u64) -> Result<(), &'static str>
    requires { IsLimit LIMIT }
{
    let versions = versions::<LIMIT>(alloc, seed)?;
    let mut keys = BTreeMap::<u64, u64>::new(alloc);
    let mut x = seed;
    for version in &versions {
        for _ in 0..BETWEEN_CLONES {
            x = next(x);
            keys.insert(key_of(x), 0).map_err(|_| "memory")?;
        }
        if !has_keys(alloc, version, &keys)? {
            return Err("a version changed");
        }
    }
    if versions.len() as u64 != INSERTS / BETWEEN_CLONES {
        return Err("versions");
    }
    Ok(())
}

#[test]
fn random_inserts_at_3(rt: HostRuntime) -> Result<(), Fail> {
    replay::<3>(rt.alloc(), 3)?;
    Ok(())
}

#[test]
fn random_inserts_at_5(rt: HostRuntime) -> Result<(), Fail> {
    replay::<5>(rt.alloc(), 5)?;
    Ok(())
}

#[test]
fn random_inserts_at_7(rt: HostRuntime) -> Result<(), Fail> {
    replay::<7>(rt.alloc(), 7)?;
    Ok(())
}

#[test]
fn random_inserts_at_33(rt: HostRuntime) -> Result<(), Fail> {
    replay::<33>(rt.alloc(), 33)?;
    Ok(())
}
