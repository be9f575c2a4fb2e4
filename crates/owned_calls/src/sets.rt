//! Four sets or maps, of which one is made a clone of another.
ghost use Rattle.stabby_tree.specs.Sets.{IsLimit};

use crate::calls::{Answer, Call, found, listed};
use stabby_tree::{ArcBTreeMap, ArcBTreeSet, Entry};
use std::alloc::{AllocError, Global};

pub type Set<const REPLACE: usize, const LIMIT: usize> = ArcBTreeSet<
    Entry<u64, u64>,
    Global,
    REPLACE,
    LIMIT,
>;

pub type Map<const LIMIT: usize> = ArcBTreeMap<u64, u64, Global, LIMIT>;

/// Four empty sets.
pub fn new_sets<const REPLACE: usize, const LIMIT: usize>(
    alloc: Global,
) -> Result<Vec<Set<REPLACE, LIMIT>>, AllocError>
    requires { IsLimit LIMIT }
{
    let mut sets = Vec::new(alloc);
    for _ in 0..4u32 {
        sets.push(ArcBTreeSet::from_alloc(alloc))?;
    }
    Ok(sets)
}

/// Four empty maps.
pub fn new_maps<const LIMIT: usize>(alloc: Global) -> Result<Vec<Map<LIMIT>>, AllocError>
    requires { IsLimit LIMIT }
{
    let mut maps = Vec::new(alloc);
    for _ in 0..4u32 {
        maps.push(ArcBTreeMap::from_alloc(alloc))?;
    }
    Ok(maps)
}

// The keys and values, in order.
fn flat(alloc: Global, entries: &[&Entry<u64, u64>]) -> Result<Vec<u64>, AllocError> {
    let mut numbers = Vec::new(alloc);
    for entry in entries {
        numbers.push(*entry.key())?;
        numbers.push(*entry.value())?;
    }
    Ok(numbers)
}

// The tree in this place is let go, and is that clone from now on.
fn put<T: Drop>(trees: &mut Vec<T>, at: u64, copied: Option<T>) -> Answer {
    match (copied, trees.get_mut(at as usize)) {
        (None, _) => Answer::Word("memory"),
        (Some(_), None) => Answer::Word("outside"),
        (Some(copied), Some(place)) => {
            *place = copied;
            Answer::Word("done")
        }
    }
}

/// A call of one of four sets.
pub fn call_set<const REPLACE: usize, const LIMIT: usize>(
    alloc: Global,
    sets: &mut Vec<Set<REPLACE, LIMIT>>,
    call: &Call,
) -> Answer
    requires { IsLimit LIMIT }
{
    let Some(set) = sets.get_mut(call.a as usize) else {
        return Answer::Word("outside");
    };
    match call.name {
        "insert" => match set.insert(Entry::new(call.b, call.c)) {
            Ok(None) => Answer::Word("new"),
            Ok(Some(back)) => Answer::Pair("back", *back.key(), *back.value()),
            Err((back, _)) => Answer::Pair("memory", *back.key(), *back.value()),
        },
        "get" => match set.get(&call.b) {
            Some(entry) => Answer::Pair("found", *entry.key(), *entry.value()),
            None => Answer::Word("none"),
        },
        "empty" => {
            *set = ArcBTreeSet::from_alloc(alloc);
            Answer::Word("done")
        }
        "sizes" => Answer::Number("len", set.len() as u64),
        "show" => match set.to_list(alloc) {
            Ok(entries) => listed(flat(alloc, &entries)),
            Err(_) => Answer::Word("memory"),
        },
        "copy" => {
            let copied = set.clone().ok();
            put(sets, call.b, copied)
        }
        _ => Answer::Word("unknown"),
    }
}

/// A call of one of four maps.
pub fn call_map<const LIMIT: usize>(
    alloc: Global,
    maps: &mut Vec<Map<LIMIT>>,
    call: &Call,
) -> Answer
    requires { IsLimit LIMIT }
{
    let Some(map) = maps.get_mut(call.a as usize) else {
        return Answer::Word("outside");
    };
    match call.name {
        "insert" => match map.insert(call.b, call.c) {
            Ok(old) => found(old),
            Err((key, value, _)) => Answer::Pair("memory", key, value),
        },
        "get" => found(map.get(&call.b).copied()),
        "empty" => {
            *map = ArcBTreeMap::from_alloc(alloc);
            Answer::Word("done")
        }
        "show" => match map.to_list(alloc) {
            Ok(entries) => listed(flat(alloc, &entries)),
            Err(_) => Answer::Word("memory"),
        },
        "copy" => {
            let copied = map.clone().ok();
            put(maps, call.b, copied)
        }
        _ => Answer::Word("unknown"),
    }
}
