//! Each call at a concrete type, and many inserts beside std's map.

use stabby_tree::{ArcBTreeMap, ArcBTreeSet, CloneCopier, Entry, KeyProbe};
use std::alloc::Global;
use std::collections::BTreeMap;
use std::test::Fail;

fn hundred(alloc: Global) -> Result<ArcBTreeSet<u64, Global, 0, 5>, &'static str> {
    let mut set = ArcBTreeSet::<u64, Global, 0, 5>::new_in(alloc);
    for i in 0..800u64 {
        let value = (37 * i + 11) % 100;
        match set.insert(value) {
            Ok(None) if i < 100 => {}
            Ok(Some(back)) if i >= 100 && back == value => {}
            _ => return Err("what came back"),
        }
    }
    Ok(set)
}

#[test]
fn many_inserts_counted(rt: HostRuntime) -> Result<(), Fail> {
    let alloc = rt.alloc();
    let mut set = hundred(alloc)?;
    assert_eq!(rt; set.len(), 100);
    let copy = set.clone()?;
    let mut copier = CloneCopier::new();
    assert!(rt; matches!(set.insert_counted(&mut copier, 100), Ok(None)));
    let count = copier.count();
    assert!(rt; count <= 16);
    assert!(rt; matches!(set.insert_counted(&mut copier, 100), Ok(Some(100))));
    assert_eq!(rt; copier.count(), count);
    assert_eq!(rt; (set.len(), copy.len()), (101, 100));
    Ok(())
}

#[test]
fn one_owner_copies_nothing(rt: HostRuntime) -> Result<(), Fail> {
    let alloc = rt.alloc();
    let mut set = hundred(alloc)?;
    let mut copier = CloneCopier::new();
    for i in 100..200u64 {
        assert!(rt; matches!(set.insert_counted(&mut copier, i), Ok(None)));
    }
    assert_eq!(rt; copier.count(), 0);
    let copy = set.clone()?;
    assert!(rt; matches!(set.insert_counted(&mut copier, 200), Ok(None)));
    let count = copier.count();
    assert!(rt; count > 0);
    assert!(rt; matches!(set.insert_counted(&mut copier, 201), Ok(None)));
    assert_eq!(rt; copier.count(), count);
    assert_eq!(rt; (set.len(), copy.len()), (202, 200));
    Ok(())
}

#[test]
fn elements_in_order(rt: HostRuntime) -> Result<(), Fail> {
    let alloc = rt.alloc();
    let set = hundred(alloc)?;
    let mut sum = 0u64;
    set.for_each(|x| sum = sum.wrapping_add(*x));
    assert_eq!(rt; sum, 4950);
    let list = set.to_list(alloc)?;
    assert_eq!(rt; list.len(), 100);
    for (i, x) in list.iter().enumerate() {
        assert_eq!(rt; **x, i as u64);
    }
    assert_eq!(rt; set.find(|x| *x > 41).copied(), Some(42));
    Ok(())
}

#[test]
fn printed_tree(rt: HostRuntime) -> Result<(), Fail> {
    let alloc = rt.alloc();
    let mut set = ArcBTreeSet::<u64, Global, 0, 5>::new_in(alloc);
    assert!(rt; format!(in alloc; "{set:?}")?.as_str() == "ArcBTreeSet{}");
    for i in 1..6u64 {
        set.insert(i).map_err(|_| "memory")?;
    }
    assert!(rt; format!(in alloc; "{set:?}")?.as_str() == "ArcBTreeSet{{1, 2}, 3, {4, 5}}");
    let mut small = ArcBTreeSet::<u64, Global, 0, 3>::from_alloc(alloc);
    small.insert(1).map_err(|_| "memory")?;
    small.insert(2).map_err(|_| "memory")?;
    let copy = small.clone()?;
    small.insert(3).map_err(|_| "memory")?;
    assert!(rt; format!(in alloc; "{small:?}")?.as_str() == "ArcBTreeSet{{1}, 2, {3}}");
    assert!(rt; format!(in alloc; "{copy:?}")?.as_str() == "ArcBTreeSet{1, 2}");
    Ok(())
}

#[test]
fn printed_tree_of_a_map(rt: HostRuntime) -> Result<(), Fail> {
    let mut map = ArcBTreeMap::<u64, u64, Global, 5>::new_in(rt.alloc());
    assert!(rt; matches!(map.insert(1, 10), Ok(None)));
    assert!(rt; matches!(map.insert(1, 20), Ok(Some(10))));
    assert_eq!(rt; map.get(&1).copied(), Some(20));
    Ok(())
}

#[test]
fn set_of_entries(rt: HostRuntime) -> Result<(), Fail> {
    let alloc = rt.alloc();
    let mut keeps = ArcBTreeSet::<Entry<u64, u64>, Global, 0, 5>::new_in(alloc);
    assert!(rt; matches!(keeps.insert(Entry::new(1, 10)), Ok(None)));
    let Ok(Some(back)) = keeps.insert(Entry::new(1, 20)) else {
        return Err("the key was there")?;
    };
    assert_eq!(rt; *back.value(), 20);
    assert_eq!(rt; *keeps.get(&1).unwrap().value(), 10);
    let mut replaces = ArcBTreeSet::<Entry<u64, u64>, Global, 1, 5>::from_alloc(alloc);
    assert!(rt; matches!(replaces.insert(Entry::new(1, 10)), Ok(None)));
    let Ok(Some(old)) = replaces.insert(Entry::new(1, 20)) else {
        return Err("the key was there")?;
    };
    assert_eq!(rt; *old.value(), 10);
    let kept = replaces.get(&1).unwrap();
    assert_eq!(rt; (*kept.key(), *kept.value()), (1, 20));
    assert_eq!(rt; replaces.len(), 1);
    Ok(())
}

#[test]
fn entries_by_key_alone(rt: HostRuntime) -> Result<(), Fail> {
    assert!(rt; Entry::new(1u64, 2u64) == Entry::new(1, 3));
    assert!(rt; Entry::new(1u64, 9u64) < Entry::new(2, 0));
    Ok(())
}

#[test]
fn counted_lookups(rt: HostRuntime) -> Result<(), Fail> {
    let alloc = rt.alloc();
    let mut set = ArcBTreeSet::<u64, Global, 0, 5>::new_in(alloc);
    for i in 1..6u64 {
        set.insert(i).map_err(|_| "memory")?;
    }
    assert_eq!(rt; set.height(), 2);
    let mut probe = KeyProbe::new(5u64);
    assert_eq!(rt; set.get_counted(&mut probe).copied(), Some(5));
    assert!(rt; probe.count() <= 8);
    let mut absent = KeyProbe::new(9u64);
    assert!(rt; set.get_counted(&mut absent).is_none());
    let list = set.to_list(alloc)?;
    for (i, x) in list.iter().enumerate() {
        assert_eq!(rt; **x, i as u64 + 1);
    }
    Ok(())
}

#[test]
fn map_replaces(rt: HostRuntime) -> Result<(), Fail> {
    let alloc = rt.alloc();
    let mut map = ArcBTreeMap::<u64, u64, Global, 3>::from_alloc(alloc);
    for key in 0..100u64 {
        assert!(rt; matches!(map.insert(37 * key % 100, key), Ok(None)));
    }
    let copy = map.clone()?;
    assert!(rt; matches!(map.insert(37, 500), Ok(Some(1))));
    assert_eq!(rt; map.get(&37).copied(), Some(500));
    assert_eq!(rt; copy.get(&37).copied(), Some(1));
    assert!(rt; map.get(&100).is_none());
    let list = copy.to_list(alloc)?;
    assert_eq!(rt; list.len(), 100);
    for (i, entry) in list.iter().enumerate() {
        assert_eq!(rt; *entry.key(), i as u64);
    }
    Ok(())
}
