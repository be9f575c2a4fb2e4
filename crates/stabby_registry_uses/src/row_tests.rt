//! Each call of a registry in a row, with expected values worked out by hand.

ghost use Rattle.std.specs.Prelude.{◌≡◌, ◌<◌};
ghost use Rattle.stabby_registry.specs.Rows.{IsPassOf, weight_of};

use stabby_registry::{RegistryFault, RowFull, RowPass, VTableRegistry, VtVec, WordTable};
use std::marker::Sync;
use std::test::Fail;
use std::thread;
use std::thread::Threads;

#[test]
fn row_of_eight_words(rt: HostRuntime) -> Result<(), Fail> {
    let alloc = rt.alloc();
    let one_two = WordTable::from_words(alloc, &[1, 2])?;
    let empty = WordTable::from_words(alloc, &[])?;
    let seven = WordTable::from_words(alloc, &[7])?;
    let (row, mut pass) = VtVec::new(alloc, 8)?;
    assert!(rt; row.insert_row(&mut pass, &one_two) == Ok(0));
    assert!(rt; row.insert_row(&mut pass, &empty) == Ok(1));
    let full = RowFull {
        claimed: 6,
        needed: 3,
    };
    assert!(rt; row.insert_row(&mut pass, &seven) == Err(full));
    assert!(rt; row.insert_row(&mut pass, &one_two) == Ok(0));
    assert_eq!(rt; (pass.seen(), pass.is_whole()), (2, true));
    Ok(())
}

#[test]
fn entries_of_a_row(rt: HostRuntime) -> Result<(), Fail> {
    let alloc = rt.alloc();
    let one_two = WordTable::from_words(alloc, &[1, 2])?;
    let (row, mut pass) = VtVec::new(alloc, 8)?;
    assert!(rt; row.insert_row(&mut pass, &one_two) == Ok(0));
    let Some(first) = row.entry(alloc, &mut pass, 0)? else {
        return Err("number 0 was given")?;
    };
    assert_eq!(rt; first.words(), &[1u64, 2][..]);
    let second = row.entry(alloc, &mut pass, 1)?;
    assert!(rt; second.is_none());
    Ok(())
}

#[test]
fn registry_calls_on_a_row(rt: HostRuntime) -> Result<(), Fail> {
    let alloc = rt.alloc();
    let one_two = WordTable::from_words(alloc, &[1, 2])?;
    let seven = WordTable::from_words(alloc, &[7])?;
    let (row, mut pass) = VtVec::new(alloc, 8)?;
    assert!(rt; row.insert(&rt, alloc, &mut pass, &seven) == Ok(0));
    assert!(rt; row.insert_typed(&rt, alloc, &mut pass, &one_two) == Ok(1));
    assert!(rt; row.insert(&rt, alloc, &mut pass, &seven) == Ok(0));
    let full = RegistryFault::RowFull {
        claimed: 7,
        needed: 2,
    };
    let empty = WordTable::from_words(alloc, &[])?;
    assert!(rt; row.insert(&rt, alloc, &mut pass, &empty) == Err(full));
    Ok(())
}

// Inserts two tables.
fn insert_both(
    row: &VtVec,
    mut pass: RowPass,
    first: &WordTable,
    second: &WordTable,
) -> (RowPass, [Option<u64>; 2])
    requires { IsPassOf row.now pass }
    ensures { IsPassOf row.now result.0 × (weight_of result.0 ≡ weight_of pass) }
{
    let one = row.insert_row(&mut pass, first).ok();
    let other = row.insert_row(&mut pass, second).ok();
    (pass, [one, other])
}

// Two threads insert the same two tables, in either order.
fn insert_in_two<R: Threads + Sync>(
    rt: &R,
    row: &VtVec,
    mut first: RowPass,
    one: &WordTable,
    two: &WordTable,
) -> (RowPass, [Option<u64>; 2], [Option<u64>; 2])
    requires { IsPassOf row.now first × (1 < weight_of first) }
    ensures { IsPassOf row.now result.0 × (weight_of result.0 ≡ weight_of first) }
{
    let second = row.split(&mut first, 1);
    let (here, there) = thread::join(
        rt,
        move ||
            requires { IsPassOf row.now first }
            ensures { IsPassOf row.entry.now result.0 × (weight_of result.0 ≡ weight_of first) }
        { insert_both(row, first, one, two) },
        move ||
            requires { IsPassOf row.now second × (weight_of second ≡ 1) }
            ensures { IsPassOf row.entry.now result.0 × (weight_of result.0 ≡ 1) }
        { insert_both(row, second, two, one) },
    );
    let (mut pass, forward) = here;
    let (other, backward) = there;
    row.join(&mut pass, other);
    (pass, forward, backward)
}

#[test]
fn two_callers_of_a_row(rt: HostRuntime) -> Result<(), Fail> {
    let alloc = rt.alloc();
    let one = WordTable::from_words(alloc, &[1])?;
    let two = WordTable::from_words(alloc, &[2])?;
    let (row, pass) = VtVec::new(alloc, 20)?;
    let (pass, forward, backward) = insert_in_two(&rt, &row, pass, &one, &two);
    assert!(rt; pass.is_whole() && pass.seen() == 2);
    assert!(rt; forward[0].is_some() && forward[0] == backward[1]);
    assert!(rt; forward[1].is_some() && forward[1] == backward[0]);
    assert!(rt; forward[0] != forward[1]);
    Ok(())
}
