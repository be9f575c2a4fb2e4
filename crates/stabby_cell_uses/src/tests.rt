//! The callers, run.
use crate::{
    Counter, add_in_two_threads, add_one, add_outside_turn, count_in_two_threads, join_all, read,
    try_add,
};
use stabby_cell::TurnCell;
use std::test::Fail;

#[test]
fn one_thread_adds(rt: HostRuntime) -> Result<(), Fail> {
    let Ok((cell, mut pass)) = TurnCell::new(rt.alloc(), Counter { number: 5 }, 0) else {
        return Err("no memory")?;
    };
    assert!(rt; read(&rt, &cell, &mut pass) == 5);
    assert!(rt; add_one(&rt, &cell, &mut pass) == Some(6));
    assert!(rt; matches!(try_add(&cell, &mut pass), Ok(Some(7))));
    assert!(rt; add_outside_turn(&rt, &cell, &mut pass) == Some(8));
    assert!(rt; pass.seen() == 3);
    assert!(rt; pass.lost() == 0);
    Ok(())
}

#[test]
fn the_greatest_number_has_no_next(rt: HostRuntime) -> Result<(), Fail> {
    let Ok((cell, mut pass)) = TurnCell::new(rt.alloc(), Counter { number: u64::MAX }, 0) else {
        return Err("no memory")?;
    };
    assert!(rt; add_one(&rt, &cell, &mut pass).is_none());
    assert!(rt; read(&rt, &cell, &mut pass) == u64::MAX);
    assert!(rt; pass.added() == 0);
    Ok(())
}

#[test]
fn two_threads_commit_a_thousand_times_each(rt: HostRuntime) -> Result<(), Fail> {
    let Ok((cell, pass)) = TurnCell::new(rt.alloc(), Counter { number: 0 }, 0) else {
        return Err("no memory")?;
    };
    let pass = add_in_two_threads(&rt, &cell, pass, 1_000);
    assert!(rt; pass.seen() == 2_000);
    assert!(rt; pass.added() == 2_000);
    assert!(rt; pass.is_whole());
    Ok(())
}

#[test]
fn the_last_number_is_the_count_of_commits(rt: HostRuntime) -> Result<(), Fail> {
    let Ok(tally) = count_in_two_threads(&rt, rt.alloc(), 100) else {
        return Err("no memory")?;
    };
    assert!(rt; tally.number == 200);
    assert!(rt; tally.added == 200);
    Ok(())
}

#[test]
fn three_parts_are_joined(rt: HostRuntime) -> Result<(), Fail> {
    let Ok((cell, mut first)) = TurnCell::new(rt.alloc(), Counter { number: 0 }, 0) else {
        return Err("no memory")?;
    };
    let mut second = cell.split(&mut first, 5);
    let third = cell.split(&mut second, 2);
    assert!(rt; add_one(&rt, &cell, &mut first) == Some(1));
    assert!(rt; add_one(&rt, &cell, &mut second) == Some(2));
    let parts = vec![in rt.alloc(); first, second]?;
    let whole = join_all(&cell, parts, third);
    assert!(rt; whole.is_whole());
    assert!(rt; whole.added() == 2);
    assert!(rt; whole.seen() == 2);
    Ok(())
}
