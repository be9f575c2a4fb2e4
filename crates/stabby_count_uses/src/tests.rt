//! The callers, run.
use crate::{
    end_in_two_threads, lend_to_two_threads, read_in_two_threads, set_first_where_alone,
    set_where_alone, share_and_end,
};
use stabby_count::{Arc, ArcSlice, Spent};
use std::test::Fail;

const ONE_STRONG: u64 = 4294967296;

#[test]
fn one_handle_gives_its_value(rt: HostRuntime) -> Result<(), Fail> {
    let Ok(value) = share_and_end(rt.alloc(), 7u64) else {
        return Err("no memory")?;
    };
    assert!(rt; value == 7);
    Ok(())
}

#[test]
fn an_item_changes_where_alone(rt: HostRuntime) -> Result<(), Fail> {
    let Ok(mut handle) = ArcSlice::from_slice(rt.alloc(), &[7u64, 9]) else {
        return Err("no memory")?;
    };
    assert!(rt; set_first_where_alone(&mut handle, 8));
    let Ok(other) = handle.clone(&rt) else {
        return Err("no memory")?;
    };
    assert!(rt; other.as_slice() == [8u64, 9].as_slice());
    Ok(())
}

#[test]
fn a_number_changes_where_alone(rt: HostRuntime) -> Result<(), Fail> {
    let Ok(mut handle) = Arc::try_new_in(rt.alloc(), 7u64) else {
        return Err("no memory")?;
    };
    assert!(rt; set_where_alone(&mut handle, 8));
    let Ok(other) = handle.clone(&rt) else {
        return Err("no memory")?;
    };
    assert!(rt; !set_where_alone(&mut handle, 9));
    assert!(rt; *other == 8);
    Ok(())
}

// Whether an end gave the value, or read two strong handles.
fn gave_or_read_two(end: Result<u64, Spent>, value: u64) -> bool {
    match end {
        Ok(given) => given == value,
        Err(spent) => spent.word() == 2 * ONE_STRONG + 1,
    }
}

#[test]
fn one_of_two_ends_gives_the_value(rt: HostRuntime) -> Result<(), Fail> {
    for value in 0..200u64 {
        let Ok((first, second)) = end_in_two_threads(&rt, rt.alloc(), value) else {
            return Err("no memory")?;
        };
        assert!(rt; first.is_ok() != second.is_ok());
        assert!(rt; gave_or_read_two(first, value));
        assert!(rt; gave_or_read_two(second, value));
    }
    Ok(())
}

// The first of two ends reads three strong handles, and the other reads two.
#[test]
fn value_comes_back_from_two_threads(rt: HostRuntime) -> Result<(), Fail> {
    for value in 0..200u64 {
        let Ok(lent) = lend_to_two_threads(&rt, rt.alloc(), value) else {
            return Err("no memory")?;
        };
        assert!(rt; lent.value == value);
        let first = lent.first.word();
        let second = lent.second.word();
        assert!(rt; first.max(second) == 3 * ONE_STRONG + 1);
        assert!(rt; first.min(second) == 2 * ONE_STRONG + 1);
    }
    Ok(())
}

#[test]
fn two_threads_read_by_one_handle(rt: HostRuntime) -> Result<(), Fail> {
    let Ok(handle) = Arc::try_new_in(rt.alloc(), 7u64) else {
        return Err("no memory")?;
    };
    assert_eq!(rt; read_in_two_threads(&rt, &handle), (7, 7));
    Ok(())
}
