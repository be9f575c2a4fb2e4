//! Shared values, run.
use stabby_cell::{AtomicArc, ExchangeFault, IsFault, Kept};
use std::sync::Arc;
use std::test::Fail;

#[test]
fn shared_value_is_replaced(rt: HostRuntime) -> Result<(), Fail> {
    let alloc = rt.alloc();
    let Ok((cell, mut pass)) = AtomicArc::<u64>::new(alloc, None) else {
        return Err("no memory")?;
    };
    let Ok((none, stamp)) = cell.try_load(&mut pass) else {
        return Err("no memory, or held")?;
    };
    assert!(rt; none.is_none() && stamp == 0);
    let a = Arc::new(alloc, 10u64)?;
    assert!(rt; matches!(cell.store(&rt, &mut pass, Some(a)), Ok(1)));
    let Ok(Some(old)) = cell.compare_exchange(&rt, &mut pass, 1, None) else {
        return Err("the stamp was 1")?;
    };
    assert!(rt; *old == 10);
    assert!(rt; (pass.seen(), pass.added()) == (2, 2));
    Ok(())
}

#[test]
fn stamp_at_its_limit(rt: HostRuntime) -> Result<(), Fail> {
    let alloc = rt.alloc();
    let last = (1u64 << 63) - 1;
    let a = Arc::new(alloc, 1u64)?;
    let b = Arc::new(alloc, 2u64)?;
    let c = Arc::new(alloc, 3u64)?;
    let Ok((cell, mut pass)) = AtomicArc::<u64>::new_at(alloc, Some(a), last) else {
        return Err("no memory")?;
    };
    let Err(Some(back)) = cell.store(&rt, &mut pass, Some(b)) else {
        return Err("a stamp past the last")?;
    };
    assert!(rt; *back == 2);
    let Ok((loaded, stamp)) = cell.load(&rt, &mut pass) else {
        return Err("no further handle")?;
    };
    let Some(value) = loaded else {
        return Err("the value is there")?;
    };
    assert!(rt; *value == 1 && stamp == last);
    assert!(rt; cell.is(&rt, &mut pass, last).is_ok());
    let Err(IsFault::Differs { stamp: seen, .. }) = cell.is(&rt, &mut pass, 0) else {
        return Err("stamp 0")?;
    };
    assert!(rt; seen == last);
    let Err(fault) = cell.compare_exchange(&rt, &mut pass, 0, Some(c)) else {
        return Err("stamp 0")?;
    };
    let ExchangeFault::Differs {
        expected,
        stamp: found,
        current,
        refused,
    } = fault
    else {
        return Err("another fault")?;
    };
    assert!(rt; expected == 0 && found == last && current.is_some());
    let Err(full) = cell.compare_exchange(&rt, &mut pass, last, refused) else {
        return Err("a stamp past the last")?;
    };
    let ExchangeFault::Full { refused: back } = full else {
        return Err("another fault")?;
    };
    let Some(again) = back else {
        return Err("the value comes back")?;
    };
    assert!(rt; *again == 3);
    Ok(())
}

#[test]
fn load_at(rt: HostRuntime) -> Result<(), Fail> {
    let alloc = rt.alloc();
    let a = Arc::new(alloc, 1u64)?;
    let b = Arc::new(alloc, 2u64)?;
    let Ok((cell, mut pass)) = AtomicArc::<u64>::new_keeping(alloc, Some(a), 2) else {
        return Err("no memory")?;
    };
    assert!(rt; matches!(cell.store(&rt, &mut pass, Some(b)), Ok(1)));
    let Ok(Kept::Version(Some(first))) = cell.load_at(&rt, &mut pass, 0) else {
        return Err("two values are kept")?;
    };
    assert!(rt; *first == 1);
    let Ok(Kept::Version(Some(second))) = cell.load_at(&rt, &mut pass, 1) else {
        return Err("the newest is kept")?;
    };
    assert!(rt; *second == 2);
    let Ok(Kept::NotKept { oldest, stamp }) = cell.load_at(&rt, &mut pass, 2) else {
        return Err("stamp 2 isn't reached yet")?;
    };
    assert!(rt; oldest == 0 && stamp == 1);
    let Ok(Some(old)) = cell.compare_exchange(&rt, &mut pass, 1, None) else {
        return Err("the stamp was 1")?;
    };
    assert!(rt; *old == 2);
    Ok(())
}
