//! Handles on one thread: that calls succeed with memory, and the words that they read.
use stabby_count::{Arc, MakeFault, Spent, TryCountFault, Weak};
use std::test::Fail;

const ONE_STRONG: u64 = 4294967296;

fn shared(rt: &HostRuntime, value: u64) -> Result<Arc<u64>, Fail> {
    match Arc::try_new_in(rt.alloc(), value) {
        Ok(made) => Ok(made),
        Err(_) => Err(Fail::from("no memory to share a value")),
    }
}

fn strong<T>(answer: Result<Arc<T>, impl Drop>) -> Result<Arc<T>, Fail> {
    match answer {
        Ok(other) => Ok(other),
        Err(_) => Err(Fail::from("a strong handle was refused")),
    }
}

fn weak<T>(answer: Result<Weak<T>, impl Drop>) -> Result<Weak<T>, Fail> {
    match answer {
        Ok(other) => Ok(other),
        Err(_) => Err(Fail::from("a weak handle was refused")),
    }
}

fn found<T>(answer: Result<Option<Arc<T>>, impl Drop>) -> Result<Option<Arc<T>>, Fail> {
    match answer {
        Ok(found) => Ok(found),
        Err(_) => Err(Fail::from("an upgrade was refused")),
    }
}

fn spent(answer: Result<u64, Spent>) -> Result<Spent, Fail> {
    match answer {
        Ok(_) => Err(Fail::from("the value came early")),
        Err(spent) => Ok(spent),
    }
}

fn value(answer: Result<u64, impl Drop>) -> Result<u64, Fail> {
    match answer {
        Ok(value) => Ok(value),
        Err(_) => Err(Fail::from("the value did not come")),
    }
}

#[test]
fn handles_end_once(rt: HostRuntime) -> Result<(), Fail> {
    let mut first = shared(&rt, 7)?;
    assert!(rt; first.is_unique());
    let second = strong(first.clone(&rt))?;
    let mut aside = weak(first.downgrade(&rt))?;
    assert_eq!(rt; first.strong_count(), 2);
    assert_eq!(rt; first.weak_count(), 2);
    assert!(rt; !first.is_unique());
    assert!(rt; first.get_mut().is_none());
    assert_eq!(rt; *second, 7);
    assert_eq!(rt; spent(first.end())?.word() / ONE_STRONG, 2);
    assert_eq!(rt; value(second.end())?, 7);
    assert!(rt; found(aside.upgrade(&rt))?.is_none());
    assert!(rt; found(aside.try_upgrade())?.is_none());
    assert_eq!(rt; aside.end().word(), 1);
    Ok(())
}

#[test]
fn upgraded_handle_reads_the_value(rt: HostRuntime) -> Result<(), Fail> {
    let mut first = shared(&rt, 7)?;
    let mut aside = weak(first.try_downgrade())?;
    let mut other = weak(aside.clone(&rt))?;
    let Some(again) = found(aside.upgrade(&rt))? else {
        return Err(Fail::from("the value is there"));
    };
    assert_eq!(rt; *again, 7);
    assert_eq!(rt; spent(again.end())?.word(), 2 * ONE_STRONG + 3);
    let Some(again) = found(other.try_upgrade())? else {
        return Err(Fail::from("the value is there"));
    };
    drop(again);
    let kept = match first.try_into_inner() {
        Ok(_) => return Err(Fail::from("weak handles are there")),
        Err(back) => back,
    };
    assert_eq!(rt; aside.end().word(), ONE_STRONG + 3);
    drop(other);
    assert_eq!(rt; value(kept.try_into_inner())?, 7);
    Ok(())
}

#[test]
fn sole_handle_changes_the_value(rt: HostRuntime) -> Result<(), Fail> {
    let mut first = shared(&rt, 7)?;
    for written in [8, 9] {
        match first.get_mut() {
            Some(place) => *place = written,
            None => return Err(Fail::from("it is sole")),
        }
        assert_eq!(rt; *first, written);
    }
    let aside = weak(first.try_downgrade())?;
    assert!(rt; first.get_mut().is_none());
    assert_eq!(rt; aside.end().word(), ONE_STRONG + 2);
    let second = strong(first.try_clone())?;
    assert_eq!(rt; *second, 9);
    drop(second);
    match first.get_mut() {
        Some(place) => *place = 10,
        None => return Err(Fail::from("it is sole again")),
    }
    assert_eq!(rt; value(first.end())?, 10);
    Ok(())
}

#[test]
fn copy_on_write_handle(rt: HostRuntime) -> Result<(), Fail> {
    let mut first = shared(&rt, 7)?;
    let mut second = strong(first.try_clone())?;
    match first.make_mut(rt.alloc()) {
        Ok(place) => *place = 8,
        Err(_) => return Err(Fail::from("no memory to copy a value")),
    }
    assert_eq!(rt; *first, 8);
    assert_eq!(rt; *second, 7);
    assert!(rt; second.is_unique());
    match second.make_mut(rt.alloc()) {
        Ok(place) => *place = 9,
        Err(_) => return Err(Fail::from("it is sole")),
    }
    let mut aside = weak(second.try_downgrade())?;
    let other = weak(aside.clone(&rt))?;
    assert_eq!(rt; value(second.end())?, 9);
    assert!(rt; matches!(aside.try_upgrade(), Ok(None)));
    drop(other);
    drop(aside);
    assert_eq!(rt; value(first.end())?, 8);
    Ok(())
}

// The value is a further handle, so that its end shows in the count of the others.
#[test]
fn last_handle_lets_the_value_go(rt: HostRuntime) -> Result<(), Fail> {
    let mut inner = shared(&rt, 7)?;
    let held = strong(inner.try_clone())?;
    let Ok(outer) = Arc::try_new_in(rt.alloc(), held) else {
        return Err(Fail::from("no memory to share a handle"));
    };
    assert_eq!(rt; inner.strong_count(), 2);
    drop(outer);
    assert_eq!(rt; inner.strong_count(), 1);
    Ok(())
}

#[test]
fn handle_by_closure(rt: HostRuntime) -> Result<(), Fail> {
    let refused = Arc::try_make_in(rt.alloc(), || -> Result<u64, u8> { Err(1) });
    assert!(rt; matches!(refused, Err(MakeFault::Constructor(1))));
    let Ok(mut made) = Arc::try_make_in(rt.alloc(), || -> Result<u64, u8> { Ok(5) }) else {
        return Err(Fail::from("no memory to share a value"));
    };
    assert!(rt; made.is_unique());
    assert_eq!(rt; value(made.end())?, 5);
    Ok(())
}

#[test]
fn faults_are_told_apart(rt: HostRuntime) {
    let moved = TryCountFault::Moved {
        first: 1,
        second: 2,
    };
    assert!(rt; moved != TryCountFault::Memory);
    assert!(rt; moved == moved);
}

// It can't be let go: whoever has one hands it on or takes it apart.
struct Coin(u64);

fn spend(coin: Coin) -> u64 {
    let Coin(worth) = coin;
    worth
}

fn ended(handle: Arc<Coin>) -> u64 {
    match handle.end() {
        Ok(coin) => spend(coin),
        Err(_) => 0,
    }
}

#[test]
fn value_that_cannot_be_let_go(rt: HostRuntime) -> Result<(), Fail> {
    let mut first = match Arc::try_new_in(rt.alloc(), Coin(7)) {
        Ok(first) => first,
        Err((coin, _)) => {
            spend(coin);
            return Err(Fail::from("no memory to share a coin"));
        }
    };
    let Ok(second) = first.clone(&rt) else {
        ended(first);
        return Err(Fail::from("a clone was refused"));
    };
    let (one, other) = (ended(first), ended(second));
    assert_eq!(rt; one, 0);
    assert_eq!(rt; other, 7);
    Ok(())
}
