//! Tests on one thread: polls, erased iterators, pointers, and that calls succeed with memory.
use crate::{
    Dyn, Future, IPtr, IPtrClone, IPtrMut, IPtrOwned, IPtrTryAsMut, IterVt, Iterator,
    MaybeResolved, StableWaker, VTable, VtDrop, Wake,
};
use stabby_count::{Arc, Weak};
use stabby_text::Box;
use std::test::Fail;

#[derive(Clone, Copy)]
struct Bell {
    number: u64,
}

impl Wake for Bell {
    fn wake_by_ref(&self) {}
}

// Answers that it is pending, and then 7.
#[derive(Drop)]
struct SecondTime {
    polled: bool,
}

impl Future for SecondTime {
    type Output = u64;

    ghost polls = { λ _ _ _. Unit {0} };

    fn poll<W: Wake>(&mut self, _waker: &StableWaker<'_, W>) -> Option<u64> {
        if self.polled {
            Some(7)
        } else {
            self.polled = true;
            None
        }
    }
}

#[test]
fn maybe_resolved(rt: HostRuntime) -> Result<(), Fail> {
    let bell = Bell { number: 3 };
    let waker = StableWaker::new(&bell);
    let mut now: MaybeResolved<u64, SecondTime> = MaybeResolved::Resolved(5);
    assert_eq!(rt; now.poll(&waker), Some(5));
    assert_eq!(rt; now.poll(&waker), None);
    let mut later: MaybeResolved<u64, SecondTime> = MaybeResolved::Pending(SecondTime {
        polled: false,
    });
    assert_eq!(rt; later.poll(&waker), None);
    assert_eq!(rt; later.poll(&waker), Some(7));
    assert_eq!(rt; later.poll(&waker), None);
    waker.wake_by_ref();
    assert_eq!(rt; waker.with_waker(|woken: &Bell| woken.number), 3);
    assert!(rt; waker.to_shared(rt.alloc()).is_ok());
    Ok(())
}

// Some ones, as many as are left.
#[derive(Drop)]
struct Ones {
    left: u64,
}

impl Iterator for Ones {
    ghost use Rattle.std.specs.Prelude.{None, replicate};

    type Item = u64;

    ghost left = { λ ones. replicate ones.left 1 };

    ghost hint = { λ _. (0, None) };

    fn next(&mut self) -> Option<u64> {
        if self.left == 0 {
            None
        } else {
            self.left -= 1;
            Some(1)
        }
    }

    fn size_hint(&self) -> (usize, Option<usize>) {
        (0, None)
    }
}

#[test]
fn erased_iterator(rt: HostRuntime) -> Result<(), Fail> {
    let Ok(boxed) = Box::new_in(rt.alloc(), Ones { left: 1 }) else {
        return Err("memory")?;
    };
    let table: VTable<IterVt> = VTable {
        tail: VtDrop { word: 1 },
        head: IterVt { word: 2 },
    };
    let mut erased = Dyn::from_ptr(boxed, table);
    assert_eq!(rt; erased.next(), Some(1));
    assert_eq!(rt; erased.next(), None);
    assert!(rt; erased.size_hint().0 == 0);
    Ok(())
}

#[test]
fn pointers_lend(rt: HostRuntime) -> Result<(), Fail> {
    let Ok(mut boxed) = Box::new_in(rt.alloc(), 4u64) else {
        return Err("memory")?;
    };
    *IPtrMut::as_mut(&mut boxed) = 5;
    if let Some(place) = boxed.try_as_mut() {
        *place += 1;
    }
    assert_eq!(rt; *IPtr::as_ref(&boxed), 6);
    IPtrOwned::end(boxed);
    let mut number = 1u64;
    let mut place = &mut number;
    *IPtrMut::as_mut(&mut place) = 2;
    IPtrOwned::end(place);
    assert_eq!(rt; *IPtr::as_ref(&&number), 2);
    Ok(())
}

#[test]
fn handles_are_pointers(rt: HostRuntime) -> Result<(), Fail> {
    let Ok(mut first) = Arc::try_new_in(rt.alloc(), 4u64) else {
        return Err("memory")?;
    };
    assert!(rt; first.try_as_mut().is_some());
    let Ok(second) = first.clone_ptr(&rt) else {
        return Err("memory")?;
    };
    assert!(rt; first.try_as_mut().is_none());
    assert_eq!(rt; *IPtr::as_ref(&second), 4);
    IPtrOwned::end(second);
    let Ok(mut weak) = first.downgrade(&rt) else {
        return Err("memory")?;
    };
    let Ok(other) = Weak::clone_ptr(&mut weak, &rt) else {
        return Err("memory")?;
    };
    IPtrOwned::end(other);
    IPtrOwned::end(weak);
    assert!(rt; first.try_as_mut().is_some());
    Ok(())
}
