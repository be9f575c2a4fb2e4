//! Handles in two threads.
ghost use Rattle.std.specs.Prelude.{◌≡◌, IfOk, IfErr, IsOk, IsErr, MatchResult};
ghost use Rattle.stabby_count.specs.Shared.{arc_value};
ghost use Rattle.stabby_count_uses.specs.Ends.{IsEndOf, LeftOthers, AreOfOneBlock};
ghost use Rattle.stabby_layout.specs.declared.error.AllocationError.TheVariants.{Memory};

use crate::one_thread::take_back;
use crate::single::Single;
use stabby_count::{Arc, Spent};
use stabby_layout::AllocationError;
use std::alloc::Global;
use std::marker::Brand;
use std::sync::Wait;
use std::sync::ledger::{Blank, Ledger};
use std::thread::{Threads, join};

/// A value that is back, and what is left of the two handles that were lent.
#[derive(Drop)]
pub struct Lent<T> {
    pub value: T,
    /// What the end in the first thread gave, in place of the value.
    pub first: Spent,
    /// The same of the second thread.
    pub second: Spent,
}

/// Reads a shared value in two threads, by one handle that both borrow.
pub fn read_in_two_threads<T: Copy + Send + Sync, H: Threads>(rt: &H, handle: &Arc<T>) -> (T, T)
    ensures { (result.0 ≡ arc_value handle.now) × (result.1 ≡ arc_value handle.now) }
{
    join(
        rt,
        || -> T
            ensures { result ≡ arc_value handle.entry.now }
        { **handle },
        || -> T
            ensures { result ≡ arc_value handle.entry.now }
        { **handle },
    )
}

/// Ends two handles in two threads, in either order.
fn end_both<T: Drop + Send + Sync, H: Threads>(
    rt: &H,
    first: Arc<T>,
    second: Arc<T>,
) -> (Result<T, Spent>, Result<T, Spent>)
    ensures first { IsEndOf first result.0 }
    ensures second { IsEndOf second result.1 }
{
    join(
        rt,
        move || -> Result<T, Spent>
            ensures { IsEndOf first result }
        { first.end() },
        move || -> Result<T, Spent>
            ensures { IsEndOf second result }
        { second.end() },
    )
}

// The ends of two handles of one value, of which at most one gives it.
fn at_most_one<T, L: Ledger>(
    first: Result<Single<T, L>, Spent>,
    second: Result<Single<T, L>, Spent>,
) -> (Result<T, Spent>, Result<T, Spent>)
    requires { L.parts ≡ 1 }
    ensures first { MatchResult first (λ single. result.0 ≡ Ok single.value) (λ spent. result.0 ≡ Err spent) }
    ensures second { MatchResult second (λ single. result.1 ≡ Ok single.value) (λ spent. result.1 ≡ Err spent) }
    ensures once { IsOk result.0 → IsErr result.1 }
{
    match (first, second) {
        (Ok(first), Ok(second)) => first.never_beside(second),
        (Ok(first), Err(second)) => (Ok(first.into_value()), Err(second)),
        (Err(first), Ok(second)) => (Err(first), Ok(second.into_value())),
        (Err(first), Err(second)) => (Err(first), Err(second)),
    }
}

// `end_in_two_threads`, with the ledger that keeps the value single.
fn end_single<T: Drop + Send + Sync, L: Ledger + Send + Sync, H: Threads>(
    rt: &H,
    alloc: Global,
    value: T,
    blank: Blank,
) -> Result<(Result<T, Spent>, Result<T, Spent>), (T, AllocationError)>
    requires ledger { (blank.name ≡ L.name) × (blank.parts ≡ L.parts) }
    requires one_part { L.parts ≡ 1 }
    ensures first { IfOk result (λ ends. MatchResult ends.0 (λ given. given ≡ value) LeftOthers) }
    ensures second { IfOk result (λ ends. MatchResult ends.1 (λ given. given ≡ value) LeftOthers) }
    ensures once { IfOk result (λ ends. IsOk ends.0 → IsErr ends.1) }
    ensures one_block { IfOk result (λ ends. IfErr ends.0 (λ first. IfErr ends.1 (AreOfOneBlock first))) }
    ensures value_back { IfErr result (λ back. back ≡ (value, Memory)) }
{
    let mut first = match Arc::try_new_in(alloc, Single::<T, L>::new(value, blank)) {
        Ok(first) => first,
        Err((single, error)) => return Err((single.into_value(), error)),
    };
    match first.try_clone() {
        Ok(second) => {
            let (first, second) = end_both(rt, first, second);
            Ok(at_most_one(first, second))
        }
        Err(_fault) => match first.end() {
            Ok(single) => Err((single.into_value(), AllocationError::Memory)),
            Err(_spent) => unreachable!(),
        },
    }
}

/// Shares a value by two handles, and ends them in two threads, in either order. At most one end gives the value, and each
/// that doesn't has read more than one strong handle.
///
/// # Errors
///
/// The value comes back with `AllocationError::Memory` where there is no memory to share it or for the second handle.
pub fn end_in_two_threads<T: Drop + Send + Sync, H: Threads>(
    rt: &H,
    alloc: Global,
    value: T,
) -> Result<(Result<T, Spent>, Result<T, Spent>), (T, AllocationError)>
    ensures first { IfOk result (λ ends. MatchResult ends.0 (λ given. given ≡ value) LeftOthers) }
    ensures second { IfOk result (λ ends. MatchResult ends.1 (λ given. given ≡ value) LeftOthers) }
    ensures once { IfOk result (λ ends. IsOk ends.0 → IsErr ends.1) }
    ensures one_block { IfOk result (λ ends. IfErr ends.0 (λ first. IfErr ends.1 (AreOfOneBlock first))) }
    ensures value_back { IfErr result (λ back. back ≡ (value, Memory)) }
{
    end_single::<T, Brand, H>(rt, alloc, value, Blank::new(1))
}

// `lend_to_two_threads`, with the ledger that keeps the value single.
fn lend_single<T: Drop + Send + Sync, L: Ledger + Send + Sync, H: Threads + Wait>(
    rt: &H,
    alloc: Global,
    value: T,
    blank: Blank,
) -> Result<Lent<T>, T>
    requires ledger { (blank.name ≡ L.name) × (blank.parts ≡ L.parts) }
    requires one_part { L.parts ≡ 1 }
    ensures value { IfOk result (λ lent. lent.value ≡ value) }
    ensures first { IfOk result (λ lent. LeftOthers lent.first) }
    ensures second { IfOk result (λ lent. LeftOthers lent.second) }
    ensures one_block { IfOk result (λ lent. AreOfOneBlock lent.first lent.second) }
    ensures value_back { IfErr result (λ back. back ≡ value) }
{
    let mut owner = match Arc::try_new_in(alloc, Single::<T, L>::new(value, blank)) {
        Ok(owner) => owner,
        Err((single, _error)) => return Err(single.into_value()),
    };
    let Ok(first) = owner.clone(rt) else {
        return Err(take_back(rt, owner).into_value());
    };
    let Ok(second) = owner.clone(rt) else {
        drop(first);
        return Err(take_back(rt, owner).into_value());
    };
    let (first, second) = end_both(rt, first, second);
    let kept = take_back(rt, owner);
    let first = match first {
        Err(first) => first,
        Ok(from_first) => kept.never_beside(from_first),
    };
    let second = match second {
        Err(second) => second,
        Ok(from_second) => kept.never_beside(from_second),
    };
    Ok(Lent {
        value: kept.into_value(),
        first,
        second,
    })
}

/// Shares a value, hands two clones to two threads, which end them in either order, and takes the value back by the handle
/// that it kept. The value comes exactly once: neither thread's end gave it, and each read more than one strong handle.
///
/// # Errors
///
/// The value, where there was no memory to share it or for a clone.
pub fn lend_to_two_threads<T: Drop + Send + Sync, H: Threads + Wait>(
    rt: &H,
    alloc: Global,
    value: T,
) -> Result<Lent<T>, T>
    ensures value { IfOk result (λ lent. lent.value ≡ value) }
    ensures first { IfOk result (λ lent. LeftOthers lent.first) }
    ensures second { IfOk result (λ lent. LeftOthers lent.second) }
    ensures one_block { IfOk result (λ lent. AreOfOneBlock lent.first lent.second) }
    ensures value_back { IfErr result (λ back. back ≡ value) }
{
    lend_single::<T, Brand, H>(rt, alloc, value, Blank::new(1))
}
