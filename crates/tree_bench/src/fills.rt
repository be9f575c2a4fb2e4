//! Sets that are filled, one value after another.
ghost use Rattle.std.specs.Prelude.{◌≡◌, false, OnOk, OnErr};
ghost use Rattle.stabby_tree.specs.Sets.{IsLimit, inserted};

use stabby_layout::AllocationError;
use stabby_tree::{ArcBTreeSet, Keyed};
use std::alloc::Global;

/// How a set is filled.
#[derive(Clone, Copy)]
pub(crate) enum Pattern {
    /// Not at all: what is spent on the values alone.
    Nothing,
    /// As a registry's versions: look up, and where the key is absent, insert into a clone that takes the set's place.
    Versions,
    /// By its one owner, with no clone.
    Owner,
}

// The next version of the set: its clone with the value, where the key is absent.
fn add_version<T: Keyed + Clone + Drop, const LIMIT: usize>(
    set: &mut ArcBTreeSet<T, Global, 0, LIMIT>,
    value: T,
) -> Result<(), AllocationError>
    requires clones_are_equal { (x y : T) → T.is_clone x y → y ≡ x }
    ensures set { OnOk result (set.new.items ≡ inserted T.key_of T.Key.cmp false set.old.items value) }
    ensures unchanged { OnErr result (set.new ≡ set.old) }
{
    if set.get(value.key()).is_some() {
        return Ok(());
    }
    let mut next = set.clone()?;
    match next.insert(value) {
        Ok(_) => {
            *set = next;
            Ok(())
        }
        Err((_, error)) => Err(error),
    }
}

// The set with the value, where the key is absent.
fn add_in_place<T: Keyed + Clone + Drop, const LIMIT: usize>(
    set: &mut ArcBTreeSet<T, Global, 0, LIMIT>,
    value: T,
) -> Result<(), AllocationError>
    requires clones_are_equal { (x y : T) → T.is_clone x y → y ≡ x }
    ensures set { OnOk result (set.new.items ≡ inserted T.key_of T.Key.cmp false set.old.items value) }
    ensures unchanged { OnErr result (set.new ≡ set.old) }
{
    match set.insert(value) {
        Ok(_) => Ok(()),
        Err((_, error)) => Err(error),
    }
}

/// Fills a new set of this limit, and answers how many values it has.
pub(crate) fn fill<T: Keyed + Clone + Drop, const LIMIT: usize>(
    alloc: Global,
    pattern: Pattern,
    values: Vec<T>,
) -> Result<usize, AllocationError>
    requires limit { IsLimit LIMIT }
    requires clones_are_equal { (x y : T) → T.is_clone x y → y ≡ x }
{
    let mut set = ArcBTreeSet::<T, Global, 0, LIMIT>::from_alloc(alloc);
    match pattern {
        Pattern::Nothing => {}
        Pattern::Versions => {
            for value in values {
                add_version(&mut set, value)?;
            }
        }
        Pattern::Owner => {
            for value in values {
                add_in_place(&mut set, value)?;
            }
        }
    }
    Ok(set.len())
}

/// Fills a new set of this limit, and answers how many values it has; `None` at a limit that isn't timed.
pub(crate) fn fill_at<T: Keyed + Clone + Drop>(
    alloc: Global,
    limit: u64,
    pattern: Pattern,
    values: Vec<T>,
) -> Result<Option<usize>, AllocationError>
    requires clones_are_equal { (x y : T) → T.is_clone x y → y ≡ x }
{
    let len = match limit {
        3 => fill::<T, 3>(alloc, pattern, values)?,
        5 => fill::<T, 5>(alloc, pattern, values)?,
        7 => fill::<T, 7>(alloc, pattern, values)?,
        9 => fill::<T, 9>(alloc, pattern, values)?,
        17 => fill::<T, 17>(alloc, pattern, values)?,
        33 => fill::<T, 33>(alloc, pattern, values)?,
        65 => fill::<T, 65>(alloc, pattern, values)?,
        _ => return Ok(None),
    };
    Ok(Some(len))
}
