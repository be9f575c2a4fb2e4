//! Sets that change while an older version of them stays.
ghost use Rattle.std.specs.Prelude.{◌≡◌, false, IfOk, IfErr, OnOk, OnErr, IsSome};
ghost use Rattle.stabby_tree.specs.Sets.{found, inserted};

use stabby_layout::AllocationError;
use stabby_tree::{ArcBTreeSet, Keyed};
use std::alloc::Global;

/// A set that keeps the element with a known key.
pub type Set<T> = ArcBTreeSet<T, Global, 0, 5>;

/// Adds a value, and answers the set as it was before. The two share all nodes but those of one path.
///
/// # Errors
/// `Memory`; the set is as it was.
pub fn add_and_keep<T: Keyed + Clone + Drop>(
    set: &mut Set<T>,
    value: T,
) -> Result<Set<T>, AllocationError>
    requires clones_are_equal { (x y : T) → T.is_clone x y → y ≡ x }
    ensures before { IfOk result (λ before. before ≡ set.old) }
    ensures set { OnOk result (set.new.items ≡ inserted T.key_of T.Key.cmp false set.old.items value) }
    ensures memory { IfErr result (λ error. error ≡ AllocationError.Memory) }
    ensures unchanged { OnErr result (set.new ≡ set.old) }
{
    let before = set.clone()?;
    match set.insert(value) {
        Ok(_) => Ok(before),
        Err((_, error)) => Err(error),
    }
}

/// Adds two values, or none: where the second finds no memory, the set is as it was before the first.
///
/// # Errors
/// `Memory`; the set is as it was.
pub fn add_both<T: Keyed + Clone + Drop>(
    set: &mut Set<T>,
    first: T,
    second: T,
) -> Result<(), AllocationError>
    requires clones_are_equal { (x y : T) → T.is_clone x y → y ≡ x }
    ensures both { OnOk result (set.new.items
        ≡ inserted T.key_of T.Key.cmp false (inserted T.key_of T.Key.cmp false set.old.items first) second) }
    ensures memory { IfErr result (λ error. error ≡ AllocationError.Memory) }
    ensures unchanged { OnErr result (set.new ≡ set.old) }
{
    let before = add_and_keep(set, first)?;
    match set.insert(second) {
        Ok(_) => Ok(()),
        Err((_, error)) => {
            *set = before;
            Err(error)
        }
    }
}

/// Inserts a value whose key the set has: it comes back, and the set stays. There is no error, since nothing is allocated.
pub fn known_again<T: Keyed + Clone + Drop>(set: &mut Set<T>, value: T) -> T
    requires clones_are_equal { (x y : T) → T.is_clone x y → y ≡ x }
    requires known { IsSome (found T.key_of T.Key.cmp set.old.items (T.key_of value)) }
    ensures value_back { result ≡ value }
    ensures unchanged { set.new.items ≡ set.old.items }
{
    match set.insert(value) {
        Ok(Some(back)) => back,
        Ok(None) => unreachable!(),
        Err(_) => unreachable!(),
    }
}
