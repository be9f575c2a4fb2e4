//! A map that counts.
ghost use Rattle.std.specs.Prelude.{◌≡◌, ◌+◌, ◌-◌, ◌^◌, if◌then◌else◌, min, Some, IfOk, IfErr, OnErr, unwrap_or};
ghost use Rattle.std.specs.Ordering.{is_eq};
ghost use Rattle.stabby_tree.specs.Maps.{entries_of, value_at};

use stabby_layout::AllocationError;
use stabby_tree::ArcBTreeMap;
use std::alloc::Global;

/// How often each key was counted.
pub type Counts<K> = ArcBTreeMap<K, u64, Global, 5>;

/// Counts a key once more, and answers how often it was counted, or `u64::MAX` where that is more.
///
/// # Errors
/// `Memory`; no count has changed.
pub fn count_one<K: Ord + Clone + Drop>(
    counts: &mut Counts<K>,
    key: K,
) -> Result<u64, AllocationError>
    requires keys_are_equal { (x y : K) → K.is_clone x y → y ≡ x }
    ensures count { IfOk result (λ count. count
        ≡ min (unwrap_or (value_at K.cmp (entries_of counts.old) key) 0 + 1) (2 ^ 64 - 1)) }
    ensures lookups { IfOk result (λ count. (k : K) → value_at K.cmp (entries_of counts.new) k
        ≡ (if is_eq (K.cmp key k) then Some count else value_at K.cmp (entries_of counts.old) k)) }
    ensures memory { IfErr result (λ error. error ≡ AllocationError.Memory) }
    ensures unchanged { OnErr result (counts.new ≡ counts.old) }
{
    let count = match counts.get(&key) {
        Some(count) => count.saturating_add(1),
        None => 1,
    };
    match counts.insert(key, count) {
        Ok(_) => Ok(count),
        Err((_, _, error)) => Err(error),
    }
}
