//! An ordered map: the set of entries that replaces.

ghost use Rattle.std.specs.Prelude.{◌≡◌, [], option_copied, map, if◌then◌else◌, Some, OnOk, OnErr, IfOk, IfErr};
ghost use Rattle.std.specs.Ordering.{is_eq};
ghost use Rattle.stabby_tree.specs.Sets.{IsLimit};

use crate::entry::Entry;
use crate::set::ArcBTreeSet;
use stabby_layout::AllocationError;
use std::alloc::{Allocator, Global};

/// A map from keys to values, in the order of the keys.
///
/// `SPLIT_LIMIT` is how many entries split a node of the tree: odd, and at least 3.
#[derive(Drop)]
pub struct ArcBTreeMap<K: Ord + Drop, V: Drop, A: Allocator, const SPLIT_LIMIT: usize> {
    entries: ArcBTreeSet<Entry<K, V>, A, 1, SPLIT_LIMIT>,
}

impl<K: Ord + Drop, V: Drop, A: Allocator> ArcBTreeMap<K, V, A, 5> {
    ghost use Rattle.stabby_tree.specs.Maps.{entries_of};

    /// The empty map, with nodes of up to 4 entries.
    pub fn new_in(alloc: A) -> ArcBTreeMap<K, V, A, 5>
        ensures { entries_of result ≡ [] }
    {
        ArcBTreeMap {
            entries: ArcBTreeSet::replacing_in(alloc),
        }
    }
}

impl<K: Ord + Drop, V: Drop, A: Allocator, const SPLIT_LIMIT: usize> ArcBTreeMap<
    K,
    V,
    A,
    SPLIT_LIMIT,
> {
    ghost use Rattle.stabby_tree.specs.Maps.{entries_of, entry_of, value_at, with_entry, IsRisingMap};

    /// The empty map. It takes no memory.
    pub fn from_alloc(alloc: A) -> Self
        requires limit { IsLimit SPLIT_LIMIT }
        ensures { entries_of result ≡ [] }
    {
        ArcBTreeMap {
            entries: ArcBTreeSet::from_alloc(alloc),
        }
    }

    /// The value of this key; `None` exactly where the key is absent.
    pub fn get(&self, key: &K) -> Option<&V>
        ensures found { option_copied result ≡ value_at K.cmp (entries_of self.now) key.now }
        ensures rising { IsRisingMap K.cmp (entries_of self.now) }
    {
        match self.entries.get(key) {
            Some(entry) => Some(entry.value()),
            None => None,
        }
    }

    /// Gives the key this value, and answers the value that it had. The rest of the map stays.
    ///
    /// # Errors
    /// `Memory` alone, with key and value; the map is as it was.
    pub fn insert(&mut self, key: K, value: V) -> Result<Option<V>, (K, V, AllocationError)>
    where
        K: Clone,
        V: Clone,
        A: Clone + Drop,
        requires keys_are_equal { (x y : K) → K.is_clone x y → y ≡ x }
        requires clones_are_equal { (x y : V) → V.is_clone x y → y ≡ x }
        requires allocators_are_equal { (x y : A) → A.is_clone x y → y ≡ x }
        ensures entries { OnOk result (entries_of self.new ≡ with_entry K.cmp (entries_of self.old) (entry_of key value)) }
        ensures lookups { OnOk result ((k : K) → value_at K.cmp (entries_of self.new) k ≡ (if is_eq (K.cmp key k) then Some value else value_at K.cmp (entries_of self.old) k)) }
        ensures old { IfOk result (λ old. old ≡ value_at K.cmp (entries_of self.old) key) }
        ensures rising { IsRisingMap K.cmp (entries_of self.new) }
        ensures unchanged { OnErr result (self.new ≡ self.old) }
        ensures value_back { IfErr result (λ refusal. refusal ≡ (key, value, AllocationError.Memory)) }
    {
        match self.entries.insert(Entry::new(key, value)) {
            Ok(Some(old)) => Ok(Some(old.value)),
            Ok(None) => Ok(None),
            Err((entry, error)) => Err((entry.key, entry.value, error)),
        }
    }

    /// An equal map. Later inserts into either leave the other.
    ///
    /// # Errors
    /// `Memory`, where the entries' copies find none.
    pub fn clone(&self) -> Result<Self, AllocationError>
    where
        K: Clone,
        V: Clone,
        A: Clone + Drop,
        requires keys_are_equal { (x y : K) → K.is_clone x y → y ≡ x }
        requires clones_are_equal { (x y : V) → V.is_clone x y → y ≡ x }
        requires allocators_are_equal { (x y : A) → A.is_clone x y → y ≡ x }
        ensures ok { IfOk result (λ copy. copy ≡ self.now) }
        ensures memory { IfErr result (λ error. error ≡ AllocationError.Memory) }
    {
        match self.entries.clone() {
            Ok(entries) => Ok(ArcBTreeMap { entries }),
            Err(error) => Err(error),
        }
    }

    /// The entries in order.
    ///
    /// # Errors
    /// `Memory`, where the list finds none.
    pub fn to_list(&self, alloc: Global) -> Result<Vec<&Entry<K, V>>, AllocationError>
        ensures ok { IfOk result (λ list. map (λ x. x.now) list.items ≡ entries_of self.now) }
        ensures rising { IsRisingMap K.cmp (entries_of self.now) }
        ensures memory { IfErr result (λ error. error ≡ AllocationError.Memory) }
    {
        self.entries.to_list(alloc)
    }
}
