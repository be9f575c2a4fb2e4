//! What a map keeps.

ghost use Rattle.std.specs.Prelude.{◌≡◌};
ghost use Rattle.std.specs.Cmp.{on_equiv, on_total, on_po, on_per};

use crate::keyed::Keyed;
use std::cmp::Ordering;

/// A key and its value: equal and ordered by the key alone.
#[derive(Clone, Debug, Drop)]
pub struct Entry<K: Ord, V> {
    pub(crate) key: K,
    pub(crate) value: V,
}

impl<K: Ord, V> Entry<K, V> {
    ghost use Rattle.stabby_tree.specs.Entries.{entry_of, key_of_entry, value_of_entry};

    /// An entry of this key and value.
    pub fn new(key: K, value: V) -> Entry<K, V>
        ensures { result ≡ entry_of key value }
    {
        Entry { key, value }
    }

    /// The key.
    pub fn key(&self) -> &K
        ensures { result.now ≡ key_of_entry self.now }
    {
        &self.key
    }

    /// The value.
    pub fn value(&self) -> &V
        ensures { result.now ≡ value_of_entry self.now }
    {
        &self.value
    }
}

impl<K: Ord, V> PartialEq for Entry<K, V> {
    ghost eq = { λ x y. K.eq x.key y.key };

    ghost laws = { on_per (λ x. x.key) K.PartialEq.laws };

    fn eq(&self, other: &Self) -> bool {
        self.key == other.key
    }
}

impl<K: Ord, V> Eq for Entry<K, V> {
    ghost laws = { on_equiv (λ x. x.key) K.Eq.laws };
}

impl<K: Ord, V> PartialOrd for Entry<K, V> {
    ghost partial_cmp = { λ x y. K.partial_cmp x.key y.key };

    ghost laws = { on_po (λ x. x.key) K.PartialOrd.laws };

    fn partial_cmp(&self, other: &Self) -> Option<Ordering> {
        self.key.partial_cmp(&other.key)
    }
}

impl<K: Ord, V> Ord for Entry<K, V> {
    ghost cmp = { λ x y. K.cmp x.key y.key };

    ghost total = { on_total (λ x. x.key) K.total };

    ghost matches_partial_cmp = { λ x y. K.matches_partial_cmp x.key y.key };

    ghost matches_eq = { λ x y. K.matches_eq x.key y.key };

    fn cmp(&self, other: &Self) -> Ordering {
        self.key.cmp(&other.key)
    }
}

impl<K: Ord, V> Keyed for Entry<K, V> {
    type Key = K;

    ghost key_of = { λ entry. entry.key };

    fn key(&self) -> &K {
        &self.key
    }
}
