//! Lookups that count their comparisons.

ghost use Rattle.std.specs.Prelude.{◌≡◌, ℕ, ◌+◌, ◌<◌};

use crate::keyed::Keyed;
use std::cmp::Ordering;

/// A key that is looked up, with a count of the comparisons.
///
/// The key stands in the probe alone, so each comparison with it is one of `compare`, and is counted.
pub trait Probe<T: Keyed> {
    // The key that is looked up.
    ghost sought: { Self → T.Key };

    // How many comparisons were made.
    ghost count: { Self → ℕ };

    /// The order of the element's key against the key that is sought. The count rises by one.
    fn compare(&mut self, element: &T) -> Ordering
        requires room { count self.old < 18446744073709551615 }
        ensures order { result ≡ T.Key.cmp (T.key_of element.now) (sought self.old) }
        ensures key { sought self.new ≡ sought self.old }
        ensures count { count self.new ≡ count self.old + 1 };
}

/// A key, and how many elements it was compared with.
#[derive(Drop)]
pub struct KeyProbe<K> {
    key: K,
    count: u64,
}

impl<K> KeyProbe<K> {
    /// A probe for this key that was compared with nothing.
    pub fn new(key: K) -> KeyProbe<K>
        ensures key { result.key ≡ key }
        ensures count { result.count ≡ 0 }
    {
        KeyProbe { key, count: 0 }
    }

    /// How many comparisons were made.
    pub fn count(&self) -> u64
        ensures { result ≡ self.now.count }
    {
        self.count
    }
}

impl<T: Keyed> Probe<T> for KeyProbe<T::Key> {
    ghost sought = { λ p. p.key };

    ghost count = { λ p. p.count };

    fn compare(&mut self, element: &T) -> Ordering {
        let order = element.compare(&self.key);
        self.count += 1;
        order
    }
}
