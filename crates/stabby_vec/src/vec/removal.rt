//! Taking items out, and moving them. None of these calls takes memory or changes the capacity.
ghost use Rattle.std.specs.Prelude.{◌≡◌, ◌<◌, ◌≤◌, ◌↔◌, [], ◌++◌, take, IsNone, IfNone, IfSome, slice_get};
ghost use Rattle.std.specs.List.{swap, remove, swap_remove};
ghost use Rattle.std.specs.Option.{option_to_list};
ghost use Rattle.stabby_vec.specs.Sequence.{sequence_len};

use crate::Vec;
use std::alloc::Allocator;

impl<T, A: Allocator> Vec<T, A> {
    /// Takes the last item; `None` exactly where there is none.
    pub fn pop(&mut self) -> Option<T>
        ensures none { IsNone result ↔ (self.old.items ≡ []) }
        ensures last { self.old.items ≡ self.new.items ++ option_to_list result }
        ensures others { self.new ≡ record self.old { items = self.new.items } }
    {
        self.inner.pop()
    }

    /// Keeps the first `len` items and drops the others; nothing changes where there are no more.
    pub fn truncate(&mut self, len: usize)
    where
        T: Drop,
        ensures { self.new ≡ record self.old { items = take len self.old.items } }
    {
        self.inner.truncate(len);
    }

    /// Swaps the items at `a` and `b`.
    pub fn swap(&mut self, a: usize, b: usize)
        requires a_in_bounds { a < sequence_len self.old }
        requires b_in_bounds { b < sequence_len self.old }
        ensures { self.new ≡ record self.old { items = swap self.old.items a b } }
    {
        self.inner.swap(a, b);
    }

    /// Takes the item at `index`, and moves those behind it down by one place.
    ///
    /// `None` exactly where `index` is not below the length; the list then stays.
    pub fn remove(&mut self, index: usize) -> Option<T>
        ensures none { IsNone result ↔ (sequence_len self.old ≤ index) }
        ensures kept { IfNone result (self.new ≡ self.old) }
        ensures value { result ≡ slice_get self.old.items index }
        ensures others { self.new ≡ record self.old { items = remove self.old.items index } }
    {
        if index >= self.inner.len() {
            return None;
        }
        Some(self.inner.remove(index))
    }

    /// Takes the item at `index`, and moves the last item into its place.
    ///
    /// `None` exactly where `index` is not below the length; the list then stays.
    pub fn swap_remove(&mut self, index: usize) -> Option<T>
        ensures none { IsNone result ↔ (sequence_len self.old ≤ index) }
        ensures kept { IfNone result (self.new ≡ self.old) }
        ensures value { result ≡ slice_get self.old.items index }
        ensures others { IfSome result (λ item. self.new ≡ record self.old { items = swap_remove self.old.items index item }) }
    {
        if index >= self.inner.len() {
            return None;
        }
        Some(self.inner.swap_remove(index))
    }
}
