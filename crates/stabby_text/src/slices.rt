//! Borrowed slices.
ghost use Rattle.std.specs.Prelude.{◌≡◌};
ghost use Rattle.std.specs.Cmp.{on_equiv, on_per};
ghost use Rattle.std.specs.Cmp.Lexicographic.{pointwise, lists_per, lists_equiv};
ghost use Rattle.std.specs.Hash as fed;
ghost use Rattle.std.specs.Hash.{on_Alike, items_Alike};

use std::fmt;
use std::hash::{Hash, Hasher};

/// A borrowed slice.
#[derive_where(Clone, Copy)]
#[derive(PartialEq, Eq, Hash, Debug)]
pub struct Slice<'a, T> {
    inner: &'a [T],
}

impl<'a, T> Slice<'a, T> {
    ghost use Rattle.stabby_text.specs.SliceViews.{slice_items};

    /// The slice `value`.
    pub fn new(value: &'a [T]) -> Self
        ensures { slice_items result ≡ value.now }
    {
        Slice { inner: value }
    }

    /// The slice.
    pub fn as_slice(self) -> &'a [T]
        ensures { result.now ≡ slice_items self.entry }
    {
        self.inner
    }
}

/// A slice that is borrowed to be changed.
#[derive(Drop)]
pub struct SliceMut<'a, T> {
    inner: &'a mut [T],
}

impl<'a, T> SliceMut<'a, T> {
    ghost use Rattle.stabby_text.specs.SliceViews.{slice_items, slice_mut_items, slice_mut_lender};

    /// The slice `value`.
    pub fn new(value: &'a mut [T]) -> Self
        ensures same_slice { slice_mut_lender result ≡ value.entry.ghost_name }
        ensures items { slice_mut_items result ≡ value.old }
    {
        SliceMut { inner: value }
    }

    /// The slice.
    pub fn as_slice(&self) -> &[T]
        ensures { result.now ≡ slice_mut_items self.now }
    {
        self.inner
    }

    /// The slice, to be changed in place.
    pub fn as_slice_mut(&mut self) -> &mut [T]
        ensures { result.now ≡ slice_mut_items self.old }
    {
        self.inner
    }

    /// The slice, which can no longer be changed.
    pub fn into_slice(self) -> Slice<'a, T>
        ensures { slice_items result ≡ slice_mut_items self.entry }
    {
        let SliceMut { inner } = self;
        Slice { inner }
    }
}

impl<T: PartialEq> PartialEq for SliceMut<'_, T> {
    ghost use Rattle.stabby_text.specs.SliceViews.{slice_mut_items};

    ghost eq = { λ x y. pointwise T.eq x.inner.now y.inner.now };

    ghost laws = { on_per (λ s. s.inner.now) (lists_per T.laws) };

    fn eq(&self, other: &Self) -> bool {
        self.as_slice() == other.as_slice()
    }
}

impl<T: Eq> Eq for SliceMut<'_, T> {
    ghost laws = { on_equiv (λ s. s.inner.now) (lists_equiv T.Eq.laws) };
}

impl<T: Hash> Hash for SliceMut<'_, T> {
    ghost hash_input = { λ s. fed.slice T.hash_input s.inner.now };

    ghost respects_eq = { (on_Alike (λ s. s.inner.now) (items_Alike (record { fed = T.respects_eq }))).fed };

    fn hash<H: Hasher>(&self, state: &mut H) {
        self.as_slice().hash(state);
    }
}

impl<T: fmt::Debug> fmt::Debug for SliceMut<'_, T> {
    fn fmt<W: fmt::Write>(&self, f: &mut fmt::Formatter<W>) -> fmt::Result {
        f.debug_list().entries(self.as_slice()).finish()
    }
}
