//! Comparisons of a `SingleOrVec`: those of its items in order.
ghost use Rattle.std.specs.Prelude.{◌≡◌};
ghost use Rattle.std.specs.Cmp.{on_equiv, on_total, on_po, on_per};
ghost use Rattle.std.specs.Cmp.Lexicographic.{pointwise, slice_cmp, slice_partial_cmp, lists_per, lists_equiv, lists_po, lists_total, lists_agrees, lists_ties};

use crate::SingleOrVec;
use std::alloc::Allocator;
use std::cmp::Ordering;

impl<T: PartialEq, A: Allocator> PartialEq for SingleOrVec<T, A> {
    ghost eq = { λ v w. pointwise T.eq v.items w.items };

    ghost laws = { on_per (λ v. v.items) (lists_per T.laws) };

    fn eq(&self, other: &Self) -> bool {
        self.as_slice() == other.as_slice()
    }
}

impl<T: Eq, A: Allocator> Eq for SingleOrVec<T, A> {
    ghost laws = { on_equiv (λ v. v.items) (lists_equiv T.Eq.laws) };
}

impl<T: PartialOrd, A: Allocator> PartialOrd for SingleOrVec<T, A> {
    ghost partial_cmp = { λ v w. slice_partial_cmp T.partial_cmp v.items w.items };

    ghost laws = { on_po (λ v. v.items) (lists_po T.PartialOrd.laws) };

    fn partial_cmp(&self, other: &Self) -> Option<Ordering> {
        self.as_slice().partial_cmp(&other.as_slice())
    }
}

impl<T: Ord, A: Allocator> Ord for SingleOrVec<T, A> {
    ghost cmp = { λ v w. slice_cmp T.cmp v.items w.items };

    ghost total = { on_total (λ v. v.items) (lists_total T.total) };

    ghost matches_partial_cmp = { λ v w. lists_agrees T.matches_partial_cmp v.items w.items };

    ghost matches_eq = { λ v w. lists_ties T.cmp T.matches_eq v.items w.items };

    fn cmp(&self, other: &Self) -> Ordering {
        self.as_slice().cmp(&other.as_slice())
    }
}
