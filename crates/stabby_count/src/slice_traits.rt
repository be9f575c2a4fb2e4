//! Comparisons, hashes and printed forms of shared slices: those of their items in order.
ghost use Rattle.std.specs.Cmp.{on_equiv, on_total, on_po, on_per};
ghost use Rattle.std.specs.Cmp.Lexicographic.{pointwise, slice_cmp, slice_partial_cmp, lists_per, lists_equiv, lists_po, lists_total, lists_agrees, lists_ties};
ghost use Rattle.std.specs.Hash as fed;
ghost use Rattle.std.specs.Hash.{on_Alike, items_Alike};
ghost use Rattle.stabby_count.specs.SharedSlices.{slice_items};

use crate::slice::ArcSlice;
use std::cmp::Ordering;
use std::fmt;
use std::hash::{Hash, Hasher};

impl<T: PartialEq> PartialEq for ArcSlice<T> {
    ghost eq = { λ v w. pointwise T.eq (slice_items v) (slice_items w) };

    ghost laws = { on_per slice_items (lists_per T.laws) };

    fn eq(&self, other: &Self) -> bool {
        self.as_slice() == other.as_slice()
    }
}

impl<T: Eq> Eq for ArcSlice<T> {
    ghost laws = { on_equiv slice_items (lists_equiv T.Eq.laws) };
}

impl<T: PartialOrd> PartialOrd for ArcSlice<T> {
    ghost partial_cmp = { λ v w. slice_partial_cmp T.partial_cmp (slice_items v) (slice_items w) };

    ghost laws = { on_po slice_items (lists_po T.PartialOrd.laws) };

    fn partial_cmp(&self, other: &Self) -> Option<Ordering> {
        self.as_slice().partial_cmp(&other.as_slice())
    }
}

impl<T: Ord> Ord for ArcSlice<T> {
    ghost cmp = { λ v w. slice_cmp T.cmp (slice_items v) (slice_items w) };

    ghost total = { on_total slice_items (lists_total T.total) };

    ghost matches_partial_cmp = { λ v w. lists_agrees T.matches_partial_cmp (slice_items v) (slice_items w) };

    ghost matches_eq = { λ v w. lists_ties T.cmp T.matches_eq (slice_items v) (slice_items w) };

    fn cmp(&self, other: &Self) -> Ordering {
        self.as_slice().cmp(&other.as_slice())
    }
}

impl<T: Hash> Hash for ArcSlice<T> {
    ghost hash_input = { λ v. fed.slice T.hash_input (slice_items v) };

    ghost respects_eq = { (on_Alike slice_items (items_Alike (record { fed = T.respects_eq }))).fed };

    fn hash<H: Hasher>(&self, state: &mut H) {
        self.as_slice().hash(state);
    }
}

/// Prints as the slice of the items.
impl<T: fmt::Debug> fmt::Debug for ArcSlice<T> {
    fn fmt<W: fmt::Write>(&self, f: &mut fmt::Formatter<W>) -> fmt::Result {
        f.debug_list().entries(self.as_slice()).finish()
    }
}

/// The items in lowercase hexadecimal, with `:` between them.
impl<T: fmt::LowerHex> fmt::LowerHex for ArcSlice<T> {
    fn fmt<W: fmt::Write>(&self, f: &mut fmt::Formatter<W>) -> fmt::Result {
        let mut first = true;
        for item in self.as_slice() {
            if !first {
                write!(f, ":")?;
            }
            first = false;
            item.fmt(f)?;
        }
        Ok(())
    }
}

/// The items in uppercase hexadecimal, with `:` between them.
impl<T: fmt::UpperHex> fmt::UpperHex for ArcSlice<T> {
    fn fmt<W: fmt::Write>(&self, f: &mut fmt::Formatter<W>) -> fmt::Result {
        let mut first = true;
        for item in self.as_slice() {
            if !first {
                write!(f, ":")?;
            }
            first = false;
            item.fmt(f)?;
        }
        Ok(())
    }
}
