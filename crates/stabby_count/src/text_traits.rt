//! Comparisons, hashes and printed forms of shared texts: those of the text.
ghost use Rattle.std.specs.Prelude.{◌≡◌, Some, refl};
ghost use Rattle.std.proofs.Common.{rules};
ghost use Rattle.std.specs.Cmp.{on_equiv, on_total, on_po, on_per, partial_equiv_from_equiv};
ghost use Rattle.std.specs.Cmp.Lexicographic.{nat_list_eq_equiv, nat_list_cmp_total, texts_po, texts_ties};
ghost use Rattle.std.specs.Cmp.Rules.{hashing};
ghost use Rattle.std.specs.Hash as fed;
ghost use Rattle.stabby_text.specs.Texts.{text_eq, text_cmp};
ghost use Rattle.stabby_count.specs.SharedTexts.{text_value, text_bytes};

use crate::text::ArcStr;
use std::cmp::Ordering;
use std::fmt;
use std::hash::{Hash, Hasher};

impl PartialEq for ArcStr {
    ghost eq = { λ x y. text_eq (text_value x) (text_value y) };

    ghost laws = { on_per text_bytes (partial_equiv_from_equiv nat_list_eq_equiv) };

    fn eq(&self, other: &Self) -> bool {
        self.as_str() == other.as_str()
    }
}

impl Eq for ArcStr {
    ghost laws = { on_equiv text_bytes nat_list_eq_equiv };
}

impl PartialOrd for ArcStr {
    ghost partial_cmp = { λ x y. Some (text_cmp (text_value x) (text_value y)) };

    ghost laws = { on_po text_bytes texts_po };

    fn partial_cmp(&self, other: &Self) -> Option<Ordering> {
        Some(self.cmp(other))
    }
}

impl Ord for ArcStr {
    ghost cmp = { λ x y. text_cmp (text_value x) (text_value y) };

    ghost total = { on_total text_bytes nat_list_cmp_total };

    ghost matches_partial_cmp = { λ x y. refl };

    ghost matches_eq = { λ x y. texts_ties (text_bytes x) (text_bytes y) };

    fn cmp(&self, other: &Self) -> Ordering {
        self.as_str().cmp(other.as_str())
    }
}

impl Hash for ArcStr {
    ghost hash_input = { λ s. fed.str (text_bytes s) };

    ghost respects_eq = { Prim.search (hashing, rules) };

    fn hash<H: Hasher>(&self, state: &mut H) {
        self.as_str().hash(state);
    }
}

/// Prints as the text in quotes.
impl fmt::Debug for ArcStr {
    fn fmt<W: fmt::Write>(&self, f: &mut fmt::Formatter<W>) -> fmt::Result {
        fmt::Debug::fmt(self.as_str(), f)
    }
}

/// Prints the text.
impl fmt::Display for ArcStr {
    fn fmt<W: fmt::Write>(&self, f: &mut fmt::Formatter<W>) -> fmt::Result {
        fmt::Display::fmt(self.as_str(), f)
    }
}
