//! A set as a version: commits replace it whole, and the entry is the new contents.
ghost use Rattle.std.proofs.Common.{refl};

use crate::chronicle::Chronicle;
use crate::replaced::Replaced;
use stabby_layout::AllocationError;
use stabby_tree::{ArcBTreeSet, Keyed};
use std::alloc::Global;

impl<T: Keyed + Drop + Clone, const R: usize, const L: usize> Chronicle
    for ArcBTreeSet<T, Global, R, L> {
    ghost use Rattle.std.specs.Prelude.{◌≡◌};

    type Entry = ArcBTreeSet<T, Global, R, L>;

    ghost entry_of = { λ set. set };

    ghost next = { λ _ e new. e ≡ new };

    ghost same = { λ one other. other ≡ one };

    ghost can_copy = { λ _. (x y : T) → T.is_clone x y → y ≡ x };

    fn copy(&self, _alloc: Global) -> Result<ArcBTreeSet<T, Global, R, L>, AllocationError> {
        self.clone()
    }
}

impl<T: Keyed + Drop + Clone, const R: usize, const L: usize> Replaced
    for ArcBTreeSet<T, Global, R, L> {
    ghost entry_is = { λ _. refl };

    ghost follows = { λ _ _. refl };

    ghost no_other = { λ _ _ _ same. same };

    ghost exact = { λ _ _ same. same };
}
