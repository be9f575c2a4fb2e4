//! `list[index]`, for an index below the length.
ghost use Rattle.std.specs.Prelude.{◌≡◌, ◌<◌, Some, slice_get};
ghost use Rattle.std.specs.Borrow.{sem};
ghost use Rattle.stabby_vec.specs.Sequence.{sequence_len};

use crate::Vec;
use std::alloc::Allocator;
use std::ops::{Index, IndexMut};

impl<T, A: Allocator> Index<usize> for Vec<T, A> {
    type Output = T;

    ghost can_index = { λ list index. index < sequence_len list };

    ghost index_gives = { λ list index item. slice_get list.items index ≡ Some item };

    fn index(&self, index: usize) -> &T {
        &self.inner[index]
    }
}

impl<T, A: Allocator> IndexMut<usize> for Vec<T, A> {
    ghost use Rattle.stabby_vec.specs.Lends.{lends_item};

    fn index_mut(&mut self, index: usize) -> &mut T
        requires { index < sequence_len self.old }
        ensures* writes_back { sem 𝓛 (lends_item T.row A.row A.Allocator self.entry index result) }
        ensures value { slice_get self.old.items index ≡ Some result.now }
    {
        &mut self.inner[index]
    }
}
