//! Copies of elements, with a count of them.

ghost use Rattle.std.specs.Prelude.{◌≡◌, ℕ, ◌+◌, ◌<◌, ◌≤◌, IfOk};

use std::alloc::AllocError;

/// What copies elements, and counts the copies.
pub trait Copier<T> {
    // How many copies were asked for.
    ghost copies: { Self → ℕ };

    // Which copies of an element there may be: the same in every state of the copier.
    ghost is_copy: { T → T → Type 0 };

    /// A copy of the element. The count rises by one, also where the copy is refused; at `u64::MAX` it stays.
    ///
    /// # Errors
    /// Where the element's copy finds no memory, or a handle in it has no further one.
    fn copy(&mut self, element: &T) -> Result<T, AllocError>
        ensures copy { IfOk result (λ c. is_copy element.now c) }
        ensures rises { copies self.old < 18446744073709551615 → copies self.new ≡ copies self.old + 1 }
        ensures stays { 18446744073709551615 ≤ copies self.old → copies self.new ≡ copies self.old };
}

/// Copies by `Clone`.
#[derive(Drop)]
pub struct CloneCopier {
    count: u64,
}

impl CloneCopier {
    /// A copier that made no copy.
    pub fn new() -> CloneCopier
        ensures { result.count ≡ 0 }
    {
        CloneCopier { count: 0 }
    }

    /// How many copies were asked for, or `u64::MAX` where they were more.
    pub fn count(&self) -> u64
        ensures { result ≡ self.now.count }
    {
        self.count
    }
}

impl<T: Clone> Copier<T> for CloneCopier {
    ghost copies = { λ c. c.count };

    ghost is_copy = { λ x y. T.is_clone x y };

    fn copy(&mut self, element: &T) -> Result<T, AllocError> {
        if self.count < u64::MAX {
            self.count += 1;
        }
        element.clone()
    }
}

/// Copies by `Clone`, and counts nothing.
#[derive(Drop)]
pub(crate) struct PlainCopier;

impl<T: Clone> Copier<T> for PlainCopier {
    ghost copies = { λ c. 18446744073709551615 };

    ghost is_copy = { λ x y. T.is_clone x y };

    #[inline(always)]
    fn copy(&mut self, element: &T) -> Result<T, AllocError> {
        element.clone()
    }
}

/// A copy of the element, by the copier.
#[inline(always)]
pub(crate) fn copied<T, C: Copier<T>>(element: &T, copier: &mut C) -> Result<T, AllocError>
    requires exact { (x y : T) → C.is_copy x y → y ≡ x }
    ensures same { IfOk result (λ c. c ≡ element.now) }
    ensures not_less { C.copies copier.old ≤ C.copies copier.new }
    ensures count { C.copies copier.new ≤ C.copies copier.old + 1 }
{
    copier.copy(element)
}
