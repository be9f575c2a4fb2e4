//! Reading the items of a range out of a list, from both ends.
ghost use Rattle.std.specs.Prelude.{◌≡◌, length, Some};
ghost use Rattle.stabby_vec.specs.Drains.{dropped, SameRange, GivesFirst, GivesLast};

use crate::Drain;
use std::alloc::Allocator;

/// The items of a range of a list, read from both ends.
///
/// Contracts see it as a `Draining`. Dropping it leaves the list without its whole range. It
/// takes no memory.
pub struct DoubleEndedDrain<'a, T, A: Allocator> {
    // The whole `Drain`, so that a caller who knows which list it is of knows that here too.
    pub(crate) drain: Drain<'a, T, A>,
}

impl<'a, T: Drop, A: Allocator> Drop for DoubleEndedDrain<'a, T, A> {
    ghost use Rattle.stabby_vec.specs.DrainStates.{both_draining};

    fn drop(self)
        ensures { self.exit.0.0.now ≡ dropped (both_draining self.entry) }
    {
        let DoubleEndedDrain { drain } = self;
        drop(drain);
    }
}

impl<'a, T: Drop, A: Allocator> DoubleEndedDrain<'a, T, A> {
    ghost use Rattle.stabby_vec.specs.DrainStates.{both_draining, both_lender};

    /// Takes the first item left; `None` exactly where none is left.
    #[inline(always)]
    pub fn next(&mut self) -> Option<T>
        ensures same_list { both_lender self.new ≡ both_lender self.old }
        ensures same_range { SameRange (both_draining self.old) (both_draining self.new) }
        ensures first { GivesFirst (both_draining self.old) result (both_draining self.new) }
    {
        self.drain.next()
    }

    /// Takes the last item left; `None` exactly where none is left.
    #[inline(always)]
    pub fn next_back(&mut self) -> Option<T>
        ensures same_list { both_lender self.new ≡ both_lender self.old }
        ensures same_range { SameRange (both_draining self.old) (both_draining self.new) }
        ensures last { GivesLast (both_draining self.old) result (both_draining self.new) }
    {
        self.drain.read_last()
    }

    /// How many items are left.
    pub fn len(&self) -> usize
        ensures { result ≡ length (both_draining self.now).left }
    {
        self.drain.len()
    }

    /// How many items are left, as both bounds.
    pub fn size_hint(&self) -> (usize, Option<usize>)
        ensures { result ≡ (length (both_draining self.now).left, Some (length (both_draining self.now).left)) }
    {
        self.drain.size_hint()
    }
}
