//! Reading the items of a range out of a list, from the front.
ghost use Rattle.std.specs.Prelude.{◌≡◌, ◌+◌, ◌≤◌, ◌↔◌, ◌++◌, length, take, drop, reverse, true, IsSome, IfSome, Some};
ghost use Rattle.stabby_vec.specs.Sequence.{sequence_len};
ghost use Rattle.stabby_vec.specs.Drains.{reverse_if, begun, dropped, stopped, SameRange, GivesFirst, GivesLast};

use crate::vec::turning::{MOST_HELD, turn_out};
use crate::{DoubleEndedDrain, Vec};
use core::slots::has_room;
use std::alloc::Allocator;

/// The items of a range of a list, read from the front.
///
/// Contracts see it as a `Draining`. Dropping it leaves the list without its whole range; `stop`
/// leaves it without the items that were read. It takes no memory.
pub struct Drain<'a, T, A: Allocator> {
    // The items left to read stand behind the first `keep`, the last first where `reversed`. A
    // read turns them round where they lie the other way, so that each read pops.
    list: &'a mut Vec<T, A>,
    keep: usize,
    from: usize,
    reversed: bool,
    ghost placed: { (from ≤ keep) × (keep ≤ length list.now.items) },
}

impl<'a, T: Drop, A: Allocator> Drop for Drain<'a, T, A> {
    ghost use Rattle.stabby_vec.specs.DrainStates.{draining};

    fn drop(self)
        ensures { self.exit.0.now ≡ dropped (draining self.entry) }
    {
        let Drain {
            list,
            keep,
            from: _,
            reversed: _,
        } = self;
        list.truncate(keep);
    }
}

impl<T, A: Allocator> Vec<T, A> {
    ghost use Rattle.stabby_vec.specs.DrainStates.{draining, drain_lender};

    // Moves the first `count` items behind the first `from` to the end.
    fn rotate_tail(&mut self, from: usize, count: usize)
        requires { from + count ≤ sequence_len self.old }
        ensures { self.new ≡ record self.old { items = take from self.old.items ++ (drop count (drop from self.old.items) ++ take count (drop from self.old.items)) } }
    {
        let tail = &mut self.as_slice_mut()[from..];
        tail.rotate_left(count);
    }

    // Whether the first `count` items behind the first `from` go to the end by way of the stack. Those that are there
    // already stay as they are.
    fn may_wait(&self, from: usize, count: usize) -> bool
        requires { from + count ≤ sequence_len self.now }
    {
        let tail = &self.as_slice()[from..];
        count <= MOST_HELD && count < tail.len() && has_room(tail, count)
    }

    // Moves the first `count` items behind the first `from` to the end, the last first where it answers `true`.
    fn move_to_end(&mut self, from: usize, count: usize) -> bool
        requires { from + count ≤ sequence_len self.old }
        ensures { let xs = drop from self.old.items in self.new ≡ record self.old { items = take from self.old.items ++ (drop count xs ++ reverse_if result (take count xs)) } }
    {
        let reversed = self.may_wait(from, count);
        if reversed {
            let tail = &mut self.as_slice_mut()[from..];
            turn_out(tail, count);
        } else {
            self.rotate_tail(from, count);
        }
        reversed
    }

    // Turns round the items behind the first `from`.
    fn reverse_tail(&mut self, from: usize)
        requires { from ≤ sequence_len self.old }
        ensures { self.new ≡ record self.old { items = take from self.old.items ++ reverse (drop from self.old.items) } }
    {
        let tail = &mut self.as_slice_mut()[from..];
        tail.reverse();
    }

    // Turns round the items behind the first `from` where they are `reversed`.
    fn straighten_tail(&mut self, from: usize, reversed: bool)
        requires { from ≤ sequence_len self.old }
        ensures { self.new ≡ record self.old { items = take from self.old.items ++ reverse_if reversed (drop from self.old.items) } }
    {
        if reversed {
            self.reverse_tail(from);
        }
    }

    /// The items from `from` to below `to`, to be read out.
    pub fn drain(&mut self, from: usize, to: usize) -> Drain<'_, T, A>
    where
        T: Drop,
        requires start_le_end { from ≤ to }
        requires in_bounds { to ≤ sequence_len self.old }
        ensures same_list { drain_lender result ≡ self.entry.ghost_name }
        ensures begun { draining result ≡ begun self.old from to }
    {
        let count = to - from;
        let keep = self.len() - count;
        let reversed = self.move_to_end(from, count);
        Drain {
            list: self,
            keep,
            from,
            reversed,
        }
    }

    /// As `drain`; `None` exactly where not `from <= to <= len`.
    pub fn try_drain(&mut self, from: usize, to: usize) -> Option<Drain<'_, T, A>>
    where
        T: Drop,
        ensures variant { IsSome result ↔ ((from ≤ to) × (to ≤ sequence_len self.old)) }
        ensures same_list { IfSome result (λ drain. drain_lender drain ≡ self.entry.ghost_name) }
        ensures begun { IfSome result (λ drain. draining drain ≡ begun self.old from to) }
    {
        if from > to || to > self.len() {
            return None;
        }
        Some(self.drain(from, to))
    }
}

impl<'a, T: Drop, A: Allocator> Drain<'a, T, A> {
    ghost use Rattle.stabby_vec.specs.DrainStates.{draining, drain_lender, both_draining, both_lender};

    // Lays the items left the last first where `reversed`, and else in order. Inlined, the test leaves a loop that reads
    // from one end.
    #[inline(always)]
    fn lay(&mut self, reversed: bool)
        ensures lies { self.new.reversed ≡ reversed }
        ensures same_list { drain_lender self.new ≡ drain_lender self.old }
        ensures same_items { draining self.new ≡ draining self.old }
    {
        if self.reversed != reversed {
            self.list.reverse_tail(self.keep);
            self.reversed = reversed;
        }
    }

    /// Takes the first item left; `None` exactly where none is left.
    #[inline(always)]
    pub fn next(&mut self) -> Option<T>
        ensures same_list { drain_lender self.new ≡ drain_lender self.old }
        ensures same_range { SameRange (draining self.old) (draining self.new) }
        ensures first { GivesFirst (draining self.old) result (draining self.new) }
    {
        if self.list.len() <= self.keep {
            return None;
        }
        self.lay(true);
        self.list.pop()
    }

    // Takes the last item left; `None` exactly where none is left.
    #[inline(always)]
    pub(crate) fn read_last(&mut self) -> Option<T>
        ensures same_list { drain_lender self.new ≡ drain_lender self.old }
        ensures same_range { SameRange (draining self.old) (draining self.new) }
        ensures last { GivesLast (draining self.old) result (draining self.new) }
    {
        if self.list.len() <= self.keep {
            return None;
        }
        self.lay(false);
        self.list.pop()
    }

    /// How many items are left.
    pub fn len(&self) -> usize
        ensures { result ≡ length (draining self.now).left }
    {
        self.list.len() - self.keep
    }

    /// How many items are left, as both bounds.
    pub fn size_hint(&self) -> (usize, Option<usize>)
        ensures { result ≡ (length (draining self.now).left, Some (length (draining self.now).left)) }
    {
        let len = self.len();
        (len, Some(len))
    }

    /// Ends the drain, and leaves the list without the items that were read.
    pub fn stop(self)
        ensures { self.exit.0.now ≡ stopped (draining self.entry) }
    {
        let Drain {
            list,
            keep,
            from,
            reversed,
        } = self;
        list.straighten_tail(keep, reversed);
        list.rotate_tail(from, keep - from);
    }

    /// The same items, to be read from both ends.
    pub fn double_ended(self) -> DoubleEndedDrain<'a, T, A>
        ensures same_list { both_lender result ≡ drain_lender self.entry }
        ensures same_items { both_draining result ≡ draining self.entry }
    {
        DoubleEndedDrain { drain: self }
    }
}
