//! What a caller knows of its list once a drain of it has ended.
ghost use Rattle.std.specs.Prelude.{◌≡◌, ◌+◌, ◌<◌, ◌≤◌, ◌++◌, take, drop};
ghost use Rattle.stabby_vec.specs.Sequence.{sequence_len};

use stabby_vec::Vec;
use std::alloc::Allocator;

/// Removes the range unread.
pub fn cut<T: Drop, A: Allocator>(list: &mut Vec<T, A>, from: usize, to: usize)
    requires start_le_end { from ≤ to }
    requires in_bounds { to ≤ sequence_len list.old }
    ensures { list.new ≡ record list.old { items = take from list.old.items ++ drop to list.old.items } }
{
    let _unread = list.drain(from, to);
}

/// Gives the first item of the range, and removes the whole range.
pub fn first_of<T: Drop, A: Allocator>(list: &mut Vec<T, A>, from: usize, to: usize) -> Option<T>
    requires start_le_end { from ≤ to }
    requires in_bounds { to ≤ sequence_len list.old }
    ensures { list.new ≡ record list.old { items = take from list.old.items ++ drop to list.old.items } }
{
    let mut drain = list.drain(from, to);
    drain.next()
}

/// Gives the first item of the range, and removes that item alone.
pub fn take_one<T: Drop, A: Allocator>(list: &mut Vec<T, A>, from: usize, to: usize) -> Option<T>
    requires start_lt_end { from < to }
    requires in_bounds { to ≤ sequence_len list.old }
    ensures { list.new ≡ record list.old { items = take from list.old.items ++ drop (from + 1) list.old.items } }
{
    let mut drain = list.drain(from, to);
    let first = drain.next();
    drain.stop();
    first
}

/// Begins and stops, which changes nothing.
pub fn stop_at_once<T: Drop, A: Allocator>(list: &mut Vec<T, A>, from: usize, to: usize)
    requires start_le_end { from ≤ to }
    requires in_bounds { to ≤ sequence_len list.old }
    ensures { list.new ≡ list.old }
{
    list.drain(from, to).stop();
}

/// Gives the first and the last item of the range, and removes the whole range.
pub fn ends_of<T: Drop, A: Allocator>(
    list: &mut Vec<T, A>,
    from: usize,
    to: usize,
) -> (Option<T>, Option<T>)
    requires start_le_end { from ≤ to }
    requires in_bounds { to ≤ sequence_len list.old }
    ensures { list.new ≡ record list.old { items = take from list.old.items ++ drop to list.old.items } }
{
    let mut both = list.drain(from, to).double_ended();
    let first = both.next();
    let last = both.next_back();
    (first, last)
}

/// Turns a drain into a double-ended one and drops it unread.
pub fn cut_both<T: Drop, A: Allocator>(list: &mut Vec<T, A>, from: usize, to: usize)
    requires start_le_end { from ≤ to }
    requires in_bounds { to ≤ sequence_len list.old }
    ensures { list.new ≡ record list.old { items = take from list.old.items ++ drop to list.old.items } }
{
    let _unread = list.drain(from, to).double_ended();
}

/// Reads one item of a drain before it is read from both ends.
pub fn first_then_last<T: Drop, A: Allocator>(
    list: &mut Vec<T, A>,
    from: usize,
    to: usize,
) -> (Option<T>, Option<T>)
    requires start_le_end { from ≤ to }
    requires in_bounds { to ≤ sequence_len list.old }
    ensures { list.new ≡ record list.old { items = take from list.old.items ++ drop to list.old.items } }
{
    let mut drain = list.drain(from, to);
    let first = drain.next();
    let mut both = drain.double_ended();
    let last = both.next_back();
    (first, last)
}
