//! Moving the first items of a slice behind the others, the last first.
ghost use Rattle.std.specs.Prelude.{◌≡◌, ◌≤◌, ◌++◌, length, take, drop, reverse};
ghost use Rattle.std.specs.Mem.Slots.{slots_items, slots_len, slots_filled, IsFull, Refills};
ghost use Rattle.std.specs.Mem.Slots.Ownership.{Filled};
ghost use Rattle.stabby_vec.specs.Inside.Turns.{TurnedFrom};

use core::slots::{Slots, with_slots};

// How many items wait on the stack at most, however small they are.
pub(crate) const MOST_HELD: usize = 512;

// The items from `at` on to below `count` wait on the stack, one a call, while those behind them move to the front;
// they follow there, the last first.
fn hold_each<T>(row: &mut Slots<T>, at: usize, count: usize)
    requires ordered { at ≤ count }
    requires in_bounds { count ≤ slots_len row.old }
    requires filled { Filled (slots_filled row.old) at (slots_len row.old) }
    ensures { TurnedFrom row.old row.new at count }
{
    if at == count {
        let rest = row.len() - count;
        row.move_within(count, 0, rest);
        return;
    }
    let item = row.take(at);
    hold_each(row, at + 1, count);
    let to = row.len() - 1 - at;
    row.put(to, item);
}

// As `hold_each`, eight a call.
fn hold_eights<T>(row: &mut Slots<T>, at: usize, count: usize)
    requires ordered { at ≤ count }
    requires in_bounds { count ≤ slots_len row.old }
    requires filled { Filled (slots_filled row.old) at (slots_len row.old) }
    ensures { TurnedFrom row.old row.new at count }
{
    if count - at < 8 {
        return hold_each(row, at, count);
    }
    let first = row.take(at);
    let second = row.take(at + 1);
    let third = row.take(at + 2);
    let fourth = row.take(at + 3);
    let fifth = row.take(at + 4);
    let sixth = row.take(at + 5);
    let seventh = row.take(at + 6);
    let eighth = row.take(at + 7);
    hold_eights(row, at + 8, count);
    let to = row.len() - 8 - at;
    row.put(to, eighth);
    row.put(to + 1, seventh);
    row.put(to + 2, sixth);
    row.put(to + 3, fifth);
    row.put(to + 4, fourth);
    row.put(to + 5, third);
    row.put(to + 6, second);
    row.put(to + 7, first);
}

fn turn_row<T>(mut row: Slots<T>, state: (), count: usize) -> (Slots<T>, (), ())
    requires in_bounds { count ≤ slots_len row }
    requires full { IsFull row }
    ensures refills { Refills row result.0 }
    ensures turned { slots_items result.0 ≡ drop count (slots_items row) ++ reverse (take count (slots_items row)) }
{
    hold_eights(&mut row, 0, count);
    (row, state, ())
}

// The first `count` items go behind the others, the last first.
pub(crate) fn turn_out<T>(items: &mut [T], count: usize)
    requires { count ≤ length items.old }
    ensures { items.new ≡ drop count items.old ++ reverse (take count items.old) }
{
    let mut nothing = ();
    unsafe { with_slots(items, &mut nothing, count, turn_row) }
}
