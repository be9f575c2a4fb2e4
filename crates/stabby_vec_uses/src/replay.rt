//! A replay of seeded random calls on a list and on std's list: no difference.
ghost use Rattle.std.specs.Prelude.{◌<◌};

use stabby_vec::Vec;
use std::alloc::Global;
use std::test::Fail;

// How many calls the replay makes.
const CALLS: u32 = 100_000;

// A linear congruential generator.
#[derive(Drop)]
struct Draws {
    state: u64,
}

impl Draws {
    // The next number, below `bound` where that is not 0.
    fn below(&mut self, bound: usize) -> usize
        ensures { 0 < bound → result < bound }
    {
        self.state = self
            .state
            .wrapping_mul(6_364_136_223_846_793_005)
            .wrapping_add(1_442_695_040_888_963_407);
        let number = (self.state >> 33) as usize;
        if bound == 0 {
            return 0;
        }
        number % bound
    }
}

// The capacity that a push leaves.
fn capacity_after_push(len: usize, capacity: usize) -> usize {
    if len < capacity {
        return capacity;
    }
    if capacity == 0 {
        return 8;
    }
    capacity.saturating_add((capacity / 2).max(1))
}

fn push(
    list: &mut Vec<u32, Global>,
    other: &mut std::vec::Vec<u32>,
    value: u32,
) -> Result<bool, Fail> {
    let expected = capacity_after_push(list.len(), list.capacity());
    list.push(value)?;
    other.push(value)?;
    Ok(list.capacity() == expected)
}

fn remove(list: &mut Vec<u32, Global>, other: &mut std::vec::Vec<u32>, index: usize) -> bool {
    let expected = if index < other.len() {
        Some(other.remove(index))
    } else {
        None
    };
    list.remove(index) == expected
}

fn swap_remove(list: &mut Vec<u32, Global>, other: &mut std::vec::Vec<u32>, index: usize) -> bool {
    let expected = if index < other.len() {
        Some(other.swap_remove(index))
    } else {
        None
    };
    list.swap_remove(index) == expected
}

fn swap(list: &mut Vec<u32, Global>, other: &mut std::vec::Vec<u32>, a: usize, b: usize) {
    if a < list.len() && b < list.len() {
        list.swap(a, b);
    }
    if a < other.len() && b < other.len() {
        other.swap(a, b);
    }
}

// Removes the places from `from` to below `to` of std's list, where it has them.
fn cut_other(other: &mut std::vec::Vec<u32>, from: usize, to: usize) {
    if from <= to && to <= other.len() {
        drop(other.drain(from..to));
    }
}

// Drains a range, reads `reads` items at the front, and drops the rest.
fn drain_and_drop(
    list: &mut Vec<u32, Global>,
    other: &mut std::vec::Vec<u32>,
    from: usize,
    to: usize,
    reads: usize,
) -> bool {
    let mut same = true;
    if let Some(mut drain) = list.try_drain(from, to) {
        for read in 0..reads {
            let expected = if read < to.saturating_sub(from) {
                other.get(from.saturating_add(read)).copied()
            } else {
                None
            };
            same = same && drain.next() == expected;
        }
    }
    cut_other(other, from, to);
    same
}

// Drains a range, reads `reads` items at the front, and stops.
fn drain_and_stop(
    list: &mut Vec<u32, Global>,
    other: &mut std::vec::Vec<u32>,
    from: usize,
    to: usize,
    reads: usize,
) {
    let read = reads.min(to.saturating_sub(from));
    if let Some(mut drain) = list.try_drain(from, to) {
        for _ in 0..read {
            let _item = drain.next();
        }
        drain.stop();
    }
    cut_other(other, from, from.saturating_add(read));
}

// Drains a range from both ends in turn, and drops the rest.
fn drain_both_ends(
    list: &mut Vec<u32, Global>,
    other: &mut std::vec::Vec<u32>,
    from: usize,
    to: usize,
) -> bool {
    let mut same = true;
    if let Some(drain) = list.try_drain(from, to) {
        let mut both = drain.double_ended();
        let first = both.next();
        let last = both.next_back();
        if from < to {
            same = first == other.get(from).copied();
        }
        if to.saturating_sub(from) > 1 {
            same = same && last == other.get(to.saturating_sub(1)).copied();
        }
    }
    cut_other(other, from, to);
    same
}

// One call, drawn at random: whether both lists answered the same.
fn step(
    draws: &mut Draws,
    list: &mut Vec<u32, Global>,
    other: &mut std::vec::Vec<u32>,
) -> Result<bool, Fail> {
    let len = list.len();
    // A long list is only shortened, so that the lengths go up and down.
    let call = draws.below(if len < 200 { 32 } else { 9 });
    let value = draws.below(1000) as u32;
    let a = draws.below(len.saturating_add(1));
    let b = draws.below(len.saturating_add(1));
    let (from, to) = (a.min(b), a.max(b));
    match call {
        0 => Ok(list.pop() == other.pop()),
        1 => Ok(remove(list, other, a)),
        2 => Ok(swap_remove(list, other, a)),
        3 => {
            swap(list, other, a, b);
            Ok(true)
        }
        4 => {
            let keep = len.saturating_sub(a.min(4));
            list.truncate(keep);
            other.truncate(keep);
            Ok(true)
        }
        5 => Ok(drain_and_drop(list, other, from, to.min(from.saturating_add(6)), b)),
        6 => {
            drain_and_stop(list, other, from, to, value as usize % 5);
            Ok(true)
        }
        7 => Ok(drain_both_ends(list, other, from, to.min(from.saturating_add(5)))),
        8 => {
            list.try_copy_extend(&[value, 1, 2])?;
            other.extend_from_slice(&[value, 1, 2])?;
            Ok(true)
        }
        _ => push(list, other, value),
    }
}

#[test]
fn replay_against_std(rt: HostRuntime) -> Result<(), Fail> {
    let mut draws = Draws { state: 2026 };
    let mut list = Vec::new_in(rt.alloc());
    let mut other = std::vec::Vec::new(rt.alloc());
    for call in 0..CALLS {
        assert!(rt; step(&mut draws, &mut list, &mut other)?);
        if call % 64 == 0 {
            assert_eq!(rt; list.as_slice(), other.as_slice());
        }
    }
    assert_eq!(rt; list.as_slice(), other.as_slice());
    assert!(rt; list.capacity() > 100);
    Ok(())
}
