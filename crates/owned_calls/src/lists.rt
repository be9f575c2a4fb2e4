//! A list and its drains.
use crate::calls::{Answer, Call, done_or, found, listed, renewed, reserved, taken};
use stabby_vec::{DoubleEndedDrain, Drain, Vec};
use std::alloc::Global;

/// The sum so far with one more item, or with the lack of one.
fn mixed(sum: u64, item: Option<u64>) -> u64 {
    let last = match item {
        Some(item) => item.wrapping_add(1),
        None => 0,
    };
    sum.wrapping_mul(31).wrapping_add(last)
}

fn read_front(drain: &mut Drain<'_, u64, Global>, sum: u64, times: u64) -> u64 {
    let mut sum = sum;
    for _ in 0..times {
        sum = mixed(sum, drain.next());
    }
    sum
}

// From the back; where both ends are read, one of the front goes before each.
fn read_back(drain: &mut DoubleEndedDrain<'_, u64, Global>, sum: u64, call: &Call) -> u64 {
    let mut sum = sum;
    for _ in 0..call.c {
        if call.name == "ends" {
            sum = mixed(sum, drain.next());
        }
        sum = mixed(sum, drain.next_back());
    }
    sum
}

fn drained(list: &mut Vec<u64, Global>, call: &Call) -> Answer {
    let Some(mut drain) = list.try_drain(call.a as usize, call.b as usize) else {
        return Answer::Word("outside");
    };
    let len = drain.len() as u64;
    let sum = match call.name {
        "drain" => {
            let sum = read_front(&mut drain, len, call.c);
            drop(drain);
            sum
        }
        "ends" => read_back(&mut drain.double_ended(), len, call),
        "stop" => {
            let sum = read_front(&mut drain, 0, call.c);
            drain.stop();
            sum
        }
        _ => {
            let sum = read_front(&mut drain, 0, call.c);
            let mut both = drain.double_ended();
            let sum = read_back(&mut both, sum, call);
            mixed(sum, both.next()).wrapping_add(both.len() as u64)
        }
    };
    Answer::Number("read", sum)
}

// As much of the three numbers as there was room for; a refusal tells how many items there are.
fn extend(list: &mut Vec<u64, Global>, items: &[u64]) -> Answer {
    match list.extend(items.iter().copied()) {
        Ok(()) => Answer::Word("done"),
        Err(_) => Answer::Number("memory", list.len() as u64),
    }
}

fn swap(list: &mut Vec<u64, Global>, a: usize, b: usize) -> Answer {
    if a >= list.len() || b >= list.len() {
        return Answer::Word("outside");
    }
    list.swap(a, b);
    Answer::Word("done")
}

/// A call of a list.
pub fn call_list(alloc: Global, list: &mut Vec<u64, Global>, call: &Call) -> Answer {
    match call.name {
        "push" => taken(list.try_push(call.a)),
        "pop" => found(list.pop()),
        "remove" => found(list.remove(call.a as usize)),
        "take" => found(list.swap_remove(call.a as usize)),
        "truncate" => {
            list.truncate(call.a as usize);
            Answer::Word("done")
        }
        "swap" => swap(list, call.a as usize, call.b as usize),
        "reserve" => reserved(list.try_reserve(call.a as usize)),
        "append" => done_or(list.try_copy_extend(&[call.a, call.b, call.c])),
        "extend" => extend(list, &[call.a, call.b, call.c]),
        "copy" => {
            let copied = list.copy();
            renewed(list, copied)
        }
        "sizes" => Answer::Pair("sizes", list.len() as u64, list.capacity() as u64),
        "show" => listed(list.as_slice().to_vec(alloc)),
        "drain" | "stop" | "ends" | "back" => drained(list, call),
        _ => Answer::Word("unknown"),
    }
}
