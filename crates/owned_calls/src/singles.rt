//! A list that keeps one item inline, and a list that never grows.
use crate::calls::{Answer, Call, done_or, listed, renewed, reserved, taken};
use stabby_vec::{BoxedSlice, SingleOrVec, Vec};
use std::alloc::Global;
use std::mem;

fn extend(list: &mut SingleOrVec<u64, Global>, items: &[u64]) -> Answer {
    match list.extend(items.iter().copied()) {
        Ok(()) => Answer::Word("done"),
        Err(_) => Answer::Number("memory", list.len() as u64),
    }
}

// To a list and back.
fn through_list(alloc: Global, list: &mut SingleOrVec<u64, Global>) -> Answer {
    match mem::replace(list, SingleOrVec::new_in(alloc)).into_vec() {
        Ok(made) => {
            *list = SingleOrVec::from_vec(made);
            Answer::Word("done")
        }
        Err((back, error)) => {
            *list = back;
            done_or(Err(error))
        }
    }
}

/// A call of a list that keeps one item inline.
pub fn call_single(alloc: Global, list: &mut SingleOrVec<u64, Global>, call: &Call) -> Answer {
    match call.name {
        "push" => taken(list.try_push(call.a)),
        "truncate" => {
            list.truncate(call.a as usize);
            Answer::Word("done")
        }
        "reserve" => reserved(list.try_reserve(call.a as usize)),
        "extend" => extend(list, &[call.a, call.b, call.c]),
        "copy" => {
            let copied = list.copy();
            renewed(list, copied)
        }
        "through" => through_list(alloc, list),
        "fresh" => renewed(list, Ok(SingleOrVec::new_in(alloc))),
        "inline" => Answer::Number("inline", list.is_inline() as u64),
        "sizes" => Answer::Pair("sizes", list.len() as u64, list.capacity() as u64),
        "show" => listed(list.as_slice().to_vec(alloc)),
        _ => Answer::Word("unknown"),
    }
}

// A list with more room, and back.
fn widen(alloc: Global, slice: &mut BoxedSlice<u64, Global>, additional: u64) -> Answer {
    let mut list = mem::replace(slice, BoxedSlice::from_vec(Vec::new_in(alloc))).into_vec();
    let widened = list.reserve(additional as usize);
    *slice = BoxedSlice::from_vec(list);
    done_or(widened)
}

/// A call of a list that never grows.
pub fn call_boxed(alloc: Global, slice: &mut BoxedSlice<u64, Global>, call: &Call) -> Answer {
    match call.name {
        "push" => match slice.try_push(call.a) {
            Ok(()) => Answer::Word("done"),
            Err(back) => Answer::Number("full", back),
        },
        "fresh" => renewed(slice, BoxedSlice::with_capacity_in(alloc, call.a as usize)),
        "widen" => widen(alloc, slice, call.a),
        "sizes" => Answer::Pair("sizes", slice.len() as u64, slice.capacity() as u64),
        "show" => listed(slice.as_slice().to_vec(alloc)),
        _ => Answer::Word("unknown"),
    }
}
