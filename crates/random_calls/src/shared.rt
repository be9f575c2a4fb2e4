//! Places for handles of shared slices and of shared texts.
use crate::handles::{Places, live, made_of, not_raised, put, take};
use owned_calls::{Answer, Call, bytes_of, listed, piece};
use stabby_count::{ArcSlice, ArcStr, WeakSlice, WeakStr};
use stabby_text::String;
use std::alloc::Global;
use std::sync::Wait;

pub type Slices = Places<ArcSlice<u64>, WeakSlice<u64>>;

pub type Texts = Places<ArcStr, WeakStr>;

// A new handle of the one at a place, and the answer.
macro_rules! raised {
    ($handles:expr, $rt:expr, $call:expr) => {
        match $call.name {
            "clone" => {
                let made = made_of!($handles.strong, $call.a, handle => handle.clone($rt));
                put(&mut $handles.strong, $call.b, made.map_err(not_raised))
            }
            "downgrade" => {
                let made = made_of!($handles.strong, $call.a, handle => handle.downgrade($rt));
                put(&mut $handles.weak, $call.b, made.map_err(not_raised))
            }
            _ => {
                let made = made_of!($handles.weak, $call.a, handle => handle.upgrade($rt));
                put(&mut $handles.strong, $call.b, made.map_err(not_raised).and_then(live))
            }
        }
    };
}

fn raise_slice<H: Wait>(slices: &mut Slices, rt: &H, call: &Call) -> Answer {
    raised!(slices, rt, call)
}

fn raise_text<H: Wait>(texts: &mut Texts, rt: &H, call: &Call) -> Answer {
    raised!(texts, rt, call)
}

// The list, where this is the only handle.
fn unwrap_slice(slices: &mut Slices, alloc: Global, at: u64) -> Answer {
    match take(&mut slices.strong, at) {
        None => Answer::Word("empty"),
        Some(handle) => match handle.try_into_vec() {
            Ok(list) => listed(list.as_slice().to_vec(alloc)),
            Err(back) => {
                let _ = put(&mut slices.strong, at, Ok(back));
                Answer::Word("shared")
            }
        },
    }
}

fn unwrap_text(texts: &mut Texts, alloc: Global, at: u64) -> Answer {
    match take(&mut texts.strong, at) {
        None => Answer::Word("empty"),
        Some(handle) => match handle.try_into_string() {
            Ok(text) => listed(bytes_of(alloc, text.as_str())),
            Err(back) => {
                let _ = put(&mut texts.strong, at, Ok(back));
                Answer::Word("shared")
            }
        },
    }
}

fn make_text(texts: &mut Texts, alloc: Global, call: &Call) -> Answer {
    let Ok(text) = String::from_str(alloc, piece(call.b)) else {
        return Answer::Word("memory");
    };
    match ArcStr::from_string(alloc, text) {
        Ok(handle) => put(&mut texts.strong, call.a, Ok(handle)),
        Err((back, _)) => Answer::Number("memory", back.as_str().len() as u64),
    }
}

/// A call of handles of slices.
pub fn call_slices<H: Wait>(slices: &mut Slices, rt: &H, alloc: Global, call: &Call) -> Answer {
    match call.name {
        "make" => match ArcSlice::from_slice(alloc, &[call.b, call.c]) {
            Ok(handle) => put(&mut slices.strong, call.a, Ok(handle)),
            Err(_) => Answer::Word("memory"),
        },
        "clone" | "downgrade" | "upgrade" => raise_slice(slices, rt, call),
        "unwrap" => unwrap_slice(slices, alloc, call.a),
        "counts" => made_of!(slices.strong, call.a, handle => {
            Answer::Pair("counts", handle.strong_count(), handle.weak_count())
        }),
        "read" =>
            made_of!(slices.strong, call.a, handle => listed(handle.as_slice().to_vec(alloc))),
        _ => Answer::Word("unknown"),
    }
}

/// A call of handles of texts.
pub fn call_texts<H: Wait>(texts: &mut Texts, rt: &H, alloc: Global, call: &Call) -> Answer {
    match call.name {
        "make" => make_text(texts, alloc, call),
        "clone" | "downgrade" | "upgrade" => raise_text(texts, rt, call),
        "unwrap" => unwrap_text(texts, alloc, call.a),
        "read" =>
            made_of!(texts.strong, call.a, handle => listed(bytes_of(alloc, handle.as_str()))),
        _ => Answer::Word("unknown"),
    }
}
