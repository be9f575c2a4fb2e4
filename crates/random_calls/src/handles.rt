//! Places for strong handles and for weak ones, of whichever numbers are shared.
use owned_calls::{Answer, Call, found, taken};
use stabby_count::{Arc, CountFault, TryCountFault, Weak};
use std::alloc::{AllocError, Global};
use std::sync::Wait;

/// Handles in their places.
#[derive(Drop)]
pub struct Places<S: Drop, W: Drop> {
    pub strong: Vec<Option<S>>,
    pub weak: Vec<Option<W>>,
}

pub type Handles = Places<Arc<u64>, Weak<u64>>;

/// Why a count was not raised.
pub fn not_raised(fault: CountFault) -> Answer {
    match fault {
        CountFault::Memory => Answer::Word("memory"),
        CountFault::Full { word } => Answer::Number("full", word),
    }
}

fn not_tried(fault: TryCountFault) -> Answer {
    match fault {
        TryCountFault::Memory => Answer::Word("memory"),
        TryCountFault::Full { word } => Answer::Number("full", word),
        TryCountFault::Moved { first, second } => Answer::Pair("moved", first, second),
    }
}

/// Puts a handle that was made at its place; what was there is let go.
pub fn put<T: Drop>(places: &mut Vec<Option<T>>, at: u64, made: Result<T, Answer>) -> Answer {
    match (made, places.get_mut(at as usize)) {
        (Err(answer), _) => answer,
        (Ok(_), None) => Answer::Word("outside"),
        (Ok(handle), Some(place)) => {
            *place = Some(handle);
            Answer::Word("done")
        }
    }
}

/// Takes what is at a place.
pub fn take<T: Drop>(places: &mut Vec<Option<T>>, at: u64) -> Option<T> {
    match places.get_mut(at as usize) {
        Some(place) => place.take(),
        None => None,
    }
}

fn empty<T: Drop>(alloc: Global, count: u32) -> Result<Vec<Option<T>>, AllocError> {
    let mut places = Vec::new(alloc);
    for _ in 0..count {
        places.push(None)?;
    }
    Ok(places)
}

impl<S: Drop, W: Drop> Places<S, W> {
    /// So many empty places for strong handles, and so many for weak ones.
    pub fn new(alloc: Global, count: u32) -> Result<Places<S, W>, AllocError> {
        Ok(Places {
            strong: empty(alloc, count)?,
            weak: empty(alloc, count)?,
        })
    }
}

// What a call makes of the handle at a place.
macro_rules! made_of {
    ($places:expr, $at:expr, $handle:ident => $made:expr) => {
        match $places.get_mut($at as usize) {
            Some(Some($handle)) => $made,
            _ => return Answer::Word("empty"),
        }
    };
}

pub(crate) use made_of;

// A new handle of the one at this place, by whichever call.
fn raise<H: Wait>(handles: &mut Handles, rt: &H, call: &Call) -> Answer {
    let waits = call.c == 0;
    match call.name {
        "clone" => {
            let made = made_of!(handles.strong, call.a, handle => if waits {
                handle.clone(rt).map_err(not_raised)
            } else {
                handle.try_clone().map_err(not_tried)
            });
            put(&mut handles.strong, call.b, made)
        }
        "downgrade" => {
            let made = made_of!(handles.strong, call.a, handle => if waits {
                handle.downgrade(rt).map_err(not_raised)
            } else {
                handle.try_downgrade().map_err(not_tried)
            });
            put(&mut handles.weak, call.b, made)
        }
        "upgrade" => {
            let made = made_of!(handles.weak, call.a, handle => if waits {
                handle.upgrade(rt).map_err(not_raised)
            } else {
                handle.try_upgrade().map_err(not_tried)
            });
            put(&mut handles.strong, call.b, made.and_then(live))
        }
        _ => {
            let made = made_of!(handles.weak, call.a, handle => handle.clone(rt));
            put(&mut handles.weak, call.b, made.map_err(not_raised))
        }
    }
}

/// The handle of a value that is still there.
pub fn live<T: Drop>(found: Option<T>) -> Result<T, Answer> {
    match found {
        Some(handle) => Ok(handle),
        None => Err(Answer::Word("gone")),
    }
}

// What a strong handle answers that stays in its place.
fn used(handle: &mut Arc<u64>, alloc: Global, call: &Call) -> Answer {
    match call.name {
        "set" => match handle.get_mut() {
            Some(place) => {
                *place = call.b;
                Answer::Word("done")
            }
            None => Answer::Word("shared"),
        },
        "own" => match handle.make_mut(alloc) {
            Ok(place) => {
                *place = call.b;
                Answer::Word("done")
            }
            Err(_) => Answer::Word("memory"),
        },
        "counts" => Answer::Pair("counts", handle.strong_count(), handle.weak_count()),
        "unique" => Answer::Number("unique", handle.is_unique() as u64),
        _ => found(Some(**handle)),
    }
}

fn end(handles: &mut Handles, at: u64) -> Answer {
    match take(&mut handles.strong, at) {
        None => Answer::Word("empty"),
        Some(handle) => match handle.end() {
            Ok(value) => Answer::Number("value", value),
            Err(spent) => Answer::Number("word", spent.word()),
        },
    }
}

// The value, where this is the only handle.
fn unwrap(handles: &mut Handles, at: u64) -> Answer {
    match take(&mut handles.strong, at) {
        None => Answer::Word("empty"),
        Some(handle) => match handle.try_into_inner() {
            Ok(value) => Answer::Number("value", value),
            Err(back) => {
                let _ = put(&mut handles.strong, at, Ok(back));
                Answer::Word("shared")
            }
        },
    }
}

/// A call of the handles.
pub fn call_handles<H: Wait>(handles: &mut Handles, rt: &H, alloc: Global, call: &Call) -> Answer {
    match call.name {
        "make" => match Arc::try_new_in(alloc, call.b) {
            Ok(handle) => put(&mut handles.strong, call.a, Ok(handle)),
            Err(back) => taken(Err(back)),
        },
        "clone" | "downgrade" | "upgrade" | "weak" => raise(handles, rt, call),
        "end" => end(handles, call.a),
        "endweak" => match take(&mut handles.weak, call.a) {
            None => Answer::Word("empty"),
            Some(handle) => Answer::Number("word", handle.end().word()),
        },
        "unwrap" => unwrap(handles, call.a),
        "set" | "own" | "counts" | "unique" | "read" => {
            made_of!(handles.strong, call.a, handle => used(handle, alloc, call))
        }
        _ => Answer::Word("unknown"),
    }
}
