//! A text.
use crate::calls::{Answer, Call, done_or, listed, renewed};
use stabby_text::{BoxedStr, String};
use std::alloc::{AllocError, Global};
use std::mem;

/// The text of a number.
pub fn piece(number: u64) -> &'static str {
    match number % 6 {
        0 => "",
        1 => "a",
        2 => "é",
        3 => "日本",
        4 => "z🦀",
        _ => "plain text",
    }
}

fn set_ascii(text: &mut String<Global>, at: usize, byte: u64) -> Answer {
    if byte > 127 {
        return Answer::Word("outside");
    }
    let bytes = text.as_str().as_bytes();
    let is_ascii = at < bytes.len() && bytes[at] < 128;
    if !is_ascii {
        return Answer::Word("outside");
    }
    text.set_ascii(at, byte as u8);
    Answer::Word("done")
}

// The bytes with one more, where they are a text; else as they were.
fn push_byte(alloc: Global, text: &mut String<Global>, byte: u64) -> Answer {
    let mut bytes = mem::replace(text, String::new_in(alloc)).into_vec();
    let pushed = bytes.try_push((byte & 255) as u8).is_ok();
    match String::try_from_vec(bytes) {
        Ok(made) => {
            *text = made;
            Answer::Word(if pushed { "done" } else { "memory" })
        }
        Err((mut back, _)) => {
            let _ = back.pop();
            match String::try_from_vec(back) {
                Ok(made) => {
                    *text = made;
                    Answer::Word("no text")
                }
                Err(_) => Answer::Word("lost"),
            }
        }
    }
}

// The length and the capacity, by way of the bytes.
fn sizes(alloc: Global, text: &mut String<Global>) -> Answer {
    let bytes = mem::replace(text, String::new_in(alloc)).into_vec();
    let (len, capacity) = (bytes.len() as u64, bytes.capacity() as u64);
    match String::try_from_vec(bytes) {
        Ok(made) => {
            *text = made;
            Answer::Pair("sizes", len, capacity)
        }
        Err(_) => Answer::Word("lost"),
    }
}

/// The bytes of a text, as numbers.
pub fn bytes_of(alloc: Global, text: &str) -> Result<Vec<u64>, AllocError> {
    let mut numbers = Vec::new(alloc);
    for byte in text.as_bytes() {
        numbers.push(u64::from(*byte))?;
    }
    Ok(numbers)
}

/// A call of a text.
pub fn call_text(alloc: Global, text: &mut String<Global>, call: &Call) -> Answer {
    match call.name {
        "concat" => done_or(text.try_concat(piece(call.a))),
        "set" => set_ascii(text, call.a as usize, call.b),
        "fresh" => renewed(text, String::from_str(alloc, piece(call.a))),
        "copy" => {
            let copied = text.copy();
            renewed(text, copied)
        }
        "byte" => push_byte(alloc, text, call.a),
        "through" => {
            let boxed = BoxedStr::from_string(mem::replace(text, String::new_in(alloc)));
            *text = boxed.into_string();
            Answer::Word("done")
        }
        "sizes" => sizes(alloc, text),
        "show" => listed(bytes_of(alloc, text.as_str())),
        _ => Answer::Word("unknown"),
    }
}
