//! Reads and writes records as each line of the input says, in hexadecimal, and prints what came of it.
#![tactic(auto)]

mod cases;
mod rounds;

use cases::{Answer, put_under, read_under};
use rounds::{read_rounds, write_rounds};
use std::alloc::Global;
use std::io;

/// A line of the input: its name, and its two words.
fn split(line: &str) -> Option<(&str, &str, &str)> {
    let (name, words) = line.split_once(' ')?;
    let (first, second) = words.split_once(' ')?;
    Some((name, first, second))
}

fn carry_out_rounds(alloc: Global, name: &str, bytes: &[u8], second: &str) -> Answer {
    let Ok(count) = second.parse::<u64>() else {
        return Answer::NoOrder;
    };
    match name {
        "writes" => write_rounds(alloc, bytes, count),
        "reads" => read_rounds(alloc, bytes, count),
        _ => Answer::NoOrder,
    }
}

fn carry_out(alloc: Global, line: &str) -> Answer {
    let Some((name, first, second)) = split(line) else {
        return Answer::NoOrder;
    };
    let Ok(bytes) = hex::decode(alloc, first) else {
        return Answer::NoOrder;
    };
    if name != "read" && name != "put" {
        return carry_out_rounds(alloc, name, bytes.as_slice(), second);
    }
    let Ok(message) = hex::decode(alloc, second) else {
        return Answer::NoOrder;
    };
    let written = if name == "read" {
        read_under(alloc, bytes.as_slice(), message.as_slice())
    } else {
        put_under(alloc, bytes.as_slice(), message.as_slice())
    };
    match written {
        Ok(bytes) => Answer::Bytes { bytes },
        Err(answer) => answer,
    }
}

fn main(rt: HostRuntime) -> io::Result<()> {
    for line in rt.lines(rt.alloc()) {
        let line = line?;
        match carry_out(rt.alloc(), line.as_str()) {
            Answer::NoOrder => println!(rt; "not an order")?,
            Answer::Memory => println!(rt; "out of memory")?,
            Answer::NotRecord => println!(rt; "not a record")?,
            Answer::Refused { cause, at } => println!(rt; "{cause} {at}")?,
            Answer::Sum { sum } => println!(rt; "{sum}")?,
            Answer::Bytes { bytes } => match hex::encode(rt.alloc(), bytes.as_slice()) {
                Ok(text) => println!(rt; "{text}")?,
                Err(_) => println!(rt; "out of memory")?,
            },
        }
    }
    Ok(())
}
