//! Fills an index, and reads or changes it as often as each line of the input says.
#![tactic(auto)]

mod fill;
mod readers;
mod rounds;

use readers::read_in_threads;
use rounds::{Rounds, apply_rounds, read_rounds};
use std::alloc::Global;
use std::io;
use std::marker::Sync;
use std::sync::Wait;
use std::thread::Threads;

/// A line of the input: its name and its three numbers.
#[derive(Clone, Copy)]
struct Order<'a> {
    name: &'a str,
    rows: u64,
    width: u64,
    count: u64,
}

fn number(word: &str) -> Option<u64> {
    match word.parse::<u64>() {
        Ok(number) => Some(number),
        Err(_) => None,
    }
}

fn parse(line: &str) -> Option<Order<'_>> {
    let (name, numbers) = line.split_once(' ')?;
    let (rows, numbers) = numbers.split_once(' ')?;
    let (width, count) = numbers.split_once(' ')?;
    Some(Order {
        name,
        rows: number(rows)?,
        width: number(width)?,
        count: number(count)?,
    })
}

fn carry_out<H: Threads + Wait + Sync>(rt: &H, alloc: Global, order: Order<'_>) -> Option<u64> {
    let Order {
        name,
        rows,
        width,
        count,
    } = order;
    match name {
        "group" => read_rounds(rt, alloc, Rounds::Group, rows, width, count),
        "filter" => read_rounds(rt, alloc, Rounds::Filter, rows, width, count),
        "apply" => apply_rounds(rt, alloc, rows, width, count),
        "read" => read_in_threads(rt, alloc, rows, width, count),
        _ => None,
    }
}

fn main(rt: HostRuntime) -> io::Result<()> {
    for line in rt.lines(rt.alloc()) {
        let line = line?;
        let answer = match parse(line.as_str()) {
            Some(order) => carry_out(&rt, rt.alloc(), order),
            None => None,
        };
        match answer {
            Some(number) => println!(rt; "{number}")?,
            None => println!(rt; "not done")?,
        }
    }
    Ok(())
}
