//! Commits, loads or stores as often as each line of the input says, and prints the stamp that the cell reached.
#![tactic(auto)]

mod numbers;
mod shared;

use numbers::commit;
use shared::{Work, work_in_threads};
use std::io;

/// A line of the input.
#[derive(Clone, Copy)]
enum Order {
    /// A cell of numbers that keeps so many versions, and how often to commit.
    Commit(usize, u64),
    /// A shared value, what so many threads do with it, and how often each.
    Share(Work, u64, u64),
}

fn parse(line: &str) -> Option<Order> {
    let (name, numbers) = line.split_once(' ')?;
    let (first, second) = numbers.split_once(' ')?;
    let Ok(count) = second.parse::<u64>() else {
        return None;
    };
    if name == "commit" {
        return match first.parse::<usize>() {
            Ok(keep) => Some(Order::Commit(keep, count)),
            Err(_) => None,
        };
    }
    let Ok(threads) = first.parse::<u64>() else {
        return None;
    };
    match name {
        "load" => Some(Order::Share(Work::Load, threads, count)),
        "store" => Some(Order::Share(Work::Store, threads, count)),
        _ => None,
    }
}

fn main(rt: HostRuntime) -> io::Result<()> {
    for line in rt.lines(rt.alloc()) {
        let line = line?;
        let reached = match parse(line.as_str()) {
            None => None,
            Some(Order::Commit(keep, count)) => commit(&rt, rt.alloc(), keep, count),
            Some(Order::Share(work, threads, count)) => {
                work_in_threads(&rt, rt.alloc(), work, threads, count)
            }
        };
        match reached {
            Some(stamp) => println!(rt; "{stamp}")?,
            None => println!(rt; "not done")?,
        }
    }
    Ok(())
}
