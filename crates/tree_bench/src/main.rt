//! Fills sets as each line of the input says, and prints how many values each has.
#![tactic(auto)]

mod elements;
mod fills;

use elements::{Keys, numbers, tables};
use fills::{Pattern, fill_at};
use stabby_layout::AllocationError;
use std::alloc::Global;
use std::io;

/// A line of the input.
#[derive(Clone, Copy)]
struct Order {
    pattern: Pattern,
    is_of_tables: bool,
    keys: Keys,
    limit: u64,
    count: u64,
}

fn pattern_of(word: &str) -> Option<Pattern> {
    match word {
        "nothing" => Some(Pattern::Nothing),
        "versions" => Some(Pattern::Versions),
        "owner" => Some(Pattern::Owner),
        _ => None,
    }
}

fn keys_of(word: &str) -> Option<Keys> {
    match word {
        "distinct" => Some(Keys::Distinct),
        "skewed" => Some(Keys::Skewed),
        _ => None,
    }
}

fn number_of(word: &str) -> Option<u64> {
    match word.parse::<u64>() {
        Ok(number) => Some(number),
        Err(_) => None,
    }
}

fn parse(line: &str) -> Option<Order> {
    let (pattern, line) = line.split_once(' ')?;
    let (elements, line) = line.split_once(' ')?;
    let (keys, line) = line.split_once(' ')?;
    let (limit, count) = line.split_once(' ')?;
    let is_of_tables = match elements {
        "tables" => true,
        "numbers" => false,
        _ => return None,
    };
    Some(Order {
        pattern: pattern_of(pattern)?,
        is_of_tables,
        keys: keys_of(keys)?,
        limit: number_of(limit)?,
        count: number_of(count)?,
    })
}

fn carry_out(alloc: Global, order: Order) -> Result<Option<usize>, AllocationError> {
    if order.is_of_tables {
        let values = tables(alloc, order.keys, order.count)?;
        fill_at(alloc, order.limit, order.pattern, values)
    } else {
        let values = numbers(alloc, order.keys, order.count)?;
        fill_at(alloc, order.limit, order.pattern, values)
    }
}

fn main(rt: HostRuntime) -> io::Result<()> {
    for line in rt.lines(rt.alloc()) {
        let line = line?;
        let Some(order) = parse(line.as_str()) else {
            println!(rt; "not an order")?;
            continue;
        };
        match carry_out(rt.alloc(), order) {
            Ok(Some(len)) => println!(rt; "{len}")?,
            Ok(None) => println!(rt; "not a limit")?,
            Err(_) => println!(rt; "out of memory")?,
        }
    }
    Ok(())
}
