//! Inserts tables into a registry as each line of the input says, and prints how many tables the registry then has.
#![tactic(auto)]

mod inserts;
mod rows;
mod trees;

use inserts::Order;
use std::alloc::Global;
use std::io;
use std::marker::Sync;
use std::sync::Wait;
use std::thread::Threads;

/// The registry of an order.
#[derive(Clone, Copy)]
enum Kind {
    Row,
    Tree,
}

fn kind_of(name: &str) -> Option<Kind> {
    match name {
        "row" => Some(Kind::Row),
        "tree" => Some(Kind::Tree),
        _ => None,
    }
}

fn parse(line: &str) -> Option<(Kind, Order)> {
    let (name, order) = line.split_once(' ')?;
    let kind = kind_of(name)?;
    let order = inserts::parse(order)?;
    Some((kind, order))
}

fn carry_out<H: Threads + Wait + Sync>(
    rt: &H,
    alloc: Global,
    kind: Kind,
    order: Order,
) -> Option<u64> {
    let Ok(tables) = inserts::tables(alloc, order.tables) else {
        return None;
    };
    match kind {
        Kind::Row => rows::carry_out(rt, alloc, &tables, order),
        Kind::Tree => trees::carry_out(rt, alloc, &tables, order),
    }
}

fn main(rt: HostRuntime) -> io::Result<()> {
    for line in rt.lines(rt.alloc()) {
        let line = line?;
        let had = match parse(line.as_str()) {
            None => None,
            Some((kind, order)) => carry_out(&rt, rt.alloc(), kind, order),
        };
        match had {
            Some(tables) => println!(rt; "{tables}")?,
            None => println!(rt; "not done")?,
        }
    }
    Ok(())
}
