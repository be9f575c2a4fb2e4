//! Inserts into a registry in a row.
ghost use Rattle.std.specs.Prelude.{◌<◌, IfSome};
ghost use Rattle.std.specs.Thread.{IsSync};
ghost use Rattle.stabby_registry.specs.Rows.{IsPassOf, IsWhole, weight_of};

use crate::inserts::{Order, Work, insert_every};
use stabby_registry::{RowPass, VtVec, WordTable};
use std::alloc::Global;
use std::marker::Sync;
use std::sync::Wait;
use std::thread::{Threads, join};

/// The inserts of one of `step` threads.
fn insert_share<H: Wait>(
    rt: &H,
    alloc: Global,
    registry: &VtVec,
    mut pass: RowPass,
    tables: &[WordTable],
    first: usize,
    step: usize,
    count: u64,
) -> RowPass
    requires { IsPassOf registry.now pass }
    ensures { IsPassOf registry.now result }
{
    insert_every(rt, alloc, registry, &mut pass, tables, first, step, count);
    pass
}

/// The inserts of two of four threads.
fn insert_in_two<H: Threads + Wait + Sync>(
    rt: &H,
    alloc: Global,
    registry: &VtVec,
    mut pass: RowPass,
    tables: &[WordTable],
    first: usize,
    second: usize,
    count: u64,
) -> RowPass
    requires { IsPassOf registry.now pass × (1 < weight_of pass) }
    ensures { IsPassOf registry.now result }
{
    let other = registry.split(&mut pass, 1);
    let (mut one, two) = join(
        rt,
        || -> RowPass
            requires { IsSync H.row × IsPassOf registry.now pass }
            ensures { IsPassOf registry.entry.now result }
        { insert_share(rt, alloc, registry, pass, tables, first, 4, count) },
        || -> RowPass
            requires { IsSync H.row × IsPassOf registry.now other }
            ensures { IsPassOf registry.entry.now result }
        { insert_share(rt, alloc, registry, other, tables, second, 4, count) },
    );
    registry.join(&mut one, two);
    one
}

fn insert_in_four<H: Threads + Wait + Sync>(
    rt: &H,
    alloc: Global,
    registry: &VtVec,
    mut pass: RowPass,
    tables: &[WordTable],
    count: u64,
) -> RowPass
    requires { IsPassOf registry.now pass × (3 < weight_of pass) }
    ensures { IsPassOf registry.now result }
{
    let other = registry.split(&mut pass, 2);
    let (mut one, two) = join(
        rt,
        || -> RowPass
            requires { IsSync H.row × IsPassOf registry.now pass × (1 < weight_of pass) }
            ensures { IsPassOf registry.entry.now result }
        { insert_in_two(rt, alloc, registry, pass, tables, 0, 1, count) },
        || -> RowPass
            requires { IsSync H.row × IsPassOf registry.now other × (1 < weight_of other) }
            ensures { IsPassOf registry.entry.now result }
        { insert_in_two(rt, alloc, registry, other, tables, 2, 3, count) },
    );
    registry.join(&mut one, two);
    one
}

/// A registry with room for so many tables of four words, 1 to 1,000,000, and its pass.
fn registry_for(alloc: Global, tables: u64) -> Option<(VtVec, RowPass)>
    ensures { IfSome result (λ made. IsPassOf made.0 made.1 × IsWhole made.1) }
{
    if tables < 1 || tables > 1_000_000 {
        return None;
    }
    VtVec::new(alloc, 6 * tables).ok()
}

/// Inserts all tables into a new registry, and says how many it has.
fn insert_new<H: Threads + Wait + Sync>(
    rt: &H,
    alloc: Global,
    tables: &[WordTable],
    threads: u64,
) -> Option<u64> {
    let len = tables.len() as u64;
    let (registry, pass) = registry_for(alloc, len)?;
    match threads {
        1 => Some(insert_share(rt, alloc, &registry, pass, tables, 0, 1, len).seen()),
        4 => Some(insert_in_four(rt, alloc, &registry, pass, tables, len / 4).seen()),
        _ => None,
    }
}

/// Inserts known tables, and says how many the registry has.
fn insert_known<H: Threads + Wait + Sync>(
    rt: &H,
    alloc: Global,
    tables: &[WordTable],
    threads: u64,
    count: u64,
) -> Option<u64> {
    let len = tables.len() as u64;
    let (registry, mut pass) = registry_for(alloc, len)?;
    let filling = registry.split(&mut pass, 1);
    let filled = insert_share(rt, alloc, &registry, filling, tables, 0, 1, len);
    registry.join(&mut pass, filled);
    match threads {
        1 => Some(insert_share(rt, alloc, &registry, pass, tables, 0, 1, count).seen()),
        4 => Some(insert_in_four(rt, alloc, &registry, pass, tables, count).seen()),
        _ => None,
    }
}

/// Carries an order out, and says how many tables the last registry has. `None` at other numbers than an order may have.
pub(crate) fn carry_out<H: Threads + Wait + Sync>(
    rt: &H,
    alloc: Global,
    tables: &[WordTable],
    order: Order,
) -> Option<u64> {
    match order.work {
        Work::Known => insert_known(rt, alloc, tables, order.threads, order.count),
        Work::New => {
            let mut had = Some(0);
            for _ in 0..order.count {
                had = insert_new(rt, alloc, tables, order.threads);
            }
            had
        }
    }
}
