//! Inserts into a registry in a tree.
ghost use Rattle.std.specs.Prelude.{◌<◌, IfSome};
ghost use Rattle.std.specs.Thread.{IsSync};
ghost use Rattle.stabby_registry.specs.Passes.{IsPassOf, IsWhole, weight_of};

use crate::inserts::{Order, Work, insert_every};
use stabby_registry::{TreePass, VtBtree, WordTable};
use std::alloc::Global;
use std::marker::Sync;
use std::sync::Wait;
use std::thread::{Threads, join};

/// The inserts of one of `step` threads.
fn insert_share<H: Wait>(
    rt: &H,
    alloc: Global,
    registry: &VtBtree<5>,
    mut pass: TreePass<5>,
    tables: &[WordTable],
    first: usize,
    step: usize,
    count: u64,
) -> TreePass<5>
    requires { IsPassOf registry.now pass }
    ensures { IsPassOf registry.now result }
{
    insert_every(rt, alloc, registry, &mut pass, tables, first, step, count);
    pass
}

/// The inserts of two of four threads.
fn insert_in_two<H: Threads + Wait + Sync>(
    rt: &H,
    alloc: Global,
    registry: &VtBtree<5>,
    mut pass: TreePass<5>,
    tables: &[WordTable],
    first: usize,
    second: usize,
    count: u64,
) -> TreePass<5>
    requires { IsPassOf registry.now pass × (1 < weight_of pass) }
    ensures { IsPassOf registry.now result }
{
    let other = registry.split(&mut pass, 1);
    let (mut one, two) = join(
        rt,
        || -> TreePass<5>
            requires { IsSync H.row × IsPassOf registry.now pass }
            ensures { IsPassOf registry.entry.now result }
        { insert_share(rt, alloc, registry, pass, tables, first, 4, count) },
        || -> TreePass<5>
            requires { IsSync H.row × IsPassOf registry.now other }
            ensures { IsPassOf registry.entry.now result }
        { insert_share(rt, alloc, registry, other, tables, second, 4, count) },
    );
    registry.join(&mut one, two);
    one
}

fn insert_in_four<H: Threads + Wait + Sync>(
    rt: &H,
    alloc: Global,
    registry: &VtBtree<5>,
    mut pass: TreePass<5>,
    tables: &[WordTable],
    count: u64,
) -> TreePass<5>
    requires { IsPassOf registry.now pass × (3 < weight_of pass) }
    ensures { IsPassOf registry.now result }
{
    let other = registry.split(&mut pass, 2);
    let (mut one, two) = join(
        rt,
        || -> TreePass<5>
            requires { IsSync H.row × IsPassOf registry.now pass × (1 < weight_of pass) }
            ensures { IsPassOf registry.entry.now result }
        { insert_in_two(rt, alloc, registry, pass, tables, 0, 1, count) },
        || -> TreePass<5>
            requires { IsSync H.row × IsPassOf registry.now other × (1 < weight_of other) }
            ensures { IsPassOf registry.entry.now result }
        { insert_in_two(rt, alloc, registry, other, tables, 2, 3, count) },
    );
    registry.join(&mut one, two);
    one
}

/// An empty registry and its pass.
fn new_registry(alloc: Global) -> Option<(VtBtree<5>, TreePass<5>)>
    ensures { IfSome result (λ made. IsPassOf made.0 made.1 × IsWhole made.1) }
{
    VtBtree::new(alloc).ok()
}

/// Inserts all tables into a new registry, and says how many it has.
fn insert_new<H: Threads + Wait + Sync>(
    rt: &H,
    alloc: Global,
    tables: &[WordTable],
    threads: u64,
) -> Option<u64> {
    let len = tables.len() as u64;
    let (registry, pass) = new_registry(alloc)?;
    match threads {
        1 => Some(insert_share(rt, alloc, &registry, pass, tables, 0, 1, len).seen()),
        4 => Some(insert_in_four(rt, alloc, &registry, pass, tables, len / 4).seen()),
        _ => None,
    }
}

/// Inserts known tables, and says how many the registry has.
fn insert_known<H: Threads + Wait + Sync>(
    rt: &H,
    alloc: Global,
    tables: &[WordTable],
    threads: u64,
    count: u64,
) -> Option<u64> {
    let len = tables.len() as u64;
    let (registry, mut pass) = new_registry(alloc)?;
    let filling = registry.split(&mut pass, 1);
    let filled = insert_share(rt, alloc, &registry, filling, tables, 0, 1, len);
    registry.join(&mut pass, filled);
    match threads {
        1 => Some(insert_share(rt, alloc, &registry, pass, tables, 0, 1, count).seen()),
        4 => Some(insert_in_four(rt, alloc, &registry, pass, tables, count).seen()),
        _ => None,
    }
}

/// Carries an order out, and says how many tables the last registry has. `None` at other numbers than an order may have.
pub(crate) fn carry_out<H: Threads + Wait + Sync>(
    rt: &H,
    alloc: Global,
    tables: &[WordTable],
    order: Order,
) -> Option<u64> {
    match order.work {
        Work::Known => insert_known(rt, alloc, tables, order.threads, order.count),
        Work::New => {
            let mut had = Some(0);
            for _ in 0..order.count {
                had = insert_new(rt, alloc, tables, order.threads);
            }
            had
        }
    }
}
