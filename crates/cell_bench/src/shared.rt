//! Loads and stores of a shared value.
ghost use Rattle.std.specs.Prelude.{◌<◌};
ghost use Rattle.std.specs.Thread.{IsSync};
ghost use Rattle.stabby_cell.specs.Passes.{weight_of};
ghost use Rattle.stabby_cell.specs.Shared.{IsPassOf};

use stabby_cell::{ArcPass, AtomicArc};
use stabby_cell_uses::store_number;
use std::alloc::Global;
use std::sync::{Arc, Wait};
use std::thread::{Threads, join};

/// What each thread does.
#[derive(Clone, Copy)]
pub(crate) enum Work {
    Load,
    Store,
}

fn load_many<H: Wait>(
    rt: &H,
    cell: &AtomicArc<u64>,
    mut pass: ArcPass<u64>,
    count: u64,
) -> ArcPass<u64>
    requires { IsPassOf cell.now pass }
    ensures { IsPassOf cell.now result }
{
    for _ in 0..count {
        let _ = cell.load(rt, &mut pass);
    }
    pass
}

fn store_many<H: Wait>(
    rt: &H,
    alloc: Global,
    cell: &AtomicArc<u64>,
    mut pass: ArcPass<u64>,
    count: u64,
) -> ArcPass<u64>
    requires { IsPassOf cell.now pass }
    ensures { IsPassOf cell.now result }
{
    for number in 0..count {
        let _ = store_number(rt, alloc, cell, &mut pass, number);
    }
    pass
}

fn work_on<H: Wait>(
    rt: &H,
    alloc: Global,
    cell: &AtomicArc<u64>,
    pass: ArcPass<u64>,
    work: Work,
    count: u64,
) -> ArcPass<u64>
    requires { IsPassOf cell.now pass }
    ensures { IsPassOf cell.now result }
{
    match work {
        Work::Load => load_many(rt, cell, pass, count),
        Work::Store => store_many(rt, alloc, cell, pass, count),
    }
}

fn work_in_two<H: Threads + Wait + Sync>(
    rt: &H,
    alloc: Global,
    cell: &AtomicArc<u64>,
    mut pass: ArcPass<u64>,
    work: Work,
    count: u64,
) -> ArcPass<u64>
    requires { IsPassOf cell.now pass × (1 < weight_of pass) }
    ensures { IsPassOf cell.now result }
{
    let other = cell.split(&mut pass, 1);
    let (mut first, second) = join(
        rt,
        || -> ArcPass<u64>
            requires { IsSync H.row × IsPassOf cell.now pass }
            ensures { IsPassOf cell.entry.now result }
        { work_on(rt, alloc, cell, pass, work, count) },
        || -> ArcPass<u64>
            requires { IsSync H.row × IsPassOf cell.now other }
            ensures { IsPassOf cell.entry.now result }
        { work_on(rt, alloc, cell, other, work, count) },
    );
    cell.join(&mut first, second);
    first
}

fn work_in_four<H: Threads + Wait + Sync>(
    rt: &H,
    alloc: Global,
    cell: &AtomicArc<u64>,
    mut pass: ArcPass<u64>,
    work: Work,
    count: u64,
) -> ArcPass<u64>
    requires { IsPassOf cell.now pass × (3 < weight_of pass) }
    ensures { IsPassOf cell.now result }
{
    let other = cell.split(&mut pass, 2);
    let (mut first, second) = join(
        rt,
        || -> ArcPass<u64>
            requires { IsSync H.row × IsPassOf cell.now pass × (1 < weight_of pass) }
            ensures { IsPassOf cell.entry.now result }
        { work_in_two(rt, alloc, cell, pass, work, count) },
        || -> ArcPass<u64>
            requires { IsSync H.row × IsPassOf cell.now other × (1 < weight_of other) }
            ensures { IsPassOf cell.entry.now result }
        { work_in_two(rt, alloc, cell, other, work, count) },
    );
    cell.join(&mut first, second);
    first
}

/// The stamp that a shared value reaches where one or four threads work on it. `None` at other numbers.
pub(crate) fn work_in_threads<H: Threads + Wait + Sync>(
    rt: &H,
    alloc: Global,
    work: Work,
    threads: u64,
    count: u64,
) -> Option<u64> {
    let Ok(value) = Arc::new(alloc, 0u64) else {
        return None;
    };
    let Ok((cell, pass)) = AtomicArc::new(alloc, Some(value)) else {
        return None;
    };
    match threads {
        1 => Some(work_on(rt, alloc, &cell, pass, work, count).seen()),
        4 => Some(work_in_four(rt, alloc, &cell, pass, work, count).seen()),
        _ => None,
    }
}
