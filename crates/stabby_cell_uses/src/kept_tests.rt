//! Two threads at one shared number that keeps its last 16 values.
ghost use Rattle.std.specs.Prelude.{◌<◌};
ghost use Rattle.std.specs.Thread.{IsSync};
ghost use Rattle.stabby_cell.specs.Passes.{weight_of};
ghost use Rattle.stabby_cell.specs.Shared.{IsPassOf};

use crate::{store_in_two_threads, store_number};
use stabby_cell::{ArcPass, AtomicArc, Kept};
use std::alloc::Global;
use std::sync::Wait;
use std::test::Fail;
use std::thread::{Threads, join};

/// A number that was stored, and its stamp.
#[derive(Clone, Copy)]
struct Store {
    stamp: u64,
    number: u64,
}

/// Whether that is the answer for the store where the newest stamp is `now`.
fn is_answer(answer: &Kept<u64>, store: Store, now: u64) -> bool {
    let oldest = now.saturating_add(1).saturating_sub(16);
    match answer {
        Kept::Version(None) => false,
        Kept::Version(Some(value)) => oldest <= store.stamp && **value == store.number,
        Kept::NotKept {
            oldest: least,
            stamp,
        } => store.stamp < oldest && *least == oldest && *stamp == now,
    }
}

fn answers<H: Wait>(rt: &H, cell: &AtomicArc<u64>, pass: &mut ArcPass<u64>, store: Store) -> bool
    requires { IsPassOf cell.now pass.old }
    ensures { IsPassOf cell.now pass.new }
{
    match cell.load_at(rt, pass, store.stamp) {
        Err(_) => false,
        Ok(answer) => is_answer(&answer, store, pass.seen()),
    }
}

fn each_answers<H: Wait>(
    rt: &H,
    cell: &AtomicArc<u64>,
    pass: &mut ArcPass<u64>,
    stores: &[Store],
) -> bool
    requires { IsPassOf cell.now pass.old }
    ensures { IsPassOf cell.now pass.new }
{
    let mut all = true;
    for store in stores {
        all &= answers(rt, cell, pass, *store);
    }
    all
}

fn store_and_read_back<H: Wait>(
    rt: &H,
    alloc: Global,
    cell: &AtomicArc<u64>,
    pass: &mut ArcPass<u64>,
    stores: &mut Vec<Store>,
    number: u64,
) -> bool
    requires { IsPassOf cell.now pass.old }
    ensures { IsPassOf cell.now pass.new }
{
    let Some(stamp) = store_number(rt, alloc, cell, pass, number) else {
        return false;
    };
    stores.push(Store { stamp, number }).is_ok() && each_answers(rt, cell, pass, stores.as_slice())
}

fn store_and_read_many<H: Wait>(
    rt: &H,
    alloc: Global,
    cell: &AtomicArc<u64>,
    mut pass: ArcPass<u64>,
    first: u64,
) -> (ArcPass<u64>, bool)
    requires { IsPassOf cell.now pass }
    ensures { IsPassOf cell.now result.0 }
{
    let mut stores = Vec::new(alloc);
    let mut all = true;
    for round in 0..50u64 {
        let number = first.wrapping_add(round);
        all &= store_and_read_back(rt, alloc, cell, &mut pass, &mut stores, number);
    }
    (pass, all)
}

fn read_back_in_two_threads<H: Threads + Wait + Sync>(
    rt: &H,
    alloc: Global,
    cell: &AtomicArc<u64>,
    mut pass: ArcPass<u64>,
) -> (ArcPass<u64>, bool)
    requires { IsPassOf cell.now pass × (1 < weight_of pass) }
    ensures { IsPassOf cell.now result.0 }
{
    let other = cell.split(&mut pass, 1);
    let (first, second) = join(
        rt,
        || -> (ArcPass<u64>, bool)
            requires { IsSync H.row × IsPassOf cell.now pass }
            ensures { IsPassOf cell.entry.now result.0 }
        { store_and_read_many(rt, alloc, cell, pass, 0) },
        || -> (ArcPass<u64>, bool)
            requires { IsSync H.row × IsPassOf cell.now other }
            ensures { IsPassOf cell.entry.now result.0 }
        { store_and_read_many(rt, alloc, cell, other, 1_000) },
    );
    let (mut whole, all) = first;
    let (part, others) = second;
    cell.join(&mut whole, part);
    (whole, all && others)
}

#[test]
fn two_threads_read_what_is_kept(rt: HostRuntime) -> Result<(), Fail> {
    let alloc = rt.alloc();
    let Ok((cell, pass)) = AtomicArc::<u64>::new_keeping(alloc, None, 16) else {
        return Err("no memory")?;
    };
    let (pass, all) = read_back_in_two_threads(&rt, alloc, &cell, pass);
    assert!(rt; all);
    assert!(rt; (pass.seen(), pass.added()) == (100, 100));
    Ok(())
}

#[test]
fn two_threads_store(rt: HostRuntime) -> Result<(), Fail> {
    let alloc = rt.alloc();
    let Ok((cell, pass)) = AtomicArc::<u64>::new(alloc, None) else {
        return Err("no memory")?;
    };
    let pass = store_in_two_threads(&rt, alloc, &cell, pass, 1, 2, 100);
    assert!(rt; (pass.seen(), pass.is_whole()) == (200, true));
    Ok(())
}
