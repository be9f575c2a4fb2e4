//! Three threads that read, and none or one that writes meanwhile.
ghost use Rattle.std.specs.Prelude.{◌<◌};
ghost use Rattle.std.specs.Thread.{IsSync};
ghost use Rattle.stabby_cell.specs.Passes.{weight_of};
ghost use Rattle.stabby_index.specs.Passes.{IsPassOf};

use crate::fill::{filled, put_of};
use stabby_index::{Index, IndexPass};
use std::alloc::Global;
use std::marker::Sync;
use std::sync::Wait;
use std::sync::atomic::{AtomicU64, Ordering};
use std::thread::{Threads, join};

// How many threads read.
const READERS: u64 = 3;

fn finds<H: Wait>(rt: &H, index: &Index, pass: &mut IndexPass, key: u64) -> bool
    requires { IsPassOf index.now pass.old }
    ensures { IsPassOf index.now pass.new }
{
    match index.now(rt, pass) {
        Ok((view, _)) => view.get(key).is_some(),
        Err(_) => false,
    }
}

// So many reads, each of the newest version and a row of it: the pass, and how often the row was there.
fn read_many<H: Wait>(
    rt: &H,
    index: &Index,
    mut pass: IndexPass,
    done: &AtomicU64,
    rows: u64,
    count: u64,
) -> (IndexPass, u64)
    requires { IsPassOf index.now pass }
    ensures { IsPassOf index.now result.0 }
{
    let mut found = 0u64;
    for i in 0..count {
        let key = i.wrapping_mul(7919).checked_rem(rows).unwrap_or(0);
        if finds(rt, index, &mut pass, key) {
            found = found.wrapping_add(1);
        }
    }
    done.fetch_add(1, Ordering::SeqCst);
    (pass, found)
}

fn write_one<H: Wait>(rt: &H, alloc: Global, index: &Index, pass: &mut IndexPass, key: u64)
    requires { IsPassOf index.now pass.old }
    ensures { IsPassOf index.now pass.new }
{
    if let Ok(change) = put_of(alloc, key, 1000) {
        let _ = index.apply(rt, alloc, pass, &[change], None);
    }
}

// Commits one row after another until all readers are done.
fn write_on<H: Wait>(
    rt: &H,
    alloc: Global,
    index: &Index,
    mut pass: IndexPass,
    done: &AtomicU64,
    rows: u64,
) -> IndexPass
    requires { IsPassOf index.now pass }
    ensures { IsPassOf index.now result }
{
    for i in 0..u64::MAX {
        if done.load(Ordering::SeqCst) >= READERS {
            break;
        }
        let key = i.wrapping_mul(104729).checked_rem(rows).unwrap_or(0);
        write_one(rt, alloc, index, &mut pass, key);
    }
    pass
}

fn two_readers<H: Threads + Wait + Sync>(
    rt: &H,
    index: &Index,
    mut pass: IndexPass,
    done: &AtomicU64,
    rows: u64,
    count: u64,
) -> (IndexPass, u64)
    requires { IsPassOf index.now pass × (1 < weight_of pass) }
    ensures { IsPassOf index.now result.0 }
{
    let other = index.split(&mut pass, 1);
    let ((mut first, one), (second, two)) = join(
        rt,
        || -> (IndexPass, u64)
            requires { IsSync H.row × IsPassOf index.now pass }
            ensures { IsPassOf index.entry.now result.0 }
        { read_many(rt, index, pass, done, rows, count) },
        || -> (IndexPass, u64)
            requires { IsSync H.row × IsPassOf index.now other }
            ensures { IsPassOf index.entry.now result.0 }
        { read_many(rt, index, other, done, rows, count) },
    );
    index.join(&mut first, second);
    (first, one.wrapping_add(two))
}

fn reader_and_writer<H: Threads + Wait + Sync>(
    rt: &H,
    alloc: Global,
    index: &Index,
    mut pass: IndexPass,
    done: &AtomicU64,
    rows: u64,
    count: u64,
) -> (IndexPass, u64)
    requires { IsPassOf index.now pass × (1 < weight_of pass) }
    ensures { IsPassOf index.now result.0 }
{
    let other = index.split(&mut pass, 1);
    let ((mut first, found), second) = join(
        rt,
        || -> (IndexPass, u64)
            requires { IsSync H.row × IsPassOf index.now pass }
            ensures { IsPassOf index.entry.now result.0 }
        { read_many(rt, index, pass, done, rows, count) },
        || -> IndexPass
            requires { IsSync H.row × IsPassOf index.now other }
            ensures { IsPassOf index.entry.now result }
        { write_on(rt, alloc, index, other, done, rows) },
    );
    index.join(&mut first, second);
    (first, found)
}

// The third reader, with a writer or without.
fn third<H: Threads + Wait + Sync>(
    rt: &H,
    alloc: Global,
    index: &Index,
    pass: IndexPass,
    done: &AtomicU64,
    rows: u64,
    writers: u64,
    count: u64,
) -> (IndexPass, u64)
    requires { IsPassOf index.now pass × (1 < weight_of pass) }
    ensures { IsPassOf index.now result.0 }
{
    if writers == 0 {
        read_many(rt, index, pass, done, rows, count)
    } else {
        reader_and_writer(rt, alloc, index, pass, done, rows, count)
    }
}

fn all_threads<H: Threads + Wait + Sync>(
    rt: &H,
    alloc: Global,
    index: &Index,
    mut pass: IndexPass,
    done: &AtomicU64,
    rows: u64,
    writers: u64,
    count: u64,
) -> u64
    requires { IsPassOf index.now pass × (3 < weight_of pass) }
{
    let other = index.split(&mut pass, 2);
    let ((mut first, one), (second, two)) = join(
        rt,
        || -> (IndexPass, u64)
            requires { IsSync H.row × IsPassOf index.now pass × (1 < weight_of pass) }
            ensures { IsPassOf index.entry.now result.0 }
        { two_readers(rt, index, pass, done, rows, count) },
        || -> (IndexPass, u64)
            requires { IsSync H.row × IsPassOf index.now other × (1 < weight_of other) }
            ensures { IsPassOf index.entry.now result.0 }
        { third(rt, alloc, index, other, done, rows, writers, count) },
    );
    index.join(&mut first, second);
    one.wrapping_add(two)
}

/// So many reads in each of three threads, while another commits where `writers` isn't 0: how often the row was there.
pub(crate) fn read_in_threads<H: Threads + Wait + Sync>(
    rt: &H,
    alloc: Global,
    rows: u64,
    writers: u64,
    count: u64,
) -> Option<u64> {
    let (index, pass) = filled(rt, alloc, rows, 1000)?;
    if !pass.is_whole() {
        return None;
    }
    let done = AtomicU64::new(0);
    Some(all_threads(rt, alloc, &index, pass, &done, rows, writers, count))
}
