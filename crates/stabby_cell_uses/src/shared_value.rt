//! Two threads at one shared number.
ghost use Rattle.std.specs.Prelude.{◌≡◌, ◌<◌, []};
ghost use mathlib.Core.List.{IsPrefix};
ghost use Rattle.std.specs.Thread.{IsSync};
ghost use Rattle.stabby_cell.specs.Passes.{IsWhole, front_of, commits_of, weight_of};
ghost use Rattle.stabby_cell.specs.Shared.{IsPassOf};
ghost use Rattle.stabby_cell_uses.specs.Stores.{StoresNumber, StoredOnly, HoldsOnly};

use stabby_cell::{ArcPass, AtomicArc};
use std::alloc::Global;
use std::sync::{Arc, Wait};
use std::thread::{Threads, join};

/// Stores the number, and answers its stamp. `None` where there is no memory for a handle of it, or no further stamp.
pub fn store_number<H: Wait>(
    rt: &H,
    alloc: Global,
    cell: &AtomicArc<u64>,
    pass: &mut ArcPass<u64>,
    number: u64,
) -> Option<u64>
    requires { IsPassOf cell.now pass.old }
    ensures pass { IsPassOf cell.now pass.new }
    ensures stored { StoresNumber pass.old pass.new number result }
{
    let Ok(handle) = Arc::new(alloc, number) else {
        return None;
    };
    match cell.store(rt, pass, Some(handle)) {
        Ok(stamp) => Some(stamp),
        Err(_) => None,
    }
}

// Stores the number, and reads the value now by its stamp.
fn store_one<H: Wait>(
    rt: &H,
    alloc: Global,
    cell: &AtomicArc<u64>,
    pass: &mut ArcPass<u64>,
    number: u64,
)
    requires own { IsPassOf cell.now pass.old }
    requires stored { StoredOnly number pass.old }
    ensures pass { IsPassOf cell.now pass.new }
    ensures stored { StoredOnly number pass.new }
    ensures weight { weight_of pass.new ≡ weight_of pass.old }
    ensures front { IsPrefix (front_of pass.old) (front_of pass.new) }
{
    let _ = store_number(rt, alloc, cell, pass, number);
    let stamp = pass.seen();
    let _ = cell.load_at(rt, pass, stamp);
}

fn store_many<H: Wait>(
    rt: &H,
    alloc: Global,
    cell: &AtomicArc<u64>,
    mut pass: ArcPass<u64>,
    number: u64,
    count: u64,
) -> ArcPass<u64>
    requires own { IsPassOf cell.now pass }
    requires stored { StoredOnly number pass }
    ensures pass { IsPassOf cell.now result }
    ensures stored { StoredOnly number result }
    ensures weight { weight_of result ≡ weight_of pass }
    ensures front { IsPrefix (front_of pass) (front_of result) }
{
    for _ in 0..count {
        store_one(rt, alloc, cell, &mut pass, number);
    }
    pass
}

/// Cuts the pass in two, lets two threads store one number each, `count` times, and joins the passes again. Where the pass
/// was whole and new, the whole history is known: each of its entries is one of the two numbers.
pub fn store_in_two_threads<H: Threads + Wait + Sync>(
    rt: &H,
    alloc: Global,
    cell: &AtomicArc<u64>,
    mut pass: ArcPass<u64>,
    first: u64,
    second: u64,
    count: u64,
) -> ArcPass<u64>
    requires own { IsPassOf cell.now pass }
    requires heavy { 1 < weight_of pass }
    requires fresh { commits_of pass ≡ [] }
    ensures pass { IsPassOf cell.now result }
    ensures weight { weight_of result ≡ weight_of pass }
    ensures front { IsPrefix (front_of pass) (front_of result) }
    ensures history { IsWhole pass → HoldsOnly first second (front_of result) }
{
    let other = cell.split(&mut pass, 1);
    let (mut one, two) = join(
        rt,
        || -> ArcPass<u64>
            requires { IsSync H.row × IsPassOf cell.now pass × StoredOnly first pass }
            ensures pass { IsPassOf cell.entry.now result }
            ensures stored { StoredOnly first result }
            ensures weight { weight_of result ≡ weight_of pass }
            ensures front { IsPrefix (front_of pass) (front_of result) }
        { store_many(rt, alloc, cell, pass, first, count) },
        || -> ArcPass<u64>
            requires { IsSync H.row × IsPassOf cell.now other × StoredOnly second other }
            ensures pass { IsPassOf cell.entry.now result }
            ensures stored { StoredOnly second result }
            ensures weight { weight_of result ≡ weight_of other }
            ensures front { IsPrefix (front_of other) (front_of result) }
        { store_many(rt, alloc, cell, other, second, count) },
    );
    cell.join(&mut one, two);
    one
}
