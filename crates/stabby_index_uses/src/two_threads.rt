//! Two threads at one index.
ghost use Rattle.std.specs.Prelude.{◌≡◌, ◌<◌, ◌≤◌};
ghost use mathlib.Core.List.{IsPrefix};
ghost use Rattle.std.specs.Thread.{IsSync};
ghost use Rattle.stabby_cell.specs.Passes.{weight_of, front_of};
ghost use Rattle.stabby_index.specs.Passes.{IsPassOf};

use stabby_index::{AllocationError, Change, Index, IndexPass, Row, Text};
use std::alloc::Global;
use std::sync::Wait;
use std::thread::{Threads, join};

fn put_of(alloc: Global, key: u64) -> Result<Change, AllocationError> {
    Ok(Change::Put(Row {
        key,
        group: 7,
        text: Text::from_str(alloc, "x")?,
    }))
}

// Commits a row of this key, if there is memory.
fn put_key<H: Wait>(rt: &H, alloc: Global, index: &Index, pass: &mut IndexPass, key: u64)
    requires { IsPassOf index.now pass.old }
    ensures pass { IsPassOf index.now pass.new }
    ensures weight { weight_of pass.new ≡ weight_of pass.old }
    ensures front { IsPrefix (front_of pass.old) (front_of pass.new) }
{
    if let Ok(change) = put_of(alloc, key) {
        let _ = index.apply(rt, alloc, pass, &[change], None);
    }
}

// Commits a row of each second key below 100, from the first on.
fn put_keys<H: Wait>(
    rt: &H,
    alloc: Global,
    index: &Index,
    mut pass: IndexPass,
    first: u64,
) -> IndexPass
    requires own { IsPassOf index.now pass }
    requires small { first ≤ 1 }
    ensures pass { IsPassOf index.now result }
    ensures weight { weight_of result ≡ weight_of pass }
    ensures front { IsPrefix (front_of pass) (front_of result) }
{
    for i in 0..50u64 {
        put_key(rt, alloc, index, &mut pass, first + 2 * i);
    }
    pass
}

/// Lets one thread put the even keys below 100, each in a commit of its own, and another the odd ones, and joins the two
/// threads' passes.
pub fn put_in_two_threads<H: Threads + Wait + Sync>(
    rt: &H,
    alloc: Global,
    index: &Index,
    mut pass: IndexPass,
) -> IndexPass
    requires own { IsPassOf index.now pass }
    requires heavy { 1 < weight_of pass }
    ensures pass { IsPassOf index.now result }
    ensures weight { weight_of result ≡ weight_of pass }
    ensures front { IsPrefix (front_of pass) (front_of result) }
{
    let other = index.split(&mut pass, 1);
    let (mut first, second) = join(
        rt,
        || -> IndexPass
            requires { IsSync H.row × IsPassOf index.now pass }
            ensures pass { IsPassOf index.entry.now result }
            ensures weight { weight_of result ≡ weight_of pass }
            ensures front { IsPrefix (front_of pass) (front_of result) }
        { put_keys(rt, alloc, index, pass, 0) },
        || -> IndexPass
            requires { IsSync H.row × IsPassOf index.now other }
            ensures pass { IsPassOf index.entry.now result }
            ensures weight { weight_of result ≡ weight_of other }
            ensures front { IsPrefix (front_of other) (front_of result) }
        { put_keys(rt, alloc, index, other, 1) },
    );
    index.join(&mut first, second);
    first
}
