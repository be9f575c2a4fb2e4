//! Two callers of one registry, on two threads.

ghost use Rattle.std.specs.Prelude.{◌≡◌, IfOk};
ghost use Rattle.std.specs.Thread.{IsSync};
ghost use mathlib.Core.List.{IsPrefix};
ghost use Rattle.stabby_registry.specs.Passes.{IsPassOf, IsWhole, front_of, weight_of};
ghost use Rattle.stabby_registry.specs.Inserts.{IsNumber};

use stabby_registry::{RegistryFault, TreePass, VTableRegistry, VtBtree, WordTable};
use std::alloc::Global;
use std::marker::Sync;
use std::sync::Wait;
use std::thread::{Threads, join};

/// The numbers of two tables, each inserted on a thread of its own, and the joined pass, which knows both.
#[derive(Drop)]
pub struct Two {
    pub pass: TreePass<5>,
    pub first: u64,
    pub second: u64,
}

/// Makes a registry, lets two threads insert one table each, and joins their passes. Where the numbers are equal the
/// tables are.
///
/// # Errors
/// As `insert`, of whichever thread.
pub fn number_both<H: Threads + Wait + Sync>(
    rt: &H,
    alloc: Global,
    first: &WordTable,
    second: &WordTable,
) -> Result<Two, RegistryFault>
    ensures first { IfOk result (λ two. IsNumber (front_of two.pass) first.now two.first) }
    ensures second { IfOk result (λ two. IsNumber (front_of two.pass) second.now two.second) }
    ensures one_table { IfOk result (λ two. two.first ≡ two.second → first.now ≡ second.now) }
    ensures whole { IfOk result (λ two. IsWhole two.pass) }
{
    let (registry, mut mine) = VtBtree::<5>::new(alloc)?;
    let other = registry.split(&mut mine, 1);
    let ((one, mut mine), (two, other)) = join(
        rt,
        || -> (Result<u64, RegistryFault>, TreePass<5>)
            requires { IsSync H.row × IsPassOf registry mine }
            ensures pass { IsPassOf registry result.1 }
            ensures number { IfOk result.0 (IsNumber (front_of result.1) first.entry.now) }
            ensures weight { weight_of result.1 ≡ weight_of mine }
        {
            let mut pass = mine;
            let number = registry.insert(rt, alloc, &mut pass, first);
            (number, pass)
        },
        || -> (Result<u64, RegistryFault>, TreePass<5>)
            requires { IsSync H.row × IsPassOf registry other }
            ensures pass { IsPassOf registry result.1 }
            ensures number { IfOk result.0 (IsNumber (front_of result.1) second.entry.now) }
            ensures weight { weight_of result.1 ≡ weight_of other }
        {
            let mut pass = other;
            let number = registry.insert(rt, alloc, &mut pass, second);
            (number, pass)
        },
    );
    registry.join(&mut mine, other);
    let first = one?;
    let second = two?;
    Ok(Two {
        pass: mine,
        first,
        second,
    })
}
