//! Two threads at one cell.
ghost use Rattle.std.specs.Prelude.{◌≡◌, ◌+◌, ◌<◌, [], ◌∷◌, ◌++◌, IfOk, IfErr};
ghost use mathlib.Core.List.{IsPrefix};
ghost use Rattle.std.specs.Thread.{IsSync};
ghost use Rattle.stabby_cell.specs.Passes.{IsPassOf, KnowsAll, front_of, weight_of};

use crate::counter::Counter;
use crate::one_thread::{add_one, read};
use stabby_cell::{AllocationError, Pass, TurnCell};
use std::alloc::Global;
use std::sync::Wait;
use std::thread::{Threads, join};

fn add_many<H: Wait>(
    rt: &H,
    cell: &TurnCell<Counter>,
    mut pass: Pass<Counter>,
    count: u64,
) -> Pass<Counter>
    requires { IsPassOf cell.now pass }
    ensures pass { IsPassOf cell.now result }
    ensures weight { weight_of result ≡ weight_of pass }
    ensures front { IsPrefix (front_of pass) (front_of result) }
{
    for _ in 0..count {
        let _ = add_one(rt, cell, &mut pass);
    }
    pass
}

/// Cuts the pass in two, lets two threads add one `count` times each, and joins the passes again.
pub fn add_in_two_threads<H: Threads + Wait + Sync>(
    rt: &H,
    cell: &TurnCell<Counter>,
    mut pass: Pass<Counter>,
    count: u64,
) -> Pass<Counter>
    requires own { IsPassOf cell.now pass }
    requires heavy { 1 < weight_of pass }
    ensures pass { IsPassOf cell.now result }
    ensures knows { KnowsAll result }
    ensures weight { weight_of result ≡ weight_of pass }
    ensures front { IsPrefix (front_of pass) (front_of result) }
{
    let other = cell.split(&mut pass, 1);
    let (mut first, second) = join(
        rt,
        || -> Pass<Counter>
            requires { IsSync H.row × IsPassOf cell.now pass }
            ensures pass { IsPassOf cell.entry.now result }
            ensures weight { weight_of result ≡ weight_of pass }
            ensures front { IsPrefix (front_of pass) (front_of result) }
        { add_many(rt, cell, pass, count) },
        || -> Pass<Counter>
            requires { IsSync H.row × IsPassOf cell.now other }
            ensures pass { IsPassOf cell.entry.now result }
            ensures weight { weight_of result ≡ weight_of other }
            ensures front { IsPrefix (front_of other) (front_of result) }
        { add_many(rt, cell, other, count) },
    );
    cell.join(&mut first, second);
    first
}

/// What two threads counted.
#[derive(Drop)]
pub struct Tally {
    /// The number that the last version shows.
    pub number: u64,
    /// How many commits the two made.
    pub added: u64,
}

/// Counts in two threads from 0, and answers the last number and how often one was added. They are equal: the joined pass
/// is whole, so there was no other commit.
///
/// # Errors
///
/// `AllocationError::Memory` where there is no memory for the cell.
pub fn count_in_two_threads<H: Threads + Wait + Sync>(
    rt: &H,
    alloc: Global,
    count: u64,
) -> Result<Tally, AllocationError>
    ensures all { IfOk result (λ tally. tally.number ≡ tally.added) }
    ensures memory { IfErr result (λ error. error ≡ AllocationError.Memory) }
{
    match TurnCell::new(alloc, Counter { number: 0 }, 0) {
        Err((_, error)) => Err(error),
        Ok((cell, pass)) => {
            let mut pass = add_in_two_threads(rt, &cell, pass, count);
            let number = read(rt, &cell, &mut pass);
            Ok(Tally {
                number,
                added: pass.added(),
            })
        }
    }
}
