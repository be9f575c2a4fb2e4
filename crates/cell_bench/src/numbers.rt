//! Commits to a cell of numbers.
ghost use Rattle.stabby_cell.specs.Passes.{IsPassOf};

use stabby_cell::{Pass, TurnCell};
use stabby_cell_uses::{Counter, add_one};
use std::alloc::Global;
use std::sync::Wait;

/// Adds one so many times, each time under a turn of its own.
fn add_times<H: Wait>(rt: &H, cell: &TurnCell<Counter>, pass: &mut Pass<Counter>, count: u64)
    requires { IsPassOf cell.now pass.old }
    ensures pass { IsPassOf cell.now pass.new }
{
    for _ in 0..count {
        let _ = add_one(rt, cell, pass);
    }
}

/// The stamp that a cell reaches by so many commits. `None` where it can't keep so many versions.
pub(crate) fn commit<H: Wait>(rt: &H, alloc: Global, keep: usize, count: u64) -> Option<u64> {
    if keep < 1 || keep > 1024 {
        return None;
    }
    match TurnCell::new_keeping(alloc, Counter { number: 0 }, 0, keep) {
        Err(_) => None,
        Ok((cell, mut pass)) => {
            add_times(rt, &cell, &mut pass, count);
            Some(pass.seen())
        }
    }
}
